//! The names of options, in groups.
ghost use Rattle.std.specs.Prelude.{◌≡◌};
ghost use Rattle.rule_parser.specs.Contents.{is_relative};
ghost use Rattle.rule_parser.specs.OptionNames.{text_name, modifier_name, payload_name, session_name, ip_field, body_field, has_outside_front, is_outside_payload, is_outside_action, is_outside_other, is_outside};
ghost use Rattle.rule_parser.specs.RuleOption.{option_name};

use crate::Field;
use crate::word::is;

/// The name of an option.
#[derive(Clone, Copy)]
pub(crate) enum Name {
    Text(TextName),
    Modifier(Modifier),
    Payload(PayloadName),
    Session(SessionName),
    Flowbits,
    Field(Field),
}

/// What a rule says of itself.
#[derive(Clone, Copy, PartialEq, Eq)]
pub(crate) enum TextName {
    Msg,
    Gid,
    Sid,
    Rev,
    Priority,
    Classtype,
    /// The option says nothing that this detector uses.
    Ignored,
}

impl TextName {
    #[tactic(auto, unfolding(crate::specs::OptionNames::text_name))]
    fn read(name: &[u8]) -> Option<TextName>
        ensures { result ≡ text_name name.now }
    {
        if is(name, b"msg") {
            Some(TextName::Msg)
        } else if is(name, b"gid") {
            Some(TextName::Gid)
        } else if is(name, b"sid") {
            Some(TextName::Sid)
        } else if is(name, b"rev") {
            Some(TextName::Rev)
        } else if is(name, b"priority") {
            Some(TextName::Priority)
        } else if is(name, b"classtype") {
            Some(TextName::Classtype)
        } else if is(name, b"reference") || is(name, b"metadata") {
            Some(TextName::Ignored)
        } else {
            None
        }
    }
}

/// What modifies the last content.
#[derive(Clone, Copy)]
pub(crate) enum Modifier {
    Nocase,
    Rawbytes,
    Offset,
    Depth,
    Distance,
    Within,
    FastPattern,
}

impl Modifier {
    #[tactic(auto, unfolding(crate::specs::OptionNames::modifier_name))]
    fn read(name: &[u8]) -> Option<Modifier>
        ensures { result ≡ modifier_name name.now }
    {
        if is(name, b"nocase") {
            Some(Modifier::Nocase)
        } else if is(name, b"rawbytes") {
            Some(Modifier::Rawbytes)
        } else if is(name, b"offset") {
            Some(Modifier::Offset)
        } else if is(name, b"depth") {
            Some(Modifier::Depth)
        } else if is(name, b"distance") {
            Some(Modifier::Distance)
        } else if is(name, b"within") {
            Some(Modifier::Within)
        } else if is(name, b"fast_pattern") {
            Some(Modifier::FastPattern)
        } else {
            None
        }
    }

    /// Whether it counts from the match before.
    pub(crate) fn is_relative(self) -> bool
        ensures { result ≡ is_relative self }
    {
        matches!(self, Modifier::Distance | Modifier::Within)
    }
}

/// What is asked of the payload.
#[derive(Clone, Copy)]
pub(crate) enum PayloadName {
    Content,
    Pcre,
    ByteTest,
    ByteJump,
    ByteExtract,
    IsDataAt,
}

impl PayloadName {
    #[tactic(auto, unfolding(crate::specs::OptionNames::payload_name))]
    fn read(name: &[u8]) -> Option<PayloadName>
        ensures { result ≡ payload_name name.now }
    {
        if is(name, b"content") {
            Some(PayloadName::Content)
        } else if is(name, b"pcre") {
            Some(PayloadName::Pcre)
        } else if is(name, b"byte_test") {
            Some(PayloadName::ByteTest)
        } else if is(name, b"byte_jump") {
            Some(PayloadName::ByteJump)
        } else if is(name, b"byte_extract") {
            Some(PayloadName::ByteExtract)
        } else if is(name, b"isdataat") {
            Some(PayloadName::IsDataAt)
        } else {
            None
        }
    }
}

/// What is asked of a session, or of a packet as a whole.
#[derive(Clone, Copy, PartialEq, Eq)]
pub(crate) enum SessionName {
    Flow,
    Flags,
    FragBits,
    DetectionFilter,
    Dsize,
    SameIp,
    StreamSize,
    StreamReassemble,
}

impl SessionName {
    #[tactic(auto, unfolding(crate::specs::OptionNames::session_name))]
    fn read(name: &[u8]) -> Option<SessionName>
        ensures { result ≡ session_name name.now }
    {
        if is(name, b"flow") {
            Some(SessionName::Flow)
        } else if is(name, b"flags") {
            Some(SessionName::Flags)
        } else if is(name, b"fragbits") {
            Some(SessionName::FragBits)
        } else if is(name, b"detection_filter") {
            Some(SessionName::DetectionFilter)
        } else if is(name, b"dsize") {
            Some(SessionName::Dsize)
        } else if is(name, b"sameip") {
            Some(SessionName::SameIp)
        } else if is(name, b"stream_size") {
            Some(SessionName::StreamSize)
        } else if is(name, b"stream_reassemble") {
            Some(SessionName::StreamReassemble)
        } else {
            None
        }
    }
}

/// The fields of an IP header.
#[tactic(auto, unfolding(crate::specs::OptionNames::ip_field))]
fn ip_field(name: &[u8]) -> Option<Field>
    ensures { result ≡ ip_field name.now }
{
    if is(name, b"ttl") {
        Some(Field::Ttl)
    } else if is(name, b"tos") {
        Some(Field::Tos)
    } else if is(name, b"id") {
        Some(Field::Id)
    } else if is(name, b"fragoffset") {
        Some(Field::FragOffset)
    } else if is(name, b"ip_proto") {
        Some(Field::IpProto)
    } else {
        None
    }
}

/// The fields of what comes after the IP header.
#[tactic(auto, unfolding(crate::specs::OptionNames::body_field))]
fn body_field(name: &[u8]) -> Option<Field>
    ensures { result ≡ body_field name.now }
{
    if is(name, b"seq") {
        Some(Field::Seq)
    } else if is(name, b"ack") {
        Some(Field::Ack)
    } else if is(name, b"window") {
        Some(Field::Window)
    } else if is(name, b"itype") {
        Some(Field::Itype)
    } else if is(name, b"icode") {
        Some(Field::Icode)
    } else if is(name, b"icmp_id") {
        Some(Field::IcmpId)
    } else if is(name, b"icmp_seq") {
        Some(Field::IcmpSeq)
    } else {
        None
    }
}

/// The beginnings of names outside the profile.
#[tactic(auto, unfolding(crate::specs::OptionNames::has_outside_front))]
fn has_outside_front(name: &[u8]) -> bool
    ensures { result ≡ has_outside_front name.now }
{
    name.starts_with(b"http_")
        || name.starts_with(b"dce_")
        || name.starts_with(b"sip_")
        || name.starts_with(b"ssl_")
        || name.starts_with(b"gtp_")
        || name.starts_with(b"modbus_")
        || name.starts_with(b"dnp3_")
        || name.starts_with(b"cip_")
}

/// Buffers and decoders outside the profile.
#[tactic(auto, unfolding(crate::specs::OptionNames::is_outside_payload))]
fn is_outside_payload(name: &[u8]) -> bool
    ensures { result ≡ is_outside_payload name.now }
{
    is(name, b"uricontent")
        || is(name, b"urilen")
        || is(name, b"file_data")
        || is(name, b"pkt_data")
        || is(name, b"base64_decode")
        || is(name, b"base64_data")
        || is(name, b"ftpbounce")
        || is(name, b"asn1")
        || is(name, b"cvs")
        || is(name, b"rpc")
        || is(name, b"ipopts")
        || is(name, b"byte_math")
}

/// What follows an alert, outside the profile.
#[tactic(auto, unfolding(crate::specs::OptionNames::is_outside_action))]
fn is_outside_action(name: &[u8]) -> bool
    ensures { result ≡ is_outside_action name.now }
{
    is(name, b"logto")
        || is(name, b"session")
        || is(name, b"resp")
        || is(name, b"react")
        || is(name, b"tag")
        || is(name, b"replace")
        || is(name, b"activates")
        || is(name, b"activated_by")
        || is(name, b"count")
        || is(name, b"threshold")
}

/// Other names outside the profile.
#[tactic(auto, unfolding(crate::specs::OptionNames::is_outside_other))]
fn is_outside_other(name: &[u8]) -> bool
    ensures { result ≡ is_outside_other name.now }
{
    is(name, b"protected_content")
        || is(name, b"hash")
        || is(name, b"length")
        || is(name, b"appid")
        || is(name, b"sd_pattern")
        || is(name, b"file_type")
        || is(name, b"file_group")
}

/// Whether a name is outside the profile.
#[tactic(auto, unfolding(crate::specs::OptionNames::is_outside))]
pub(crate) fn is_outside(name: &[u8]) -> bool
    ensures { result ≡ is_outside name.now }
{
    has_outside_front(name)
        || is_outside_payload(name)
        || is_outside_action(name)
        || is_outside_other(name)
}

impl Name {
    /// The name of an option.
    #[tactic(auto, unfolding(crate::specs::RuleOption::option_name))]
    pub(crate) fn read(word: &[u8]) -> Option<Name>
        ensures { result ≡ option_name word.now }
    {
        if is(word, b"flowbits") {
            return Some(Name::Flowbits);
        }
        if let Some(name) = TextName::read(word) {
            return Some(Name::Text(name));
        }
        if let Some(name) = Modifier::read(word) {
            return Some(Name::Modifier(name));
        }
        if let Some(name) = PayloadName::read(word) {
            return Some(Name::Payload(name));
        }
        if let Some(name) = SessionName::read(word) {
            return Some(Name::Session(name));
        }
        if let Some(field) = ip_field(word) {
            return Some(Name::Field(field));
        }
        match body_field(word) {
            Some(field) => Some(Name::Field(field)),
            None => None,
        }
    }
}
