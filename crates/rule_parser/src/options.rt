//! One option of a rule, by its name.
ghost use Rattle.std.specs.Prelude.{◌≡◌, option_copied};
ghost use Rattle.net_lists.specs.Stops.{Gives};
ghost use Rattle.rule_parser.specs.Bits.{GivesWith, Begins};
ghost use Rattle.rule_parser.specs.RuleOption.{text_option, modifier_option, payload_option, session_option, no_name, named_option, rule_option};
ghost use Rattle.rule_parser.specs.Drafts.{with_new};

use crate::bits::BitNames;
use crate::byte_options::{
    byte_extract_option, byte_jump_option, byte_test_option, isdataat_option,
};
use crate::contents::{
    content_option, fast_pattern_option, from_option, nocase_option, rawbytes_option, room_option,
};
use crate::draft::RuleDraft;
use crate::fault::Fault;
use crate::fields::{dsize_option, field_option, sameip_option};
use crate::flags::{flags_option, flow_option, fragbits_option};
use crate::flowbits::flowbits_option;
use crate::names::{Modifier, Name, PayloadName, SessionName, TextName, is_outside};
use crate::patterns::pcre_option;
use crate::periods::detection_filter_option;
use crate::steering::{stream_reassemble_option, stream_size_option};
use crate::texts::{
    classtype_option, gid_option, msg_option, priority_option, rev_option, sid_option,
};
use crate::written::written;
use conf_types::Classes;
use net_lists::Stop;
use std::alloc::Global;

/// Options by which a rule names itself.
#[tactic(auto, unfolding(crate::specs::RuleOption::text_option))]
pub(crate) fn text_option(
    alloc: Global,
    classes: &Classes,
    draft: &mut RuleDraft,
    name: TextName,
    value: Option<&[u8]>,
) -> Result<(), Stop<Fault>>
    ensures { Gives (with_new result draft.new) (text_option classes.now draft.old name (option_copied value.entry)) }
{
    if name == TextName::Ignored {
        return Ok(());
    }
    let Some(value) = value else {
        return Err(Stop::Wrong(Fault::OptionValue));
    };
    match name {
        TextName::Msg => msg_option(alloc, draft, value),
        TextName::Gid => Ok(gid_option(draft, value)?),
        TextName::Sid => Ok(sid_option(draft, value)?),
        TextName::Rev => Ok(rev_option(draft, value)?),
        TextName::Priority => Ok(priority_option(draft, value)?),
        TextName::Classtype => Ok(classtype_option(classes, draft, value)?),
        TextName::Ignored => Ok(()),
    }
}

/// Modifiers of the last content.
#[tactic(auto, unfolding(crate::specs::RuleOption::modifier_option))]
pub(crate) fn modifier_option(
    draft: &mut RuleDraft,
    name: Modifier,
    left: usize,
    value: Option<&[u8]>,
) -> Result<(), Fault>
    ensures { with_new result draft.new ≡ modifier_option draft.old name left (option_copied value.entry) }
{
    match name {
        Modifier::Nocase => nocase_option(draft, value),
        Modifier::Rawbytes => rawbytes_option(draft, value),
        Modifier::Offset | Modifier::Distance => from_option(name, draft, left, value),
        Modifier::Depth | Modifier::Within => room_option(name, draft, left, value),
        Modifier::FastPattern => fast_pattern_option(draft, value),
    }
}

/// Tests of a payload.
#[tactic(auto, unfolding(crate::specs::RuleOption::payload_option))]
pub(crate) fn payload_option(
    alloc: Global,
    draft: &mut RuleDraft,
    name: PayloadName,
    left: usize,
    value: &[u8],
) -> Result<(), Stop<Fault>>
    ensures { Gives (with_new result draft.new) (payload_option draft.old name left value.now) }
{
    match name {
        PayloadName::Content => content_option(alloc, draft, value),
        PayloadName::Pcre => pcre_option(alloc, draft, value),
        PayloadName::ByteTest => byte_test_option(draft, left, value),
        PayloadName::ByteJump => byte_jump_option(draft, left, value),
        PayloadName::ByteExtract => byte_extract_option(alloc, draft, left, value),
        PayloadName::IsDataAt => isdataat_option(draft, left, value),
    }
}

/// Tests of a session, and of a packet as a whole.
#[tactic(auto, unfolding(crate::specs::RuleOption::session_option))]
pub(crate) fn session_option(
    draft: &mut RuleDraft,
    name: SessionName,
    value: Option<&[u8]>,
) -> Result<(), Stop<Fault>>
    ensures { Gives (with_new result draft.new) (session_option draft.old name (option_copied value.entry)) }
{
    if name == SessionName::SameIp {
        return sameip_option(draft, value);
    }
    let Some(value) = value else {
        return Err(Stop::Wrong(Fault::OptionValue));
    };
    match name {
        SessionName::Flow => flow_option(draft, value),
        SessionName::Flags => flags_option(draft, value),
        SessionName::FragBits => fragbits_option(draft, value),
        SessionName::DetectionFilter => Ok(detection_filter_option(draft, value)?),
        SessionName::Dsize => dsize_option(draft, value),
        SessionName::SameIp => Ok(()),
        SessionName::StreamSize => stream_size_option(draft, value),
        SessionName::StreamReassemble => stream_reassemble_option(draft, value),
    }
}

/// What is given for a word that is no name of an option.
pub(crate) fn no_name(word: &[u8]) -> Fault
    ensures { result ≡ no_name word.now }
{
    if word.is_empty() {
        Fault::OptionSyntax
    } else if is_outside(word) {
        Fault::OutsideProfile
    } else {
        Fault::UnknownOption
    }
}

/// An option of this name and value, beside the flowbit names.
#[tactic(auto, using(crate::proofs::Naming::naming))]
fn named_option(
    alloc: Global,
    classes: &Classes,
    bits: &mut BitNames,
    draft: &mut RuleDraft,
    name: Name,
    left: usize,
    value: Option<&[u8]>,
) -> Result<(), Stop<Fault>>
    ensures gives { GivesWith (with_new result draft.new) bits.new
        (named_option classes.now bits.old draft.old left (option_copied value.entry) name) }
    ensures begins { Begins bits.old bits.new }
{
    match name {
        Name::Text(name) => text_option(alloc, classes, draft, name, value),
        Name::Modifier(name) => Ok(modifier_option(draft, name, left, value)?),
        Name::Payload(name) => {
            let Some(value) = value else {
                return Err(Stop::Wrong(Fault::OptionValue));
            };
            payload_option(alloc, draft, name, left, value)
        }
        Name::Session(name) => session_option(draft, name, value),
        Name::Field(field) => {
            let Some(value) = value else {
                return Err(Stop::Wrong(Fault::OptionValue));
            };
            field_option(field, draft, value)
        }
        Name::Flowbits => {
            let Some(value) = value else {
                return Err(Stop::Wrong(Fault::OptionValue));
            };
            flowbits_option(alloc, bits, draft, value)
        }
    }
}

/// One option of a rule, whose text begins where `left` bytes of the line are left.
#[tactic(auto, unfolding(crate::specs::RuleOption::rule_option))]
pub(crate) fn rule_option(
    alloc: Global,
    classes: &Classes,
    bits: &mut BitNames,
    draft: &mut RuleDraft,
    left: usize,
    text: &[u8],
) -> Result<(), Stop<Fault>>
    ensures gives { GivesWith (with_new result draft.new) bits.new (rule_option classes.now bits.old draft.old left text.now) }
    ensures begins { Begins bits.old bits.new }
{
    let option = written(left, text);
    let Some(name) = Name::read(option.name) else {
        return Err(Stop::Wrong(no_name(option.name)));
    };
    named_option(alloc, classes, bits, draft, name, option.left, option.value)
}
