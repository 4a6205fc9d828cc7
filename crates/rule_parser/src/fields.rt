//! Numbers of a packet's headers, and the length of its payload.
ghost use Rattle.std.specs.Prelude.{◌≡◌, ◌<◌, length, option_copied, IfSome};
ghost use Rattle.net_lists.specs.Stops.{Gives};
ghost use Rattle.rule_parser.specs.Fields.{sign_of, cmp_of, allows, against, signed_compare, end_of, ttl_range, dsize_range, place_of, after_above, protocol_of, compare_of, ttl_to, dsize_at, protocol_to, field_option, dsize_option, sameip_option};
ghost use Rattle.rule_types.specs.Sound.{is_strict, compares, most_of};
ghost use Rattle.rule_parser.specs.Drafts.{with_new};

use crate::draft::RuleDraft;
use crate::fault::Fault;
use crate::word::is;
use crate::{Cmp, Field, Opt};
use net_lists::{Stop, number_in};

/// What comes before a number.
#[derive(Clone, Copy, PartialEq, Eq)]
pub(crate) enum Sign {
    Plain,
    Equal,
    Not,
    Below,
    Above,
    UpTo,
    From,
}

/// The sign in front of a number, and what comes after it.
#[tactic(auto, unfolding(crate::specs::Fields::sign_of))]
fn sign_of(text: &[u8]) -> (Sign, &[u8])
    ensures sign { result.0 ≡ (sign_of text.now).0 }
    ensures rest { result.1.now ≡ (sign_of text.now).1 }
{
    match text {
        [b'<', b'=', rest @ ..] => (Sign::UpTo, rest),
        [b'<', rest @ ..] => (Sign::Below, rest),
        [b'>', b'=', rest @ ..] => (Sign::From, rest),
        [b'>', rest @ ..] => (Sign::Above, rest),
        [b'=', rest @ ..] => (Sign::Equal, rest),
        [b'!', rest @ ..] => (Sign::Not, rest),
        _ => (Sign::Plain, text),
    }
}

impl Sign {
    fn cmp(self) -> Cmp
        ensures { result ≡ cmp_of self }
    {
        match self {
            Sign::Plain | Sign::Equal => Cmp::Eq,
            Sign::Not => Cmp::Ne,
            Sign::Below => Cmp::Lt,
            Sign::Above => Cmp::Gt,
            Sign::UpTo => Cmp::Le,
            Sign::From => Cmp::Ge,
        }
    }
}

/// Whether a comparison is by `<` or `>`.
fn is_strict(cmp: Cmp) -> bool
    ensures { result ≡ is_strict cmp }
{
    cmp == Cmp::Lt || cmp == Cmp::Gt
}

/// Whether the field has this comparison.
fn compares(field: Field, cmp: Cmp) -> bool
    ensures { result ≡ compares field cmp }
{
    match field {
        Field::Ttl => cmp != Cmp::Ne && cmp != Cmp::And,
        Field::Tos | Field::Window => cmp == Cmp::Eq || cmp == Cmp::Ne,
        Field::FragOffset | Field::IpProto => cmp == Cmp::Eq || cmp == Cmp::Ne || is_strict(cmp),
        Field::Itype | Field::Icode => cmp == Cmp::Eq || is_strict(cmp),
        Field::Dsize => cmp == Cmp::Eq || is_strict(cmp) || cmp == Cmp::Within,
        Field::Id | Field::Seq | Field::Ack | Field::IcmpId | Field::IcmpSeq => cmp == Cmp::Eq,
    }
}

/// Whether the field has this sign: it compares so, and `=` is a sign of `ttl` alone.
fn allows(field: Field, sign: Sign) -> bool
    ensures { result ≡ allows field sign }
{
    compares(field, sign.cmp()) && (field == Field::Ttl || sign != Sign::Equal)
}

/// The greatest number of the field.
fn most_of(field: Field) -> u32
    ensures { result ≡ most_of field }
{
    if field == Field::Dsize {
        65535
    } else {
        u32::MAX
    }
}

fn against(field: Field, cmp: Cmp, number: u32) -> Opt
    ensures { result ≡ against field cmp number }
{
    Opt::Compare {
        field,
        cmp,
        low: number,
        high: number,
    }
}

/// A number, a sign before it perhaps.
#[tactic(auto, unfolding(crate::specs::Fields::signed_compare))]
fn signed_compare(field: Field, text: &[u8]) -> Result<Opt, Fault>
    ensures { result ≡ signed_compare field text.now }
{
    let (sign, rest) = sign_of(text);
    if !allows(field, sign) {
        return Err(Fault::OptionValue);
    }
    let Some(number) = number_in(0, most_of(field), rest) else {
        return Err(Fault::OptionValue);
    };
    Ok(against(field, sign.cmp(), number))
}

/// An end of a range, or what stands for one that lacks.
fn end_of(lacking: u32, text: &[u8]) -> Option<u32>
    ensures { result ≡ end_of lacking text.now }
{
    if text.is_empty() {
        Some(lacking)
    } else {
        number_in(0, u32::MAX, text)
    }
}

#[tactic(auto, unfolding(crate::specs::Fields::ttl_range))]
fn ttl_range(low: &[u8], high: &[u8]) -> Result<Opt, Fault>
    ensures { result ≡ ttl_range low.now high.now }
{
    let Some(least) = end_of(0, low) else {
        return Err(Fault::OptionValue);
    };
    let Some(most) = end_of(u32::MAX, high) else {
        return Err(Fault::OptionValue);
    };
    if low.is_empty() && high.is_empty() {
        return Err(Fault::OptionValue);
    }
    Ok(Opt::Compare {
        field: Field::Ttl,
        cmp: Cmp::Within,
        low: least,
        high: most,
    })
}

#[tactic(auto, unfolding(crate::specs::Fields::dsize_range))]
fn dsize_range(low: &[u8], high: &[u8]) -> Result<Opt, Fault>
    ensures { result ≡ dsize_range low.now high.now }
{
    let Some(least) = number_in(0, 65535, low) else {
        return Err(Fault::OptionValue);
    };
    let Some(most) = number_in(0, 65535, high) else {
        return Err(Fault::OptionValue);
    };
    Ok(Opt::Compare {
        field: Field::Dsize,
        cmp: Cmp::Within,
        low: least,
        high: most,
    })
}

/// The place of the first of these bytes.
pub(crate) fn place_of(byte: u8, text: &[u8]) -> Option<usize>
    ensures place { result ≡ place_of byte text.now }
    ensures within { IfSome result (λ place. place < length text.now) }
{
    text.iter().position(|b| *b == byte)
}

fn ttl_of(text: &[u8]) -> Result<Opt, Fault>
    ensures { result ≡ ttl_to text.now (place_of 45 text.now) }
{
    match place_of(b'-', text) {
        None => signed_compare(Field::Ttl, text),
        Some(place) => ttl_range(&text[..place], &text[place + 1..]),
    }
}

fn after_above(text: &[u8]) -> Option<&[u8]>
    ensures { option_copied result ≡ after_above text.now }
{
    match text {
        [b'>', rest @ ..] => Some(rest),
        _ => None,
    }
}

fn dsize_of(text: &[u8]) -> Result<Opt, Fault>
    ensures { result ≡ dsize_at text.now (place_of 60 text.now) }
{
    let Some(place) = place_of(b'<', text) else {
        return signed_compare(Field::Dsize, text);
    };
    match after_above(&text[place + 1..]) {
        None => signed_compare(Field::Dsize, text),
        Some(high) => dsize_range(&text[..place], high),
    }
}

/// The protocols that have names.
fn protocol_of(name: &[u8]) -> Option<u32>
    ensures { result ≡ protocol_of name.now }
{
    if is(name, b"icmp") {
        Some(1)
    } else if is(name, b"igmp") {
        Some(2)
    } else if is(name, b"tcp") {
        Some(6)
    } else if is(name, b"udp") {
        Some(17)
    } else {
        None
    }
}

fn ip_proto_of(text: &[u8]) -> Result<Opt, Fault>
    ensures { result ≡ protocol_to text.now (protocol_of text.now) }
{
    match protocol_of(text) {
        None => signed_compare(Field::IpProto, text),
        Some(number) => Ok(against(Field::IpProto, Cmp::Eq, number)),
    }
}

/// What a field's value says.
#[tactic(auto, unfolding(crate::specs::Fields::compare_of))]
fn compare_of(field: Field, text: &[u8]) -> Result<Opt, Fault>
    ensures { result ≡ compare_of field text.now }
{
    match field {
        Field::Ttl => ttl_of(text),
        Field::Dsize => dsize_of(text),
        Field::IpProto => ip_proto_of(text),
        _ => signed_compare(field, text),
    }
}

/// An option of one number, `dsize` apart.
#[tactic(auto, unfolding(crate::specs::Fields::field_option))]
pub(crate) fn field_option(
    field: Field,
    draft: &mut RuleDraft,
    value: &[u8],
) -> Result<(), Stop<Fault>>
    ensures { Gives (with_new result draft.new) (field_option field draft.old value.now) }
{
    let option = compare_of(field, value)?;
    draft.keep(option)
}

#[tactic(auto, unfolding(crate::specs::Fields::dsize_option))]
pub(crate) fn dsize_option(draft: &mut RuleDraft, value: &[u8]) -> Result<(), Stop<Fault>>
    ensures { Gives (with_new result draft.new) (dsize_option draft.old value.now) }
{
    let option = compare_of(Field::Dsize, value)?;
    if draft.dsize {
        return Err(Stop::Wrong(Fault::OptionValue));
    }
    draft.dsize = true;
    draft.keep(option)
}

#[tactic(auto, unfolding(crate::specs::Fields::sameip_option))]
pub(crate) fn sameip_option(draft: &mut RuleDraft, value: Option<&[u8]>) -> Result<(), Stop<Fault>>
    ensures { Gives (with_new result draft.new) (sameip_option draft.old (option_copied value.entry)) }
{
    if value.is_some() {
        return Err(Stop::Wrong(Fault::OptionValue));
    }
    draft.keep(Opt::SameIp)
}
