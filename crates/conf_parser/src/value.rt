//! Forms of values that directives share.
ghost use Rattle.std.specs.Prelude.{◌≡◌, ◌≤◌, Some, not, length, position, option_copied};
ghost use Rattle.std.specs.List.{prefix_len};
ghost use Rattle.net_lists.specs.Stops.{Gives, or_kind};
ghost use Rattle.edge_io.specs.Bytes.{slice};
ghost use Rattle.conf_parser.specs.Values.{expanded, address_list, port_list, expanded_addresses, name_of, after_name, after_colon, setting_text, yes_or_no, in_name, mapped, with_new};

use crate::line::ConfKind;
use crate::word::is;
use edge_io::Text;
use net_lists::{AddrList, ExpandFault, ListFault, PortList, Stop, Vars, trimmed};
use std::alloc::Global;

/// Puts a value in its place, where there is one.
pub fn put<T: Copy>(place: &mut T, value: Option<T>) -> Result<(), ConfKind>
    ensures { with_new result place.new ≡ or_kind ConfKind.BadValue value }
{
    let Some(value) = value else {
        return Err(ConfKind::BadValue);
    };
    *place = value;
    Ok(())
}

/// Puts a value in its place, where there is one, for a reader that may want memory.
pub fn put_or_stop<T: Copy>(place: &mut T, value: Option<T>) -> Result<(), Stop<ConfKind>>
    ensures { Gives (with_new result place.new) (or_kind ConfKind.BadValue value) }
{
    Ok(put(place, value)?)
}

/// Puts a value in a place that may be empty, where there is one, for a reader that may want memory.
pub fn put_some<T: Copy>(place: &mut Option<T>, value: Option<T>) -> Result<(), Stop<ConfKind>>
    ensures { Gives (with_new result place.new) (mapped (λ found. Some found) (or_kind ConfKind.BadValue value)) }
{
    let Some(found) = value else {
        return Err(Stop::Wrong(ConfKind::BadValue));
    };
    *place = Some(found);
    Ok(())
}

/// The bytes from one place up to another, as far as they are there.
fn slice(text: &[u8], from: usize, to: usize) -> &[u8]
    ensures { result.now ≡ slice text.now from to }
{
    let after = if from <= text.len() {
        &text[from..]
    } else {
        &text[text.len()..]
    };
    let len = to.saturating_sub(from);
    if len <= after.len() {
        &after[..len]
    } else {
        after
    }
}

/// The text with each variable's value in its form's place.
#[tactic(auto, unfolding(crate::specs::Values::expanded))]
pub fn expanded(alloc: Global, vars: &Vars, text: &[u8]) -> Result<Text, Stop<ConfKind>>
    ensures { Gives result (expanded vars.now text.now) }
{
    let mut bytes = Vec::new(alloc);
    match vars.expand(text, &mut bytes) {
        Ok(()) => Ok(Text::from_vec(bytes)),
        Err(ExpandFault::Unknown { from, to }) => {
            let name = Text::copy(alloc, slice(text, from, to))?;
            Err(Stop::Wrong(ConfKind::UnknownVariable(name)))
        }
        Err(ExpandFault::TooLong) => Err(Stop::Wrong(ConfKind::Limit)),
        Err(ExpandFault::NoMemory) => Err(Stop::NoMemory),
    }
}

/// The list of addresses that a text spells.
#[tactic(auto, unfolding(crate::specs::Values::address_list))]
pub fn address_list(alloc: Global, text: &[u8]) -> Result<AddrList, Stop<ConfKind>>
    ensures { Gives result (address_list text.now) }
{
    match AddrList::read(alloc, text) {
        Ok(list) => Ok(list),
        Err(ListFault::BadAddress) => Err(Stop::Wrong(ConfKind::BadAddress)),
        Err(ListFault::BadPort) => Err(Stop::Wrong(ConfKind::BadPort)),
        Err(ListFault::ListTooLong) => Err(Stop::Wrong(ConfKind::Limit)),
        Err(ListFault::NoMemory) => Err(Stop::NoMemory),
    }
}

/// The list of ports that a text spells.
#[tactic(auto, unfolding(crate::specs::Values::port_list))]
pub fn port_list(alloc: Global, text: &[u8]) -> Result<PortList, Stop<ConfKind>>
    ensures { Gives result (port_list text.now) }
{
    match PortList::read(alloc, text) {
        Ok(list) => Ok(list),
        Err(ListFault::BadAddress) => Err(Stop::Wrong(ConfKind::BadAddress)),
        Err(ListFault::BadPort) => Err(Stop::Wrong(ConfKind::BadPort)),
        Err(ListFault::ListTooLong) => Err(Stop::Wrong(ConfKind::Limit)),
        Err(ListFault::NoMemory) => Err(Stop::NoMemory),
    }
}

/// A list of addresses, read after the expansion of its text.
#[tactic(auto, unfolding(crate::specs::Values::expanded_addresses))]
pub fn expanded_addresses(
    alloc: Global,
    vars: &Vars,
    text: &[u8],
) -> Result<AddrList, Stop<ConfKind>>
    ensures { Gives result (expanded_addresses vars.now text.now) }
{
    let list = expanded(alloc, vars, text)?;
    address_list(alloc, list.bytes())
}

/// Puts a list of addresses in its place.
pub fn put_addresses(
    alloc: Global,
    vars: &Vars,
    place: &mut Option<AddrList>,
    text: &[u8],
) -> Result<(), Stop<ConfKind>>
    ensures { Gives (with_new result place.new) (mapped (λ list. Some list) (expanded_addresses vars.now text.now)) }
{
    let list = expanded_addresses(alloc, vars, text)?;
    *place = Some(list);
    Ok(())
}

/// Whether a byte may be in a name.
fn in_name(byte: u8) -> bool
    ensures { result ≡ in_name byte }
{
    byte != b' ' && byte != b'\t' && byte != b':'
}

/// Where the name in front ends, if anything comes after it.
fn name_end(text: &[u8]) -> Option<usize>
    ensures { result ≡ position (λ byte. not (in_name byte)) text.now }
{
    text.iter().position(|byte| !in_name(*byte))
}

/// How many bytes of a name are in front.
fn name_len(text: &[u8]) -> usize
    ensures len { result ≡ prefix_len in_name text.now }
    ensures within { result ≤ length text.now }
{
    name_end(text).unwrap_or(text.len())
}

/// The name in front, which ends at a blank or a colon, and what comes after it, without blanks at its
/// ends.
#[tactic(auto, unfolding(crate::specs::Values::name_of, crate::specs::Values::after_name))]
pub fn name_and_rest(text: &[u8]) -> (&[u8], &[u8])
    ensures name { result.0.now ≡ name_of text.now }
    ensures rest { result.1.now ≡ after_name text.now }
{
    let (name, rest) = text.split_at(name_len(text));
    (name, trimmed(rest))
}

/// What comes after a colon in front.
#[tactic(auto, unfolding(crate::specs::Values::after_colon))]
pub fn after_colon(text: &[u8]) -> Option<&[u8]>
    ensures { option_copied result ≡ after_colon text.now }
{
    match text {
        [b':', rest @ ..] => Some(trimmed(rest)),
        _ => None,
    }
}

/// The settings of a preprocessor line: nothing, or what comes after a colon.
#[tactic(auto, unfolding(crate::specs::Values::setting_text))]
pub fn setting_text(rest: &[u8]) -> Result<&[u8], ConfKind>
    ensures { mapped (λ text. text.now) result ≡ setting_text rest.now }
{
    if rest.is_empty() {
        return Ok(rest);
    }
    after_colon(rest).ok_or(ConfKind::BadValue)
}

/// `yes` or `no`.
#[tactic(auto, unfolding(crate::specs::Values::yes_or_no))]
pub fn yes_or_no(text: &[u8]) -> Option<bool>
    ensures { result ≡ yes_or_no text.now }
{
    if is(text, b"yes") {
        Some(true)
    } else if is(text, b"no") {
        Some(false)
    } else {
        None
    }
}
