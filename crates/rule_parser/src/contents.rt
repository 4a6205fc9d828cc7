//! Contents and their modifiers.
ghost use Rattle.std.specs.Prelude.{◌≡◌, ◌||◌, ◌<◌, ◌≤◌, length, take, OnOk, MatchResult, Ok, Err, option_copied, if◌then◌else◌};
ghost use Rattle.net_lists.specs.Cutting.{comma_parts};
ghost use Rattle.net_lists.specs.Numbers.{number_in};
ghost use Rattle.net_lists.specs.Stops.{Gives, or_kind};
ghost use Rattle.rule_parser.specs.Contents.{negation, plain_content, with_content, with_bytes, content_option, nocase, nocase_option, rawbytes, rawbytes_option, is_placed, is_mixed, bars_from, bars_room, place_text, with_from, from_option, room_of, with_room, room_option, fast_part, fast_mode, is_only, fast_on, bars_fast, fast_pattern_option};
ghost use Rattle.rule_parser.specs.Drafts.{with_new};

use crate::draft::{LastContent, RuleDraft};
use crate::extracted::Extracted;
use crate::fault::Fault;
use crate::names::Modifier;
use crate::number::{named, signed_or_named};
use crate::quoted::{Style, meaning};
use crate::texts::quoted_whole;
use crate::word::is;
use crate::{Content, FastMode, Num};
use edge_io::{NoMemory, Text};
use net_lists::{Parts, Stop, number_in};
use std::alloc::Global;

/// Bytes that a content may have.
const MOST_BYTES: usize = 2048;

/// Whether a `!` is in front, and what comes after it.
pub(crate) fn negation(text: &[u8]) -> (bool, &[u8])
    ensures negated { result.0 ≡ (negation text.now).0 }
    ensures rest { result.1.now ≡ (negation text.now).1 }
{
    match text {
        [b'!', rest @ ..] => (true, rest),
        _ => (false, text),
    }
}

/// A content before its modifiers.
fn plain_content(negated: bool, bytes: Text) -> Content
    ensures { result ≡ plain_content negated bytes }
{
    Content {
        bytes,
        negated,
        nocase: false,
        relative: false,
        from: None,
        room: None,
        fast: FastMode::No,
    }
}

/// Whether a place is told by `offset` or `depth`.
fn is_placed(content: &Content) -> bool
    ensures { result ≡ is_placed content.now }
{
    (content.from.is_some() || content.room.is_some()) && !content.relative
}

/// Whether a modifier has the other origin than those that the content has.
fn is_mixed(name: Modifier, content: &Content) -> bool
    ensures { result ≡ is_mixed name content.now }
{
    if name.is_relative() {
        is_placed(content)
    } else {
        content.relative
    }
}

/// Whether this one of `offset` and `distance` may not be given any more.
fn bars_from(name: Modifier, content: &Content) -> bool
    ensures { result ≡ bars_from name content.now }
{
    content.from.is_some() || is_mixed(name, content)
}

/// Whether this one of `depth` and `within` may not be given any more.
fn bars_room(name: Modifier, content: &Content) -> bool
    ensures { result ≡ bars_room name content.now }
{
    content.room.is_some() || is_mixed(name, content)
}

/// Holds this content apart, the one before in its place.
fn hold(alloc: Global, draft: &mut RuleDraft, content: Content) -> Result<(), NoMemory>
    ensures { OnOk result (draft.new ≡ with_content draft.old content) }
{
    draft.settle(alloc)?;
    let known = draft.names.as_slice().len();
    let place = draft.opts.as_slice().len();
    draft.held = Some(LastContent {
        content,
        place,
        known,
        raw: false,
        placeless: false,
    });
    Ok(())
}

/// Holds a content of these bytes, where there are some, not too many, and there is room.
fn hold_bytes(
    alloc: Global,
    draft: &mut RuleDraft,
    negated: bool,
    bytes: Text,
) -> Result<(), Stop<Fault>>
    ensures { Gives (with_new result draft.new) (with_bytes draft.old negated bytes) }
{
    if bytes.bytes().is_empty() {
        return Err(Stop::Wrong(Fault::OptionValue));
    }
    if bytes.bytes().len() > MOST_BYTES || draft.is_full() {
        return Err(Stop::Wrong(Fault::Limit));
    }
    Ok(hold(alloc, draft, plain_content(negated, bytes))?)
}

#[tactic(auto, unfolding(crate::specs::Contents::content_option))]
pub(crate) fn content_option(
    alloc: Global,
    draft: &mut RuleDraft,
    value: &[u8],
) -> Result<(), Stop<Fault>>
    ensures { Gives (with_new result draft.new) (content_option draft.old value.now) }
{
    let (negated, text) = negation(value);
    let inside = quoted_whole(text)?;
    let bytes = meaning(alloc, Style::Bytes, inside)?;
    hold_bytes(alloc, draft, negated, bytes)
}

/// What `nocase` makes of the last content.
#[tactic(auto, unfolding(crate::specs::Contents::nocase))]
fn nocase(held: &mut LastContent, value: Option<&[u8]>) -> Result<(), Fault>
    ensures { with_new result held.new ≡ nocase held.old (option_copied value.entry) }
{
    if held.content.nocase {
        return Err(Fault::Misplaced);
    }
    if value.is_some() {
        return Err(Fault::OptionValue);
    }
    held.content.nocase = true;
    Ok(())
}

#[tactic(auto, unfolding(crate::specs::Contents::nocase_option, crate::specs::Contents::apart))]
pub(crate) fn nocase_option(draft: &mut RuleDraft, value: Option<&[u8]>) -> Result<(), Fault>
    ensures { with_new result draft.new ≡ nocase_option draft.old (option_copied value.entry) }
{
    let Some(held) = &mut draft.held else {
        return Err(Fault::Misplaced);
    };
    nocase(held, value)
}

/// What `rawbytes` makes of the last content.
#[tactic(auto, unfolding(crate::specs::Contents::rawbytes))]
fn rawbytes(held: &mut LastContent, value: Option<&[u8]>) -> Result<(), Fault>
    ensures { with_new result held.new ≡ rawbytes held.old (option_copied value.entry) }
{
    if held.raw {
        return Err(Fault::Misplaced);
    }
    if value.is_some() {
        return Err(Fault::OptionValue);
    }
    held.raw = true;
    Ok(())
}

#[tactic(auto, unfolding(crate::specs::Contents::rawbytes_option, crate::specs::Contents::apart))]
pub(crate) fn rawbytes_option(draft: &mut RuleDraft, value: Option<&[u8]>) -> Result<(), Fault>
    ensures { with_new result draft.new ≡ rawbytes_option draft.old (option_copied value.entry) }
{
    let Some(held) = &mut draft.held else {
        return Err(Fault::Misplaced);
    };
    rawbytes(held, value)
}

/// The value of a modifier that tells a place or a room, where it may be given.
fn place_text(bars: bool, placeless: bool, value: Option<&[u8]>) -> Result<&[u8], Fault>
    ensures { MatchResult result (λ text. place_text bars placeless (option_copied value.entry) ≡ Ok text.now)
        (λ why. place_text bars placeless (option_copied value.entry) ≡ Err why) }
{
    if bars {
        return Err(Fault::Misplaced);
    }
    if placeless {
        return Err(Fault::OptionValue);
    }
    value.ok_or(Fault::OptionValue)
}

/// The first names of these.
fn first_names(names: &[Text], count: usize) -> &[Text]
    ensures value { result.now ≡ take count names.now }
    ensures within { length result.now ≤ length names.now }
{
    if count < names.len() {
        &names[..count]
    } else {
        names
    }
}

/// What `offset` or `distance` makes of the last content.
#[tactic(auto, unfolding(crate::specs::Contents::with_from))]
fn with_from(
    name: Modifier,
    held: &mut LastContent,
    names: &Extracted,
    left: usize,
    value: Option<&[u8]>,
) -> Result<(), Fault>
    ensures { with_new result held.new ≡ with_from name held.old names.now left (option_copied value.entry) }
{
    let text = place_text(bars_from(name, &held.content), held.placeless, value)?;
    let known = first_names(names.as_slice(), held.known);
    let from = signed_or_named(-65535, 65535, known, left, text)?;
    held.content.relative = name.is_relative();
    held.content.from = Some(from);
    Ok(())
}

#[tactic(auto, unfolding(crate::specs::Contents::from_option, crate::specs::Contents::apart))]
pub(crate) fn from_option(
    name: Modifier,
    draft: &mut RuleDraft,
    left: usize,
    value: Option<&[u8]>,
) -> Result<(), Fault>
    ensures { with_new result draft.new ≡ from_option name draft.old left (option_copied value.entry) }
{
    let Some(held) = &mut draft.held else {
        return Err(Fault::Misplaced);
    };
    with_from(name, held, &draft.names, left, value)
}

/// How far a content of `size` bytes may go.
fn room_of(size: usize, known: &[Text], left: usize, text: &[u8]) -> Result<Num, Fault>
    requires { length known.now < 256 }
    ensures { result ≡ room_of size known.now left text.now (number_in 0 65535 text.now) }
{
    match number_in(0, 65535, text) {
        Some(number) => {
            if size > number as usize {
                return Err(Fault::OptionValue);
            }
            Ok(Num::Value(i64::from(number)))
        }
        None => named(known, left, text),
    }
}

/// What `depth` or `within` makes of the last content.
#[tactic(auto, unfolding(crate::specs::Contents::with_room))]
fn with_room(
    name: Modifier,
    held: &mut LastContent,
    names: &Extracted,
    left: usize,
    value: Option<&[u8]>,
) -> Result<(), Fault>
    ensures { with_new result held.new ≡ with_room name held.old names.now left (option_copied value.entry) }
{
    let text = place_text(bars_room(name, &held.content), held.placeless, value)?;
    let known = first_names(names.as_slice(), held.known);
    let room = room_of(held.content.bytes.bytes().len(), known, left, text)?;
    held.content.relative = name.is_relative();
    held.content.room = Some(room);
    Ok(())
}

#[tactic(auto, unfolding(crate::specs::Contents::room_option, crate::specs::Contents::apart))]
pub(crate) fn room_option(
    name: Modifier,
    draft: &mut RuleDraft,
    left: usize,
    value: Option<&[u8]>,
) -> Result<(), Fault>
    ensures { with_new result draft.new ≡ room_option name draft.old left (option_copied value.entry) }
{
    let Some(held) = &mut draft.held else {
        return Err(Fault::Misplaced);
    };
    with_room(name, held, &draft.names, left, value)
}

/// A part of a content of `size` bytes.
#[tactic(auto, unfolding(crate::specs::Contents::fast_part))]
fn fast_part(size: usize, value: &[u8]) -> Result<FastMode, Fault>
    ensures { result ≡ fast_part size (comma_parts value.now) }
{
    let mut parts = Parts::commas(value);
    let (Some(first), Some(second), None) = (parts.next(), parts.next(), parts.next()) else {
        return Err(Fault::OptionValue);
    };
    let Some(from) = number_in(0, 2048, first) else {
        return Err(Fault::OptionValue);
    };
    let Some(len) = number_in(1, 2048, second) else {
        return Err(Fault::OptionValue);
    };
    if from as usize + len as usize > size {
        return Err(Fault::OptionValue);
    }
    Ok(FastMode::Part { from, len })
}

/// What the value of a `fast_pattern` says.
#[tactic(auto, unfolding(crate::specs::Contents::fast_mode))]
fn fast_mode(size: usize, value: Option<&[u8]>) -> Result<FastMode, Fault>
    ensures { result ≡ fast_mode size (option_copied value.entry) }
{
    let Some(value) = value else {
        return Ok(FastMode::Yes);
    };
    if is(value, b"only") {
        return Ok(FastMode::Only);
    }
    fast_part(size, value)
}

fn is_only(mode: FastMode) -> bool
    ensures { result ≡ is_only mode }
{
    match mode {
        FastMode::Only => true,
        FastMode::No | FastMode::Yes | FastMode::Part { .. } => false,
    }
}

/// The fast pattern that a content has.
fn fast_on(negated: bool, mode: FastMode) -> FastMode
    ensures { result ≡ fast_on negated mode }
{
    if negated { FastMode::No } else { mode }
}

/// The last content, where there is no `fast_pattern` yet.
fn held_for_fast(is_given: bool, held: Option<LastContent>) -> Result<LastContent, Fault>
    ensures { result ≡ (if is_given then Err Fault.Misplaced else or_kind Fault.Misplaced held) }
{
    if is_given {
        return Err(Fault::Misplaced);
    }
    held.ok_or(Fault::Misplaced)
}

/// Whether no place or room may be told after a `fast_pattern` of this form.
fn bars_places(mode: FastMode, negated: bool) -> bool
    ensures { result ≡ (is_only mode || negated) }
{
    is_only(mode) || negated
}

/// Puts a `fast_pattern` of this form on a content.
fn put_fast(held: &mut LastContent, mode: FastMode)
    ensures { held.new ≡ record held.old {
      placeless = is_only mode || held.old.content.negated;
      content = record held.old.content { fast = fast_on held.old.content.negated mode };
    } }
{
    held.placeless = bars_places(mode, held.content.negated);
    held.content.fast = fast_on(held.content.negated, mode);
}

/// Whether a `fast_pattern` of this form may not be given for the content.
fn bars_fast(mode: FastMode, content: &Content) -> bool
    ensures { result ≡ bars_fast mode content.now }
{
    let has_room = content.from.is_some() || content.room.is_some();
    (is_only(mode) && content.negated) || ((is_only(mode) || content.negated) && has_room)
}

#[tactic(auto, unfolding(crate::specs::Contents::fast_pattern_option))]
pub(crate) fn fast_pattern_option(draft: &mut RuleDraft, value: Option<&[u8]>) -> Result<(), Fault>
    ensures { with_new result draft.new ≡ fast_pattern_option draft.old (option_copied value.entry) }
{
    let mut held = held_for_fast(draft.fast, draft.held.take())?;
    let mode = fast_mode(held.content.bytes.bytes().len(), value)?;
    if bars_fast(mode, &held.content) {
        return Err(Fault::OptionValue);
    }
    put_fast(&mut held, mode);
    draft.held = Some(held);
    draft.fast = true;
    Ok(())
}
