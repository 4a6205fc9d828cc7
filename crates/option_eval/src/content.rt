//! Where a content occurs, and where it leads from a set of places.

ghost use Rattle.std.specs.Prelude.{◌≡◌, ℕ, ◌+◌, ◌<◌, ◌≤◌, ◌↔◌, Bool, true, false, ◌&&◌, [], ◌∷◌, length, IsTrue, IfOk, MatchBool, not};
ghost use Rattle.rule_types.specs.declared.option.Opt.TheVariants.{Content as content_option};
ghost use Rattle.std.specs.Option.{ForSome};
ghost use Rattle.option_eval.specs.Numbers.{number_if};
ghost use Rattle.option_eval.specs.Places.{Means, is_only};
ghost use Rattle.option_eval.specs.Ranges.{IsSmall};
ghost use Rattle.option_eval.specs.Sets.{IsRising, IsWithin, Occurs, IsFoundFrom, reach_from, reach_room, folds_case, content_origin};
ghost use Rattle.option_eval.specs.Trying.{LeadsTo};
ghost use Rattle.option_eval.specs.declared.next.NextPlaces.TheVariants as next;

use crate::Steps;
use crate::absent::places_without;
use crate::asked::AskedPlaces;
use crate::fetch::{Values, number};
use crate::needle::Needle;
use crate::reach::Reach;
use crate::sweep::{Places, sweep};
use edge_io::NoMemory;
use memchr::memmem::Finder;
use rule_types::{Content, FastMode, Num};
use smallvec::SmallVec;
use std::sync::ledger::Ledger;

// ---- content

/// Where a `content` leads from a set of places: to the ends of the bytes in its windows.
pub(crate) fn places_after_content<L: Ledger>(
    content: &Content,
    finder: &Finder<'static>,
    at: &AskedPlaces,
    every: bool,
    visits: &mut Steps<L>,
) -> Result<Places, NoMemory>
    requires same { finder.now ≡ content.now.bytes }
    requires some { 1 ≤ length content.now.bytes }
    requires plain { (content.now.negated ≡ false) × (is_only content.now.fast ≡ false) }
    ensures found { (means : Means) → IfOk result (λ places.
        LeadsTo means (content_option content.now) every at.now (next.To places)) }
    ensures rising { IfOk result (λ places. IsRising 0 places.items (length at.now.payload.now + 1)) }
    ensures bounded { visits.new ≤ visits.old + (length at.now.payload.now + 1) }
{
    let needle = needle(content, finder);
    if needle.bytes.len() > at.payload.len() {
        return Ok(SmallVec::new(at.alloc));
    }
    let asked = asked_from(content.relative, at.places);
    sweep(
        at.alloc,
        &needle,
        &reach(content, at.values),
        at.payload,
        asked,
        every,
        visits,
    )
}

/// The places of the set from which a `content:!` holds that counts from them, by `distance` or `within`.
pub(crate) fn places_after_negated_content<L: Ledger>(
    content: &Content,
    finder: &Finder<'static>,
    at: &AskedPlaces,
    visits: &mut Steps<L>,
) -> Result<Places, NoMemory>
    requires same { finder.now ≡ content.now.bytes }
    requires some { 1 ≤ length content.now.bytes }
    requires fits { length content.now.bytes ≤ length at.now.payload.now }
    requires negated { content.now.negated ≡ true }
    requires relative { (not (is_only content.now.fast) && content.now.relative) ≡ true }
    ensures found { (means : Means) → (every : Bool) → IfOk result (λ places.
        LeadsTo means (content_option content.now) every at.now (next.To places)) }
    ensures rising { IfOk result (λ places. IsRising 0 places.items (length at.now.payload.now + 1)) }
    ensures bounded { visits.new ≤ visits.old + length at.now.places.now }
{
    places_without(
        &needle(content, finder),
        &reach(content, at.values),
        at,
        visits,
    )
}

/// Whether the content occurs somewhere, seen from a place.
pub(crate) fn content_is_found(
    content: &Content,
    finder: &Finder<'static>,
    payload: &[u8],
    place: usize,
    values: &Values,
) -> bool
    requires same { finder.now ≡ content.now.bytes }
    requires some { 1 ≤ length content.now.bytes }
    ensures { IsTrue result ↔ IsFoundFrom payload.now content.now values.now place }
{
    let needle = needle(content, finder);
    if needle.bytes.len() > payload.len() {
        return false;
    }
    is_found(
        &needle,
        &reach(content, values),
        payload,
        content_origin(content, place),
    )
}

/// Whether the bytes occur within reach of a place.
fn is_found(needle: &Needle, reach: &Reach, payload: &[u8], place: usize) -> bool
    requires same { needle.now.finder.now ≡ needle.now.bytes.now }
    requires some { 1 ≤ length needle.now.bytes.now }
    requires fits { length needle.now.bytes.now ≤ length payload.now }
    ensures { IsTrue result ↔ ((i : ℕ) × IsWithin reach.now (length needle.now.bytes.now) place i
        × Occurs needle.now.nocase payload.now needle.now.bytes.now i) }
{
    let size = needle.bytes.len();
    let bound = payload.len() - size + 1;
    let end = reach.end(place, size, bound);
    let low = reach.low(place, bound).min(end);
    needle.first_in(payload, low, end).is_some()
}

// ---- nocase

/// The bytes of the content, as they are sought: under `nocase`, or `fast_pattern:only`, in either case.
fn needle<'a>(content: &'a Content, finder: &'a Finder<'static>) -> Needle<'a>
    ensures bytes { result.bytes.now ≡ content.now.bytes }
    ensures finder { result.finder.now ≡ finder.now }
    ensures nocase { result.nocase ≡ folds_case content.now }
{
    Needle {
        bytes: content.bytes.bytes(),
        finder,
        nocase: is_only(content) || content.nocase,
    }
}

// ---- offset, depth, distance, within

/// The window of the content, as seen from its origin: from `offset` or `distance` on, and within the bytes of
/// `depth` or `within`.
fn reach(content: &Content, values: &Values) -> Reach
    ensures from { result.from ≡ reach_from content.now values.now }
    ensures room { result.room ≡ reach_room content.now values.now }
{
    if is_only(content) {
        return Reach {
            from: 0,
            room: None,
        };
    }
    Reach {
        from: number_if(values, content.from).unwrap_or(0),
        room: number_if(values, content.room),
    }
}

/// A number that may be absent.
fn number_if(values: &Values, wanted: Option<Num>) -> Option<i128>
    ensures value { result ≡ number_if values.now wanted }
    ensures small { ForSome result IsSmall }
{
    match wanted {
        None => None,
        Some(wanted) => Some(number(values, wanted)),
    }
}

/// Where the content counts from: `distance` and `within` from the place before it.
fn content_origin(content: &Content, place: usize) -> usize
    ensures { result ≡ content_origin content.now place }
{
    if !is_only(content) && content.relative {
        place
    } else {
        0
    }
}

/// The places that a content is asked from: the payload's start alone, unless it is relative.
fn asked_from(relative: bool, places: &[usize]) -> &[usize]
    ensures { MatchBool relative (result.now ≡ places.now) (result.now ≡ 0 ∷ []) }
{
    if relative { places } else { &[0] }
}

// ---- fast_pattern

/// `fast_pattern:only`: whether the content is sought anywhere and in either case, and asks nothing else.
pub(crate) fn is_only(content: &Content) -> bool
    ensures { result ≡ is_only content.now.fast }
{
    matches!(content.fast, FastMode::Only)
}
