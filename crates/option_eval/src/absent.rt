//! The places of a set within whose reach a content occurs nowhere.

ghost use Rattle.std.specs.Prelude.{◌≡◌, ℕ, ◌+◌, ◌<◌, ◌≤◌, ◌↔◌, Contains, length, IfOk};
ghost use Rattle.option_eval.specs.Absent.{IsReached, SeesOn};
ghost use Rattle.option_eval.specs.Sets.{IsRising, Occurs};

use crate::Steps;
use crate::asked::AskedPlaces;
use crate::needle::Needle;
use crate::next::with_place;
use crate::reach::Reach;
use crate::sweep::Places;
use edge_io::NoMemory;
use smallvec::SmallVec;
use std::sync::ledger::Ledger;

/// What was seen of a payload, from left to right.
#[derive(Clone, Copy)]
struct SeenSoFar {
    /// The places before it were looked at, or lie before the reach of each place to come.
    done: usize,
    /// The place after the last occurrence; 0 if there was none.
    last: usize,
}

/// The places of the set within whose reach the bytes occur nowhere. Each place is asked with the occurrence
/// that was seen last, so no place of the payload is compared twice. A visit is a place that is asked.
pub(crate) fn places_without<L: Ledger>(
    needle: &Needle,
    reach: &Reach,
    at: &AskedPlaces,
    visits: &mut Steps<L>,
) -> Result<Places, NoMemory>
    requires same { needle.now.finder.now ≡ needle.now.bytes.now }
    requires some { 1 ≤ length needle.now.bytes.now }
    requires fits { length needle.now.bytes.now ≤ length at.now.payload.now }
    ensures found { IfOk result (λ next. (q : ℕ) → Contains next.items q
        ↔ (Contains at.now.places.now q × ¬ IsReached needle.now.nocase at.now.payload.now needle.now.bytes.now reach.now q)) }
    ensures rising { IfOk result (λ next. IsRising 0 next.items (length at.now.payload.now + 1)) }
    ensures bounded { visits.new ≤ visits.old + length at.now.places.now }
{
    let size = needle.bytes.len();
    let bound = at.payload.len() - size + 1;
    let mut next = SmallVec::new(at.alloc);
    let mut seen = SeenSoFar { done: 0, last: 0 };
    let mut asked = 0;
    let mut rest = at.places;
    while let [place, later @ ..] = rest {
        visits.tick();
        let end = reach.end(*place, size, bound);
        let low = reach.low(*place, bound);
        seen = seen_in(needle, at.payload, low, end, seen);
        next = with_place(next, seen.last <= low, *place)?;
        asked = *place + 1;
        rest = later;
    }
    Ok(next)
}

/// What is seen once the places from `low` on and below `end` were looked at, up to the first occurrence.
fn seen_in(needle: &Needle, payload: &[u8], low: usize, end: usize, seen: SeenSoFar) -> SeenSoFar
    requires same { needle.now.finder.now ≡ needle.now.bytes.now }
    requires some { 1 ≤ length needle.now.bytes.now }
    requires fits { end + length needle.now.bytes.now ≤ length payload.now + 1 }
    ensures { SeesOn (Occurs needle.now.nocase payload.now needle.now.bytes.now) low end seen result }
{
    let from = low.max(seen.done);
    if low < seen.last || end <= from {
        return seen;
    }
    match needle.first_in(payload, from, end) {
        None => SeenSoFar {
            done: end,
            last: seen.last,
        },
        Some(start) => SeenSoFar {
            done: start + 1,
            last: start + 1,
        },
    }
}
