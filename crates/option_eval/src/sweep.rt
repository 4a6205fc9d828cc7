//! Where a content leads from a set of places.

ghost use Rattle.std.specs.Prelude.{◌≡◌, ℕ, ◌+◌, ◌<◌, ◌≤◌, ◌||◌, ◌&&◌, [], length, nat_lt, IfOk, MatchBool, if◌then◌else◌};
ghost use Rattle.option_eval.specs.Sets.{IsRising, Gathers, Adds, IsHitFrom, IsHitIn};

use crate::Steps;
use crate::needle::Needle;
use crate::reach::Reach;
use edge_io::NoMemory;
use smallvec::SmallVec;
use std::alloc::Global;
use std::sync::ledger::Ledger;

/// A set of places, as a list that rises. A few of them take no memory.
pub(crate) type Places = SmallVec<usize, 8>;

/// Where the bytes end that lie within reach of some place of the set: everywhere if every end is
/// wanted, else somewhere. Windows that touch are searched as one. A visit is a place where they are compared,
/// and none is compared twice.
pub(crate) fn sweep<L: Ledger>(
    alloc: Global,
    needle: &Needle,
    reach: &Reach,
    payload: &[u8],
    places: &[usize],
    every: bool,
    visits: &mut Steps<L>,
) -> Result<Places, NoMemory>
    requires same { needle.now.finder.now ≡ needle.now.bytes.now }
    requires some { 1 ≤ length needle.now.bytes.now }
    requires fits { length needle.now.bytes.now ≤ length payload.now }
    requires rising { IsRising 0 places.now (length payload.now + 1) }
    ensures found { IfOk result (λ next.
        Gathers every (IsHitFrom needle.now.nocase payload.now needle.now.bytes.now reach.now places.now) next.items) }
    ensures rising { IfOk result (λ next. IsRising 0 next.items (length payload.now + 1)) }
    ensures bounded { visits.new ≤ visits.old + (length payload.now + 1) }
{
    let size = needle.bytes.len();
    let bound = payload.len() - size + 1;
    let mut next = SmallVec::new(alloc);
    // The window that is still to be searched.
    let mut from = 0;
    let mut done = 0;
    let mut rest = places;
    while let [place, later @ ..] = rest {
        let end = reach.end(*place, size, bound).max(done);
        let low = reach.low(*place, bound).max(done).min(end);
        visits.tick_by((end - low) as u64);
        next = gather_apart(needle, payload, from, done, low, every, next)?;
        from = joined(from, done, low);
        done = end;
        rest = still_asked(later, every, next.is_empty(), done < bound);
    }
    gather(needle, payload, from, done, every, next)
}

/// The places that are still to be asked: none where one end is enough and there is one, or where the
/// windows so far reach the last place at which the bytes fit.
fn still_asked(later: &[usize], every: bool, none: bool, more: bool) -> &[usize]
    ensures { MatchBool ((every || none) && more) (result.now ≡ later.now) (result.now ≡ []) }
{
    if (every || none) && more { later } else { &[] }
}

/// Where a window begins once another one from `low` on follows: those that touch are one.
fn joined(from: usize, done: usize, low: usize) -> usize
    ensures { result ≡ (if nat_lt done low then low else from) }
{
    if done < low { low } else { from }
}

/// Searches a window, unless another one from `low` on touches it.
fn gather_apart(
    needle: &Needle,
    payload: &[u8],
    from: usize,
    done: usize,
    low: usize,
    every: bool,
    places: Places,
) -> Result<Places, NoMemory>
    requires same { needle.now.finder.now ≡ needle.now.bytes.now }
    requires some { 1 ≤ length needle.now.bytes.now }
    requires order { from ≤ done }
    requires fits { done + length needle.now.bytes.now ≤ length payload.now + 1 }
    requires rising { IsRising 0 places.items (from + length needle.now.bytes.now) }
    ensures found { IfOk result (λ next. Adds every (IsHitIn needle.now.nocase payload.now needle.now.bytes.now
        from (if nat_lt done low then done else from)) places.items next.items) }
    ensures rising { IfOk result (λ next.
        IsRising 0 next.items ((if nat_lt done low then low else from) + length needle.now.bytes.now)) }
{
    if done < low {
        gather(needle, payload, from, done, every, places)
    } else {
        Ok(places)
    }
}

/// Adds where the bytes end that occur from `low` on and below `end`; nothing where one end is enough and
/// there is one.
fn gather(
    needle: &Needle,
    payload: &[u8],
    low: usize,
    end: usize,
    every: bool,
    places: Places,
) -> Result<Places, NoMemory>
    requires same { needle.now.finder.now ≡ needle.now.bytes.now }
    requires some { 1 ≤ length needle.now.bytes.now }
    requires order { low ≤ end }
    requires fits { end + length needle.now.bytes.now ≤ length payload.now + 1 }
    requires rising { IsRising 0 places.items (low + length needle.now.bytes.now) }
    ensures found { IfOk result (λ next.
        Adds every (IsHitIn needle.now.nocase payload.now needle.now.bytes.now low end) places.items next.items) }
    ensures rising { IfOk result (λ next. IsRising 0 next.items (end + length needle.now.bytes.now)) }
{
    let mut next = places;
    let mut at = first_start(every, next.is_empty(), low, end);
    while let Some(start) = needle.first_in(payload, at, end) {
        next.push(start + needle.bytes.len())?;
        at = next_start(every, start, end);
    }
    Ok(next)
}

/// Where the search of a window begins: at its end where one place is enough and there is one.
fn first_start(every: bool, none: bool, low: usize, end: usize) -> usize
    ensures { result ≡ (if every || none then low else end) }
{
    if every || none { low } else { end }
}

/// Where a window goes on after a place: at its end where one place is enough.
fn next_start(every: bool, start: usize, end: usize) -> usize
    requires { start < end }
    ensures { result ≡ (if every then start + 1 else end) }
{
    if every { start + 1 } else { end }
}
