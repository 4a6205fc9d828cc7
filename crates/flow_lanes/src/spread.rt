//! Calls at the places of a slice, of which the busy ones are spread evenly over threads.
//!
//! The share of one thread is cut off in front and done in a new thread; what is after it is spread over the threads
//! that are left in the same way, and the caller's thread does the last share. So all threads start from one: where
//! threads start threads, Linux has two of them take the same idle processor, and one waits for the other. To try it on:
//! of the busy places 0, 1, 4 and 5 and two threads, one does 0 and 1, the other 4 and 5; of three threads the first
//! does 0, the second 1, the third 4 and 5.

ghost use Rattle.std.specs.Prelude.{◌≡◌, ℕ, ◌+◌, ◌-◌, ◌*◌, ◌^◌, ◌<◌, ◌≤◌, length, slice_index_or};
ghost use Rattle.std.specs.Fork.{AcceptsAt, AcceptsEach, ChangesAt, ChangesEach};
ghost use denote.Param.Send.{IsSync, IsSend};
ghost use Rattle.flow_lanes.specs.Spread.{AcceptsFrom, ChangesFrom, IsReady};

use std::thread::{Threads, join_mut};

/// A part of a slice: its place in the whole, how many threads may do it, and which of its places are busy.
#[derive(Clone, Copy)]
struct SlicePart<'a> {
    base: usize,
    threads: usize,
    busy: &'a [bool],
}

/// Calls f(i, &mut s[i]) at each place: the busy places in threads of their own, as far as there may be that
/// many threads, each of which has the same number of them, or one more. One busy place, or none, is done
/// on the caller's thread.
pub(crate) fn for_each_spread<R: Threads + Sync, T: Send, F: Fn(usize, &mut T) + Sync>(
    rt: &R,
    s: &mut [T],
    threads: usize,
    busy: &[bool],
    f: &F,
)
    requires same { length busy.now ≡ length s.old }
    requires accepts { AcceptsEach F.Fn f.now s.old }
    ensures { ChangesEach F.Fn f.now s.old s.new }
{
    let whole = SlicePart {
        base: 0,
        threads,
        busy,
    };
    spread(rt, f, whole, s);
}

/// How many places are busy.
pub(crate) fn busy_count(busy: &[bool]) -> usize {
    busy.iter().filter(|is| **is).count()
}

/// Where a slice is cut, so that `before` busy places lie before the cut, or as many as can.
fn cut_at(busy: &[bool], before: usize) -> usize
    requires { 2 ≤ length busy.now }
    ensures { (0 < result) × (result < length busy.now) }
{
    let mut left = before;
    let mut at = 0;
    for (place, is) in busy.iter().enumerate() {
        if left > 0 {
            at = place + 1;
        }
        if *is && left > 0 {
            left -= 1;
        }
    }
    at.max(1).min(busy.len() - 1)
}

/// Calls f at each place of a part.
#[cycle(spread)]
fn spread<R: Threads + Sync, T: Send, F: Fn(usize, &mut T) + Sync>(
    rt: &R,
    f: &F,
    part: SlicePart<'_>,
    s: &mut [T],
)
    requires { IsReady (AcceptsAt F.Fn f.now) part s.old }
    ensures { ChangesFrom (ChangesAt F.Fn f.now) part.entry.base s.old s.new }
{
    let SlicePart { base, busy, .. } = part;
    let count = busy_count(busy);
    let threads = part.threads.min(count);
    if threads < 2 || s.len() < 2 {
        in_turn(s, base, f);
        return;
    }
    let mid = cut_at(busy, count / threads);
    let (busy_front, busy_back) = busy.split_at(mid);
    let (front, back) = s.split_at_mut(mid);
    let low = SlicePart {
        base,
        threads: 1,
        busy: busy_front,
    };
    let up = SlicePart {
        base: base + mid,
        threads: threads - 1,
        busy: busy_back,
    };
    both(rt, f, low, front, up, back);
}

/// Calls f at each place of two parts, which are done beside each other.
#[cycle(spread)]
fn both<R: Threads + Sync, T: Send, F: Fn(usize, &mut T) + Sync>(
    rt: &R,
    f: &F,
    low: SlicePart<'_>,
    front: &mut [T],
    up: SlicePart<'_>,
    back: &mut [T],
)
    requires some { (0 < length front.old) × (0 < length back.old) }
    requires front { IsReady (AcceptsAt F.Fn f.now) low front.old }
    requires back { IsReady (AcceptsAt F.Fn f.now) up back.old }
    ensures front { ChangesFrom (ChangesAt F.Fn f.now) low.entry.base front.old front.new }
    ensures back { ChangesFrom (ChangesAt F.Fn f.now) up.entry.base back.old back.new }
{
    let mut one = ||
        requires { IsSync R.row × IsSync F.row × IsSend T.row × IsReady (AcceptsAt F.Fn f.now) low front.now }
        ensures { ChangesFrom (ChangesAt F.Fn f.entry.now) low.entry.base front.entry.now front.exit.now }
    { spread(rt, f, low, front) };
    let mut other = ||
        requires { IsSync R.row × IsSync F.row × IsSend T.row × IsReady (AcceptsAt F.Fn f.now) up back.now }
        ensures { ChangesFrom (ChangesAt F.Fn f.entry.now) up.entry.base back.entry.now back.exit.now }
    { spread(rt, f, up, back) };
    join_mut(rt, &mut one, &mut other);
}

/// Calls f at one place.
fn at_one<T, F: Fn(usize, &mut T)>(f: &F, i: usize, it: &mut T)
    requires { AcceptsAt F.Fn f.now i it.old }
    ensures { ChangesAt F.Fn f.now i it.old it.new }
{
    f(i, it);
}

/// Calls f at each place of a part, one after another.
fn in_turn<T, F: Fn(usize, &mut T)>(s: &mut [T], base: usize, f: &F)
    requires room { base + length s.old < 2 ^ 64 }
    requires accepts { AcceptsFrom (AcceptsAt F.Fn f.now) base s.old }
    ensures { ChangesFrom (ChangesAt F.Fn f.now) base s.old s.new }
{
    for k in 0..s.len() {
        at_one(f, base + k, &mut s[k]);
    }
}
