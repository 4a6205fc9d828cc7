//! The segment that arrives, and those that arrived, which only proofs see.
ghost use Rattle.std.specs.Prelude.{◌≡◌, ◌+◌, ◌-◌, ◌^◌, ◌<◌, ◌≤◌, List, [], ◌∷◌, ◌++◌, take, drop};
ghost use Rattle.std.specs.Borrow.{ftrue};
ghost use Rattle.overlap_core.specs.Segments.{Segment};
ghost use Rattle.overlap_core.specs.Overlap.{bounds_of, end_of};

use crate::Bounds;
use std::marker::{Model, Send};

/// A segment as it comes, its bytes lent.
#[derive(Drop)]
pub(crate) struct Arriving<'a> {
    start: u64,
    bytes: &'a [u8],
}

impl<'a> Model for Arriving<'a> {
    ghost use Rattle.std.specs.Prelude.{◌+◌, ◌^◌, ◌<◌, length};
    ghost use Rattle.overlap_core.specs.Segments.{Segment};

    ghost Value = { Segment };

    ghost view = { λ a. record { start = a.start; bytes = a.bytes.now } };

    ghost invariant = { λ a. a.start + length a.bytes.now < 2 ^ 64 };
}

impl<'a> Arriving<'a> {
    pub(crate) fn new(start: u64, bytes: &'a [u8]) -> Arriving<'a>
        requires { end_of (record { start = start; bytes = bytes.now }) < 2 ^ 64 }
        ensures { result ≡ record { start = start; bytes = bytes.now } }
    {
        Arriving { start, bytes }
    }

    /// The segment's whole bounds.
    pub(crate) fn bounds(&self) -> Bounds
        ensures { result ≡ bounds_of self.now }
    {
        Bounds {
            start: self.start,
            end: self.start + self.bytes.len() as u64,
        }
    }

    /// The segment's bytes from `low` on and below `high`.
    pub(crate) fn part(&self, low: u64, high: u64) -> &[u8]
        requires from { self.now.start ≤ low }
        requires order { low ≤ high }
        requires to { high ≤ end_of self.now }
        ensures { result.now ≡ take (high - low) (drop (low - self.now.start) self.now.bytes) }
    {
        let from = (low - self.start) as usize;
        &self.bytes[from..from + (high - low) as usize]
    }
}

/// The segments that arrived. It takes no space.
#[derive(Drop)]
pub(crate) struct Arrivals {
    pub ghost segments: { List Segment },
}

impl Model for Arrivals {
    ghost also_owns = { λ _. ftrue };
}

unsafe impl Send for Arrivals {}

impl Arrivals {
    pub(crate) fn new() -> Arrivals
        ensures { result.segments ≡ [] }
    {
        Arrivals {}
    }

    /// The segments that arrived, and one more.
    pub(crate) fn with(&self, _new: &Arriving<'_>) -> Arrivals
        ensures { result.segments ≡ self.now.segments ++ _new.now ∷ [] }
    {
        Arrivals {}
    }
}
