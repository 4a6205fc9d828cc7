//! How far the data of one side reach.
ghost use Rattle.std.specs.Prelude.{◌≡◌, ◌+◌, ◌^◌, ◌<◌, ◌≤◌, None};
ghost use Rattle.stream5_reassembly.specs.Extents.{extent_after, extent_from, unknown};

use crate::sequence::HALF;
use std::marker::Model;

/// How far the data of one side of a session reach: the sequence number after the last byte, if data
/// were seen or a first number is known, and how many places that number has moved.
#[derive(Debug, Drop)]
pub struct Extent {
    next: Option<u32>,
    size: u64,
}

impl Model for Extent {
    ghost use Rattle.stream5_reassembly.specs.Extents.{ExtentState};

    ghost Value = { ExtentState };

    ghost use Rattle.stream5_reassembly.specs.Inside.{extent_of};

    ghost view = { extent_of };
}

impl Extent {
    /// Size 0, and no next number.
    pub fn new() -> Extent
        ensures { result ≡ unknown }
    {
        Extent {
            next: None,
            size: 0,
        }
    }

    /// Begins anew at a sequence number, with size 0.
    pub fn start(&mut self, seq: u32)
        ensures { self.new ≡ extent_from seq }
    {
        self.next = Some(seq);
        self.size = 0;
    }

    /// Notes a segment of `len` bytes whose first has this sequence number. Where no next number is
    /// known, the segment's own is it.
    pub fn note(&mut self, seq: u32, len: u32)
        requires some { 1 ≤ len }
        requires most { len ≤ 65535 }
        requires small { self.old.size ≤ 2 ^ 63 }
        ensures noted { self.new ≡ extent_after self.old seq len }
        ensures first { self.old.next ≡ None → self.new.size ≡ self.old.size + len }
        ensures at_least { self.old.size ≤ self.new.size }
        ensures below { self.new.size < self.old.size + 2 ^ 31 }
    {
        let end = seq.wrapping_add(len);
        let growth = end.wrapping_sub(self.next.unwrap_or(seq));
        if 0 < growth && growth < HALF {
            self.next = Some(end);
            self.size += u64::from(growth);
        }
    }

    /// How many places the next number has moved.
    pub fn size(&self) -> u64
        ensures { result ≡ self.now.size }
    {
        self.size
    }
}
