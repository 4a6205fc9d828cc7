//! One piece: bytes in a row, of one segment.
ghost use Rattle.std.specs.Prelude.{◌≡◌, ◌+◌, ◌-◌, ◌^◌, ◌<◌, ◌≤◌, IfOk, length, nat_lt, if◌then◌else◌};
ghost use Rattle.overlap_core.specs.Joined.{run_of};
ghost use Rattle.overlap_core.specs.Overlap.{end_of};
ghost use Rattle.overlap_core.specs.Pieces.{piece_end};
ghost use Rattle.overlap_core.specs.Rows.{left_part, overlaid, part_of, right_part};

use crate::arriving::Arriving;
use crate::{Bounds, Run, wins};
use edge_io::{NoMemory, Preference, Text};
use std::alloc::Global;
use std::marker::Model;

/// Bytes that a queue keeps: the place of the first, the bytes, and the whole bounds of the segment
/// that they came in.
#[derive(Drop)]
pub struct Piece {
    start: u64,
    bytes: Vec<u8>,
    whole: Bounds,
}

impl Model for Piece {
    ghost use Rattle.std.specs.Prelude.{◌+◌, ◌^◌, ◌<◌, length};
    ghost use Rattle.overlap_core.specs.Pieces.{Piece as Kept};

    ghost Value = { Kept };

    ghost view = { λ p. record { start = p.start; bytes = p.bytes.items; whole = p.whole } };

    ghost invariant = { λ p. p.start + length p.bytes.items < 2 ^ 64 };
}

impl Piece {
    /// The place of the first byte.
    pub fn start(&self) -> u64
        ensures { result ≡ self.now.start }
    {
        self.start
    }

    /// The bytes.
    pub fn bytes(&self) -> &[u8]
        ensures { result.now ≡ self.now.bytes }
    {
        &self.bytes
    }

    /// The whole bounds of the segment that the bytes came in.
    pub fn whole(&self) -> Bounds
        ensures { result ≡ self.now.whole }
    {
        self.whole
    }

    /// The place after the last byte.
    pub(crate) fn end(&self) -> u64
        ensures { result ≡ piece_end self.now }
    {
        self.start + self.bytes.len() as u64
    }

    /// The whole segment, copied.
    pub(crate) fn copy(alloc: Global, new: &Arriving<'_>) -> Result<Piece, NoMemory>
        ensures { IfOk result (λ piece. piece ≡ part_of new.now new.now.start (end_of new.now)) }
    {
        let whole = new.bounds();
        Ok(Piece {
            start: whole.start,
            bytes: Vec::from_slice(alloc, new.part(whole.start, whole.end))?,
            whole,
        })
    }

    /// The piece's bytes as a run. Takes no memory.
    pub(crate) fn into_run(self) -> Run
        ensures { result ≡ run_of self }
    {
        let Piece {
            start,
            bytes,
            whole: _,
        } = self;
        Run {
            start,
            bytes: Text::from_vec(bytes),
        }
    }

    /// The segment's bytes from `low` on, in this buffer, which has their number.
    pub(crate) fn of(new: &Arriving<'_>, low: u64, buffer: Text) -> Piece
        requires from { new.now.start ≤ low }
        requires to { low + length buffer ≤ end_of new.now }
        ensures { result ≡ part_of new.now low (low + length buffer) }
    {
        let whole = new.bounds();
        let mut bytes = buffer.into_vec();
        let high = low + bytes.len() as u64;
        bytes.copy_from_slice(new.part(low, high));
        Piece {
            start: low,
            bytes,
            whole,
        }
    }

    /// The piece below a place in it.
    pub(crate) fn left(&self, alloc: Global, at: u64) -> Result<Piece, NoMemory>
        requires from { self.now.start ≤ at }
        requires to { at ≤ piece_end self.now }
        ensures { IfOk result (λ part. part ≡ left_part at self.now) }
    {
        let count = (at - self.start) as usize;
        Ok(Piece {
            start: self.start,
            bytes: Vec::from_slice(alloc, &self.bytes[..count])?,
            whole: self.whole,
        })
    }

    /// The piece from a place in it on.
    pub(crate) fn right(&self, alloc: Global, at: u64) -> Result<Piece, NoMemory>
        requires from { self.now.start ≤ at }
        requires to { at ≤ piece_end self.now }
        ensures { IfOk result (λ part. part ≡ right_part at self.now) }
    {
        let count = (at - self.start) as usize;
        Ok(Piece {
            start: at,
            bytes: Vec::from_slice(alloc, &self.bytes[count..])?,
            whole: self.whole(),
        })
    }

    /// The piece from `at` on in its own buffer, or the whole piece where it begins at `at` or after it.
    /// Takes no memory.
    pub(crate) fn from_place(self, at: u64) -> Piece
        requires { at ≤ piece_end self }
        ensures { result ≡ (if nat_lt self.start at then right_part at self else self) }
    {
        if self.start < at {
            let Piece {
                start,
                mut bytes,
                whole,
            } = self;
            let count = (at - start) as usize;
            let left = bytes.len() - count;
            bytes.rotate_left(count);
            bytes.truncate(left);
            return Piece {
                start: at,
                bytes,
                whole,
            };
        }
        self
    }

    /// The piece with the new segment's bytes, if it lies within that segment and that one wins by the
    /// whole bounds of both. Takes no memory.
    pub(crate) fn overlaid(self, preference: Preference, new: &Arriving<'_>) -> Piece
        ensures { result ≡ overlaid preference new.now self }
    {
        let (end, bounds) = (self.end(), new.bounds());
        if bounds.start <= self.start && end <= bounds.end && wins(preference, self.whole, bounds) {
            let Piece {
                start,
                mut bytes,
                whole: _,
            } = self;
            bytes.copy_from_slice(new.part(start, end));
            return Piece {
                start,
                bytes,
                whole: bounds,
            };
        }
        self
    }
}
