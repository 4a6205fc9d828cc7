//! The segments of a datagram or of a side of a stream, and the runs that they give.
ghost use Rattle.std.specs.Prelude.{◌≡◌, ℕ, ◌+◌, ◌^◌, ◌<◌, ◌≤◌, ◌↔◌, [], None, Some, length, IsTrue, IsSome, OnOk, OnErr, vec_len, vec_capacity};
ghost use Rattle.std.specs.Bool.{OnFalse, OnTrue};
ghost use Rattle.overlap_core.specs.Overlap.{chosen_byte, covered_end, is_covered, IsCoveredEnd};
ghost use Rattle.overlap_core.specs.Pieces.{bytes_held, HoldChosen, IsRow};
ghost use Rattle.overlap_core.specs.QueueState.{byte_of, with_room, with_segment, from_floor};
ghost use Rattle.overlap_core.specs.Runs.{AppendsBytes, AppendsRuns, AreBytes};

use crate::arriving::{Arrivals, Arriving};
use crate::room::{Buffers, add_after, lay_over, room_for};
use crate::runs::{append_places, byte_of, filled, take_below};
use crate::{Bounds, Piece, Run};
use edge_io::{NoMemory, Preference};
use piece_list::PieceList;
use std::alloc::Global;
use std::marker::Model;

/// Memory for the bytes of one segment of these bounds.
#[derive(Drop)]
struct Room {
    bounds: Bounds,
    buffers: Buffers,
}

/// The segments of one datagram or of one direction of a stream, in order of arrival.
///
/// Contracts see the floor, below which no byte is given any more, the preference, the segments
/// whole, and the bounds of the one segment for which there is room. What is kept is pieces: the bytes
/// from the floor on that are kept, each once.
#[derive(Drop)]
pub struct Queue {
    alloc: Global,
    floor: u64,
    preference: Preference,
    top: u64,
    pieces: PieceList<Piece>,
    arrivals: Arrivals,
    room: Option<Room>,
}

impl Model for Queue {
    ghost use Rattle.overlap_core.specs.QueueState.{QueueState};

    ghost Value = { QueueState };

    ghost use Rattle.overlap_core.specs.Inside.{state_of, IsSound};

    ghost view = { state_of };

    ghost invariant = { IsSound };
}

impl Queue {
    /// A queue with no segment. Takes no memory.
    pub fn new(alloc: Global, preference: Preference, floor: u64) -> Queue
        ensures { result ≡ record { floor = floor; preference = preference; segments = []; room = None } }
    {
        Queue {
            alloc,
            floor,
            preference,
            top: floor,
            pieces: PieceList::new(alloc),
            arrivals: Arrivals::new(),
            room: None,
        }
    }

    /// Makes room for one segment of `len` bytes at `start`, in place of any room that there was.
    /// Without memory there is no room, and nothing else changes.
    pub fn reserve(&mut self, start: u64, len: usize) -> Result<(), NoMemory>
        requires some { 0 < len }
        requires fits { start + len < 2 ^ 64 }
        ensures ok { OnOk result (self.new ≡ with_room self.old (Some (record { start = start; end = start + len }))) }
        ensures err { OnErr result (self.new ≡ with_room self.old None) }
    {
        self.room = None;
        let end = start + len as u64;
        let bounds = Bounds { start, end };
        let buffers = room_for(self.alloc, &mut self.pieces, self.floor, self.top, bounds)?;
        self.room = Some(Room { bounds, buffers });
        Ok(())
    }

    /// Adds a segment for which there is room, and uses up the room. Takes no memory.
    pub fn insert_reserved(&mut self, start: u64, bytes: &[u8])
        requires { self.old.room ≡ Some (record { start = start; end = start + length bytes.now }) }
        ensures { self.new ≡ with_segment self.old (record { start = start; bytes = bytes.now }) }
    {
        if let Some(room) = self.room.take() {
            let Room { bounds, buffers } = room;
            let new = Arriving::new(start, bytes);
            lay_over(&mut self.pieces, buffers, self.preference, self.floor, &new);
            self.top = self.top.max(bounds.end);
            self.arrivals = self.arrivals.with(&new);
        }
    }

    /// Makes room for a segment and adds it. Without memory no segment and no byte changes. There is no
    /// room afterwards.
    pub fn insert(&mut self, start: u64, bytes: &[u8]) -> Result<(), NoMemory>
        requires some { 0 < length bytes.now }
        requires fits { start + length bytes.now < 2 ^ 64 }
        ensures ok { OnOk result (self.new ≡ with_segment self.old (record { start = start; bytes = bytes.now })) }
        ensures err { OnErr result (self.new ≡ with_room self.old None) }
    {
        if self.covered_end() <= start {
            return self.insert_after(start, bytes);
        }
        self.reserve(start, bytes.len())?;
        self.insert_reserved(start, bytes);
        Ok(())
    }

    /// Makes room for a segment after all that came, and adds it, in one step.
    fn insert_after(&mut self, start: u64, bytes: &[u8]) -> Result<(), NoMemory>
        requires after { covered_end self.old.floor self.old.segments ≤ start }
        requires some { 0 < length bytes.now }
        requires fits { start + length bytes.now < 2 ^ 64 }
        ensures ok { OnOk result (self.new ≡ with_segment self.old (record { start = start; bytes = bytes.now })) }
        ensures err { OnErr result (self.new ≡ with_room self.old None) }
    {
        self.room = None;
        let new = Arriving::new(start, bytes);
        add_after(self.alloc, &mut self.pieces, &new)?;
        self.top = new.bounds().end;
        self.arrivals = self.arrivals.with(&new);
        Ok(())
    }

    /// The byte that the host keeps at the place: none exactly below the floor and where no segment
    /// covers the place. Takes no memory.
    pub fn byte(&self, place: u64) -> Option<u8>
        ensures value { result ≡ byte_of self.now place }
        ensures some { IsSome result ↔ ((self.now.floor ≤ place) × IsTrue (is_covered self.now.segments place)) }
    {
        if place < self.floor {
            return None;
        }
        byte_of(&self.pieces, place)
    }

    /// What the queue keeps, in order of place: the bytes that are kept from the floor on, each piece with
    /// the whole bounds of the segment that it came in. There are at most as many as they have bytes, each
    /// of another place. The place in the list and its spare nodes are open. Takes no memory.
    #[tactic(auto, using(crate::proofs::Few::few))]
    pub fn pieces(&self) -> &PieceList<Piece>
        ensures order { IsRow self.now.floor result.now.list (covered_end self.now.floor self.now.segments) }
        ensures holds { HoldChosen self.now.preference self.now.segments self.now.floor result.now.list }
        ensures few { length result.now.list ≤ bytes_held result.now.list }
        ensures places { self.now.floor + bytes_held result.now.list ≤ covered_end self.now.floor self.now.segments }
    {
        &self.pieces
    }

    /// The larger of the floor and the greatest end of a segment. Takes no memory.
    pub fn covered_end(&self) -> u64
        ensures value { result ≡ covered_end self.now.floor self.now.segments }
        ensures greatest { IsCoveredEnd self.now.floor self.now.segments result }
    {
        self.top
    }

    /// The place below which no byte is given. Takes no memory.
    pub fn floor(&self) -> u64
        ensures { result ≡ self.now.floor }
    {
        self.floor
    }

    /// Whether every place from the floor on has a byte, as many places as `out` is long; then
    /// `out` holds these bytes. Otherwise the bytes of `out` are open. Takes no memory.
    pub fn fill(&self, out: &mut [u8]) -> bool
        requires { self.now.floor + length out.old < 2 ^ 64 }
        ensures whole { IsTrue result ↔ ((k : ℕ) → k < length out.old
            → IsSome (chosen_byte self.now.preference self.now.segments (self.now.floor + k))) }
        ensures bytes { OnTrue result (AreBytes (chosen_byte self.now.preference self.now.segments) self.now.floor out.new) }
    {
        filled(&self.pieces, self.floor, out)
    }

    /// Whether every place from the floor on has a byte, `len` places; then these bytes are appended to
    /// `out`, which must have room for them. Otherwise `out` stays. Takes no memory.
    pub fn append_to(&self, len: usize, out: &mut Vec<u8>) -> bool
        requires fits { self.now.floor + len < 2 ^ 64 }
        requires room { vec_len out.old + len ≤ vec_capacity out.old }
        ensures whole { IsTrue result ↔ ((k : ℕ) → k < len
            → IsSome (chosen_byte self.now.preference self.now.segments (self.now.floor + k))) }
        ensures bytes { OnTrue result (AppendsBytes (chosen_byte self.now.preference self.now.segments) self.now.floor len
            out.old.items out.new.items) }
        ensures stays { OnFalse result (out.new.items ≡ out.old.items) }
    {
        let before = out.len();
        if append_places(&self.pieces, self.floor, len, out) {
            return true;
        }
        out.truncate(before);
        false
    }

    /// Appends the maximal runs of covered places from the floor on and below `below`, in order,
    /// and makes `below` the floor; there is no room then. Without memory the queue and `out` stay.
    pub fn take_runs(
        &mut self,
        alloc: Global,
        below: u64,
        out: &mut Vec<Run>,
    ) -> Result<(), NoMemory>
        requires { self.old.floor ≤ below }
        ensures runs { OnOk result (AppendsRuns (chosen_byte self.old.preference self.old.segments) self.old.floor below
            out.old.items out.new.items) }
        ensures floor { OnOk result (self.new ≡ from_floor self.old below) }
        ensures err { OnErr result (self.new ≡ self.old) }
        ensures unchanged { OnErr result (out.new.items ≡ out.old.items) }
    {
        take_below(alloc, &mut self.pieces, below, out)?;
        self.floor = below;
        self.top = self.top.max(below);
        self.room = None;
        Ok(())
    }
}
