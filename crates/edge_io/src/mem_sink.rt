//! A sink in memory, with short writes and failures.
ghost use Rattle.std.specs.Prelude.{◌≡◌, ◌≤◌, ◌<◌, Some, false, length, take, OnOk, OnErr, IfOk, IsTrue};
ghost use Rattle.edge_io.specs.HeldBytes.{nothing_written, refuses, taken_count, after_write};
ghost use Rattle.edge_io.specs.Told.{grown};

use crate::calls::CallPlan;
use crate::fault::FaultCount;
use crate::{Failed, NoMemory, Sink};
use std::alloc::Global;
use std::marker::Model;

/// A sink whose bytes are in memory, with short writes and failures.
///
/// Contracts see the bytes written, the step, the room, the count of faults and the writes. A write
/// takes no memory: the room is reserved once.
#[derive(Debug, Drop)]
pub struct MemSink {
    written: Vec<u8>,
    step: usize,
    room: usize,
    faults: FaultCount,
    calls: CallPlan,
}

impl Model for MemSink {
    ghost use Rattle.std.specs.Prelude.{◌≤◌, vec_len, vec_capacity};
    ghost use Rattle.edge_io.specs.HeldBytes.{HeldBytes};

    ghost Value = { HeldBytes };

    ghost view = { λ sink. record {
      written = sink.written.items;
      step = sink.step;
      room = sink.room;
      faults = sink.faults;
      calls = sink.calls;
    } };

    ghost invariant = { λ sink. (1 ≤ sink.step) × (vec_len sink.written ≤ sink.room) × (sink.room ≤ vec_capacity sink.written) };
}

impl MemSink {
    /// A sink that takes at most `step` bytes at a write and `room` bytes in all.
    pub fn new(alloc: Global, step: usize, room: usize) -> Result<MemSink, NoMemory>
        requires { 1 ≤ step }
        ensures { IfOk result (λ sink. sink ≡ nothing_written step room) }
    {
        Ok(MemSink {
            written: Vec::with_capacity(alloc, room)?,
            step,
            room,
            faults: FaultCount::new(),
            calls: CallPlan::new(alloc),
        })
    }

    /// Names the writes that fail, in place of those named before: counted from 0.
    pub fn fail_calls(&mut self, calls: &[u32]) -> Result<(), NoMemory>
        ensures named { OnOk result (self.new ≡ record self.old { calls = record self.old.calls { failing = calls.now } }) }
        ensures unchanged { OnErr result (self.new ≡ self.old) }
    {
        self.calls.fail_calls(calls)
    }

    /// The bytes that were written, lent.
    pub fn bytes(&self) -> &[u8]
        ensures { result.now ≡ self.now.written }
    {
        &self.written
    }
}

impl Sink for MemSink {
    ghost written = { λ sink. Some sink.written };

    ghost faults = { λ sink. sink.faults };

    #[tactic(auto, unfolding(crate::specs::Told::grown))]
    fn write(&mut self, piece: &[u8]) -> Result<usize, Failed>
        requires { 0 < length piece.now }
        ensures state { self.new ≡ after_write self.old piece.now }
        ensures count { IfOk result (λ count. count ≡ taken_count self.old (length piece.now)) }
        ensures some { IfOk result (λ count. 1 ≤ count) }
        ensures appended { IfOk result (λ count. Some self.new.written ≡ grown (Some self.old.written) (take count piece.now)) }
        ensures accepted { OnOk result (refuses self.old ≡ false) }
        ensures failed { OnErr result (IsTrue (refuses self.old)) }
        ensures unfailed { OnOk result (self.new.faults ≡ self.old.faults) }
        ensures later { self.old.faults ≤ self.new.faults }
    {
        let fails = self.calls.next_fails();
        let spare = self.room - self.written.len();
        if fails || spare == 0 {
            return Err(self.faults.add());
        }
        let count = piece.len().min(self.step).min(spare);
        match self.written.extend_from_slice(&piece[..count]) {
            Ok(()) => Ok(count),
            // There is room: it was reserved when the sink was made.
            Err(_) => unreachable!(),
        }
    }
}
