//! One side of a session: its segments, and what is given of them.
ghost use Rattle.std.specs.Prelude.{◌≡◌, ℕ, ◌+◌, ◌-◌, ◌^◌, ◌<◌, ◌≤◌, false, true, length, Ok, IfOk, IsTrue, OnOk, OnErr};
ghost use Rattle.stream5_reassembly.specs.Segments.{ack_flushes, ack_place, after_fate, AppendsFlushed, AreLimits, fate_at, Flushes, idle, IsWithinLimits, passed, place_in, segment_fate, started_at, Stays, top};

use crate::counted::count_from;
use crate::sequence::{FIRST_PLACE, place_of};
use crate::{Added, Limits};
use edge_io::{NoMemory, Preference};
use overlap_core::{Queue, Run};
use std::alloc::Global;
use std::marker::Model;

/// The segments that one side of a session sends, from a base on: what was acknowledged is given in
/// runs once it reaches the flush point, and the rest at the end.
///
/// Contracts see the limits, the preference, whether it is started, the sequence number and the place
/// of the base, all segments queued since the start, whole, and how many of them since the last
/// flush.
#[derive(Drop)]
pub struct Direction {
    alloc: Global,
    limits: Limits,
    preference: Preference,
    started: bool,
    base: u32,
    count: u32,
    queue: Queue,
}

impl Model for Direction {
    ghost use Rattle.stream5_reassembly.specs.Segments.{DirectionState};

    ghost Value = { DirectionState };

    ghost use Rattle.stream5_reassembly.specs.Inside.{state_of, IsSound};

    ghost view = { state_of };

    ghost invariant = { IsSound };
}

impl Direction {
    /// A direction that is not started, and holds nothing. Takes no memory.
    pub fn new(alloc: Global, limits: Limits, preference: Preference) -> Direction
        requires { AreLimits limits }
        ensures idle { result ≡ idle limits preference }
        ensures bounds { IsWithinLimits result }
    {
        Direction {
            alloc,
            limits,
            preference,
            started: false,
            base: 0,
            count: 0,
            queue: Queue::new(alloc, preference, FIRST_PLACE),
        }
    }

    /// Starts it, or starts it anew: the base is this sequence number, and all that was held is
    /// dropped. Takes no memory.
    pub fn start(&mut self, seq: u32)
        ensures started { self.new ≡ started_at self.old seq }
        ensures bounds { IsWithinLimits self.new }
    {
        *self = Direction::new(self.alloc, self.limits, self.preference);
        self.started = true;
        self.base = seq;
    }

    /// Whether it is started. One that isn't holds nothing. Takes no memory.
    pub fn started(&self) -> bool
        ensures value { result ≡ self.now.started }
        ensures nothing { result ≡ false → self.now ≡ idle self.now.limits self.now.preference }
        ensures bounds { IsWithinLimits self.now }
    {
        self.started
    }

    /// Adds a segment whose first byte has this sequence number. Only where it is `Queued` anything
    /// changes. Without memory nothing does.
    pub fn add(&mut self, seq: u32, bytes: &[u8]) -> Result<Added, NoMemory>
        requires started { IsTrue self.old.started }
        requires few { passed self.old ≤ 2 ^ 63 }
        requires some { 0 < length bytes.now }
        ensures fate { IfOk result (λ added. added ≡ segment_fate self.old seq bytes.now) }
        ensures state { IfOk result (λ added. self.new ≡ after_fate added self.old seq bytes.now) }
        ensures err { OnErr result (self.new ≡ self.old) }
        ensures bounds { IsWithinLimits self.new }
        ensures passed { passed self.new ≡ passed self.old }
    {
        let start = self.place(seq);
        let fate = self.fate(start, bytes.len());
        if fate == Added::Queued {
            self.queue.insert(start, bytes)?;
            self.count += 1;
        }
        Ok(fate)
    }

    /// An acknowledgement of all bytes before this sequence number: where it reaches the flush point,
    /// the runs below it are appended, and it is the base. Their starts count from the base before.
    /// True exactly where it flushed. Without memory nothing changes.
    pub fn ack(&mut self, alloc: Global, acked: u32, out: &mut Vec<Run>) -> Result<bool, NoMemory>
        requires { passed self.old ≤ 2 ^ 63 }
        ensures flushes { IfOk result (λ flushed. flushed ≡ ack_flushes self.old acked) }
        ensures yes { result ≡ Ok true
            → Flushes self.old self.new (ack_place self.old acked) out.old.items out.new.items }
        ensures no { result ≡ Ok false → Stays self.old self.new out.old.items out.new.items }
        ensures err { OnErr result (Stays self.old self.new out.old.items out.new.items) }
        ensures bounds { IsWithinLimits self.new }
        ensures passed { passed self.new ≤ passed self.old + 2 ^ 30 }
    {
        let to = self.place(acked).min(self.queue.covered_end());
        let flushes = self.started && self.queue.floor() + u64::from(self.limits.flush) <= to;
        if flushes {
            self.flush_to(alloc, to, out)?;
        }
        Ok(flushes)
    }

    /// Appends the runs of all that is held, counted from the base before, and makes top the base.
    /// Where nothing is held nothing changes. Without memory nothing changes.
    pub fn flush_all(&mut self, alloc: Global, out: &mut Vec<Run>) -> Result<(), NoMemory>
        requires { passed self.old ≤ 2 ^ 63 }
        ensures ok { OnOk result
            (Flushes self.old self.new (top self.old) out.old.items out.new.items) }
        ensures nothing { top self.old ≡ self.old.place
            → Stays self.old self.new out.old.items out.new.items }
        ensures unstarted { self.old.started ≡ false
            → Stays self.old self.new out.old.items out.new.items }
        ensures err { OnErr result (Stays self.old self.new out.old.items out.new.items) }
        ensures bounds { IsWithinLimits self.new }
        ensures passed { passed self.new ≤ passed self.old + 2 ^ 30 }
    {
        let top = self.queue.covered_end();
        if top == self.queue.floor() {
            return Ok(());
        }
        self.flush_to(alloc, top, out)
    }

    /// Appends what `flush_all` would append, and the direction is then not started. Without memory
    /// nothing changes.
    pub fn stop(&mut self, alloc: Global, out: &mut Vec<Run>) -> Result<(), NoMemory>
        requires { passed self.old ≤ 2 ^ 63 }
        ensures runs { OnOk result
            (AppendsFlushed self.old (top self.old) out.old.items out.new.items) }
        ensures idle { OnOk result (self.new ≡ idle self.old.limits self.old.preference) }
        ensures nothing { top self.old ≡ self.old.place → out.new.items ≡ out.old.items }
        ensures unstarted { self.old.started ≡ false
            → Stays self.old self.new out.old.items out.new.items }
        ensures err { OnErr result (Stays self.old self.new out.old.items out.new.items) }
        ensures bounds { IsWithinLimits self.new }
        ensures passed { passed self.new ≤ passed self.old }
    {
        self.flush_all(alloc, out)?;
        *self = Direction::new(self.alloc, self.limits, self.preference);
        Ok(())
    }

    /// The place of a sequence number.
    fn place(&self, seq: u32) -> u64
        requires { passed self.now ≤ 2 ^ 63 }
        ensures { result ≡ place_in self.now seq }
    {
        place_of(self.queue.floor(), self.base, seq)
    }

    /// What becomes of a segment of `len` bytes at `start`.
    fn fate(&self, start: u64, len: usize) -> Added
        requires few { passed self.now ≤ 2 ^ 63 }
        requires some { 0 < len }
        ensures { result ≡ fate_at self.now (start + len) }
    {
        let base = self.queue.floor();
        let len = len as u64;
        if len <= base.saturating_sub(start) {
            Added::Old
        } else if len > (base + u64::from(self.limits.bytes)).saturating_sub(start) {
            Added::PastWindow
        } else if self.count == self.limits.segs {
            Added::TooManySegs
        } else {
            Added::Queued
        }
    }

    /// Appends the runs from the base on and below a place, counted from the base, and makes it the
    /// base.
    fn flush_to(&mut self, alloc: Global, to: u64, out: &mut Vec<Run>) -> Result<(), NoMemory>
        requires from { self.old.place ≤ to }
        requires to { to ≤ top self.old }
        ensures ok { OnOk result (Flushes self.old self.new to out.old.items out.new.items) }
        ensures err { OnErr result (Stays self.old self.new out.old.items out.new.items) }
        ensures bounds { IsWithinLimits self.new }
    {
        let base = self.queue.floor();
        let before = out.len();
        self.queue.take_runs(alloc, to, out)?;
        count_from(base, before, out);
        self.base = self.base.wrapping_add((to - base) as u32);
        self.count = 0;
        Ok(())
    }
}
