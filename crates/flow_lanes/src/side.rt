//! One side of a session.
//!
//! specs/Sides says what becomes of it; a `Direction` puts its data together, an `Extent` counts how far
//! they reach.

ghost use Rattle.std.specs.Prelude.{◌≡◌, ◌+◌, ◌^◌, ◌<◌, ◌≤◌, ◌++◌, false, length, IfOk, OnOk, Some};
ghost use Rattle.stream5_reassembly.specs.Segments.{AreLimits, idle};
ghost use Rattle.flow_lanes.specs.Sides.{acked_payloads, direction_after_data, held_payloads, left_payloads, queues, side_after_ack, side_after_data, side_at_begin, started_by, turned, with_base, without_left};
ghost use Rattle.flow_lanes.specs.Items.{stream_items};
ghost use Rattle.flow_lanes.specs.Streams.{payloads_of};
ghost use Rattle.flow_lanes.specs.Reach.{Grows, Keeps, Reaches};
ghost use Rattle.flow_lanes.specs.Working.{HasNoneLeft, stretch_of};

use crate::cutting::{Stretch, cut_runs};
use crate::streams::{head_between, push_runs};
use edge_io::{Items, Moment, NoMemory, Preference, Text};
use overlap_core::Run;
use rule_eval::Item;
use std::alloc::Global;
use stream5_reassembly::{Added, Direction, Extent, Limits};
use stream5_sessions::End;

/// A side: it sends data from one end of the session to the other.
#[derive(Drop)]
pub(crate) struct SessionSide {
    pub from: End,
    pub to: End,
    /// Whether the side's data are put together.
    pub on: bool,
    /// Whether the side's data have been put together since the session began.
    pub since_begin: bool,
    /// What is queued.
    pub direction: Direction,
    /// How far the data reach, put together or not.
    pub extent: Extent,
}

/// Starts a direction at the segment that it meets, where no base is known.
fn ensure_started(direction: &mut Direction, seq: u32)
    ensures { direction.new ≡ started_by direction.old seq }
{
    if !direction.started() {
        direction.start(seq);
    }
}

impl SessionSide {
    /// A side at its session's begin. Takes no memory.
    pub fn at_begin(
        alloc: Global,
        from: End,
        to: End,
        limits: Limits,
        preference: Preference,
        on: bool,
    ) -> SessionSide
        requires { AreLimits limits }
        ensures { result ≡ side_at_begin from to limits preference on }
    {
        SessionSide {
            from,
            to,
            on,
            since_begin: on,
            direction: Direction::new(alloc, limits, preference),
            extent: Extent::new(),
        }
    }

    /// A packet sets the side's base.
    fn start_at(&mut self, seq: u32)
        ensures { self.new ≡ with_base self.old (Some seq) }
    {
        if self.since_begin {
            self.direction.start(seq);
        }
        self.extent.start(seq);
    }

    /// A packet sets the side's base, or sets none.
    pub fn set_base(&mut self, base: Option<u32>)
        ensures { self.new ≡ with_base self.old base }
    {
        if let Some(seq) = base {
            self.start_at(seq);
        }
    }

    /// Rules turn the side on or off.
    pub fn turn(&mut self, on: bool)
        ensures { self.new ≡ turned on self.old }
    {
        self.on = on;
        self.since_begin = self.since_begin && on;
    }

    /// Accepts data that count. True exactly where they are held.
    #[tactic(auto, unfolding(crate::specs::Sides::side_after_data, crate::specs::Sides::queues))]
    pub fn accept_data(&mut self, seq: u32, bytes: &[u8]) -> Result<bool, NoMemory>
        requires reaches { Reaches self.old (2 ^ 63) }
        requires size { length bytes.now ≤ 65535 }
        ensures held { IfOk result (λ queued. queued ≡ queues self.old seq bytes.now) }
        ensures state { OnOk result (self.new ≡ side_after_data self.old seq bytes.now) }
        ensures grows { Grows self.old self.new }
    {
        let len = bytes.len() as u32;
        if len == 0 {
            return Ok(false);
        }
        let queued = self.queue(seq, bytes)?;
        self.extent.note(seq, len);
        Ok(queued)
    }

    /// Queues a segment where the side is on. True exactly where it is held.
    #[tactic(auto, unfolding(crate::specs::Sides::queues))]
    fn queue(&mut self, seq: u32, bytes: &[u8]) -> Result<bool, NoMemory>
        requires reaches { Reaches self.old (2 ^ 63) }
        requires some { 0 < length bytes.now }
        ensures held { IfOk result (λ queued. queued ≡ queues self.old seq bytes.now) }
        ensures state { OnOk result (self.new
            ≡ record self.old { direction = direction_after_data self.old seq bytes.now }) }
        ensures reaches { Keeps self.old self.new }
    {
        if !self.on {
            return Ok(false);
        }
        ensure_started(&mut self.direction, seq);
        let added = self.direction.add(seq, bytes)?;
        Ok(added == Added::Queued)
    }

    /// Accepts an acknowledgement of its data, and appends the items that this flushes.
    #[tactic(auto, unfolding(crate::specs::Sides::side_after_ack, crate::specs::Sides::acked_payloads))]
    pub fn accept_ack(
        &mut self,
        alloc: Global,
        ack: u32,
        of_client: bool,
        moment: Moment,
        sizes: (u64, u64),
        out: &mut Vec<Item>,
    ) -> Result<(), NoMemory>
        requires reaches { Reaches self.old (2 ^ 63) }
        ensures items { OnOk result (out.new.items
            ≡ out.old.items ++ stream_items self.old of_client moment sizes (acked_payloads self.old ack)) }
        ensures state { OnOk result (self.new ≡ side_after_ack self.old ack) }
        ensures grows { Grows self.old self.new }
    {
        let mut runs = Vec::new(alloc);
        let flushed = self.direction.ack(alloc, ack, &mut runs)?;
        if !flushed {
            return Ok(());
        }
        let head = head_between(self.from, self.to, of_client, moment, sizes);
        push_runs(alloc, head, runs, out)
    }

    /// Takes all that is held, in runs: the direction is then idle.
    #[tactic(auto, unfolding(crate::specs::Sides::held_payloads))]
    fn drain(&mut self, alloc: Global) -> Result<Vec<Run>, NoMemory>
        requires reaches { Reaches self.old (2 ^ 63) }
        ensures payloads { IfOk result (λ runs. payloads_of runs.items ≡ held_payloads self.old) }
        ensures state { OnOk result (self.new
            ≡ record self.old { direction = idle self.old.direction.limits self.old.direction.preference }) }
        ensures keeps { Keeps self.old self.new }
    {
        let mut runs = Vec::new(alloc);
        if !self.direction.started() {
            return Ok(runs);
        }
        self.direction.stop(alloc, &mut runs)?;
        Ok(runs)
    }

    /// Takes the payloads of all that is held: the direction is then idle.
    fn drain_payloads(&mut self, alloc: Global) -> Result<Items<Text>, NoMemory>
        requires reaches { Reaches self.old (2 ^ 63) }
        ensures payloads { IfOk result (λ payloads. payloads ≡ held_payloads self.old) }
        ensures state { OnOk result (self.new
            ≡ record self.old { direction = idle self.old.direction.limits self.old.direction.preference }) }
        ensures keeps { Keeps self.old self.new }
    {
        let runs = self.drain(alloc)?;
        let payloads = cut_runs(alloc, runs)?;
        Ok(payloads)
    }

    /// Appends the items of all that is held; the direction is then idle.
    pub fn push_held_items(
        &mut self,
        alloc: Global,
        of_client: bool,
        moment: Moment,
        sizes: (u64, u64),
        out: &mut Vec<Item>,
    ) -> Result<(), NoMemory>
        requires reaches { Reaches self.old (2 ^ 63) }
        ensures items { OnOk result (out.new.items
            ≡ out.old.items ++ stream_items self.old of_client moment sizes (held_payloads self.old)) }
        ensures state { OnOk result (self.new
            ≡ record self.old { direction = idle self.old.direction.limits self.old.direction.preference }) }
        ensures keeps { Keeps self.old self.new }
    {
        let head = head_between(self.from, self.to, of_client, moment, sizes);
        let runs = self.drain(alloc)?;
        push_runs(alloc, head, runs, out)
    }

    /// Whether something may be left of a stretch that was ended by turning the side off. Takes no memory.
    pub fn has_left(&self) -> bool
        ensures { result ≡ false → HasNoneLeft self.now }
    {
        !self.on && self.direction.started()
    }

    /// Takes what is left of a stretch that was ended by turning the side off.
    pub fn take_left_stretch(&mut self, alloc: Global) -> Result<Stretch, NoMemory>
        requires reaches { Reaches self.old (2 ^ 63) }
        ensures stretch { IfOk result (λ stretch. stretch ≡ stretch_of self.old (left_payloads self.old)) }
        ensures state { OnOk result (self.new ≡ without_left self.old) }
        ensures keeps { Keeps self.old self.new }
    {
        let payloads = if self.on {
            Items::new(alloc)
        } else {
            self.drain_payloads(alloc)?
        };
        Ok(Stretch {
            from: self.from,
            to: self.to,
            payloads,
        })
    }
}
