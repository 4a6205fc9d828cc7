//! A session between two packets, and what a packet does to it (specs/Sessions).

ghost use Rattle.std.specs.Prelude.{◌≡◌, ℕ, ◌+◌, ◌-◌, ◌^◌, ◌≤◌, ◌++◌, [], false, true, length, not};
ghost use Rattle.std.specs.Prelude.{None, Some, IfOk, OnOk, if◌then◌else◌};
ghost use Rattle.flow_lanes.specs.Given.{making_of, packet_of};
ghost use Rattle.flow_lanes.specs.Items.{acked_items, closing_items, held_items, is_queued, stream_items};
ghost use Rattle.flow_lanes.specs.Reach.{AreWithin, GrowsOne, KeepsWithin};
ghost use Rattle.flow_lanes.specs.Sessions.{after_ack, after_data, begun_session, client_at_begin, client_end, is_from_client};
ghost use Rattle.flow_lanes.specs.Sessions.{server_at_begin, server_end, settled, sizes_of, with_bases};
ghost use Rattle.flow_lanes.specs.Staying.{StaysIn};
ghost use Rattle.flow_lanes.specs.Sides.{acked_payloads, left_payloads, queues, side_after_ack, side_after_data};
ghost use Rattle.flow_lanes.specs.Working.{HasNoneLeft, TellsLeft, after_packet, side_of, streams_told, stretches_of, with_side};

use crate::arrival::Arrival;
use crate::cutting::Stretch;
use crate::settings::LaneSettings;
use crate::side::SessionSide;
use crate::steps::rules_of;
use crate::streams::push_maybe;
use edge_io::{Moment, NoMemory};
use rule_eval::Item;
use std::alloc::Global;
use std::marker::Model;
use stream5_sessions::{End, Session, Step};

/// A session: its phase, the end to which its first packet went, and its sides.
#[derive(Drop)]
pub(crate) struct FlowSession {
    pub state: Session,
    pub opened_to: End,
    pub client: SessionSide,
    pub server: SessionSide,
}

/// Payloads of both sides.
#[derive(Drop)]
pub(crate) struct Stretches {
    pub client: Stretch,
    pub server: Stretch,
}

/// What is left of a session's stretches that have ended, if something may be. It is kept in a box, so that a packet
/// before which nothing is left moves no more than a word. Contracts see the payloads of both sides, if there are any.
#[derive(Drop)]
pub(crate) struct Leftover {
    pub both: Option<Box<Stretches>>,
}

impl Model for Leftover {
    ghost use Rattle.std.specs.Prelude.{Option, option_map};
    ghost use Rattle.flow_lanes.specs.declared.session.Stretches.{Stretches};

    ghost Value = { Option Stretches };

    ghost view = { λ left. option_map (λ both. both.value) left.both };
}

impl Leftover {
    /// Nothing is left. Takes no memory.
    pub fn none() -> Leftover
        ensures { result ≡ None }
    {
        Leftover { both: None }
    }

    /// These stretches may be left.
    fn some(alloc: Global, both: Stretches) -> Result<Leftover, NoMemory>
        ensures { IfOk result (λ left. left ≡ Some both) }
    {
        Ok(Leftover {
            both: Some(Box::new(alloc, both)?),
        })
    }
}

/// The client sent the packet. Where no client is known, neither data nor acknowledgements count.
pub(crate) fn is_from_client(step: &Step) -> bool
    ensures { result ≡ is_from_client step.now }
{
    step.from_client.unwrap_or(true)
}

/// The client's end of a session that the packet begins.
fn client_end(p: &Arrival, step: &Step) -> End
    ensures { result ≡ client_end (packet_of p.now) step.now }
{
    if is_from_client(step) {
        p.sender()
    } else {
        p.receiver()
    }
}

/// The server's end of a session that the packet begins.
fn server_end(p: &Arrival, step: &Step) -> End
    ensures { result ≡ server_end (packet_of p.now) step.now }
{
    if is_from_client(step) {
        p.receiver()
    } else {
        p.sender()
    }
}

/// The client's side at the begin.
fn client_side(
    alloc: Global,
    settings: &LaneSettings,
    p: &Arrival,
    client: End,
    server: End,
) -> SessionSide
    ensures { result ≡ client_at_begin (making_of settings.now) (packet_of p.now) client server }
{
    let to = p.toward(server);
    let on = settings.has_client_port(to.engine, server.port);
    let limits = settings.limits_to(to.engine);
    SessionSide::at_begin(alloc, client, server, limits, to.preference, on)
}

/// The server's side at the begin.
fn server_side(
    alloc: Global,
    settings: &LaneSettings,
    p: &Arrival,
    client: End,
    server: End,
) -> SessionSide
    ensures { result ≡ server_at_begin (making_of settings.now) (packet_of p.now) client server }
{
    let to = p.toward(client);
    let on = settings.has_server_port(to.engine, server.port);
    let limits = settings.limits_to(to.engine);
    SessionSide::at_begin(alloc, server, client, limits, to.preference, on)
}

impl FlowSession {
    /// A session that the packet begins. Takes no memory.
    #[tactic(auto, unfolding(crate::specs::Sessions::begun_session))]
    pub fn begin(
        alloc: Global,
        settings: &LaneSettings,
        p: &Arrival,
        step: &Step,
        state: &Session,
    ) -> FlowSession
        ensures state { result ≡ begun_session (making_of settings.now) (packet_of p.now) step.now state.now }
        ensures within { AreWithin result 0 0 }
    {
        let client = client_end(p, step);
        let server = server_end(p, step);
        FlowSession {
            state: *state,
            opened_to: p.receiver(),
            client: client_side(alloc, settings, p, client, server),
            server: server_side(alloc, settings, p, client, server),
        }
    }

    /// The packet sets bases.
    pub fn set_bases(&mut self, step: &Step)
        ensures state { self.new ≡ with_bases step.now self.old }
        ensures within { KeepsWithin self.old self.new }
    {
        self.client.set_base(step.client_base);
        self.server.set_base(step.server_base);
    }

    /// Goes on after a packet that leaves the session here, with the bases that the packet sets.
    pub fn go_on(&mut self, step: &Step, state: &Session)
        ensures state { self.new ≡ with_bases step.now (record self.old { state = state.now }) }
        ensures within { KeepsWithin self.old self.new }
    {
        self.state = *state;
        self.set_bases(step);
    }

    /// Accepts a packet that leaves the session as it is, where nothing is left of stretches that have ended: `step`
    /// is then what it tells. Of any other packet the answer is false, and nothing changes. Takes no memory.
    #[inline(always)]
    pub fn stay(&mut self, settings: &LaneSettings, p: &Arrival, step: &mut Step) -> bool
        ensures stays { result ≡ true
            → StaysIn (making_of settings.now) (packet_of p.now) self.old step.new self.new }
        ensures still { result ≡ false → self.new ≡ self.old }
        ensures within { KeepsWithin self.old self.new }
        ensures tcp { self.new.state.tcp ≡ self.old.state.tcp }
    {
        if self.has_left() {
            return false;
        }
        let rules = rules_of(settings, p, self.opened_to);
        self.state
            .stay(&p.head.ip, &p.head.body, p.moment, rules, step)
    }

    /// How far the data of the client and of the server reach.
    pub fn sizes(&self) -> (u64, u64)
        ensures { result ≡ sizes_of self.now }
    {
        (self.client.extent.size(), self.server.extent.size())
    }

    /// Whether something may be left of stretches that have ended. Takes no memory.
    fn has_left(&self) -> bool
        ensures client { result ≡ false → HasNoneLeft self.now.client }
        ensures server { result ≡ false → HasNoneLeft self.now.server }
    {
        self.client.has_left() || self.server.has_left()
    }

    /// Takes what is left of stretches that have ended; None where nothing can be.
    #[inline(always)]
    pub fn take_left(&mut self, alloc: Global) -> Result<Leftover, NoMemory>
        requires { AreWithin self.old (2 ^ 63) (2 ^ 63) }
        ensures left { IfOk result (TellsLeft self.old) }
        ensures state { OnOk result (self.new ≡ settled self.old) }
        ensures within { KeepsWithin self.old self.new }
        ensures same { self.new.state ≡ self.old.state }
    {
        if !self.has_left() {
            return Ok(Leftover::none());
        }
        self.take_some_left(alloc)
    }

    /// Takes what is left of stretches that have ended, where something may be left.
    // Kept out of the line of most packets, before which nothing is left.
    #[inline(never)]
    fn take_some_left(&mut self, alloc: Global) -> Result<Leftover, NoMemory>
        requires { AreWithin self.old (2 ^ 63) (2 ^ 63) }
        ensures left { IfOk result (TellsLeft self.old) }
        ensures state { OnOk result (self.new ≡ settled self.old) }
        ensures within { KeepsWithin self.old self.new }
        ensures same { self.new.state ≡ self.old.state }
    {
        let both = self.take_left_stretches(alloc)?;
        let left = Leftover::some(alloc, both)?;
        Ok(left)
    }

    /// Takes what is left of stretches that have ended, of both sides.
    fn take_left_stretches(&mut self, alloc: Global) -> Result<Stretches, NoMemory>
        requires { AreWithin self.old (2 ^ 63) (2 ^ 63) }
        ensures stretches { IfOk result (λ both. both ≡ stretches_of left_payloads self.old) }
        ensures state { OnOk result (self.new ≡ settled self.old) }
        ensures within { KeepsWithin self.old self.new }
        ensures same { self.new.state ≡ self.old.state }
    {
        let client = self.client.take_left_stretch(alloc)?;
        let server = self.server.take_left_stretch(alloc)?;
        Ok(Stretches { client, server })
    }

    /// Appends the items of all that both sides hold, the client's first. Of the session it is said that its phase
    /// and its sizes stay, and that no side comes further.
    // Kept out of the line of most packets, which end no session.
    #[inline(never)]
    pub fn push_held_items(
        &mut self,
        alloc: Global,
        moment: Moment,
        sizes: (u64, u64),
        out: &mut Vec<Item>,
    ) -> Result<(), NoMemory>
        requires { AreWithin self.old (2 ^ 63) (2 ^ 63) }
        ensures items { OnOk result (out.new.items ≡ out.old.items ++ held_items self.old moment sizes) }
        ensures sizes { OnOk result (sizes_of self.new ≡ sizes_of self.old) }
        ensures within { KeepsWithin self.old self.new }
        ensures same { self.new.state ≡ self.old.state }
    {
        self.client
            .push_held_items(alloc, true, moment, sizes, out)?;
        self.server
            .push_held_items(alloc, false, moment, sizes, out)?;
        Ok(())
    }

    /// Appends the items of a session that has ended: they tell its last sizes.
    #[tactic(auto, unfolding(crate::specs::Items::closing_items))]
    pub fn close(
        &mut self,
        alloc: Global,
        moment: Moment,
        out: &mut Vec<Item>,
    ) -> Result<(), NoMemory>
        requires { AreWithin self.old (2 ^ 63) (2 ^ 63) }
        ensures items { OnOk result (out.new.items ≡ out.old.items ++ closing_items self.old moment) }
        ensures within { KeepsWithin self.old self.new }
        ensures same { self.new.state ≡ self.old.state }
    {
        let sizes = self.sizes();
        let left = self.take_left(alloc)?;
        push_maybe(out, moment, sizes, left)?;
        self.push_held_items(alloc, moment, sizes, out)
    }

    /// One side accepts an acknowledgement of its data: the client's, or the server's.
    fn ack_side(
        &mut self,
        alloc: Global,
        of_client: bool,
        ack: u32,
        moment: Moment,
        sizes: (u64, u64),
        out: &mut Vec<Item>,
    ) -> Result<(), NoMemory>
        requires { AreWithin self.old (2 ^ 63) (2 ^ 63) }
        ensures items { OnOk result (out.new.items ≡ out.old.items ++ stream_items
            (side_of of_client self.old) of_client moment sizes (acked_payloads (side_of of_client self.old) ack)) }
        ensures state { OnOk result (self.new
            ≡ with_side of_client (side_after_ack (side_of of_client self.old) ack) self.old) }
        ensures grows { GrowsOne of_client self.old self.new }
        ensures same { self.new.state ≡ self.old.state }
    {
        if of_client {
            self.client.accept_ack(alloc, ack, true, moment, sizes, out)
        } else {
            self.server
                .accept_ack(alloc, ack, false, moment, sizes, out)
        }
    }

    /// Accepts the packet's acknowledgement, where that counts, and appends the items of the other side that
    /// this flushes.
    #[tactic(auto, unfolding(crate::specs::Sessions::after_ack))]
    pub fn accept_ack(
        &mut self,
        alloc: Global,
        p: &Arrival,
        step: &Step,
        sizes: (u64, u64),
        out: &mut Vec<Item>,
    ) -> Result<(), NoMemory>
        requires { AreWithin self.old (2 ^ 63) (2 ^ 63) }
        ensures items { OnOk result (out.new.items
            ≡ out.old.items ++ acked_items (packet_of p.now) step.now self.old sizes) }
        ensures state { OnOk result (self.new ≡ after_ack (packet_of p.now) step.now self.old) }
        ensures grows { GrowsOne (not (is_from_client step.now)) self.old self.new }
        ensures same { self.new.state ≡ self.old.state }
    {
        if !step.counts_ack {
            return Ok(());
        }
        let of_client = !is_from_client(step);
        self.ack_side(alloc, of_client, p.ack(), p.moment, sizes, out)
    }

    /// One side accepts data: the client's, or the server's. True exactly where they are held.
    fn data_side(&mut self, of_client: bool, seq: u32, bytes: &[u8]) -> Result<bool, NoMemory>
        requires within { AreWithin self.old (2 ^ 63) (2 ^ 63) }
        requires size { length bytes.now ≤ 65535 }
        ensures held { IfOk result (λ queued. queued ≡ queues (side_of of_client self.old) seq bytes.now) }
        ensures state { OnOk result (self.new
            ≡ with_side of_client (side_after_data (side_of of_client self.old) seq bytes.now) self.old) }
        ensures grows { GrowsOne of_client self.old self.new }
        ensures same { self.new.state ≡ self.old.state }
    {
        if of_client {
            self.client.accept_data(seq, bytes)
        } else {
            self.server.accept_data(seq, bytes)
        }
    }

    /// Accepts the packet's data, where those count. True exactly where they are held.
    #[tactic(auto, unfolding(crate::specs::Sessions::after_data))]
    pub fn accept_data(&mut self, p: &Arrival, step: &Step) -> Result<bool, NoMemory>
        requires within { AreWithin self.old (2 ^ 63) (2 ^ 63) }
        requires size { length p.now.payload.now ≤ 65535 }
        ensures held { IfOk result (λ queued. queued ≡ is_queued (packet_of p.now) step.now (Some self.old)) }
        ensures state { OnOk result (self.new ≡ after_data (packet_of p.now) step.now self.old) }
        ensures grows { GrowsOne (is_from_client step.now) self.old self.new }
        ensures same { self.new.state ≡ self.old.state }
    {
        if !step.takes_data {
            return Ok(false);
        }
        let queued = self.data_side(is_from_client(step), p.seq(), p.payload)?;
        Ok(queued)
    }

    /// Accepts what the packet brings: appends what was left before it, what its acknowledgement flushes and,
    /// where it ends the session, all that is held. True exactly where its data are held.
    #[inline(always)]
    pub fn accept_packet(
        &mut self,
        alloc: Global,
        p: &Arrival,
        step: &Step,
        left: Leftover,
        out: &mut Vec<Item>,
    ) -> Result<bool, NoMemory>
        requires within { AreWithin self.old (2 ^ 63 - 2 ^ 31) (2 ^ 63 - 2 ^ 31) }
        requires size { length p.now.payload.now ≤ 65535 }
        ensures items { OnOk result (out.new.items
            ≡ out.old.items ++ streams_told (packet_of p.now) step.now left self.old) }
        ensures queued { IfOk result (λ queued. queued ≡ is_queued (packet_of p.now) step.now (Some self.old)) }
        ensures state { step.now.ends ≡ false
            → OnOk result (self.new ≡ after_packet (packet_of p.now) step.now self.old) }
        ensures sizes { OnOk result (sizes_of self.new ≡ sizes_of (after_packet (packet_of p.now) step.now self.old)) }
        ensures grows { (places : ℕ) → AreWithin self.old places places
            → AreWithin self.new (places + 2 ^ 31) (places + 2 ^ 31) }
        ensures same { self.new.state ≡ self.old.state }
    {
        let queued = self.accept_data(p, step)?;
        let sizes = self.sizes();
        push_maybe(out, p.moment, sizes, left)?;
        self.accept_ack(alloc, p, step, sizes, out)?;
        self.end_if(alloc, step.ends, p.moment, sizes, out)?;
        Ok(queued)
    }

    /// Appends the items of all that is held, where the session ends.
    fn end_if(
        &mut self,
        alloc: Global,
        ends: bool,
        moment: Moment,
        sizes: (u64, u64),
        out: &mut Vec<Item>,
    ) -> Result<(), NoMemory>
        requires { AreWithin self.old (2 ^ 63) (2 ^ 63) }
        ensures items { OnOk result (out.new.items
            ≡ out.old.items ++ (if ends then held_items self.old moment sizes else [])) }
        ensures state { ends ≡ false → OnOk result (self.new ≡ self.old) }
        ensures sizes { OnOk result (sizes_of self.new ≡ sizes_of self.old) }
        ensures within { KeepsWithin self.old self.new }
        ensures same { self.new.state ≡ self.old.state }
    {
        if !ends {
            return Ok(());
        }
        self.push_held_items(alloc, moment, sizes, out)
    }
}
