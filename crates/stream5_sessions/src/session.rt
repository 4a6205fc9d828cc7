//! The session of a flow, moved on by its packets.
ghost use Rattle.std.specs.Prelude.{◌≡◌, ℕ, Bool, ◌||◌, true, false, if◌then◌else◌};
ghost use Rattle.stream5_sessions.specs.Phases.{IsBodyOf, segment_of, no_session, base_after, step_of, state_after};
ghost use Rattle.stream5_sessions.specs.Phases.{taken, by_row, client_fin_after, is_timed_out, at_hand, reading, server_fin_after, session_step};
ghost use Rattle.stream5_sessions.specs.Staying.{stays_as_is};

use crate::End;
use crate::rows::{in_none, is_from, row_of};
use crate::segment::{SessionSegment, fin_end, segment_of};
use crate::state::{Change, Phase, State, is_timed_out};
use crate::staying::{staying_step, stays_as_is};
use crate::step::{SessionRules, Step};
use edge_io::Moment;
use packet_decode::{Body, IpHead};
use std::marker::Model;

/// The session of a flow, of TCP or UDP: where it is after the flow's packets so far.
#[derive(Clone, Copy, Debug, PartialEq, Eq)]
pub struct Session {
    state: State,
}

impl Model for Session {
    ghost use Rattle.stream5_sessions.specs.declared.state.State.{State};

    ghost Value = { State };

    ghost view = { λ session. session.state };

    ghost inverse = { λ state. record { state = state } };
}

impl Session {
    /// A session before its first packet: there is none yet.
    pub fn new(tcp: bool) -> Session
        ensures { result ≡ no_session tcp (record { nanos = 0 }) }
    {
        Session {
            state: none(tcp, Moment { nanos: 0 }),
        }
    }

    /// Takes one packet of the flow, with `len` bytes of data: what it tells of its session. Takes no
    /// memory.
    #[tactic(auto, using(crate::proofs::StepLaws::session_step_tcp))]
    pub fn step(
        &mut self,
        ip: &IpHead,
        body: &Body,
        len: usize,
        moment: Moment,
        rules: SessionRules,
    ) -> Step
        requires { IsBodyOf self.old.tcp body.now }
        ensures step { result ≡ (session_step self.old (segment_of ip.now body.now len moment) rules).step }
        ensures session { self.new ≡ (session_step self.old (segment_of ip.now body.now len moment) rules).state }
        ensures protocol { self.new.tcp ≡ self.old.tcp }
    {
        let mut step = Step::default();
        self.take(ip, body, len, moment, &rules, &mut step);
        step
    }

    /// Takes one packet as `step` does, which writes there what the packet tells.
    // It is written in its place: answered, it would be moved from call to call.
    #[tactic(auto, using(crate::proofs::StepLaws::session_step_tcp))]
    pub fn take(
        &mut self,
        ip: &IpHead,
        body: &Body,
        len: usize,
        moment: Moment,
        rules: &SessionRules,
        step: &mut Step,
    )
        requires { IsBodyOf self.old.tcp body.now }
        ensures step { step.new ≡ (session_step self.old (segment_of ip.now body.now len moment) rules.now).step }
        ensures session { self.new ≡ (session_step self.old (segment_of ip.now body.now len moment) rules.now).state }
        ensures protocol { self.new.tcp ≡ self.old.tcp }
    {
        let segment = segment_of(ip, body, len, moment, self.state.tcp);
        session_step(&mut self.state, &segment, rules, step);
    }

    /// Takes one packet of the flow where it leaves the session as it is, but for the moment of its last packet.
    /// `step` is then what `Session::step` would tell. Of any other packet the answer is false, and nothing
    /// changes. Takes no memory.
    #[inline(always)]
    pub fn stay(
        &mut self,
        ip: &IpHead,
        body: &Body,
        moment: Moment,
        rules: SessionRules,
        step: &mut Step,
    ) -> bool
        ensures stays { (len : ℕ) → result ≡ stays_as_is self.old (segment_of ip.now body.now len moment) rules }
        ensures told { result ≡ true → (len : ℕ)
            → session_step self.old (segment_of ip.now body.now len moment) rules ≡ record { step = step.new; state = self.new } }
        ensures session { self.new ≡ (if result then record self.old { last = moment } else self.old) }
        ensures untold { result ≡ false → step.new ≡ step.old }
    {
        let stays = stays_as_is(&self.state, ip, body, moment, &rules);
        if stays {
            *step = staying_step(&self.state, ip, body);
            self.state.last = moment;
        }
        stays
    }
}

/// The state where there is no session.
fn none(tcp: bool, last: Moment) -> State
    ensures { result ≡ no_session tcp last }
{
    State {
        tcp,
        phase: Phase::NoSession,
        client: None,
        client_base: None,
        server_base: None,
        client_fin: None,
        server_fin: None,
        last,
    }
}

/// The session that the packet meets takes its place: none after the timeout.
#[tactic(auto, unfolding(crate::specs::Phases::at_hand))]
fn meet(state: &mut State, segment: &SessionSegment, rules: &SessionRules)
    ensures { state.new ≡ at_hand state.old segment.now rules.now }
{
    if is_timed_out(state, segment.moment, rules) {
        *state = none(state.tcp, state.last);
    }
}

/// A base that is set takes the place of the old one.
fn base_after(new: Option<u32>, old: Option<u32>) -> Option<u32>
    ensures { result ≡ base_after new old }
{
    new.or(old)
}

/// What the packet tells.
fn tell(
    ended_before: bool,
    state: &State,
    change: &Change,
    segment: &SessionSegment,
    step: &mut Step,
)
    ensures { step.new ≡ step_of ended_before state.now change.now segment.now }
{
    step.ended_before = ended_before;
    step.begun = !state.phase.is_open() && change.phase.is_open();
    step.tracked = change.phase.is_open();
    step.established = change.phase.is_established();
    step.from_client = match &change.client {
        Some(client) => Some(client.is(segment.sender)),
        None => None,
    };
    step.takes_data = change.counts;
    step.counts_ack = change.counts && segment.has_ack;
    step.ends = change.ends;
    step.client_base = change.client_base;
    step.server_base = change.server_base;
}

/// Notes the end of a FIN that counts, with this client.
fn note_fin(state: &mut State, client: &Option<End>, segment: &SessionSegment)
    ensures { state.new ≡ record state.old {
      client_fin = client_fin_after (record state.old { client = client.now }) segment.now;
      server_fin = server_fin_after (record state.old { client = client.now }) segment.now;
    } }
{
    if !segment.fin {
        return;
    }
    let end = Some(fin_end(segment));
    if is_from(client, segment) {
        state.client_fin = end;
    } else {
        state.server_fin = end;
    }
}

/// The session goes on after a packet that doesn't end it.
fn go_on(state: &mut State, change: &Change, segment: &SessionSegment)
    ensures { state.new ≡ state_after state.old change.now segment.now }
{
    if change.counts {
        note_fin(state, &change.client, segment);
    }
    state.phase = change.phase;
    state.client = change.client;
    state.client_base = base_after(change.client_base, state.client_base);
    state.server_base = base_after(change.server_base, state.server_base);
    state.last = segment.moment;
}

/// What the packet tells; the session is then as it is after it.
// It goes on in its place: moved from call to call, it would cost more than the table.
#[tactic(auto, unfolding(crate::specs::Phases::taken))]
fn taken(
    ended_before: bool,
    state: &mut State,
    change: &Change,
    segment: &SessionSegment,
    step: &mut Step,
)
    ensures step { step.new ≡ (taken ended_before state.old change.now segment.now).step }
    ensures state { state.new ≡ (taken ended_before state.old change.now segment.now).state }
{
    tell(ended_before, state, change, segment, step);
    if change.ends {
        *state = none(state.tcp, segment.moment);
    } else {
        go_on(state, change, segment);
    }
}

/// Where the session ends before the packet, none stands, and the row is that of none: what is read is then a change.
fn end_before(
    ends_before: bool,
    state: &mut State,
    change: &mut Change,
    segment: &SessionSegment,
    needed_new: bool,
)
    ensures { (timed_out : Bool) → taken (timed_out || ends_before) state.new change.new segment.now
        ≡ by_row timed_out state.old (reading ends_before change.old) segment.now needed_new }
{
    if ends_before {
        *state = none(state.tcp, state.last);
        in_none(segment, needed_new, change);
    }
}

/// One packet of a session.
#[tactic(auto, unfolding(crate::specs::Phases::session_step))]
fn session_step(state: &mut State, segment: &SessionSegment, rules: &SessionRules, step: &mut Step)
    ensures step { step.new ≡ (session_step state.old segment.now rules.now).step }
    ensures state { state.new ≡ (session_step state.old segment.now rules.now).state }
{
    let timed_out = is_timed_out(state, segment.moment, rules);
    meet(state, segment, rules);
    let mut change = Change::NONE;
    let ends_before = row_of(state, segment, rules, &mut change);
    end_before(ends_before, state, &mut change, segment, rules.needed_new);
    taken(timed_out || ends_before, state, &change, segment, step);
}
