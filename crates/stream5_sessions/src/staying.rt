//! Packets that leave a session as it is, but for the moment of its last packet (specs/Staying).
//!
//! Most packets are of this kind, so what is asked of them is read where it lies: no `SessionSegment` is made, and no
//! second `State`.
ghost use Rattle.std.specs.Prelude.{◌≡◌, ℕ, option_map};
ghost use Rattle.edge_io.specs.declared.moment.Moment.{Moment};
ghost use Rattle.stream5_sessions.specs.Keys.{same_end};
ghost use Rattle.stream5_sessions.specs.Phases.{is_from, segment_of};
ghost use Rattle.stream5_sessions.specs.Staying.{has_both_fins, is_est, is_under_way, stays_as_is, stays_in, staying_step};

use crate::segment::{has_ack, has_no_control, sender_port};
use crate::state::{Phase, State, is_timed_out};
use crate::step::{SessionRules, Step};
use edge_io::Moment;
use packet_decode::{Body, IpHead};

impl Phase {
    /// The server of a UDP session has sent.
    fn is_est(self) -> bool
        ensures { result ≡ is_est self }
    {
        self == Phase::Est
    }

    /// TCP is under way.
    fn is_under_way(self) -> bool
        ensures { result ≡ is_under_way self }
    {
        matches!(self, Phase::Est | Phase::Mid)
    }
}

/// The ends of both sides' FINs are known.
fn has_both_fins(state: &State) -> bool
    ensures { result ≡ has_both_fins state.now }
{
    state.client_fin.is_some() && state.server_fin.is_some()
}

/// The packet is from the client, where one is known.
fn is_from_client(state: &State, ip: &IpHead, body: &Body) -> bool
    ensures { (len : ℕ) (moment : Moment) → result ≡ is_from state.now.client (segment_of ip.now body.now len moment) }
{
    match &state.client {
        Some(client) => client.has(&ip.src, sender_port(body)),
        None => false,
    }
}

/// Whether the packet leaves the session as it is, by its protocol, where there is a session that is not timed out.
fn stays_in(state: &State, ip: &IpHead, body: &Body) -> bool
    ensures { (len : ℕ) (moment : Moment) → result ≡ stays_in state.now (segment_of ip.now body.now len moment) }
{
    if state.tcp {
        state.phase.is_under_way() && has_no_control(body) && !has_both_fins(state)
    } else {
        state.phase.is_est() || is_from_client(state, ip, body)
    }
}

/// The packet leaves the session as it is, but for the moment of its last packet.
#[tactic(auto, unfolding(crate::specs::Staying::stays_as_is))]
pub(crate) fn stays_as_is(
    state: &State,
    ip: &IpHead,
    body: &Body,
    moment: Moment,
    rules: &SessionRules,
) -> bool
    ensures { (len : ℕ) → result ≡ stays_as_is state.now (segment_of ip.now body.now len moment) rules.now }
{
    state.phase.is_open() && !is_timed_out(state, moment, rules) && stays_in(state, ip, body)
}

/// What such a packet tells.
pub(crate) fn staying_step(state: &State, ip: &IpHead, body: &Body) -> Step
    ensures { (len : ℕ) (moment : Moment)
        → result ≡ staying_step state.now (segment_of ip.now body.now len moment) }
{
    let from_client = match &state.client {
        Some(client) => Some(client.has(&ip.src, sender_port(body))),
        None => None,
    };
    Step {
        ended_before: false,
        begun: false,
        tracked: true,
        established: state.phase.is_established(),
        from_client,
        takes_data: state.tcp,
        counts_ack: state.tcp && has_ack(body),
        ends: false,
        client_base: None,
        server_base: None,
    }
}
