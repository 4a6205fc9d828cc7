//! The table of phases, a phase a function, a row a branch, in the order of specs/Phases.
ghost use Rattle.std.specs.Prelude.{◌≡◌, Option, is_some, not, ◌&&◌};
ghost use Rattle.stream5_sessions.specs.Phases.{is_from, is_from_server, is_base, unset, stays, ends, begins_none, begins_off, reading};
ghost use Rattle.stream5_sessions.specs.Phases.{begins, begins_mid, goes_mid, counts_on, acks_fin, client_fin_after, larger_end};
ghost use Rattle.stream5_sessions.specs.Phases.{server_fin_after, in_none, in_syn, in_syn_ack, in_est, in_closing, in_off};
ghost use Rattle.stream5_sessions.specs.Phases.{in_udp, row_of, tcp_row};
ghost use Rattle.stream5_sessions.specs.declared.state.State.{State};

use crate::End;
use crate::segment::{SessionSegment, fin_end, plus};
use crate::state::{Change, Phase, State};
use crate::step::SessionRules;

/// The packet is from the client, where one is known.
pub(crate) fn is_from(client: &Option<End>, segment: &SessionSegment) -> bool
    ensures { result ≡ is_from client.now segment.now }
{
    match client {
        Some(client) => client.is(segment.sender),
        None => false,
    }
}

/// The packet is from the server, where a client is known.
fn is_from_server(state: &State, segment: &SessionSegment) -> bool
    ensures { result ≡ is_from_server state.now segment.now }
{
    state.client.is_some() && !is_from(&state.client, segment)
}

/// The number is a base that is known.
fn is_base(base: Option<u32>, number: u32) -> bool
    ensures { result ≡ is_base base number }
{
    match base {
        Some(base) => number == base,
        None => false,
    }
}

/// The number, where there is no base yet.
fn unset(base: Option<u32>, number: u32) -> Option<u32>
    ensures { result ≡ unset base number }
{
    match base {
        Some(_) => None,
        None => Some(number),
    }
}

/// The change of a packet that changes nothing.
fn stays(state: &State, change: &mut Change)
    ensures { change.new ≡ stays state.now }
{
    change.phase = state.phase;
    change.client = state.client;
    change.client_base = None;
    change.server_base = None;
    change.counts = false;
    change.ends = false;
}

/// No session begins.
fn begins_none(change: &mut Change)
    ensures { change.new ≡ begins_none }
{
    change.phase = Phase::NoSession;
    change.client = None;
    change.client_base = None;
    change.server_base = None;
    change.counts = false;
    change.ends = false;
}

/// A session begins with this client.
fn begins(
    phase: Phase,
    client: &End,
    client_base: Option<u32>,
    server_base: Option<u32>,
    change: &mut Change,
)
    ensures { change.new ≡ begins phase client.now client_base server_base }
{
    change.phase = phase;
    change.client = Some(*client);
    change.client_base = client_base;
    change.server_base = server_base;
    change.counts = false;
    change.ends = false;
}

/// The end with the larger port, the sender where the ports are equal.
fn larger_end(segment: &SessionSegment) -> End
    ensures { result ≡ larger_end segment.now }
{
    if segment.sender.port < segment.receiver.port {
        segment.receiver
    } else {
        segment.sender
    }
}

/// A session under way begins.
// Few sessions begin so: kept out of the line of the others.
#[inline(never)]
fn begins_mid(segment: &SessionSegment, change: &mut Change)
    ensures { change.new ≡ begins_mid segment.now }
{
    let client = larger_end(segment);
    let other = if segment.has_ack {
        Some(segment.ack)
    } else {
        None
    };
    let (client_base, server_base) = if client.is(segment.sender) {
        (Some(segment.seq), other)
    } else {
        (other, Some(segment.seq))
    };
    begins(Phase::Mid, &client, client_base, server_base, change);
    change.counts = true;
}

/// A session is taken up under way.
// As few as begin under way.
#[inline(never)]
fn goes_mid(state: &State, segment: &SessionSegment, change: &mut Change)
    requires { change.old ≡ stays state.now }
    ensures { change.new ≡ goes_mid state.now segment.now }
{
    let (client, server) = if is_from(&state.client, segment) {
        (segment.seq, segment.ack)
    } else {
        (segment.ack, segment.seq)
    };
    change.phase = Phase::Mid;
    change.client_base = unset(state.client_base, client);
    change.server_base = unset(state.server_base, server);
    change.counts = true;
}

/// The end of the client's last FIN, with this packet counted.
fn client_fin_after(state: &State, segment: &SessionSegment) -> Option<u32>
    ensures { result ≡ client_fin_after state.now segment.now }
{
    if segment.fin && is_from(&state.client, segment) {
        Some(fin_end(segment))
    } else {
        state.client_fin
    }
}

/// The end of the server's last FIN, with this packet counted.
fn server_fin_after(state: &State, segment: &SessionSegment) -> Option<u32>
    ensures { result ≡ server_fin_after state.now segment.now }
{
    if segment.fin && !is_from(&state.client, segment) {
        Some(fin_end(segment))
    } else {
        state.server_fin
    }
}

/// Acknowledgement and data count.
fn counts_on(state: &State, segment: &SessionSegment, change: &mut Change)
    requires { change.old ≡ stays state.now }
    ensures { change.new ≡ counts_on state.now segment.now }
{
    let closing = client_fin_after(state, segment).is_some()
        && server_fin_after(state, segment).is_some();
    if closing {
        change.phase = Phase::Closing;
    }
    change.counts = true;
}

/// The packet acknowledges the other side's last FIN.
fn acks_fin(state: &State, segment: &SessionSegment) -> bool
    ensures { result ≡ acks_fin state.now segment.now }
{
    let fin = if is_from(&state.client, segment) {
        state.server_fin
    } else {
        state.client_fin
    };
    segment.has_ack && is_base(fin, segment.ack)
}

/// The rows where there is no session.
#[tactic(auto, unfolding(crate::specs::Phases::in_none))]
#[inline(never)]
pub(crate) fn in_none(segment: &SessionSegment, needed: bool, change: &mut Change)
    ensures { change.new ≡ in_none segment.now needed }
{
    if segment.rst {
        begins_none(change);
    } else if segment.syn && !segment.has_ack {
        let base = Some(plus(segment.seq, 1));
        begins(Phase::Syn, &segment.sender, base, None, change);
    } else if segment.syn && segment.has_ack && !needed {
        let base = Some(plus(segment.seq, 1));
        begins(
            Phase::SynAck,
            &segment.receiver,
            Some(segment.ack),
            base,
            change,
        );
    } else if !segment.syn && !needed {
        begins_mid(segment, change);
    } else {
        begins_none(change);
        change.phase = Phase::Off;
    }
}

/// The rows of Syn.
#[tactic(auto, unfolding(crate::specs::Phases::in_syn))]
fn in_syn(state: &State, segment: &SessionSegment, needed: bool, change: &mut Change)
    requires { change.old ≡ stays state.now }
    ensures { change.new ≡ in_syn state.now segment.now needed }
{
    let acked = is_base(state.client_base, segment.ack);
    if segment.rst {
        change.ends = true;
    } else if is_from_server(state, segment) && segment.syn && segment.has_ack && acked {
        change.phase = Phase::SynAck;
        change.server_base = Some(plus(segment.seq, 1));
    } else if is_from(&state.client, segment) && segment.syn && !segment.has_ack {
        change.client_base = Some(plus(segment.seq, 1));
    } else if segment.has_ack && !segment.syn && !needed {
        goes_mid(state, segment, change);
    }
}

/// The rows of SynAck.
#[tactic(auto, unfolding(crate::specs::Phases::in_syn_ack))]
fn in_syn_ack(state: &State, segment: &SessionSegment, change: &mut Change)
    requires { change.old ≡ stays state.now }
    ensures { change.new ≡ in_syn_ack state.now segment.now }
{
    if segment.rst {
        change.ends = true;
    } else if is_from_server(state, segment) && segment.syn && segment.has_ack {
        change.server_base = Some(plus(segment.seq, 1));
    } else if is_from(&state.client, segment) && segment.has_ack && !segment.syn {
        change.phase = Phase::Est;
        change.counts = true;
    }
}

/// The rows of Est and Mid.
#[tactic(auto, unfolding(crate::specs::Phases::in_est))]
fn in_est(state: &State, segment: &SessionSegment, change: &mut Change)
    requires { change.old ≡ stays state.now }
    ensures { change.new ≡ in_est state.now segment.now }
{
    if segment.rst {
        change.ends = true;
    } else if !segment.syn {
        counts_on(state, segment, change);
    }
}

/// The rows of Closing: true where the session ends before the packet.
#[tactic(auto, unfolding(crate::specs::Phases::in_closing))]
fn in_closing(state: &State, segment: &SessionSegment, change: &mut Change) -> bool
    requires { change.old ≡ stays state.now }
    ensures { reading result change.new ≡ in_closing state.now segment.now }
{
    if segment.rst {
        change.ends = true;
        false
    } else if segment.syn && !segment.has_ack {
        true
    } else if !segment.syn {
        change.counts = true;
        change.ends = acks_fin(state, segment);
        false
    } else {
        false
    }
}

/// The rows of Off: true where the session ends before the packet.
#[tactic(auto, unfolding(crate::specs::Phases::in_off))]
fn in_off(segment: &SessionSegment, change: &mut Change) -> bool
    ensures { (state : State) → change.old ≡ stays state
        → reading result change.new ≡ in_off state segment.now }
{
    if segment.syn && !segment.has_ack {
        return true;
    }
    if segment.rst {
        change.ends = true;
    }
    false
}

/// The rows of UDP.
#[tactic(auto, unfolding(crate::specs::Phases::in_udp))]
fn in_udp(state: &State, segment: &SessionSegment, change: &mut Change)
    requires { change.old ≡ stays state.now }
    ensures { change.new ≡ in_udp state.now segment.now }
{
    if !state.phase.is_open() {
        begins(Phase::Syn, &segment.sender, None, None, change);
    } else if is_from_server(state, segment) {
        change.phase = Phase::Est;
    }
}

/// The row that the packet meets, by the session's phase: true where the session ends before the packet, else `change`
/// is then what it changes.
// What changes is written in its place: moved from call to call, it would cost more than the table.
#[tactic(auto, unfolding(crate::specs::Phases::row_of))]
pub(crate) fn row_of(
    state: &State,
    segment: &SessionSegment,
    rules: &SessionRules,
    change: &mut Change,
) -> bool
    ensures { reading result change.new ≡ row_of state.now segment.now rules.now }
{
    stays(state, change);
    if !state.tcp {
        in_udp(state, segment, change);
        return false;
    }
    match state.phase {
        Phase::NoSession => in_none(segment, rules.needed_new, change),
        Phase::Syn => in_syn(state, segment, rules.needed, change),
        Phase::SynAck => in_syn_ack(state, segment, change),
        Phase::Est | Phase::Mid => in_est(state, segment, change),
        Phase::Closing => return in_closing(state, segment, change),
        Phase::Off => return in_off(segment, change),
    }
    false
}
