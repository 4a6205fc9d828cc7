//! The session of a packet, in its place: what was left before the packet, the packet's own session, and
//! what it brings.

ghost use Rattle.std.specs.Prelude.{◌≡◌, ◌+◌, ◌-◌, ◌^◌, ◌≤◌, ◌++◌, ℕ, Bool, false, true, length};
ghost use Rattle.std.specs.Prelude.{None, Option, option_map, Some, IfOk, OnOk, if◌then◌else◌};
ghost use Rattle.std.specs.FinSet.{empty};
ghost use Rattle.flow_lanes.specs.Flows.{bits_at_hand, session_at_hand};
ghost use Rattle.flow_lanes.specs.Given.{making_of, packet_of};
ghost use Rattle.flow_lanes.specs.Items.{facts_of, is_queued, session_after};
ghost use Rattle.flow_lanes.specs.Kept.{GrowsFound, IsFound, IsOf, KeepsFound};
ghost use Rattle.flow_lanes.specs.Reach.{AreWithin, IsWithin};
ghost use Rattle.flow_lanes.specs.Sessions.{FlowSession, begun_session, session_of, settled, sizes_of, with_bases};
ghost use Rattle.flow_lanes.specs.Staying.{StaysAt};
ghost use Rattle.flow_lanes.specs.Working.{TellsLeftAt, items_on, own_facts, own_item, streams_of};

use crate::arrival::Arrival;
use crate::keeping::FlowState;
use crate::session::{FlowSession, Leftover};
use crate::settings::LaneSettings;
use crate::streams::push_maybe;
use edge_io::NoMemory;
use flowbit_state::Bits;
use packet_decode::SessionFacts;
use rule_eval::Item;
use std::alloc::Global;
use stream5_sessions::{Session, Step};

/// Takes what is left of stretches that rules have ended.
fn take_left_stretches(alloc: Global, found: &mut Option<FlowState>) -> Result<Leftover, NoMemory>
    requires { IsWithin (session_at_hand found.old) (2 ^ 63) }
    ensures left { IfOk result (TellsLeftAt (session_at_hand found.old)) }
    ensures session { OnOk result (session_at_hand found.new ≡ option_map settled (session_at_hand found.old)) }
    ensures bits { bits_at_hand found.new ≡ bits_at_hand found.old }
    ensures keeps { KeepsFound found.old found.new }
{
    match found {
        None => Ok(Leftover::none()),
        Some(kept) => kept.session.take_left(alloc),
    }
}

/// The session at hand accepts a packet that leaves it as it is, where nothing is left before it: `step` is then
/// what it tells. Of any other packet the answer is false, and nothing changes. Takes no memory.
#[inline(always)]
pub(crate) fn stay(
    settings: &LaneSettings,
    p: &Arrival,
    found: &mut Option<FlowState>,
    step: &mut Step,
) -> bool
    ensures stays { result ≡ true
        → StaysAt (making_of settings.now) (packet_of p.now) found.old step.new found.new }
    ensures still { result ≡ false → found.new ≡ found.old }
    ensures keeps { KeepsFound found.old found.new }
{
    match found {
        None => false,
        Some(kept) => kept.session.stay(settings, p, step),
    }
}

/// A session that the packet begins, before the bases that it sets. No bit of it is set.
fn state_at_begin(
    alloc: Global,
    settings: &LaneSettings,
    p: &Arrival,
    step: &Step,
    state: &Session,
) -> FlowState
    ensures state { result ≡ record {
      session = begun_session (making_of settings.now) (packet_of p.now) step.now state.now;
      bits = empty;
    } }
    ensures within { AreWithin result.session 0 0 }
{
    FlowState {
        session: FlowSession::begin(alloc, settings, p, step, state),
        bits: Bits::new(),
    }
}

/// A session that the packet begins takes its place.
// Kept out of the line of the other packets, which otherwise pay for its moves. Bases are set in its place: a session that
// is lent before it has its place is made elsewhere, and moved. What was there leaves first: where nothing is known to
// be there, there is no code that drops it.
#[inline(never)]
fn begin(
    alloc: Global,
    settings: &LaneSettings,
    p: &Arrival,
    step: &Step,
    state: &Session,
    found: &mut Option<FlowState>,
)
    ensures state { found.new ≡ Some (record {
      session = with_bases step.now (begun_session (making_of settings.now) (packet_of p.now) step.now state.now);
      bits = empty;
    }) }
    ensures within { IsWithin (session_at_hand found.new) 0 }
{
    leave(found);
    if found.is_none() {
        *found = Some(state_at_begin(alloc, settings, p, step, state));
    }
    if let Some(kept) = found {
        kept.session.set_bases(step);
    }
}

/// The session at hand is let go.
// One copy of what is done for all that a session held.
#[inline(never)]
fn let_go(found: &mut Option<FlowState>)
    ensures { found.new ≡ None }
{
    *found = None;
}

/// There is no session any more.
#[inline(always)]
pub(crate) fn leave(found: &mut Option<FlowState>)
    ensures { found.new ≡ None }
{
    if found.is_some() {
        let_go(found);
    }
}

/// The packet's session takes its place: it begins, goes on, or there is none.
#[tactic(auto, unfolding(crate::specs::Sessions::session_of, crate::specs::Sessions::begun_session))]
fn enter(
    alloc: Global,
    settings: &LaneSettings,
    p: &Arrival,
    step: &Step,
    state: &Session,
    found: &mut Option<FlowState>,
)
    ensures session { (before : Option FlowSession) → session_at_hand found.old ≡ option_map settled before
        → session_at_hand found.new ≡ session_of (making_of settings.now) (packet_of p.now) before step.now state.now }
    ensures bits { bits_at_hand found.new
        ≡ (if step.now.tracked then (if step.now.begun then Some empty else bits_at_hand found.old) else None) }
    ensures within { (places : ℕ) → IsWithin (session_at_hand found.old) places
        → IsWithin (session_at_hand found.new) places }
    ensures same { IsOf state.now.tcp (session_at_hand found.new) }
{
    if !step.tracked {
        leave(found);
    } else if step.begun {
        begin(alloc, settings, p, step, state, found);
    } else if let Some(kept) = found {
        kept.session.go_on(step, state);
    }
}

/// The packet's session, if it has one, accepts what the packet brings. True exactly where its data are held.
#[inline(always)]
pub(crate) fn accept_packet(
    alloc: Global,
    p: &Arrival,
    step: &Step,
    left: Leftover,
    found: &mut Option<FlowState>,
    out: &mut Vec<Item>,
) -> Result<bool, NoMemory>
    requires within { IsWithin (session_at_hand found.old) (2 ^ 63 - 2 ^ 31) }
    requires size { length p.now.payload.now ≤ 65535 }
    ensures items { OnOk result (out.new.items
        ≡ out.old.items ++ streams_of (packet_of p.now) step.now left (session_at_hand found.old)) }
    ensures queued { IfOk result (λ queued. queued ≡ is_queued (packet_of p.now) step.now (session_at_hand found.old)) }
    ensures state { step.now.ends ≡ false → OnOk result (session_at_hand found.new
        ≡ session_after (packet_of p.now) step.now (session_at_hand found.old)) }
    ensures sizes { OnOk result (option_map sizes_of (session_at_hand found.new)
        ≡ option_map sizes_of (session_after (packet_of p.now) step.now (session_at_hand found.old))) }
    ensures bits { bits_at_hand found.new ≡ bits_at_hand found.old }
    ensures grows { GrowsFound found.old found.new }
{
    match found {
        None => {
            push_maybe(out, p.moment, (0, 0), left)?;
            Ok(false)
        }
        Some(kept) => kept.session.accept_packet(alloc, p, step, left, out),
    }
}

/// The session facts of a packet: sizes are told of a TCP session that is established.
#[inline(always)]
fn facts_of(p: &Arrival, step: &Step, after: &Option<FlowState>) -> SessionFacts
    ensures { (told : Option FlowSession) → option_map sizes_of (session_at_hand after.now) ≡ option_map sizes_of told
        → result ≡ facts_of (packet_of p.now) step.now told }
{
    let sizes = match after {
        Some(kept) if p.is_tcp() && step.established => Some(kept.session.sizes()),
        _ => None,
    };
    SessionFacts {
        tracked: step.tracked,
        established: step.established,
        from_client: step.from_client,
        sizes,
    }
}

/// The session facts of the packet's own item, unless its data were queued and such packets are no items.
#[inline(always)]
pub(crate) fn own_facts(
    inserts: bool,
    p: &Arrival,
    step: &Step,
    queued: bool,
    after: &Option<FlowState>,
) -> Option<SessionFacts>
    ensures { (told : Option FlowSession) → option_map sizes_of (session_at_hand after.now) ≡ option_map sizes_of told
        → result ≡ own_facts inserts (packet_of p.now) step.now queued told }
{
    if queued && !inserts {
        return None;
    }
    Some(facts_of(p, step, after))
}

/// Appends the streams of the packet's session, which is then as the packet leaves it before an end: the
/// session facts of the packet's own item, if it is one.
pub(crate) fn push_current(
    alloc: Global,
    settings: &LaneSettings,
    p: &Arrival,
    step: &Step,
    state: &Session,
    found: &mut Option<FlowState>,
    out: &mut Vec<Item>,
) -> Result<Option<SessionFacts>, NoMemory>
    requires within { IsWithin (session_at_hand found.old) (2 ^ 63 - 2 ^ 31) }
    requires size { length p.now.payload.now ≤ 65535 }
    ensures items { IfOk result (λ own. out.new.items ++ own_item (packet_of p.now) own ≡ out.old.items
        ++ items_on (making_of settings.now) (packet_of p.now) step.now state.now (session_at_hand found.old)) }
    ensures state { step.now.ends ≡ false
        → OnOk result (session_at_hand found.new ≡ session_after (packet_of p.now) step.now
        (session_of (making_of settings.now) (packet_of p.now) (session_at_hand found.old) step.now state.now)) }
    ensures bits { OnOk result (bits_at_hand found.new
        ≡ (if step.now.tracked then (if step.now.begun then Some empty else bits_at_hand found.old) else None)) }
    ensures grows { (tcp : Bool) (places : ℕ) → state.now.tcp ≡ tcp → IsFound tcp places (session_at_hand found.old)
        → IsFound tcp (places + 2 ^ 31) (session_at_hand found.new) }
{
    let left = take_left_stretches(alloc, found)?;
    enter(alloc, settings, p, step, state, found);
    let queued = accept_packet(alloc, p, step, left, found, out)?;
    Ok(own_facts(settings.inserts, p, step, queued, found))
}
