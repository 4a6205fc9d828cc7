//! What a packet tells of its session.

ghost use Rattle.std.specs.Prelude.{◌≡◌, Option};
ghost use Rattle.stream5_sessions.specs.Phases.{IsBodyOf};
ghost use Rattle.flow_lanes.specs.Flows.{session_at_hand};
ghost use Rattle.flow_lanes.specs.Given.{making_of, packet_of};
ghost use Rattle.flow_lanes.specs.Sessions.{FlowSession, opening_end, session_rules, state_found, state_of, step_of};

use crate::arrival::Arrival;
use crate::keeping::FlowState;
use crate::settings::LaneSettings;
use stream5_sessions::{End, Session, SessionRules, Step};

/// The state of the session that the packet finds.
pub(crate) fn state_found(p: &Arrival, found: &Option<FlowState>) -> Session
    ensures { result ≡ state_found (packet_of p.now) (session_at_hand found.now) }
{
    match found {
        None => Session::new(p.is_tcp()),
        Some(kept) => kept.session.state,
    }
}

/// The end to which the session's first packet went; it is the packet's own where there is no session.
fn opening_end(p: &Arrival, found: &Option<FlowState>) -> End
    ensures { result ≡ opening_end (packet_of p.now) (session_at_hand found.now) }
{
    match found {
        None => p.receiver(),
        Some(kept) => kept.session.opened_to,
    }
}

/// The settings by which the packet is read, where its session's first packet went to this end.
pub(crate) fn rules_of(settings: &LaneSettings, p: &Arrival, opened_to: End) -> SessionRules
    ensures { (found : Option FlowSession) → opening_end (packet_of p.now) found ≡ opened_to
        → result ≡ session_rules (making_of settings.now) (packet_of p.now) found }
{
    let to = p.toward(opened_to);
    SessionRules {
        timeout: settings.timeout_to(p.is_tcp(), to.engine),
        needed: to.needed,
        needed_new: p.to_dst.needed,
    }
}

/// The settings by which the packet is read.
fn session_rules(settings: &LaneSettings, p: &Arrival, found: &Option<FlowState>) -> SessionRules
    ensures { result ≡ session_rules (making_of settings.now) (packet_of p.now) (session_at_hand found.now) }
{
    rules_of(settings, p, opening_end(p, found))
}

/// Moves the state on that the packet finds, and writes what the packet tells of its session.
// Both are written in their places: answered, they would be moved from call to call.
#[tactic(auto, unfolding(crate::specs::Sessions::step_of, crate::specs::Sessions::state_of))]
pub(crate) fn take_step(
    settings: &LaneSettings,
    p: &Arrival,
    found: &Option<FlowState>,
    state: &mut Session,
    step: &mut Step,
)
    requires found { state.old ≡ state_found (packet_of p.now) (session_at_hand found.now) }
    requires protocol { IsBodyOf state.old.tcp p.now.head.now.body }
    ensures step { step.new ≡ step_of (making_of settings.now) (packet_of p.now) (session_at_hand found.now) }
    ensures state { state.new ≡ state_of (making_of settings.now) (packet_of p.now) (session_at_hand found.now) }
{
    let rules = session_rules(settings, p, found);
    state.take(
        &p.head.ip,
        &p.head.body,
        p.payload.len(),
        p.moment,
        &rules,
        step,
    );
}
