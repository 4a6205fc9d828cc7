//! One job of a flow, in the flow's place: its items, the rules that match them, and what is then kept.

ghost use Rattle.std.specs.Prelude.{◌≡◌, ◌+◌, ◌-◌, ◌^◌, ◌≤◌, ◌++◌, ℕ, Bool, true, Option};
ghost use Rattle.std.specs.Prelude.{IfOk, OnOk, None, Some, length};
ghost use Rattle.flow_lanes.specs.Detecting.{GoesAt, GoesOn, Leaves, gain_at, gain_of, gain_on};
ghost use Rattle.flow_lanes.specs.Flows.{FlowState as Found, bits_at_hand, session_at_hand};
ghost use Rattle.flow_lanes.specs.Given.{inspection_of, making_of, packet_of};
ghost use Rattle.flow_lanes.specs.Items.{finish_items};
ghost use Rattle.flow_lanes.specs.Kept.{GrowsFound, IsFound, KeepsFound};
ghost use Rattle.flow_lanes.specs.Reach.{IsWithin};
ghost use Rattle.flow_lanes.specs.Sessions.{is_tcp};
ghost use Rattle.flow_lanes.specs.Sound.{HasSessions, IsSoundPacket};
ghost use Rattle.flow_lanes.specs.Staying.{StaysAt};
ghost use Rattle.flow_lanes.specs.Tried.{ByTest, Tallied, Tallies, of_job, of_session, so_far};
ghost use Rattle.flow_lanes.specs.Working.{ended_items, unless_ended};

use crate::arrival::Arrival;
use crate::detecting::{try_and_settle, try_at_end};
use crate::entering::{accept_packet, own_facts, push_current, stay};
use crate::inspector::Inspector;
use crate::keeping::{Flow, FlowState};
use crate::session::Leftover;
use crate::settings::LaneSettings;
use crate::steps::{state_found, take_step};
use crate::tally::JobTally;
use edge_io::{Moment, NoMemory, Pattern};
use option_eval::Steps;
use rule_eval::Item;
use std::alloc::Global;
use std::sync::ledger::Ledger;
use stream5_sessions::{Session, Step};

/// Appends the items of the session at hand, which has ended.
fn push_closing_items(
    alloc: Global,
    moment: Moment,
    found: &mut Option<FlowState>,
    out: &mut Vec<Item>,
) -> Result<(), NoMemory>
    requires { IsWithin (session_at_hand found.old) (2 ^ 63) }
    ensures items { OnOk result (out.new.items ≡ out.old.items ++ ended_items moment true (session_at_hand found.old)) }
    ensures bits { bits_at_hand found.new ≡ bits_at_hand found.old }
    ensures keeps { KeepsFound found.old found.new }
{
    match found {
        None => Ok(()),
        Some(kept) => kept.session.close(alloc, moment, out),
    }
}

/// Ends the session at hand: the rules are tried on its items, and there is none then.
pub(crate) fn end_session<P: Pattern, L: Ledger>(
    inspector: &Inspector<'_, P>,
    moment: Moment,
    found: &mut Option<FlowState>,
    tally: &mut JobTally<L>,
) -> Result<(), NoMemory>
    requires { IsWithin (session_at_hand found.old) (2 ^ 63) }
    ensures tallies { OnOk result (Tallies (inspection_of P.finds inspector.now) (of_session (bits_at_hand found.old)
        (ended_items moment true (session_at_hand found.old))) (so_far tally.old) (so_far tally.new)) }
    ensures found { OnOk result (found.new ≡ None) }
    ensures keeps { KeepsFound found.old found.new }
{
    let mut items = Vec::new(inspector.alloc);
    push_closing_items(inspector.alloc, moment, found, &mut items)?;
    try_at_end(inspector, &items, found, tally)?;
    Ok(())
}

/// Ends it, where it ended before the packet.
fn end_before<P: Pattern, L: Ledger>(
    inspector: &Inspector<'_, P>,
    moment: Moment,
    ended: bool,
    found: &mut Option<FlowState>,
    tally: &mut JobTally<L>,
) -> Result<(), NoMemory>
    requires { IsWithin (session_at_hand found.old) (2 ^ 63) }
    ensures tallies { OnOk result (Tallies (inspection_of P.finds inspector.now) (of_session (bits_at_hand found.old)
        (ended_items moment ended (session_at_hand found.old))) (so_far tally.old) (so_far tally.new)) }
    ensures found { OnOk result (found.new ≡ unless_ended ended found.old) }
    ensures keeps { KeepsFound found.old found.new }
{
    if !ended {
        return Ok(());
    }
    end_session(inspector, moment, found, tally)
}

/// The packet's session begins or goes on: the rules are tried on its items.
fn go_on<P: Pattern, L: Ledger>(
    inspector: &Inspector<'_, P>,
    settings: &LaneSettings,
    p: &Arrival,
    step: &Step,
    state: &Session,
    found: &mut Option<FlowState>,
    tally: &mut JobTally<L>,
) -> Result<(), NoMemory>
    requires within { IsWithin (session_at_hand found.old) (2 ^ 63 - 2 ^ 31) }
    requires size { length p.now.payload.now ≤ 65535 }
    ensures tallies { OnOk result (Tallies (inspection_of P.finds inspector.now)
        (gain_on (making_of settings.now) (packet_of p.now) step.now state.now found.old) (so_far tally.old) (so_far tally.new)) }
    ensures goes { OnOk result (ByTest (inspection_of P.finds inspector.now) (λ trying. GoesOn trying
        (making_of settings.now) (packet_of p.now) step.now state.now found.old found.new)) }
    ensures grows { (tcp : Bool) (places : ℕ) → state.now.tcp ≡ tcp → IsFound tcp places (session_at_hand found.old)
        → IsFound tcp (places + 2 ^ 31) (session_at_hand found.new) }
{
    let alloc = inspector.alloc;
    let mut items = Vec::new(alloc);
    let own = push_current(alloc, settings, p, step, state, found, &mut items)?;
    try_and_settle(inspector, &items, &own, p, step, found, tally)?;
    Ok(())
}

/// A packet that left its session as it is: the rules are tried on its items.
#[inline(always)]
fn packet_stays<P: Pattern, L: Ledger>(
    inspector: &Inspector<'_, P>,
    settings: &LaneSettings,
    p: &Arrival,
    step: &Step,
    found: &mut Option<FlowState>,
    tally: &mut JobTally<L>,
) -> Result<(), NoMemory>
    requires within { IsWithin (session_at_hand found.old) (2 ^ 63 - 2 ^ 31) }
    requires size { length p.now.payload.now ≤ 65535 }
    ensures tallies { (before : Option Found) → StaysAt (making_of settings.now) (packet_of p.now) before step.now found.old
        → OnOk result (Tallies (inspection_of P.finds inspector.now)
        (gain_at (making_of settings.now) (packet_of p.now) step.now before) (so_far tally.old) (so_far tally.new)) }
    ensures goes { (before : Option Found) → StaysAt (making_of settings.now) (packet_of p.now) before step.now found.old
        → OnOk result (ByTest (inspection_of P.finds inspector.now) (λ trying. GoesAt trying
        (making_of settings.now) (packet_of p.now) step.now before found.new)) }
    ensures grows { GrowsFound found.old found.new }
{
    let mut items = Vec::new(inspector.alloc);
    let queued = accept_packet(
        inspector.alloc,
        p,
        step,
        Leftover::none(),
        found,
        &mut items,
    )?;
    let own = own_facts(settings.inserts, p, step, queued, found);
    try_and_settle(inspector, &items, &own, p, step, found, tally)?;
    Ok(())
}

/// A packet of the flow of which this is found, with the rules that match its items.
// Kept out of the line of the packets that leave their session as it is, which are most.
#[inline(never)]
fn packet_on<P: Pattern, L: Ledger>(
    inspector: &Inspector<'_, P>,
    settings: &LaneSettings,
    p: &Arrival,
    found: &mut Option<FlowState>,
    tally: &mut JobTally<L>,
) -> Result<(), NoMemory>
    requires protocol { HasSessions p.now.head.now.body }
    requires found { IsFound (is_tcp p.now.head.now.body) (2 ^ 63 - 2 ^ 31) (session_at_hand found.old) }
    requires size { length p.now.payload.now ≤ 65535 }
    ensures tallies { OnOk result (Tallies (inspection_of P.finds inspector.now)
        (gain_of (making_of settings.now) (packet_of p.now) found.old) (so_far tally.old) (so_far tally.new)) }
    ensures leaves { OnOk result (ByTest (inspection_of P.finds inspector.now) (λ trying. Leaves trying
        (making_of settings.now) (packet_of p.now) found.old found.new)) }
    ensures grows { (places : ℕ) → IsFound (is_tcp p.now.head.now.body) places (session_at_hand found.old)
        → IsFound (is_tcp p.now.head.now.body) (places + 2 ^ 31) (session_at_hand found.new) }
{
    let mut state = state_found(p, found);
    let mut step = Step::default();
    take_step(settings, p, found, &mut state, &mut step);
    end_before(inspector, p.moment, step.ended_before, found, tally)?;
    go_on(inspector, settings, p, &step, &state, found, tally)?;
    Ok(())
}

/// A packet of the flow of which this is found, with the rules that match its items: in place, where it leaves its
/// session as it is.
#[inline(always)]
fn packet_found<P: Pattern, L: Ledger>(
    inspector: &Inspector<'_, P>,
    settings: &LaneSettings,
    p: &Arrival,
    found: &mut Option<FlowState>,
    tally: &mut JobTally<L>,
) -> Result<(), NoMemory>
    requires protocol { HasSessions p.now.head.now.body }
    requires found { IsFound (is_tcp p.now.head.now.body) (2 ^ 63 - 2 ^ 31) (session_at_hand found.old) }
    requires size { length p.now.payload.now ≤ 65535 }
    ensures tallies { OnOk result (Tallies (inspection_of P.finds inspector.now)
        (gain_of (making_of settings.now) (packet_of p.now) found.old) (so_far tally.old) (so_far tally.new)) }
    ensures leaves { OnOk result (ByTest (inspection_of P.finds inspector.now) (λ trying. Leaves trying
        (making_of settings.now) (packet_of p.now) found.old found.new)) }
    ensures grows { (places : ℕ) → IsFound (is_tcp p.now.head.now.body) places (session_at_hand found.old)
        → IsFound (is_tcp p.now.head.now.body) (places + 2 ^ 31) (session_at_hand found.new) }
{
    let mut step = Step::default();
    if stay(settings, p, found, &mut step) {
        packet_stays(inspector, settings, p, &step, found, tally)
    } else {
        packet_on(inspector, settings, p, found, tally)
    }
}

impl Flow {
    /// One more packet of the flow: a tally of its items, with those and their rules that the inspector asks for. The
    /// flow is then as the packet leaves it. Where memory is lacking the packet is counted, and of the session at
    /// hand nothing is said.
    // In the line of each packet, so that its tally isn't passed through memory.
    #[inline(always)]
    pub fn packet<P: Pattern, L: Ledger>(
        &mut self,
        inspector: &Inspector<'_, P>,
        settings: &LaneSettings,
        p: &Arrival,
        visits: Steps<L>,
    ) -> Result<JobTally<L>, NoMemory>
        requires sound { IsSoundPacket (length settings.now.stream.now.engines) (Some self.old.facts)
            (packet_of p.now) }
        requires none { visits ≡ 0 }
        ensures tallied { IfOk result (λ tally. Tallied (inspection_of P.finds inspector.now)
            (gain_of (making_of settings.now) (packet_of p.now) self.old.found) (so_far tally)) }
        ensures leaves { OnOk result (ByTest (inspection_of P.finds inspector.now) (λ trying. Leaves trying
            (making_of settings.now) (packet_of p.now) self.old.found self.new.found)) }
        ensures facts { self.new.facts ≡ record { ends = self.old.facts.ends; packets = self.old.facts.packets + 1 } }
    {
        self.facts.packets += 1;
        let mut tally = JobTally::new(inspector.alloc, visits);
        packet_found(inspector, settings, p, &mut self.found, &mut tally)?;
        Ok(tally)
    }

    /// The first packet of the flow, as `packet` does it: there is no session yet that it could leave as it is.
    pub fn begin<P: Pattern, L: Ledger>(
        &mut self,
        inspector: &Inspector<'_, P>,
        settings: &LaneSettings,
        p: &Arrival,
        visits: Steps<L>,
    ) -> Result<JobTally<L>, NoMemory>
        requires sound { IsSoundPacket (length settings.now.stream.now.engines) (Some self.old.facts)
            (packet_of p.now) }
        requires none { visits ≡ 0 }
        ensures tallied { IfOk result (λ tally. Tallied (inspection_of P.finds inspector.now)
            (gain_of (making_of settings.now) (packet_of p.now) self.old.found) (so_far tally)) }
        ensures leaves { OnOk result (ByTest (inspection_of P.finds inspector.now) (λ trying. Leaves trying
            (making_of settings.now) (packet_of p.now) self.old.found self.new.found)) }
        ensures facts { self.new.facts ≡ record { ends = self.old.facts.ends; packets = self.old.facts.packets + 1 } }
    {
        self.facts.packets += 1;
        let mut tally = JobTally::new(inspector.alloc, visits);
        packet_on(inspector, settings, p, &mut self.found, &mut tally)?;
        Ok(tally)
    }

    /// The end of the flow: a tally of the items that the session at hand still gives. There is no session then.
    /// Where memory is lacking nothing is said of the flow.
    pub fn finish<P: Pattern, L: Ledger>(
        &mut self,
        inspector: &Inspector<'_, P>,
        moment: Moment,
        visits: Steps<L>,
    ) -> Result<JobTally<L>, NoMemory>
        requires { visits ≡ 0 }
        ensures { IfOk result (λ tally. Tallied (inspection_of P.finds inspector.now)
            (of_job (finish_items moment (session_at_hand self.old.found)) self.old.found) (so_far tally)) }
    {
        let mut tally = JobTally::new(inspector.alloc, visits);
        end_session(inspector, moment, &mut self.found, &mut tally)?;
        Ok(tally)
    }
}
