//! One job, over the flows that a lane keeps.

ghost use Rattle.std.specs.Prelude.{◌≡◌, IfOk, None, length};
ghost use Rattle.flow_lanes.specs.declared.job.Work.TheVariants as works;
ghost use Rattle.flow_lanes.specs.Engines.{Making};
ghost use Rattle.flow_lanes.specs.Given.{inspection_of, making_of, packet_of};
ghost use Rattle.flow_lanes.specs.Kept.{kept_in};
ghost use Rattle.flow_lanes.specs.Sound.{IsSoundPacket, IsSoundWork};
ghost use Rattle.flow_lanes.specs.LanesAfter.{facts_kept};
ghost use Rattle.flow_lanes.specs.Tried.{so_far};
ghost use Rattle.flow_lanes.specs.Whole.{IsDone, known_for};

use crate::arrival::Arrival;
use crate::inspector::Inspector;
use crate::job::Work;
use crate::keeping::{Flow, OpenFlows};
use crate::settings::LaneSettings;
use crate::tally::{JobTally, try_item};
use edge_io::{Moment, NoMemory, Pattern};
use option_eval::Steps;
use packet_decode::ItemHead;
use std::sync::ledger::Ledger;

/// A packet of a flow.
#[inline(always)]
fn do_packet<P: Pattern, L: Ledger>(
    inspector: &Inspector<'_, P>,
    settings: &LaneSettings,
    flow: u64,
    p: &Arrival,
    flows: &mut OpenFlows,
    visits: Steps<L>,
) -> Result<JobTally<L>, NoMemory>
    requires sound { IsSoundPacket (length settings.now.stream.now.engines)
        (facts_kept (kept_in flows.old.entries flow)) (packet_of p.now) }
    requires none { visits ≡ 0 }
    ensures { IfOk result (λ tally. IsDone (inspection_of P.finds inspector.now) (making_of settings.now) p.now.moment
        (works.Packet flow p.now.head.now p.now.payload.now p.now.to_dst p.now.to_src)
        flows.old.entries flows.new.entries (so_far tally)) }
{
    match flows.get_mut(&flow) {
        Some(kept) => {
            let tally = kept.packet(inspector, settings, p, visits)?;
            Ok(tally)
        }
        None => first_packet(inspector, settings, flow, p, flows, visits),
    }
}

/// The first packet of a flow: an empty flow takes its place in the map, and goes on there.
// Kept out of the line of the later packets.
#[inline(never)]
fn first_packet<P: Pattern, L: Ledger>(
    inspector: &Inspector<'_, P>,
    settings: &LaneSettings,
    flow: u64,
    p: &Arrival,
    flows: &mut OpenFlows,
    visits: Steps<L>,
) -> Result<JobTally<L>, NoMemory>
    requires first { kept_in flows.old.entries flow ≡ None }
    requires sound { IsSoundPacket (length settings.now.stream.now.engines) None (packet_of p.now) }
    requires none { visits ≡ 0 }
    ensures { IfOk result (λ tally. IsDone (inspection_of P.finds inspector.now) (making_of settings.now) p.now.moment
        (works.Packet flow p.now.head.now p.now.payload.now p.now.to_dst p.now.to_src)
        flows.old.entries flows.new.entries (so_far tally)) }
{
    let kept = flows.entry(flow)?.or_insert(Flow::new(p));
    let tally = kept.begin(inspector, settings, p, visits)?;
    Ok(tally)
}

/// The end of a flow: it ends in its place, and then it is removed.
fn do_finish<P: Pattern, L: Ledger>(
    inspector: &Inspector<'_, P>,
    moment: Moment,
    flow: u64,
    flows: &mut OpenFlows,
    visits: Steps<L>,
) -> Result<JobTally<L>, NoMemory>
    requires { visits ≡ 0 }
    ensures { (making : Making) → IfOk result (λ tally. IsDone (inspection_of P.finds inspector.now) making moment
        (works.Finish flow) flows.old.entries flows.new.entries (so_far tally)) }
{
    match flows.get_mut(&flow) {
        Some(kept) => {
            let tally = kept.finish(inspector, moment, visits)?;
            flows.remove(&flow);
            Ok(tally)
        }
        None => Ok(JobTally::new(inspector.alloc, visits)),
    }
}

/// An item by itself.
fn do_alone<P: Pattern, L: Ledger>(
    inspector: &Inspector<'_, P>,
    moment: Moment,
    head: &ItemHead,
    payload: &[u8],
    flows: &OpenFlows,
    visits: Steps<L>,
) -> Result<JobTally<L>, NoMemory>
    requires { visits ≡ 0 }
    ensures { (making : Making) → IfOk result (λ tally. IsDone (inspection_of P.finds inspector.now) making moment
        (works.Alone head.now payload.now) flows.now.entries flows.now.entries (so_far tally)) }
{
    let mut tally = JobTally::new(inspector.alloc, visits);
    try_item(inspector, head, payload, &mut None, &mut tally)?;
    Ok(tally)
}

/// A job, over the flows that have not ended.
#[inline(always)]
pub(crate) fn do_work<P: Pattern, L: Ledger>(
    inspector: &Inspector<'_, P>,
    settings: &LaneSettings,
    moment: Moment,
    work: &Work,
    flows: &mut OpenFlows,
    visits: Steps<L>,
) -> Result<JobTally<L>, NoMemory>
    requires sound { IsSoundWork (length settings.now.stream.now.engines) (known_for flows.old.entries work.now)
        moment work.now }
    requires none { visits ≡ 0 }
    ensures { IfOk result (λ tally. IsDone (inspection_of P.finds inspector.now) (making_of settings.now) moment work.now
        flows.old.entries flows.new.entries (so_far tally)) }
{
    match work {
        Work::Alone { head, payload } => {
            do_alone(inspector, moment, head, payload.bytes(), flows, visits)
        }
        Work::Packet {
            flow,
            head,
            payload,
            to_dst,
            to_src,
        } => {
            let p = Arrival {
                head,
                payload: payload.bytes(),
                moment,
                to_dst: *to_dst,
                to_src: *to_src,
            };
            do_packet(inspector, settings, *flow, &p, flows, visits)
        }
        Work::Finish { flow } => do_finish(inspector, moment, *flow, flows, visits),
    }
}
