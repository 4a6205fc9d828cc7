//! A lane at work on a batch: the jobs of its own flows, in their order.

ghost use Rattle.std.specs.Prelude.{◌≡◌, ℕ, ◌<◌, ◌≤◌, ◌^◌, ◌++◌, List, true, IfOk, OnOk, Ok, length};
ghost use Rattle.flow_lanes.specs.declared.job.Job.{Job};
ghost use Rattle.flow_lanes.specs.Flows.{flow_of};
ghost use Rattle.flow_lanes.specs.Sound.{IsSoundFor};
ghost use Rattle.flow_lanes.specs.LanesAfter.{LaneState, is_in_lane, known_of, lane_of, new_lane};
ghost use Rattle.flow_lanes.specs.Given.{inspection_of};
ghost use Rattle.flow_lanes.specs.Batching.{AddsFound, AddsOwn, AreSoundIn, GoesOn, own_jobs};

use crate::answer::JobFound;
use crate::inspector::Inspector;
use crate::job::{Job, Work};
use crate::lane::Lane;
use edge_io::{Gate, NoMemory, Pattern};
use ordered_merge::Numbered;
use std::alloc::Global;
use std::mem;

/// A lane among `count`, by its place.
#[derive(Clone, Copy)]
pub(crate) struct LanePlace {
    pub count: usize,
    pub place: usize,
}

/// The flow of a job, if it is of one.
pub(crate) fn flow_of(job: &Job) -> Option<u64>
    ensures { result ≡ flow_of job.now }
{
    match &job.work {
        Work::Alone { .. } => None,
        Work::Packet { flow, .. } => Some(*flow),
        Work::Finish { flow } => Some(*flow),
    }
}

/// The place of a job's lane among `count`: a job of no flow is in the first.
pub(crate) fn lane_of(count: usize, flow: Option<u64>) -> usize
    requires { 0 < count }
    ensures { result ≡ lane_of count flow }
{
    match flow {
        None => 0,
        Some(flow) => (flow % count as u64) as usize,
    }
}

/// Answers a job of the lane: what is found of it is put after what was found before.
fn answer<P: Pattern>(
    lane: &mut Lane,
    job: &Job,
    inspector: &Inspector<'_, P>,
    outs: &mut Vec<Numbered<JobFound>>,
) -> Result<(), NoMemory>
    requires { IsSoundFor (length inspector.now.stream.now.engines) (known_of lane.old job.now) job.now }
    ensures { OnOk result (AddsFound (inspection_of P.finds inspector.now)
        job.now lane.old outs.old.items lane.new outs.new.items) }
{
    let value = lane.search(job, inspector)?;
    outs.push(Numbered {
        number: job.number,
        value,
    })?;
    Ok(())
}

/// Answers a job where it is of the lane.
fn answer_own<P: Pattern>(
    lane: &mut Lane,
    share: LanePlace,
    job: &Job,
    inspector: &Inspector<'_, P>,
    outs: &mut Vec<Numbered<JobFound>>,
) -> Result<(), NoMemory>
    requires some { 0 < share.count }
    requires sound { is_in_lane share.count share.place job.now ≡ true
        → IsSoundFor (length inspector.now.stream.now.engines) (known_of lane.old job.now) job.now }
    ensures { OnOk result (AddsOwn (inspection_of P.finds inspector.now)
        share job.now lane.old outs.old.items lane.new outs.new.items) }
{
    if lane_of(share.count, flow_of(job)) == share.place {
        answer(lane, job, inspector, outs)?;
    }
    Ok(())
}

/// The answers to the lane's own jobs of a batch.
fn own_outs<P: Pattern>(
    lane: &mut Lane,
    share: LanePlace,
    jobs: &[Job],
    inspector: &Inspector<'_, P>,
) -> Result<Vec<Numbered<JobFound>>, NoMemory>
    requires some { 0 < share.count }
    requires sound { AreSoundIn (length inspector.now.stream.now.engines) share.count share.place lane.old jobs.now }
    ensures { IfOk result (λ outs. GoesOn (inspection_of P.finds inspector.now)
        lane.old (own_jobs share.count share.place jobs.now) outs.items lane.new) }
{
    let mut outs = Vec::new(inspector.alloc);
    for job in jobs {
        answer_own(lane, share, job, inspector, &mut outs)?;
    }
    Ok(outs)
}

/// Whether a lane has jobs among these.
fn has_work(share: LanePlace, jobs: &[Job]) -> bool
    requires { 0 < share.count }
{
    for job in jobs {
        if lane_of(share.count, flow_of(job)) == share.place {
            return true;
        }
    }
    false
}

/// A lane, and its answers of the batch at hand, where there was memory for them.
#[derive(Drop)]
pub(crate) struct Worker {
    pub lane: Lane,
    pub outs: Result<Vec<Numbered<JobFound>>, NoMemory>,
}

impl Worker {
    /// A lane that stands for no job.
    pub fn new(alloc: Global, flush: u32, inserts: bool) -> Worker
        requires least { 1 ≤ flush }
        requires most { flush ≤ 65536 }
        ensures { result.lane ≡ new_lane flush inserts }
    {
        Worker {
            lane: Lane::new(alloc, flush, inserts),
            outs: Ok(Vec::new(alloc)),
        }
    }

    /// Answers a job of the lane, after what other lanes have found of the batch.
    pub fn answer_next<P: Pattern>(
        &mut self,
        job: &Job,
        inspector: &Inspector<'_, P>,
        found: &mut Vec<Numbered<JobFound>>,
    ) -> Result<(), NoMemory>
        requires { IsSoundFor (length inspector.now.stream.now.engines) (known_of self.old.lane job.now) job.now }
        ensures { OnOk result (AddsFound (inspection_of P.finds inspector.now)
            job.now self.old.lane found.old.items self.new.lane found.new.items) }
    {
        answer(&mut self.lane, job, inspector, found)
    }

    /// Does the lane's own jobs of a batch, beside the other lanes.
    pub fn run<P: Pattern, G: Gate>(
        &mut self,
        share: LanePlace,
        jobs: &[Job],
        inspector: &Inspector<'_, P>,
        gate: &G,
    )
        requires some { 0 < share.count }
        requires place { share.place < 2 ^ 32 }
        requires sound { AreSoundIn (length inspector.now.stream.now.engines) share.count share.place
            self.old.lane jobs.now }
        ensures { IfOk self.new.outs (λ outs. GoesOn (inspection_of P.finds inspector.now)
            self.old.lane (own_jobs share.count share.place jobs.now) outs.items self.new.lane) }
    {
        if has_work(share, jobs) {
            gate.pass(share.place as u32);
        }
        self.outs = own_outs(&mut self.lane, share, jobs, inspector);
    }

    /// Gives the answers away.
    pub fn take_outs(&mut self, alloc: Global) -> Result<Vec<Numbered<JobFound>>, NoMemory>
        ensures taken { result ≡ self.old.outs }
        ensures lane { self.new.lane ≡ self.old.lane }
    {
        mem::replace(&mut self.outs, Ok(Vec::new(alloc)))
    }
}
