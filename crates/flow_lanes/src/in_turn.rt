//! A batch in turn: its jobs one after another, on the caller's thread, each by its own lane.
//!
//! What is found of a job is put after what was found of the jobs before it, so that it is in their order at once: no
//! lane goes through the jobs of others, and nothing is merged.

ghost use Rattle.std.specs.Prelude.{◌≡◌, ◌<◌, ◌≤◌, IfOk, OnOk, length};
ghost use Rattle.flow_lanes.specs.Flows.{flow_of};
ghost use Rattle.flow_lanes.specs.LanesAfter.{lane_of};
ghost use Rattle.flow_lanes.specs.Given.{inspection_of};
ghost use Rattle.flow_lanes.specs.Batching.{AreSoundAmong, HaveLearnt, HaveSearched, lanes_of};

use crate::answer::JobFound;
use crate::inspector::Inspector;
use crate::job::Job;
use crate::worker::{Worker, flow_of, lane_of};
use edge_io::{Gate, NoMemory, Pattern};
use ordered_merge::Numbered;

/// The place of a job's lane among `count`. One lane has all jobs, and then the job is not looked at.
#[inline]
fn place_of(count: usize, job: &Job) -> usize
    requires { 0 < count }
    ensures value { result ≡ lane_of count (flow_of job.now) }
    ensures within { result < count }
{
    if count == 1 {
        return 0;
    }
    lane_of(count, flow_of(job))
}

/// A lane passes the gate before its first job of a batch. The number has a bit for the place of each lane that has passed.
#[inline]
fn pass_once<G: Gate>(gate: &G, passed: u64, place: usize) -> u64
    requires { place < 64 }
{
    let lane = 1u64 << place;
    if passed & lane == 0 {
        gate.pass(place as u32);
    }
    passed | lane
}

/// What the lanes find of a batch, in the order of its jobs: of each job its own lane.
pub(crate) fn search_in_turn<P: Pattern, G: Gate>(
    workers: &mut [Worker],
    jobs: &[Job],
    inspector: &Inspector<'_, P>,
    gate: &G,
) -> Result<Vec<Numbered<JobFound>>, NoMemory>
    requires some { 0 < length workers.old }
    requires few { length workers.old ≤ 64 }
    requires sound { AreSoundAmong (length inspector.now.stream.now.engines) workers.old jobs.now }
    ensures finds { IfOk result (λ found. HaveSearched (inspection_of P.finds inspector.now)
        (lanes_of workers.old) jobs.now found.items (lanes_of workers.new)) }
    ensures learns { OnOk result (HaveLearnt (lanes_of workers.old) jobs.now (lanes_of workers.new)) }
{
    let count = workers.len();
    let mut passed = 0;
    let mut found = Vec::with_capacity(inspector.alloc, jobs.len())?;
    for job in jobs {
        let place = place_of(count, job);
        passed = pass_once(gate, passed, place);
        workers[place].answer_next(job, inspector, &mut found)?;
    }
    Ok(found)
}
