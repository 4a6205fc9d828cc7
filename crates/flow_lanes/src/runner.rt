//! What runs a batch: where its threads start from, the gate that its lanes pass, and how much work it is thought to be.

ghost use Rattle.std.specs.Prelude.{◌<◌};

use crate::job::Job;
use crate::spread::busy_count;
use crate::worker::{flow_of, lane_of};
use crate::worth::threads_worth;
use edge_io::Gate;
use std::thread::{Threads, available_parallelism};

/// How many lanes there are at most.
pub(crate) const MOST_LANES: usize = 64;

/// The lanes, of `count`, that have jobs among these.
pub(crate) fn busy_lanes(count: usize, jobs: &[Job]) -> [bool; MOST_LANES]
    requires { 0 < count }
{
    let mut busy = [false; MOST_LANES];
    for job in jobs {
        let place = lane_of(count, flow_of(job));
        if place < MOST_LANES {
            busy[place] = true;
        }
    }
    busy
}

/// How many processors there are.
fn processor_count<R: Threads>(rt: &R) -> usize {
    match available_parallelism(rt) {
        Ok(count) => count.get(),
        Err(_) => 1,
    }
}

/// What runs a batch.
#[derive(Drop)]
pub(crate) struct Runner<'a, G, R> {
    /// What threads start from.
    pub rt: &'a R,
    /// What each lane that has jobs passes before its first.
    pub gate: &'a G,
    /// About what the batch is thought to cost beside its dearest lane.
    pub beside: u64,
}

impl<G: Gate, R: Threads> Runner<'_, G, R> {
    /// How many threads there are at least where two lanes have jobs: lanes can meet at a gate only in two.
    fn least_threads(&self) -> usize {
        if self.gate.wants_threads() { 2 } else { 1 }
    }

    /// Over how many threads `busy` lanes that have jobs are spread: as many as the work is worth and there are
    /// processors, or fewer where none of them then has a lane more: of four lanes one does two in two threads as in
    /// three. Processors are asked for only where the answer can depend on them, since that costs some 8 µs.
    fn threads_of(&self, busy: usize) -> usize {
        if busy < 2 {
            return 1;
        }
        let least = self.least_threads();
        let worth = threads_worth(self.beside).min(busy as u64) as usize;
        if worth <= least {
            return least;
        }
        let most = worth.min(processor_count(self.rt)).max(least);
        let each = busy.div_ceil(most.max(1));
        busy.div_ceil(each.max(1)).max(least)
    }

    /// Over how many threads these jobs are spread, among `lanes` lanes. In one thread, the caller's, they are done in
    /// turn; and where no more are worth it, it is not asked which lanes have jobs.
    pub fn threads(&self, lanes: usize, jobs: &[Job]) -> usize {
        let is_enough = self.least_threads() < 2 && threads_worth(self.beside) < 2;
        if lanes < 2 || is_enough {
            return 1;
        }
        self.threads_of(busy_count(&busy_lanes(lanes, jobs)))
    }
}
