//! Lanes: the jobs of a batch, dealt out by their flows.

ghost use Rattle.std.specs.Prelude.{◌≡◌, ℕ, ◌<◌, ◌≤◌, ◌^◌, ◌↔◌, List, Option, Some, Ok, false, true, All, IfOk, OnErr, OnOk, fold, length, map, replicate, sum_by};
ghost use Rattle.edge_io.specs.Along.{AscendsBy};
ghost use Rattle.conf_types.specs.Sound.{IsStreamConfig};
ghost use Rattle.fast_pattern.specs.Grouping.{AreFor};
ghost use Rattle.rule_types.specs.Sound.{IsTriable};
ghost use Rattle.flow_lanes.specs.declared.job.Job.{Job};
ghost use Rattle.flow_lanes.specs.LanesAfter.{AnswersBatch, AreNew, AreNext, AreSoundFor, HasFailed, LearnsBatch, SearchesBatch, new_lane};
ghost use Rattle.flow_lanes.specs.Given.{inspection_of};
ghost use Rattle.flow_lanes.specs.Batching.{AllGoOn, AreSoundAmong, AreSoundIn, GoesOn, HaveAnswered, HaveLearnt, HaveMatched, HaveSearched, lanes_of, own_jobs};

use crate::answer::{BatchFault, BatchOut, JobFound, Matches};
use crate::in_turn::search_in_turn;
use crate::inspector::Inspector;
use crate::job::Job;
use crate::runner::{MOST_LANES, Runner, busy_lanes};
use crate::spread::for_each_spread;
use crate::worker::{LanePlace, Worker};
use crate::worth::thought_beside;
use conf_types::StreamConfig;
use edge_io::{Gate, Items, NoMemory, Pattern};
use fast_pattern::Groups;
use option_eval::RuleSet;
use ordered_merge::{Numbered, merge};
use std::alloc::Global;
use std::marker::Model;
use std::thread::Threads;

/// The greatest number after these jobs.
fn greatest_number(before: Option<u64>, jobs: &[Job]) -> Option<u64>
    ensures { result ≡ fold (λ most (job : Job). Some job.number) before jobs.now }
{
    let mut greatest = before;
    for job in jobs {
        greatest = Some(job.number);
    }
    greatest
}

/// `count` lanes that stand for no job.
fn new_workers(
    alloc: Global,
    count: u32,
    flush: u32,
    inserts: bool,
) -> Result<Vec<Worker>, NoMemory>
    requires least { 1 ≤ flush }
    requires most { flush ≤ 65536 }
    ensures { IfOk result (λ workers. lanes_of workers.items ≡ replicate count (new_lane flush inserts)) }
{
    let mut workers = Vec::new(alloc);
    for _place in 0..count {
        workers.push(Worker::new(alloc, flush, inserts))?;
    }
    Ok(workers)
}

/// All lanes do their own jobs of a batch: those that have any are spread evenly over this many threads.
fn run_all<P: Pattern, G: Gate, R: Threads + Sync>(
    runner: &Runner<'_, G, R>,
    threads: usize,
    workers: &mut [Worker],
    jobs: &[Job],
    inspector: &Inspector<'_, P>,
)
    requires some { 0 < length workers.old }
    requires few { length workers.old ≤ 64 }
    requires sound { AreSoundAmong (length inspector.now.stream.now.engines) workers.old jobs.now }
    ensures { AllGoOn (inspection_of P.finds inspector.now) workers.old jobs.now workers.new }
{
    let count = workers.len();
    let busy = busy_lanes(count, jobs);
    let gate = runner.gate;
    for_each_spread(
        runner.rt,
        workers,
        threads,
        &busy[..count],
        &|place: usize, worker: &mut Worker|
            requires { (0 < count) × (place < 2 ^ 32)
                × AreSoundIn (length inspector.now.stream.now.engines) count place worker.old.lane jobs.now }
            ensures { IfOk worker.new.outs (λ outs. GoesOn (inspection_of P.finds inspector.entry.now)
                worker.old.lane (own_jobs count place jobs.entry.now) outs.items worker.new.lane) }
        { worker.run(LanePlace { count, place }, jobs, inspector, gate) },
    );
}

/// Takes the answers of each lane out of the workers.
fn take_parts(
    alloc: Global,
    workers: &mut [Worker],
) -> Result<Vec<Vec<Numbered<JobFound>>>, NoMemory>
    ensures lanes { lanes_of workers.new ≡ lanes_of workers.old }
    ensures parts { IfOk result (λ parts. map (λ worker. worker.outs) workers.old ≡ map (λ part. Ok part) parts.items) }
{
    let mut parts = Vec::new(alloc);
    for worker in workers.iter_mut() {
        parts.push(worker.take_outs(alloc)?)?;
    }
    Ok(parts)
}

/// The entries of a batch and the sum of its candidates, of what was found in the order of the jobs.
fn batch_out(alloc: Global, merged: Vec<Numbered<JobFound>>) -> Result<BatchOut, NoMemory>
    ensures hits { IfOk result (λ out. out.hits ≡ map (λ answer. answer.value.hits) merged.items) }
    ensures tries { IfOk result (λ out. out.tries ≡ sum_by (λ answer. answer.value.tries) merged.items) }
{
    let mut hits = Vec::with_capacity(alloc, merged.len())?;
    let mut tries = 0u128;
    for answer in merged {
        tries += u128::from(answer.value.tries);
        hits.push(answer.value.hits)?;
    }
    Ok(BatchOut {
        hits: Items::from_vec(hits),
        tries,
    })
}

/// What all lanes find of a batch, in the order of its jobs, where they do their own jobs beside each other.
fn search_beside<P: Pattern, G: Gate, R: Threads + Sync>(
    runner: &Runner<'_, G, R>,
    threads: usize,
    workers: &mut [Worker],
    jobs: &[Job],
    inspector: &Inspector<'_, P>,
) -> Result<Vec<Numbered<JobFound>>, NoMemory>
    requires some { 0 < length workers.old }
    requires few { length workers.old ≤ 64 }
    requires ascend { AscendsBy (λ (job : Job). job.number) jobs.now }
    requires sound { AreSoundAmong (length inspector.now.stream.now.engines) workers.old jobs.now }
    ensures finds { IfOk result (λ found. HaveSearched (inspection_of P.finds inspector.now)
        (lanes_of workers.old) jobs.now found.items (lanes_of workers.new)) }
    ensures learns { OnOk result (HaveLearnt (lanes_of workers.old) jobs.now (lanes_of workers.new)) }
{
    run_all(runner, threads, workers, jobs, inspector);
    let parts = take_parts(inspector.alloc, workers)?;
    let found = merge(inspector.alloc, parts)?;
    Ok(found)
}

/// What the lanes find of a batch, in the order of its jobs: in turn where one thread is enough.
fn search_batch<P: Pattern, G: Gate, R: Threads + Sync>(
    runner: &Runner<'_, G, R>,
    workers: &mut [Worker],
    jobs: &[Job],
    inspector: &Inspector<'_, P>,
) -> Result<Vec<Numbered<JobFound>>, NoMemory>
    requires some { 0 < length workers.old }
    requires few { length workers.old ≤ 64 }
    requires ascend { AscendsBy (λ (job : Job). job.number) jobs.now }
    requires sound { AreSoundAmong (length inspector.now.stream.now.engines) workers.old jobs.now }
    ensures finds { IfOk result (λ found. HaveSearched (inspection_of P.finds inspector.now)
        (lanes_of workers.old) jobs.now found.items (lanes_of workers.new)) }
    ensures learns { OnOk result (HaveLearnt (lanes_of workers.old) jobs.now (lanes_of workers.new)) }
{
    let threads = runner.threads(workers.len(), jobs);
    if threads < 2 {
        search_in_turn(workers, jobs, inspector, runner.gate)
    } else {
        search_beside(runner, threads, workers, jobs, inspector)
    }
}

/// The answers of all lanes to a batch: all items are told.
fn answer_batch<P: Pattern, G: Gate, R: Threads + Sync>(
    runner: &Runner<'_, G, R>,
    workers: &mut [Worker],
    jobs: &[Job],
    inspector: &Inspector<'_, P>,
) -> Result<BatchOut, NoMemory>
    requires all { inspector.now.all ≡ true }
    requires some { 0 < length workers.old }
    requires few { length workers.old ≤ 64 }
    requires ascend { AscendsBy (λ (job : Job). job.number) jobs.now }
    requires sound { AreSoundAmong (length inspector.now.stream.now.engines) workers.old jobs.now }
    ensures answers { IfOk result (λ out. HaveAnswered (inspection_of P.finds inspector.now)
        (lanes_of workers.old) jobs.now out (lanes_of workers.new)) }
    ensures learns { OnOk result (HaveLearnt (lanes_of workers.old) jobs.now (lanes_of workers.new)) }
{
    let found = search_batch(runner, workers, jobs, inspector)?;
    let out = batch_out(inspector.alloc, found)?;
    Ok(out)
}

/// The matches of all lanes in a batch: the items are told that a rule matches.
fn match_batch<P: Pattern, G: Gate, R: Threads + Sync>(
    runner: &Runner<'_, G, R>,
    workers: &mut [Worker],
    jobs: &[Job],
    inspector: &Inspector<'_, P>,
    out: &mut Matches,
) -> Result<(), NoMemory>
    requires matched { inspector.now.all ≡ false }
    requires some { 0 < length workers.old }
    requires few { length workers.old ≤ 64 }
    requires ascend { AscendsBy (λ (job : Job). job.number) jobs.now }
    requires sound { AreSoundAmong (length inspector.now.stream.now.engines) workers.old jobs.now }
    ensures finds { OnOk result (HaveMatched (inspection_of P.finds inspector.now)
        (lanes_of workers.old) jobs.now out.new (lanes_of workers.new)) }
    ensures learns { OnOk result (HaveLearnt (lanes_of workers.old) jobs.now (lanes_of workers.new)) }
{
    let found = search_batch(runner, workers, jobs, inspector)?;
    out.fill(found)?;
    Ok(())
}

/// About what all jobs of each of these lanes cost.
fn costs_of(workers: &[Worker]) -> [u64; MOST_LANES] {
    let mut costs = [0; MOST_LANES];
    for (cost, worker) in costs.iter_mut().zip(workers) {
        *cost = worker.lane.cost();
    }
    costs
}

/// About what the jobs since then cost beside those of the dearest lane.
fn cost_beside(workers: &[Worker], before: &[u64]) -> u64 {
    let mut all = 0u64;
    let mut most = 0u64;
    for (worker, old) in workers.iter().zip(before) {
        let cost = worker.lane.cost().saturating_sub(*old);
        all = all.saturating_add(cost);
        most = most.max(cost);
    }
    all.saturating_sub(most)
}

/// Lanes, each with flows of its own: flow f is in lane f modulo their number. Contracts see each lane,
/// the greatest number of a job so far, and whether memory was lacking (`LanesState` of specs/LanesAfter).
#[derive(Drop)]
pub struct Lanes {
    workers: Vec<Worker>,
    greatest: Option<u64>,
    failed: bool,
    /// About what the next batch is thought to cost beside its dearest lane. Only the number of threads goes by it.
    beside: u64,
}

impl Model for Lanes {
    ghost use Rattle.std.specs.Prelude.{◌<◌, ◌≤◌, length};
    ghost use Rattle.std.specs.Coded.{coded_ℕ, codes};
    ghost use Rattle.std.specs.FinSet.{code};
    ghost use Rattle.std.specs.Ordering.{nat_cmp};
    ghost use Rattle.flow_lanes.specs.LanesAfter.{LanesState};
    ghost use Rattle.flow_lanes.specs.Batching.{lanes_of};

    ghost Value = { LanesState };

    ghost coded = { Prim.hlevel (codes, code {R = nat_cmp} coded_ℕ) };

    ghost view = { λ lanes. record {
      lanes = lanes_of lanes.workers.items;
      greatest = lanes.greatest;
      failed = lanes.failed;
    } };

    ghost invariant = { λ lanes. (0 < length lanes.workers.items) × (length lanes.workers.items ≤ 64) };
}

impl Lanes {
    /// `count` lanes, 1 to 64, that stand for no job. `flush` is how many places are acknowledged at least
    /// before they are flushed, 1 to 65536; with `inserts`, a packet whose data were queued is an item
    /// itself as well.
    pub fn new(alloc: Global, count: u32, flush: u32, inserts: bool) -> Result<Lanes, NoMemory>
        requires some { 1 ≤ count }
        requires few { count ≤ 64 }
        requires least { 1 ≤ flush }
        requires most { flush ≤ 65536 }
        ensures { IfOk result (AreNew count flush inserts) }
    {
        Ok(Lanes {
            workers: new_workers(alloc, count, flush, inserts)?,
            greatest: None,
            failed: false,
            // Nothing is known of the first batch.
            beside: 0,
        })
    }

    /// The answers to a batch of jobs: an entry for each job, in the order of the jobs, and how many
    /// candidates their items had (specs/LanesAfter). The numbers of the jobs ascend, and are above those of
    /// all earlier jobs; each job is sound after the earlier jobs of its flow; `groups` are those of the
    /// set's rules. Of the jobs nothing is asked once memory was lacking.
    ///
    /// The answers are those of one list of jobs, taken one by one, for any number of lanes and any cut of
    /// the list into batches. Where one thread is enough the jobs are done in turn on the caller's; else the
    /// lanes that have jobs are spread evenly over threads. Each of these lanes passes the gate before its
    /// first job.
    ///
    /// # Errors
    ///
    /// `NoMemory` where memory is lacking. From then on, and only then, the answer is `Failed`.
    pub fn batch<P: Pattern, G: Gate, R: Threads + Sync>(
        &mut self,
        rt: &R,
        alloc: Global,
        jobs: &[Job],
        stream: &StreamConfig,
        set: &RuleSet<P>,
        groups: &Groups,
        gate: &G,
    ) -> Result<BatchOut, BatchFault>
        requires sound { self.old.failed ≡ false → AreSoundFor (length stream.now.engines) self.old jobs.now }
        requires next { self.old.failed ≡ false → AreNext self.old jobs.now }
        requires config { IsStreamConfig stream.now }
        requires groups { AreFor groups.now set.now.rules }
        requires triable { All IsTriable set.now.rules }

        // Each entry is the definition's, and the lanes have learnt of each job.
        ensures answers { IfOk result (λ out. AnswersBatch P.finds stream.now set.now self.old jobs.now out self.new) }
        ensures learns { OnOk result (LearnsBatch self.old jobs.now self.new) }

        // Want of memory is kept in mind, and is all that is.
        ensures failed { (result ≡ Err BatchFault.Failed) ↔ HasFailed self.old }
        ensures fails { OnErr result (HasFailed self.new) }
        ensures works { OnOk result (self.new.failed ≡ false) }
    {
        if self.failed {
            return Err(BatchFault::Failed);
        }
        let inspector = Inspector {
            alloc,
            stream,
            set,
            groups,
            all: true,
        };
        let runner = Runner {
            rt,
            gate,
            beside: self.beside,
        };
        let before = costs_of(&self.workers);
        match answer_batch(&runner, &mut self.workers, jobs, &inspector) {
            Ok(out) => {
                self.greatest = greatest_number(self.greatest, jobs);
                self.beside = thought_beside(self.beside, cost_beside(&self.workers, &before));
                Ok(out)
            }
            Err(NoMemory) => {
                self.failed = true;
                Err(BatchFault::NoMemory)
            }
        }
    }

    /// The matches of a batch of jobs: an entry for each job, in the order of the jobs, with those of its
    /// items that a rule matches, and how many items and candidates there are in all (specs/LanesAfter). It
    /// asks of the jobs what `batch` asks, finds what `batch` finds, and leaves the lanes as `batch` leaves
    /// them. An item without a candidate costs its test for candidates and a count.
    ///
    /// # Errors
    ///
    /// As `batch` has them. Nothing is said of `out` then.
    pub fn search<P: Pattern, G: Gate, R: Threads + Sync>(
        &mut self,
        rt: &R,
        alloc: Global,
        jobs: &[Job],
        stream: &StreamConfig,
        set: &RuleSet<P>,
        groups: &Groups,
        gate: &G,
        out: &mut Matches,
    ) -> Result<(), BatchFault>
        requires sound { self.old.failed ≡ false → AreSoundFor (length stream.now.engines) self.old jobs.now }
        requires next { self.old.failed ≡ false → AreNext self.old jobs.now }
        requires config { IsStreamConfig stream.now }
        requires groups { AreFor groups.now set.now.rules }
        requires triable { All IsTriable set.now.rules }

        // Each entry is the definition's, with its items that a rule matches, and the lanes have learnt of
        // each job.
        ensures finds { OnOk result (SearchesBatch P.finds stream.now set.now self.old jobs.now out.new self.new) }
        ensures learns { OnOk result (LearnsBatch self.old jobs.now self.new) }

        // Want of memory is kept in mind, and is all that is.
        ensures failed { (result ≡ Err BatchFault.Failed) ↔ HasFailed self.old }
        ensures fails { OnErr result (HasFailed self.new) }
        ensures works { OnOk result (self.new.failed ≡ false) }
    {
        if self.failed {
            return Err(BatchFault::Failed);
        }
        let inspector = Inspector {
            alloc,
            stream,
            set,
            groups,
            all: false,
        };
        let runner = Runner {
            rt,
            gate,
            beside: self.beside,
        };
        let before = costs_of(&self.workers);
        match match_batch(&runner, &mut self.workers, jobs, &inspector, out) {
            Ok(()) => {
                self.greatest = greatest_number(self.greatest, jobs);
                self.beside = thought_beside(self.beside, cost_beside(&self.workers, &before));
                Ok(())
            }
            Err(NoMemory) => {
                self.failed = true;
                Err(BatchFault::NoMemory)
            }
        }
    }
}
