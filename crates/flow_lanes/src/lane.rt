//! A lane: some flows, job by job.

ghost use Rattle.std.specs.Prelude.{◌≡◌, ◌<◌, ◌≤◌, All, IfOk, OnOk, length};
ghost use Rattle.conf_types.specs.Sound.{IsStreamConfig};
ghost use Rattle.fast_pattern.specs.Grouping.{AreFor};
ghost use Rattle.rule_types.specs.Sound.{IsTriable};
ghost use Rattle.flow_lanes.specs.Given.{inspection_of};
ghost use Rattle.flow_lanes.specs.Sound.{IsSoundFor};
ghost use Rattle.flow_lanes.specs.LanesAfter.{AnswersJob, CountsTries, LearnsJob, known_of, new_lane};
ghost use Rattle.flow_lanes.specs.Batching.{SearchesJob};
ghost use Rattle.flow_lanes.specs.Work.{CountsVisits};

use crate::answer::{JobCounted, JobFound, JobHits, JobOut};
use crate::inspector::Inspector;
use crate::job::Job;
use crate::keeping::OpenFlows;
use crate::settings::LaneSettings;
use crate::tally::JobTally;
use crate::working::do_work;
use conf_types::StreamConfig;
use edge_io::{Items, NoMemory, Pattern};
use fast_pattern::Groups;
use option_eval::{RuleSet, Steps};
use std::alloc::Global;
use std::collections::HashMap;
use std::marker::{Brand, Model};
use std::sync::ledger::{Blank, Ledger};

/// The flows that one thread at a time goes on with. Contracts see the settings and the flows that have
/// not ended, by their numbers (`LaneState` of specs/LanesAfter).
#[derive(Drop)]
pub struct Lane {
    flush: u32,
    inserts: bool,
    flows: OpenFlows,
    /// About what all its jobs cost, in nanoseconds. No contract speaks of it.
    cost: u64,
}

impl Model for Lane {
    ghost use Rattle.std.specs.Prelude.{◌≤◌};
    ghost use Rattle.flow_lanes.specs.LanesAfter.{LaneState};
    ghost use Rattle.flowbit_state.specs.contracts.bits.Bits as bits;
    ghost use Rattle.std.specs.Coded.{codes};

    ghost Value = { LaneState };

    ghost coded = { Prim.hlevel (codes, bits.the_row.coded) };

    ghost view = { λ lane. record { flush = lane.flush; inserts = lane.inserts; flows = lane.flows.entries } };

    ghost invariant = { λ lane. 1 ≤ lane.flush };
}

/// What is found of a job, and how many visits of payloads that took.
#[derive(Drop)]
struct CountedJob<L: Ledger> {
    found: JobFound,
    visits: Steps<L>,
}

/// What was found of a job.
fn job_found<L: Ledger>(job: &Job, tally: JobTally<L>) -> CountedJob<L>
    ensures number { result.found.hits.number ≡ job.now.number }
    ensures told { result.found.hits.items ≡ tally.hits.items }
    ensures items { result.found.items ≡ tally.items }
    ensures tries { result.found.tries ≡ tally.tries }
    ensures visits { result.visits ≡ tally.visits }
{
    let JobTally {
        hits,
        items,
        tries,
        cost: _,
        visits,
    } = tally;
    let found = JobFound {
        hits: JobHits {
            number: job.number,
            items: Items::from_vec(hits),
        },
        items,
        tries,
    };
    CountedJob { found, visits }
}

impl Lane {
    /// A lane without a flow. `flush` is how many places are acknowledged at least before they are
    /// flushed, 1 to 65536; with `inserts`, a packet whose data were queued is an item itself as well.
    /// Takes no memory.
    pub fn new(alloc: Global, flush: u32, inserts: bool) -> Lane
        requires least { 1 ≤ flush }
        requires most { flush ≤ 65536 }
        ensures { result ≡ new_lane flush inserts }
    {
        Lane {
            flush,
            inserts,
            flows: HashMap::new(alloc),
            cost: 0,
        }
    }

    /// The items of one job in order, each with all rules of the set that match it (specs/Flows), and how
    /// many candidates they had. The job must be sound after what the lane knows of its flow, and
    /// `groups` be those of the set's rules. The answer goes by the earlier jobs of the job's flow and by
    /// nothing else; afterwards the lane stands for those and this job.
    ///
    /// Where memory is lacking, nothing is said of the lane afterwards.
    pub fn job<P: Pattern>(
        &mut self,
        alloc: Global,
        job: &Job,
        stream: &StreamConfig,
        set: &RuleSet<P>,
        groups: &Groups,
    ) -> Result<JobOut, NoMemory>
        requires sound { IsSoundFor (length stream.now.engines) (known_of self.old job.now) job.now }
        requires config { IsStreamConfig stream.now }
        requires groups { AreFor groups.now set.now.rules }
        requires triable { All IsTriable set.now.rules }
        ensures answers { IfOk result (λ out. AnswersJob P.finds stream.now set.now self.old job.now out.hits self.new) }
        ensures learns { OnOk result (LearnsJob self.old job.now self.new) }
        ensures tries { IfOk result (λ out. CountsTries P.finds stream.now set.now self.old job.now out.tries) }
    {
        let inspector = Inspector {
            alloc,
            stream,
            set,
            groups,
            all: true,
        };
        let found = self.search(job, &inspector)?;
        Ok(JobOut {
            hits: found.hits,
            tries: found.tries,
        })
    }

    /// The items of one job in order, as `job` gives them and by the same code, with how many visits of payloads it
    /// takes: they are counted in `visits`, which has none yet, and are at most the sum over the items and their
    /// candidates of what each may take (specs/Work).
    pub fn job_counted<'a, P: Pattern, L: Ledger>(
        &mut self,
        alloc: Global,
        job: &Job,
        stream: &'a StreamConfig,
        set: &'a RuleSet<P>,
        groups: &'a Groups,
        visits: Steps<L>,
    ) -> Result<JobCounted<L>, NoMemory>
        requires sound { IsSoundFor (length stream.now.engines) (known_of self.old job.now) job.now }
        requires config { IsStreamConfig stream.now }
        requires groups { AreFor groups.now set.now.rules }
        requires triable { All IsTriable set.now.rules }
        requires none { visits ≡ 0 }
        ensures answers { IfOk result (λ out. AnswersJob P.finds stream.now set.now self.old job.now out.hits self.new) }
        ensures learns { OnOk result (LearnsJob self.old job.now self.new) }
        ensures tries { IfOk result (λ out. CountsTries P.finds stream.now set.now self.old job.now out.tries) }
        ensures visits { IfOk result (λ out. CountsVisits P.finds stream.now set.now self.old job.now out.visits) }
    {
        let inspector = Inspector {
            alloc,
            stream,
            set,
            groups,
            all: true,
        };
        let counted = self.search_counted(job, &inspector, visits)?;
        let CountedJob { found, visits } = counted;
        Ok(JobCounted {
            hits: found.hits,
            tries: found.tries,
            visits,
        })
    }

    /// About what all its jobs cost.
    pub(crate) fn cost(&self) -> u64 {
        self.cost
    }

    /// What is found of one job, of whose items those are told that the inspector asks for (`job`).
    #[inline(always)]
    pub(crate) fn search<P: Pattern>(
        &mut self,
        job: &Job,
        inspector: &Inspector<'_, P>,
    ) -> Result<JobFound, NoMemory>
        requires { IsSoundFor (length inspector.now.stream.now.engines) (known_of self.old job.now) job.now }
        ensures finds { IfOk result (λ found. SearchesJob (inspection_of P.finds inspector.now) self.old job.now found self.new) }
        ensures learns { OnOk result (LearnsJob self.old job.now self.new) }
    {
        self.search_anew::<P, Brand>(job, inspector, Blank::new(1))
    }

    /// What is found of one job, as `search` gives it, with a count of visits that begins here.
    #[inline(always)]
    fn search_anew<P: Pattern, L: Ledger>(
        &mut self,
        job: &Job,
        inspector: &Inspector<'_, P>,
        blank: Blank,
    ) -> Result<JobFound, NoMemory>
        requires sound { IsSoundFor (length inspector.now.stream.now.engines) (known_of self.old job.now) job.now }
        requires name { blank.name ≡ L.name }
        requires parts { blank.parts ≡ L.parts }
        requires blank { 0 < blank.parts }
        ensures finds { IfOk result (λ found. SearchesJob (inspection_of P.finds inspector.now) self.old job.now found self.new) }
        ensures learns { OnOk result (LearnsJob self.old job.now self.new) }
    {
        let counted = self.search_counted(job, inspector, Steps::<L>::new(blank))?;
        Ok(counted.found)
    }

    /// What is found of one job, as `search` gives it, with the visits that it takes.
    #[inline(always)]
    fn search_counted<P: Pattern, L: Ledger>(
        &mut self,
        job: &Job,
        inspector: &Inspector<'_, P>,
        visits: Steps<L>,
    ) -> Result<CountedJob<L>, NoMemory>
        requires sound { IsSoundFor (length inspector.now.stream.now.engines) (known_of self.old job.now) job.now }
        requires none { visits ≡ 0 }
        ensures finds { IfOk result (λ counted. SearchesJob (inspection_of P.finds inspector.now) self.old job.now
            counted.found self.new) }
        ensures learns { OnOk result (LearnsJob self.old job.now self.new) }
        ensures visits { IfOk result (λ counted. CountsVisits P.finds inspector.now.stream.now inspector.now.set.now
            self.old job.now counted.visits) }
    {
        let settings = LaneSettings {
            flush: self.flush,
            inserts: self.inserts,
            stream: inspector.stream,
        };
        let flows = &mut self.flows;
        let tally = do_work(inspector, &settings, job.moment, &job.work, flows, visits)?;
        self.cost = self.cost.saturating_add(tally.cost);
        Ok(job_found(job, tally))
    }
}
