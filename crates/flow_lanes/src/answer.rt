//! What the lanes give: the items of each job, with the rules that match.

ghost use Rattle.std.specs.Prelude.{◌≡◌, ◌+◌, ◌*◌, ◌≤◌, [], map, length, sum_by, OnOk};

use edge_io::{Items, NoMemory};
use option_eval::Steps;
use ordered_merge::Numbered;
use packet_decode::ItemHead;
use std::alloc::Global;
use std::sync::ledger::Ledger;

/// An item, and the places of all rules that match it, in ascending order.
#[derive(Debug, Drop)]
pub struct Hits {
    pub head: ItemHead,
    pub rules: Items<u32>,
}

/// The items of one job, in order.
#[derive(Debug, Drop)]
pub struct JobHits {
    /// The job's number.
    pub number: u64,
    pub items: Items<Hits>,
}

/// The answer to one job.
#[derive(Debug, Drop)]
pub struct JobOut {
    pub hits: JobHits,
    /// How many candidates the job's items had.
    pub tries: u64,
}

/// The answer to one job, with how many visits of payloads it took.
#[derive(Drop)]
pub struct JobCounted<L: Ledger> {
    pub hits: JobHits,
    /// How many candidates the job's items had.
    pub tries: u64,
    /// How many visits of the items' payloads these took. It takes no bytes.
    pub visits: Steps<L>,
}

/// What is found of one job: those of its items that are told, which are all of them or those that a rule matches.
#[derive(Drop)]
pub(crate) struct JobFound {
    pub hits: JobHits,
    /// How many items the job has, told or not.
    pub items: u64,
    /// How many candidates they had.
    pub tries: u64,
}

/// Why a batch has no answer.
#[derive(Clone, Copy, Debug, PartialEq, Eq)]
pub enum BatchFault {
    NoMemory,
    /// Memory was lacking in an earlier batch of the same lanes.
    Failed,
}

/// The answers of a batch.
#[derive(Debug, Drop)]
pub struct BatchOut {
    /// An entry for each job, in the order of the jobs.
    pub hits: Items<JobHits>,
    /// How many candidates the items had: rules whose protocol and ports fit and whose fast pattern
    /// occurs, or that have none.
    pub tries: u128,
}

/// The matches of a batch: what `Lanes::search` gives. Each search empties it and fills it again, so that its
/// memory is kept.
#[derive(Debug, Drop)]
pub struct Matches {
    /// An entry for each job, in the order of the jobs, with those of its items that a rule matches.
    pub hits: Vec<JobHits>,
    /// How many items the jobs have, with those that no rule matches.
    pub items: u128,
    /// How many candidates all items had.
    pub tries: u128,
}

impl Matches {
    /// No match, no item. Takes no memory.
    pub fn new(alloc: Global) -> Matches
        ensures hits { result.hits.items ≡ [] }
        ensures items { result.items ≡ 0 }
        ensures tries { result.tries ≡ 0 }
    {
        Matches {
            hits: Vec::new(alloc),
            items: 0,
            tries: 0,
        }
    }

    /// Nothing is left in it but its memory.
    fn clear(&mut self)
        ensures hits { self.new.hits.items ≡ [] }
        ensures items { self.new.items ≡ 0 }
        ensures tries { self.new.tries ≡ 0 }
    {
        self.hits.clear();
        self.items = 0;
        self.tries = 0;
    }

    /// Filled again with what was found of the jobs of a batch, in the order of the jobs.
    pub(crate) fn fill(&mut self, found: Vec<Numbered<JobFound>>) -> Result<(), NoMemory>
        ensures hits { OnOk result (self.new.hits.items ≡ map (λ job. job.value.hits) found.items) }
        ensures items { OnOk result (self.new.items ≡ sum_by (λ job. job.value.items) found.items) }
        ensures tries { OnOk result (self.new.tries ≡ sum_by (λ job. job.value.tries) found.items) }
    {
        self.clear();
        self.hits.reserve(found.len())?;
        for job in found {
            self.items += u128::from(job.value.items);
            self.tries += u128::from(job.value.tries);
            self.hits.push(job.value.hits)?;
        }
        Ok(())
    }
}
