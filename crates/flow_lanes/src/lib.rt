//! The items of flows, with the rules that match them, and lanes that change nothing.
//!
//! A `Lane` goes on with its flows, job by job: it makes the items of each job, on which the rules are tried
//! (rule_eval). `Lanes` answer batches of jobs in threads, as one lane would. What says when a rule matches an
//! item is handed on.
#![tactic(auto)]

mod answer;
mod arrival;
mod batch;
mod cutting;
mod detecting;
mod entering;
mod facts;
mod in_turn;
mod inspector;
mod job;
mod keeping;
mod lane;
mod laws;
mod packet;
mod payload;
mod runner;
mod session;
mod settings;
mod side;
mod spread;
mod steering;
mod steps;
mod streams;
mod tally;
mod worker;
mod working;
mod worth;

pub use answer::{BatchFault, BatchOut, Hits, JobCounted, JobHits, JobOut, Matches};
pub use batch::Lanes;
pub use facts::{EndWay, FlowEnds, FlowFacts};
pub use job::{Job, Toward, Work};
pub use lane::Lane;
pub use laws::{
    flows_hold_few_bytes, items_fit, lanes_change_nothing, lanes_keep_open_flows,
    other_flows_change_nothing, stream_items_are_short,
};
pub use payload::Payload;
pub use rule_eval::{
    hits_are_one, matching_is_decided, matching_rules_are_candidates, rule_matches,
    tests_tell_the_hits,
};
