//! Entries that were numbered and dealt out to several lists, put together again in one list in
//! the order of their numbers.
//!
//! Each worker answers its share of the jobs in order; `merge` makes one list of the answers, in the
//! order of the jobs. It is an ordered permutation of the entries of all parts (`specs/Merging.antt`):
//! nothing is lost, doubled or made up. What runs jobs in several lanes rests on this crate.
#![tactic(auto)]

mod greatest;
mod merging;
mod numbered;

pub use merging::{merge, permuted_numbers_are_apart};
pub use numbered::Numbered;
