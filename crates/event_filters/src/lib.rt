//! Which events are kept: detection filters, the queue of an item's events, suppression and event
//! filters.
//!
//! A `Filters` is given the items of a capture one by one, each with the rules that match it, and tells
//! which of them give a line. Its meaning is `kept` of specs/Events: a definition over the list of the
//! items before, in which each line counts the earlier events of the same rule and address that came
//! as far as itself. Here a window is kept of each key, with the start of its interval and a number
//! (specs/Windows), in a map. Alert lines are made of what is kept.
#![tactic(auto)]

mod counting;
mod detection;
mod filtering;
mod filters;
mod laws;
mod lines;
mod queue;
mod seed;
#[doc(hidden)]
pub mod spread;
mod suppress;

pub use filters::Filters;
pub use laws::nothing_matches;
