//! When a rule matches an item, and which rules do.
//!
//! A rule is tried on an item by `rule_matches`, which answers exactly what specs/Hits says: header,
//! fields, bits of the session and payload. `matching_among` finds all rules that match an item, each with
//! the bits that those before it left, among the candidates of fast_pattern. The lanes of flows rest on this crate.
#![tactic(auto)]

mod hits;
mod item;
mod laws;
mod matching;

pub use hits::matching_among;
pub use item::Item;
pub use laws::{
    hits_are_one, matching_is_decided, matching_rules_are_candidates, tests_tell_the_hits,
};
pub use matching::rule_matches;
