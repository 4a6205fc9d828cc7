//! Which rules are worth being tried on an item: those whose protocol and ports fit and whose fast
//! pattern occurs in the payload.
//!
//! `choose` gives the fast pattern of a rule (specs/FastPattern.antt). `Groups::build` puts the fast
//! patterns of all rules, ASCII case folded, into one automaton of pattern_search and the rules that have none into
//! indexes by port; `Groups::candidates` goes over a payload once and appends exactly the candidates of
//! specs/Candidates.antt, which looks for each pattern in the whole payload. A byte costs a few look-ups, however many
//! rules there are; nothing is allocated before the first pattern has ended. What tries rules on items rests on this
//! crate.
//!
//! The four indexes take half a megabyte each, and twelve bytes for each block of ports of a rule.
#![tactic(auto)]

mod blocks;
mod choice;
mod doors;
mod groups;
mod header;
mod index;
mod sides;

pub use choice::{Fast, choose};
pub use groups::{Groups, matching_needs_the_fast_pattern};
