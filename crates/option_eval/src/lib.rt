//! Whether a payload matches a rule's payload options.
//!
//! A rule's options are gone through in their order, each from the places to which those before it led
//! (Snort Users Manual 2.9, section 3.5; specs/Numbers, specs/Places, which have a heading an option). Where
//! an option leads is found in src/content, src/leads (isdataat, pcre, byte_test, byte_jump) and src/extract. A
//! `RuleSet` keeps the rules with what was made of them once, and `payload_matches` says whether some way
//! leads through all options of a rule. The lanes of flows rest on this crate.
#![tactic(auto)]

mod absent;
mod asked;
mod content;
mod extract;
mod fetch;
mod kept;
mod kind;
mod known;
mod laws;
mod leads;
mod made;
mod making;
mod needle;
mod next;
mod part;
mod passing;
mod reach;
mod rule_set;
mod state_map;
mod states;
mod steps;
mod sweep;
mod walk;

pub use laws::{extracted_values_are_few, most_visits_are_a_power};
pub use making::PushFault;
pub use rule_set::{RuleSet, payload_matches};
pub use steps::Steps;
