//! What a rule says: a header, seven words that say which packets it speaks of, and options, tests of an
//! item's header and payload (Snort Users Manual 2.9, chapter 3).
//!
//! The reader of rules makes these values, and the crates that try rules on items build on this crate
//! alone. `IsSound` in specs/Sound says which values a rule may have.
#![tactic(auto)]

mod option;
mod rule;

pub use option::{
    Base, BitChange, Cmp, Content, FastMode, Fetch, Field, FlowOpt, Mode, Num, Opt, Side,
};
pub use rule::{Action, Period, Proto, Rule};
