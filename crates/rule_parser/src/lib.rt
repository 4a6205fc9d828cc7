//! Rules: what a rule line says.
//!
//! A rule is a header, seven words that say which packets it speaks of, and options, tests of an
//! item's header and payload (Snort Users Manual 2.9, chapter 3). `read_rule` reads one line. What a
//! rule may say is below, in `rule_types`.
#![tactic(auto)]

mod bits;
mod byte_options;
mod byte_words;
mod contents;
mod draft;
mod extracted;
mod fault;
mod fields;
mod flags;
mod flowbits;
mod header;
mod laws;
mod line;
mod names;
mod number;
mod options;
mod patterns;
mod periods;
mod quoted;
mod steering;
mod texts;
mod word;
mod written;

pub use bits::BitNames;
pub use fault::{RuleFault, RuleKind};
pub use laws::lines_have_a_meaning;
pub use line::read_rule;
pub use rule_types::{
    Action, Base, BitChange, Cmp, Content, FastMode, Fetch, Field, FlowOpt, Mode, Num, Opt, Period,
    Proto, Rule, Side,
};
