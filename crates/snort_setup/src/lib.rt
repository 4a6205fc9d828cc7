//! The setup of a run: from its words and files to a detector that is ready, or to the first refusal.
#![tactic(auto)]

mod accepted;
mod conf;
mod laws;
mod message;
mod number;
mod rules;
mod setup;
mod stop;
mod table;
mod words;

pub use laws::skipped_lines_only_warn;
pub use setup::{Setup, read_setup};
pub use stop::SetupStop;
pub use words::SetupWords;
