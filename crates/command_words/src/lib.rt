//! The words of a command: `snort -c CONF -r CAPTURE` and its options and flags.
//!
//! `read_words` gives what a command asks for, or that its words are refused. The words are read by
//! `clap`; the contract says the same by a plain reading (`specs/CommandLine.antt`): a table of the
//! options and flags, what one word uses, what all of them use, and the steps after the reading. What
//! runs the command builds on this crate, and on nothing of `clap`.
#![tactic(auto)]

mod asked;
mod decide;
mod given;
mod read;
mod syntax;
mod values;

pub use asked::{AlertForm, ChecksumMode, Command, Definition, Words};
pub use read::{WordsFault, read_words};
