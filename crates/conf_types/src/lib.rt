//! What a configuration says: its values, each with the range that it lies in.
//!
//! The reader of configurations makes these values, and every crate that works by them builds on this crate
//! alone, so that a change of the reader's proofs asks for none of theirs. `IsSound` in specs/Sound says
//! which values a configuration may have (Snort Users Manual 2.9, chapter 2).
#![tactic(auto)]

mod classes;
mod config;
mod defaults;
mod filter;

pub use classes::{Class, Classes, MOST_CLASSES};
pub use config::{Config, FragConfig, FragEngine, QueueLimits, StreamConfig, StreamEngine};
pub use defaults::{DEFAULT_FRAG_ENGINE, DEFAULT_PORTS, DEFAULT_STREAM_SETTINGS, StreamSettings};
pub use filter::{EventFilter, FilterKind, Suppress, Track};
