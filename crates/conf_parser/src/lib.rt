//! The configuration: a file and its includes, read line by line into the values of a detector.
//!
//! `conf_line` in specs/ConfLine says what one line means: a table of directives, each with a small
//! definition of its own in the specs module of its family. The readers are named alike, and each meets
//! its definition exactly: a value, or the kind of the leftmost fault. Rule lines and warnings are handed
//! on in the order in which they are read. The setup of a run builds on this crate.
#![tactic(auto)]

mod conf_line;
mod config_lines;
mod draft;
mod events;
mod frag3;
mod given;
mod line;
mod lines;
mod loaded;
mod loading;
mod name;
mod options;
mod reading;
mod settings;
mod steps;
mod stop;
mod stream5;
mod tcp;
mod value;
mod variables;
mod word;

pub use conf_types::{
    Class, Classes, Config, EventFilter, FilterKind, FragConfig, FragEngine, QueueLimits,
    StreamConfig, StreamEngine, Suppress, Track,
};
pub use line::{ConfFault, ConfKind, Line, LoadStop, Warning};
pub use loaded::Loaded;
pub use loading::load;
