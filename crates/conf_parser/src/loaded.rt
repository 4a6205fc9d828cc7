//! What a configuration gives.
ghost use Rattle.std.specs.Prelude.{◌≡◌};
ghost use Rattle.conf_parser.specs.Loaded.{nothing_loaded};

use crate::line::{Line, Warning};
use crate::settings::{config_of, first_draft};
use conf_types::Config;
use edge_io::{Items, Text};
use std::alloc::Global;

/// A configuration that was read, with what it hands on.
#[derive(Debug, Drop)]
pub struct Loaded {
    pub config: Config,
    /// The names of the files, in the order in which their reading began; a file is listed each time
    /// that it was read.
    pub files: Items<Text>,
    /// The rule lines, in reading order.
    pub rules: Items<Line>,
    /// The lines that were skipped, in reading order.
    pub warnings: Items<Warning>,
}

impl Loaded {
    /// The defaults, and no lines. Takes no memory.
    pub fn new(alloc: Global) -> Loaded
        ensures { result ≡ nothing_loaded }
    {
        Loaded {
            config: config_of(first_draft(alloc)),
            files: Items::new(alloc),
            rules: Items::new(alloc),
            warnings: Items::new(alloc),
        }
    }
}
