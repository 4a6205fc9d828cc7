//! What the lines of a configuration that were read so far say.

use crate::{Classes, EventFilter, FragEngine, QueueLimits, StreamEngine, Suppress};
use edge_io::Items;
use net_lists::Vars;
use packet_decode::Checks;
use std::marker::Model;

/// The values of the lines read so far.
#[derive(Drop)]
pub struct Draft {
    pub checks: Checks,
    pub classes: Classes,
    pub queue: QueueLimits,
    pub inserts: bool,
    pub frag: FragDraft,
    pub stream: StreamDraft,
    pub filters: Items<EventFilter>,
    pub suppress: Items<Suppress>,
}

/// The frag3 lines read so far.
#[derive(Drop)]
pub struct FragDraft {
    /// What the `frag3_global` line gives, where it was given.
    pub max_frags: Option<u32>,
    pub engines: Items<FragEngine>,
}

/// The values of the `stream5_global` line.
#[derive(Clone, Copy)]
pub struct StreamGlobal {
    pub track_tcp: bool,
    pub track_udp: bool,
    pub max_tcp: u32,
    pub max_udp: u32,
}

/// The stream5 lines read so far.
#[derive(Drop)]
pub struct StreamDraft {
    /// The `stream5_global` line, where it was given.
    pub global: Option<StreamGlobal>,
    /// The timeout of the `stream5_udp` line, where it was given.
    pub udp_timeout: Option<u32>,
    pub engines: Items<StreamEngine>,
}

/// What comes before a line.
#[derive(Drop)]
pub struct Settings {
    pub vars: Vars,
    pub draft: Draft,
}

/// Where a line is.
#[derive(Drop)]
pub struct Spot<'a> {
    /// The name of its file.
    pub file: &'a [u8],
    /// How many includes lie between the first file and its own.
    pub depth: usize,
    /// How many files were read, its own among them; a file counts each time.
    pub files: usize,
}

impl<'a> Model for Spot<'a> {
    ghost use Rattle.conf_parser.specs.Spots as spots;

    ghost Value = { spots.Spot };

    ghost view = { λ spot. record { file = spot.file.now; depth = spot.depth; files = spot.files } };
}
