//! What a reading of a configuration has gathered, and how it stops.

use crate::draft::Settings;
use crate::line::{ConfFault, Line, Warning};
use edge_io::{Items, NoMemory, Text};
use net_lists::NumberedLine;

/// What the lines read so far hand on.
#[derive(Drop)]
pub struct Output {
    /// The names of the files, in the order in which their reading began.
    pub files: Items<Text>,
    pub rules: Items<Line>,
    pub warnings: Items<Warning>,
}

/// What the lines read so far gave.
#[derive(Drop)]
pub struct ReadSoFar {
    pub settings: Settings,
    pub output: Output,
}

/// Why a reading stops before its end, with what the lines before hand on.
#[derive(Drop)]
pub enum Stopped {
    NoMemory,
    /// A line is refused, or a file, at the line that includes it.
    Refused(ConfFault, Output),
    /// The host failed at this file, or has no such file.
    Asks(Text, Output),
}

impl From<NoMemory> for Stopped {
    ghost use Rattle.std.specs.Prelude.{◌≡◌};
    ghost use Rattle.conf_parser.specs.declared.reading.Stopped.TheVariants.{NoMemory as no_memory};

    ghost from_gives = { λ _ stopped. stopped ≡ no_memory };

    fn from(_error: NoMemory) -> Stopped {
        Stopped::NoMemory
    }
}

/// A place in a file: the file's place among those read, and the number of a line; line 0 is the file
/// itself.
#[derive(Clone, Copy)]
pub struct At {
    pub file: u32,
    pub line: u32,
}

/// The file that a line is in.
#[derive(Drop)]
pub struct Source {
    pub name: Text,
    /// The file's place among the files read.
    pub place: u32,
    /// How many includes lie between the first file and it.
    pub depth: usize,
}

/// What goes on after a line.
#[derive(Drop)]
pub enum AfterLine {
    Onward(ReadSoFar),
    /// The file of this name is read here.
    Included(Text, ReadSoFar),
}

/// A file that was loaded, before its lines are read.
#[derive(Drop)]
pub struct Opened {
    pub source: Source,
    pub lines: Items<NumberedLine>,
    pub read: ReadSoFar,
}
