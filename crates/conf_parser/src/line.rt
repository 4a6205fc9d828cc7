//! Lines of a configuration that are handed on, and why one is refused.

use edge_io::Text;

/// A rule line: the place of its file among the files read, its number from 1, its text without
/// the blanks at its ends.
#[derive(Debug, Drop)]
pub struct Line {
    pub file: u32,
    pub line: u32,
    pub text: Text,
}

/// A line that was skipped: the place of its file, its number, its first word and the name after
/// it.
#[derive(Debug, Drop)]
pub struct Warning {
    pub file: u32,
    pub line: u32,
    pub directive: Text,
    pub name: Text,
}

/// Why a line of a configuration is refused.
#[derive(Debug, Drop)]
pub enum ConfKind {
    /// The first word is no directive.
    UnknownDirective,
    /// A value is not of its form or outside its range, or a part is missing.
    BadValue,
    /// A variable is not defined: its name, or the text of the form `$(N:?text)`.
    UnknownVariable(Text),
    BadAddress,
    BadPort,
    /// A line that may be given once is given again.
    Duplicate,
    /// Includes nest more than 16 deep.
    TooDeep,
    /// The file has more than 16777216 bytes.
    TooLarge,
    /// What the line asks for is outside this profile.
    OutsideProfile,
    /// There is more of something than its limit.
    Limit,
}

/// A refused line: the place of its file, its number, and why. Line 0 is the file itself.
#[derive(Debug, Drop)]
pub struct ConfFault {
    pub file: u32,
    pub line: u32,
    pub kind: ConfKind,
}

/// Why a configuration was not read to its end.
#[derive(Debug, Drop)]
pub enum LoadStop {
    Conf(ConfFault),
    /// The host failed at this file, or has no such file.
    HostFailed { name: Text },
    NoMemory,
}
