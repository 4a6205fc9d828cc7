//! What an alert line tells.

use edge_io::Addr;

/// The date and the time of a line, in UTC. A line has no year.
#[derive(Clone, Copy, Debug, PartialEq, Eq)]
pub struct LineTime {
    pub month: u8,
    pub day: u8,
    pub hour: u8,
    pub minute: u8,
    pub second: u8,
    pub microsecond: u32,
}

/// The numbers of a rule.
#[derive(Clone, Copy, Debug, PartialEq, Eq)]
pub struct RuleMark {
    pub gid: u32,
    pub sid: u32,
    pub rev: u32,
}

/// Both ends, and their ports where the line has them.
#[derive(Clone, Copy, Debug, PartialEq, Eq)]
pub struct LineEnds {
    pub src: Addr,
    pub dst: Addr,
    /// The source's, and the destination's.
    pub ports: Option<(u16, u16)>,
}

/// What an alert line tells. Its texts are those of the line.
#[derive(Clone, Copy, Debug)]
pub struct AlertLine<'a> {
    pub time: LineTime,
    pub mark: RuleMark,
    /// The message: any bytes.
    pub msg: &'a [u8],
    /// The text of the class, where the line has one.
    pub class: Option<&'a [u8]>,
    pub priority: u32,
    /// The protocol of the IP header.
    pub protocol: u8,
    pub ends: LineEnds,
}
