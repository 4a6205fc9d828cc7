//! Lines that say which events are kept (Snort Users Manual 2.9, section 2.4).

use net_lists::AddrList;

/// How an event filter counts (section 2.4.2).
#[derive(Clone, Copy, Debug, PartialEq, Eq)]
pub enum FilterKind {
    /// The first `count` events of an interval are kept.
    Limit,
    /// Every `count`th event of an interval is kept.
    Threshold,
    /// The `count`th event of an interval is kept.
    Both,
}

/// One `event_filter` line.
#[derive(Clone, Copy, Debug, PartialEq, Eq)]
pub struct EventFilter {
    /// 0 stands for every generator.
    pub gid: u32,
    /// 0 stands for every rule of the generator.
    pub sid: u32,
    pub kind: FilterKind,
    /// Events are counted by their source address, else by their destination.
    pub by_src: bool,
    /// At least 1.
    pub count: u32,
    /// The length of an interval, at least 1.
    pub seconds: u32,
}

/// The address of a packet that a line speaks of.
#[derive(Clone, Copy, Debug, PartialEq, Eq)]
pub enum Track {
    BySrc,
    ByDst,
}

/// One `suppress` line (section 2.4.3): the events that it speaks of are dropped.
#[derive(Debug, Drop)]
pub struct Suppress {
    /// 0, with the rule 0, stands for every event.
    pub gid: u32,
    /// 0 stands for every rule of the generator.
    pub sid: u32,
    /// The addresses for which it drops, else all.
    pub track: Option<(Track, AddrList)>,
}
