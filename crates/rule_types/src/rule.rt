//! What a rule is: the parts of its header, and what its options tell of the rule as a whole.

use crate::Opt;
use edge_io::{Items, Text};
use net_lists::{AddrList, PortList};

/// What a rule does with an item that it matches (Snort Users Manual 2.9, section 3.2.1).
#[derive(Clone, Copy, Debug, PartialEq, Eq)]
pub enum Action {
    /// The rule gives an event.
    Alert,
    /// The rule takes the item's events away.
    Pass,
}

/// The protocol of a rule's header (section 3.2.2). `Ip` fits every item.
#[derive(Clone, Copy, Debug, PartialEq, Eq)]
pub enum Proto {
    Tcp,
    Udp,
    Icmp,
    Ip,
}

/// A rule: an event is given for an item that meets its header and all its options.
#[derive(Debug, Drop)]
pub struct Rule {
    pub action: Action,
    pub proto: Proto,
    pub src: AddrList,
    pub sports: PortList,
    pub dst: AddrList,
    pub dports: PortList,
    /// The header's direction is `<>`: source and destination may be exchanged.
    pub both: bool,
    /// The options that are kept, in their order, at most 64.
    pub opts: Items<Opt>,
    /// The message of its alerts, at most 1024 bytes.
    pub msg: Text,
    /// The generator's number, at least 1.
    pub gid: u32,
    /// The rule's number, at least 1.
    pub sid: u32,
    /// The rule's revision.
    pub rev: u32,
    /// The place of its class among the configuration's classes.
    pub class: Option<u32>,
    /// 1 is the most urgent; 0 where nothing gives one.
    pub priority: u32,
    /// A match gives no event.
    pub noalert: bool,
    /// The matches that must come before an event is given.
    pub period: Option<Period>,
}

/// A detection filter (`detection_filter`, Snort Users Manual 2.9, chapter 3): a match is kept where it is
/// more than the `count`th of the same address within a stretch of `seconds`.
#[derive(Clone, Copy, Debug, PartialEq, Eq)]
pub struct Period {
    /// Matches are counted by their source address, else by their destination.
    pub by_src: bool,
    /// At least 1.
    pub count: u32,
    /// At least 1.
    pub seconds: u32,
}
