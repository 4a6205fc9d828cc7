//! What a record tells of an alert.

use edge_io::{Addr, Moment};

/// An alert: when, between whom, of which rule, and in which packet.
#[derive(Clone, Copy, Debug)]
pub struct Event<'a> {
    /// When it happened. Records show it by its whole microseconds.
    pub moment: Moment,
    pub flow: FiveTuple,
    pub alert: Alert<'a>,
    /// The packet, where it is known.
    pub packet: Option<Captured<'a>>,
    /// The number of the packet in its capture, from 1 on, where it is known.
    pub count: Option<u64>,
}

/// The ends of a flow, and what they speak.
#[derive(Clone, Copy, Debug)]
pub struct FiveTuple {
    /// The protocol of the IP header.
    pub protocol: u8,
    pub src: Addr,
    pub dst: Addr,
    pub pair: Pair,
}

/// What a packet tells of its flow beside addresses and protocol.
#[derive(Clone, Copy, Debug, PartialEq, Eq)]
pub enum Pair {
    /// Neither ports nor a message are known, as of a fragment.
    Unknown,
    /// The ports of TCP or UDP.
    Ports { sport: u16, dport: u16 },
    /// Type and code of an ICMP message of either version, each in as many bytes as records have for a port.
    Message { kind: u16, code: u16 },
}

/// The rule that matched.
#[derive(Clone, Copy, Debug)]
pub struct Alert<'a> {
    /// Whether the packet was dropped.
    pub blocked: bool,
    pub gid: u32,
    pub sid: u32,
    pub rev: u32,
    /// The rule's message: any bytes.
    pub msg: &'a [u8],
    /// The text of its class, empty where the class has no known text; None without a class.
    pub class: Option<&'a [u8]>,
    pub priority: u32,
}

/// The bytes of a captured record.
#[derive(Clone, Copy, Debug)]
pub struct Captured<'a> {
    /// The number of the link type, as in a capture.
    pub link: u32,
    pub bytes: &'a [u8],
    /// The payload among them, where a packet is read there.
    pub payload: Option<&'a [u8]>,
}

/// What all events of a run have alike.
#[derive(Clone, Copy, Debug)]
pub struct RunFields<'a> {
    /// The seed of the community IDs, 0 by default.
    pub seed: u16,
    /// The name of the machine, where it is told: any bytes.
    pub host: Option<&'a [u8]>,
    /// The name of the capture, where it is told: any bytes.
    pub pcap_filename: Option<&'a [u8]>,
}
