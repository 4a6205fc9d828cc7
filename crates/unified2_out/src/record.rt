//! What a Unified2 record says, and why bytes are not read as records.

use edge_io::{Addr, NoMemory, Text};
use thiserror::Error;

/// An event: which rule matched, when, and between whom. A packet of the same number belongs to it.
#[derive(Clone, Copy, Debug, PartialEq, Eq)]
pub struct U2Event {
    /// The number of the sensor.
    pub sensor: u32,
    /// The number of the event.
    pub id: u32,
    /// When it happened, in seconds since 1970-01-01 UTC.
    pub second: u32,
    /// The microseconds of that second.
    pub micro: u32,
    /// The rule's number, the part of the detector that it belongs to, and its revision.
    pub sid: u32,
    pub gid: u32,
    pub rev: u32,
    /// The rule's class, counted from 1; 0 stands for none.
    pub class: u32,
    /// The rule's priority.
    pub priority: u32,
    /// The two addresses, of one version.
    pub src: Addr,
    pub dst: Addr,
    /// The two ports, or the type and the code of an ICMP message.
    pub sport: u16,
    pub dport: u16,
    /// The protocol of the IP header.
    pub protocol: u8,
    /// What Snort tells of the effect of the packet and of its being dropped.
    pub impact_flag: u8,
    pub impact: u8,
    pub blocked: u8,
}

/// The packet of an event.
#[derive(Debug, Drop)]
pub struct U2Packet {
    /// The sensor, the number and the second of the event.
    pub sensor: u32,
    pub id: u32,
    pub event_second: u32,
    /// When the packet was captured: seconds since 1970-01-01 UTC, and microseconds.
    pub second: u32,
    pub micro: u32,
    /// The number of the link type, as in a capture.
    pub link: u32,
    /// The captured bytes, at most 1,048,548.
    pub bytes: Text,
}

/// The packet of an event, whose bytes are lent: it is written as `U2Packet` is, and nothing is copied before.
#[derive(Clone, Copy, Debug)]
pub struct LentPacket<'a> {
    /// The sensor, the number and the second of the event.
    pub sensor: u32,
    pub id: u32,
    pub event_second: u32,
    /// When the packet was captured: seconds since 1970-01-01 UTC, and microseconds.
    pub second: u32,
    pub micro: u32,
    /// The number of the link type, as in a capture.
    pub link: u32,
    /// The captured bytes, at most 1,048,548.
    pub bytes: &'a [u8],
}

/// A record.
#[derive(Debug, Drop)]
pub enum U2 {
    /// Kind 7 with addresses of version 4, kind 72 with addresses of version 6.
    Event(U2Event),
    /// Kind 2.
    Packet(U2Packet),
    /// A kind that is none of these, with its body of at most 1,048,576 bytes.
    Other { kind: u32, bytes: Text },
}

/// Why bytes are not read as records.
#[derive(Clone, Copy, Debug, PartialEq, Eq, Error)]
pub enum U2Fault {
    /// The longest list of records that the bytes begin with ends at this place, counted from 0, and
    /// bytes are left.
    #[error("unified2 file is bad at byte {at}")]
    Bad { at: u64 },
    /// Memory ran out.
    #[error("no memory")]
    NoMemory,
}

impl From<NoMemory> for U2Fault {
    ghost use Rattle.std.specs.Prelude.{◌≡◌};
    ghost use Rattle.unified2_out.specs.declared.record.U2Fault.TheVariants.{NoMemory as out_of_memory};

    ghost from_gives = { λ _ fault. fault ≡ out_of_memory };

    fn from(_error: NoMemory) -> U2Fault {
        U2Fault::NoMemory
    }
}
