//! What a configuration says, each value with its default where no line gives it.

use crate::{Classes, EventFilter, Suppress};
use edge_io::{FragPolicy, Items, StreamPolicy};
use net_lists::{AddrList, PortList};
use packet_decode::Checks;

/// The values of a configuration (Snort Users Manual 2.9, chapter 2).
#[derive(Debug, Drop)]
pub struct Config {
    /// The checksums that are checked; all, where no line says otherwise.
    pub checks: Checks,
    pub classes: Classes,
    pub queue: QueueLimits,
    /// A packet whose data were queued for reassembly is tried itself, too; false where
    /// `no_stream_inserts` is given.
    pub inserts: bool,
    /// How fragments are put together; None where no line gives an engine.
    pub frag: Option<FragConfig>,
    pub stream: StreamConfig,
    /// The `event_filter` lines in their order, at most 1024.
    pub filters: Items<EventFilter>,
    /// The `suppress` lines in their order, at most 1024.
    pub suppress: Items<Suppress>,
}

/// How many events an item gives, and in which order (section 2.4.2, `config event_queue`).
#[derive(Clone, Copy, Debug, PartialEq, Eq)]
pub struct QueueLimits {
    /// The events that are kept, 1 to 1024; 8 where no line gives it.
    pub max_queue: u32,
    /// The events that are written of those kept, 1 to 1024; 3 where no line gives it.
    pub log: u32,
    /// Ordered by priority, else by the length of the longest content.
    pub by_priority: bool,
}

/// One `frag3_engine` line (section 2.2.1).
#[derive(Debug, Drop)]
pub struct FragEngine {
    /// The hosts that it speaks of; None where it speaks of all that no other line has.
    pub bind: Option<AddrList>,
    pub policy: FragPolicy,
    /// In seconds, 1 to 3600.
    pub timeout: u32,
    /// 1 to 255.
    pub min_ttl: u8,
}

/// The frag3 lines of a configuration.
#[derive(Debug, Drop)]
pub struct FragConfig {
    /// 1 to 1048576.
    pub max_frags: u32,
    /// The `frag3_engine` lines in their order, 1 to 1024.
    pub engines: Items<FragEngine>,
}

/// One `stream5_tcp` line (section 2.2.3).
#[derive(Debug, Drop)]
pub struct StreamEngine {
    /// The hosts that it speaks of; None where it speaks of all that no other line has.
    pub bind: Option<AddrList>,
    pub policy: StreamPolicy,
    /// In seconds, 1 to 86400.
    pub timeout: u32,
    /// The seconds from the capture's start on after which a session must begin with a handshake;
    /// None where it need not.
    pub handshake: Option<u32>,
    /// The bytes that a direction queues, 1024 to 1073741824.
    pub bytes_limit: u32,
    /// The segments that a direction queues, 2 to 1073741824.
    pub segs_limit: u32,
    /// The servers' ports for which the client's data are put together; None where there is none.
    pub client_ports: Option<PortList>,
    /// The servers' ports for which the server's data are put together; None where there is none.
    pub server_ports: Option<PortList>,
}

/// The stream5 lines of a configuration.
#[derive(Debug, Drop)]
pub struct StreamConfig {
    /// Sessions of TCP are tracked.
    pub tcp: bool,
    /// Sessions of UDP are tracked.
    pub udp: bool,
    /// 1 to 1048576.
    pub max_tcp: u32,
    /// 1 to 1048576.
    pub max_udp: u32,
    /// In seconds, 1 to 86400.
    pub udp_timeout: u32,
    /// The `stream5_tcp` lines in their order, at most 1024.
    pub engines: Items<StreamEngine>,
}
