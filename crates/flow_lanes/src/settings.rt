//! Which engine, which limits and which ports a side of a session goes by.

ghost use Rattle.std.specs.Prelude.{◌≡◌, ◌≤◌, map};
ghost use Rattle.conf_types.specs.Sound.{IsStreamConfig};
ghost use Rattle.flow_lanes.specs.Engines.{engine_for, is_listed, limits_to, timeout_to};
ghost use Rattle.conf_types.specs.Defaults.{default_ports};
ghost use Rattle.net_lists.specs.Membership.{has_port};
ghost use Rattle.net_lists.specs.Parts.{one_port};
ghost use Rattle.stream5_reassembly.specs.Segments.{AreLimits};

use conf_types::{DEFAULT_PORTS, StreamConfig};
use net_lists::PortList;
use stream5_reassembly::Limits;

/// What items are made by: the flush point, whether a packet whose data were queued is an item itself, and
/// the configuration of streams, which is sound. The first two are the lane's own.
#[derive(Drop)]
pub(crate) struct LaneSettings<'a> {
    pub flush: u32,
    pub inserts: bool,
    pub stream: &'a StreamConfig,
    ghost least: { 1 ≤ flush },
    ghost config: { ∥ IsStreamConfig stream.now ∥₁ },
}

/// The port is listed; no list has no port.
fn is_listed(ports: &Option<PortList>, port: u16) -> bool
    ensures { result ≡ is_listed ports.now port }
{
    match ports {
        None => false,
        Some(ports) => ports.contains(port),
    }
}

/// The port is one of those for which an engine without settings puts the client's data together.
fn is_default_port(port: u16) -> bool
    ensures { result ≡ has_port (map one_port default_ports) port }
{
    DEFAULT_PORTS.contains(&port)
}

impl LaneSettings<'_> {
    ghost use Rattle.flow_lanes.specs.Given.{making_of};

    /// The limits of data sent to an end of this engine.
    pub fn limits_to(&self, place: u32) -> Limits
        ensures limits { result ≡ limits_to (making_of self.now) place }
        ensures sound { AreLimits result }
    {
        let engine = self.stream.settings_at(place as usize);
        Limits {
            bytes: engine.bytes_limit,
            segs: engine.segs_limit,
            flush: self.flush,
        }
    }

    /// The seconds from a packet to the next within one session, where its first packet went to an end of
    /// this engine.
    pub fn timeout_to(&self, tcp: bool, place: u32) -> u32
        ensures { result ≡ timeout_to (making_of self.now) tcp place }
    {
        if tcp {
            self.stream.settings_at(place as usize).timeout
        } else {
            self.stream.udp_timeout
        }
    }

    /// A client's data to this port are put together, where the server goes by this engine.
    #[tactic(auto, unfolding(conf_types::specs::Defaults::default_stream_engine))]
    pub fn has_client_port(&self, place: u32, port: u16) -> bool
        ensures { result ≡ is_listed (engine_for (making_of self.now) place).client_ports port }
    {
        match self.stream.engine_at(place as usize) {
            Some(engine) => is_listed(&engine.client_ports, port),
            None => is_default_port(port),
        }
    }

    /// A server's data from this port are put together, where the client goes by this engine.
    #[tactic(auto, unfolding(conf_types::specs::Defaults::default_stream_engine))]
    pub fn has_server_port(&self, place: u32, port: u16) -> bool
        ensures { result ≡ is_listed (engine_for (making_of self.now) place).server_ports port }
    {
        match self.stream.engine_at(place as usize) {
            Some(engine) => is_listed(&engine.server_ports, port),
            None => false,
        }
    }
}
