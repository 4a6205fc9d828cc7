//! What an engine says where no line says otherwise (Snort Users Manual 2.9, sections 2.2.1 to 2.2.3).
ghost use Rattle.std.specs.Prelude.{◌≡◌, slice_get};
ghost use Rattle.std.specs.Option.{option_copied};
ghost use Rattle.conf_types.specs.Defaults.{stream_engine_at};

use crate::{FragEngine, StreamConfig, StreamEngine};
use edge_io::{FragPolicy, StreamPolicy};

/// An engine of fragments without settings.
pub const DEFAULT_FRAG_ENGINE: FragEngine = FragEngine {
    bind: None,
    policy: FragPolicy::Bsd,
    timeout: 60,
    min_ttl: 1,
};

/// The ports of servers for which an engine of streams without settings puts the client's data together.
pub const DEFAULT_PORTS: [u16; 20] = [
    21, 23, 25, 42, 53, 80, 110, 111, 135, 136, 137, 139, 143, 445, 513, 514, 1433, 1521, 2401,
    3306,
];

/// What an engine of streams says, its addresses and ports aside.
#[derive(Clone, Copy, Debug, PartialEq, Eq)]
pub struct StreamSettings {
    pub policy: StreamPolicy,
    pub timeout: u32,
    pub handshake: Option<u32>,
    pub bytes_limit: u32,
    pub segs_limit: u32,
}

/// An engine of streams without settings; its ports are `DEFAULT_PORTS`.
pub const DEFAULT_STREAM_SETTINGS: StreamSettings = StreamSettings {
    policy: StreamPolicy::Bsd,
    timeout: 30,
    handshake: None,
    bytes_limit: 1048576,
    segs_limit: 2621,
};

impl StreamConfig {
    /// The engine at a place; after the last one there is none.
    pub fn engine_at(&self, place: usize) -> Option<&StreamEngine>
        ensures { option_copied result ≡ slice_get self.now.engines place }
    {
        self.engines.as_slice().get(place)
    }

    /// The settings of the engine at a place; after the last one come the defaults.
    #[tactic(auto, unfolding(crate::specs::Defaults::default_stream_engine))]
    pub fn settings_at(&self, place: usize) -> StreamSettings
        ensures policy { result.policy ≡ (stream_engine_at self.now.engines place).policy }
        ensures timeout { result.timeout ≡ (stream_engine_at self.now.engines place).timeout }
        ensures handshake { result.handshake ≡ (stream_engine_at self.now.engines place).handshake }
        ensures bytes { result.bytes_limit ≡ (stream_engine_at self.now.engines place).bytes_limit }
        ensures segs { result.segs_limit ≡ (stream_engine_at self.now.engines place).segs_limit }
    {
        match self.engine_at(place) {
            Some(engine) => StreamSettings {
                policy: engine.policy,
                timeout: engine.timeout,
                handshake: engine.handshake,
                bytes_limit: engine.bytes_limit,
                segs_limit: engine.segs_limit,
            },
            None => DEFAULT_STREAM_SETTINGS,
        }
    }
}
