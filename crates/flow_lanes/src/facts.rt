//! What is known of a flow that has not ended (specs/Sound).

ghost use Rattle.std.specs.Prelude.{◌≡◌, ◌+◌, ◌^◌, ◌<◌, ◌≤◌, Some, IfSome};
ghost use Rattle.flow_lanes.specs.Given.{packet_of};
ghost use Rattle.flow_lanes.specs.Sound.{ends_of, way_of};

use crate::arrival::Arrival;
use crate::job::Toward;
use edge_io::Preference;
use stream5_sessions::Key;

/// What the data sent to an end are put together by.
#[derive(Clone, Copy)]
pub struct EndWay {
    pub engine: u32,
    pub preference: Preference,
}

/// The key of a flow, and what its lower and its higher end go by.
#[derive(Clone, Copy)]
pub struct FlowEnds {
    pub key: Key,
    pub low: EndWay,
    pub high: EndWay,
}

/// What is known of a flow: its ends, and how many packets it had. Read by contracts alone: by it each next
/// job is known to be sound.
#[derive(Clone, Copy)]
pub struct FlowFacts {
    pub ends: FlowEnds,
    pub packets: u64,
}

/// What goes by an end, without the asking for a handshake.
fn way_of(to: Toward) -> EndWay
    ensures { result ≡ way_of to }
{
    EndWay {
        engine: to.engine,
        preference: to.preference,
    }
}

/// The key of a packet's flow, and what goes by its ends.
pub(crate) fn ends_of(p: &Arrival) -> FlowEnds
    ensures { result ≡ ends_of (packet_of p.now) }
{
    let key = Key::of(p.is_tcp(), p.sender(), p.receiver());
    FlowEnds {
        key,
        low: way_of(p.toward(key.low)),
        high: way_of(p.toward(key.high)),
    }
}
