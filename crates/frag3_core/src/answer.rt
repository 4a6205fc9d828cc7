//! What a fragment is answered: by which rules, and what came of it.
use edge_io::{Preference, Text};
use packet_decode::IpHead;

/// What the destination of a fragment asks: how its host puts overlapping fragments together, for
/// how many seconds a tracker takes fragments, and the least time to live.
#[derive(Clone, Copy, Debug, PartialEq, Eq)]
pub struct FragRules {
    pub preference: Preference,
    pub timeout: u32,
    pub min_ttl: u8,
}

/// Why a fragment is ignored: the first of these reasons, in the order Ttl, Empty, Reach.
#[derive(Clone, Copy, Debug, PartialEq, Eq)]
pub enum Ignored {
    /// The fragment's time to live is below the least one.
    Ttl,
    /// The fragment ends after place 65535, the longest that a datagram may be.
    Reach,
    /// The fragment has no byte.
    Empty,
}

/// What became of a fragment.
#[derive(Debug, Drop)]
pub enum Taken {
    /// The fragment was kept, and its datagram isn't whole.
    Held,
    Ignored(Ignored),
    /// The fragment made its datagram whole.
    Whole(Datagram),
}

/// A whole datagram: the header of the fragment that completed it, with offset 0 and without
/// more-fragments, and its bytes after the header.
#[derive(Debug, Drop)]
pub struct Datagram {
    pub ip: IpHead,
    pub bytes: Text,
}
