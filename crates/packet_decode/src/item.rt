//! An item: what rules see at once, a packet or what was put together.
use crate::{Body, IpHead};
use edge_io::Moment;

/// What an item is.
#[derive(Clone, Copy, Debug, PartialEq, Eq)]
pub enum ItemKind {
    /// A packet as it was captured.
    Packet,
    /// A datagram that was put together from fragments.
    Rebuilt,
    /// A fragment by itself.
    Fragment,
    /// A stretch of a reassembled stream.
    Stream,
}

/// What is known of an item's session, after the item.
#[derive(Clone, Copy, Debug, PartialEq, Eq)]
pub struct SessionFacts {
    /// The item has a session.
    pub tracked: bool,
    /// Both ends of the session have answered.
    pub established: bool,
    /// Whether the item was sent by the session's client; None where the client isn't known.
    pub from_client: Option<bool>,
    /// How many bytes the client and the server have sent, in this order; None outside TCP, and
    /// where the session isn't established.
    pub sizes: Option<(u64, u64)>,
}

impl SessionFacts {
    /// The facts of an item without a session.
    pub const UNTRACKED: SessionFacts = SessionFacts {
        tracked: false,
        established: false,
        from_client: None,
        sizes: None,
    };
}

/// What rules and alert lines see of an item beside its payload.
#[derive(Clone, Copy, Debug, PartialEq, Eq)]
pub struct ItemHead {
    pub kind: ItemKind,
    /// When the item came about: the moment of its record.
    pub moment: Moment,
    pub ip: IpHead,
    pub body: Body,
    pub session: SessionFacts,
}
