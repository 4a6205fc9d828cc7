//! What rules are tried on.

use edge_io::Text;
use packet_decode::ItemHead;

/// What rules see of an item beside its payload, and the payload.
#[derive(Debug, Drop)]
pub struct Item {
    pub head: ItemHead,
    pub payload: Text,
}
