//! What an item is, and what it has of a packet.
ghost use Rattle.std.specs.Prelude.{◌≡◌};
ghost use Rattle.header_eval.specs.Fields.{is_stream, is_rebuilt, tcp_of};

use packet_decode::{Body, ItemHead, ItemKind, TcpHead};

/// Whether the item is a stretch of a stream.
pub(crate) fn is_stream(kind: ItemKind) -> bool
    ensures { result ≡ is_stream kind }
{
    match kind {
        ItemKind::Stream => true,
        ItemKind::Packet | ItemKind::Rebuilt | ItemKind::Fragment => false,
    }
}

/// Whether the item was put together from fragments.
pub(crate) fn is_rebuilt(kind: ItemKind) -> bool
    ensures { result ≡ is_rebuilt kind }
{
    match kind {
        ItemKind::Rebuilt => true,
        ItemKind::Packet | ItemKind::Stream | ItemKind::Fragment => false,
    }
}

/// The header of a TCP packet.
pub(crate) fn tcp_of(head: &ItemHead) -> Option<TcpHead>
    ensures { result ≡ tcp_of head.now.kind head.now.body }
{
    match (head.kind, head.body) {
        (ItemKind::Stream, _) => None,
        (_, Body::Tcp(tcp)) => Some(tcp),
        _ => None,
    }
}
