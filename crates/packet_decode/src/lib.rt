//! The decoder: the bytes of a captured record become the fields of one IPv4 packet, exactly.
//!
//! `decode` walks the link header, the IPv4 header and the transport header of a record, and
//! `decode_datagram` the transport header alone, of a datagram that was put together from
//! fragments; `link_start` is the first step by itself, for either version of the protocol. Each
//! gives a packet whose payload is lent from the bytes, or the reason why the record is skipped;
//! `decode_at` writes the packet in place, its payload by its place in the bytes.
//! They meet the definitions of `specs/Decoding`, which name every field by its place in the whole
//! record, for every link and all bytes; the checksums are those of `specs/Checksum`. None takes
//! memory. Reassembly, sessions, rule headers and alert lines build on the types of this crate:
//! packets, and the heads of the items that rules are tried on.
#![tactic(auto)]

mod checks;
mod checksum;
mod ipv4;
mod item;
#[doc(hidden)]
pub mod numbers;
mod packet;
mod placed;
mod records;
mod skip;
mod start;
mod transport;
mod version;

pub use checks::Checks;
pub use item::{ItemHead, ItemKind, SessionFacts};
pub use packet::{Body, IpHead, Packet, TcpHead};
pub use placed::Placed;
pub use records::{decode, decode_at};
pub use skip::Skip;
pub use start::link_start;
pub use transport::decode_datagram;
pub use version::IpVersion;
