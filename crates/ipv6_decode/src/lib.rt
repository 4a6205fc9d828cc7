//! The decoder for version 6: the bytes of a captured record become the fields of one IPv6 packet,
//! exactly; and which version a record is read as.
//!
//! `decode6` walks the link header, the IPv6 header, at most eight extension headers and the
//! transport header of a record, and `decode6_datagram` the extension headers and the transport
//! header of a datagram that was put together from fragments. Each gives a packet whose payload is
//! lent from the bytes, or the reason why the record is skipped. They meet the definitions of
//! `specs/Decoding6` and `specs/Headers`, which name every field by its place, for every link and
//! all bytes. Neither takes memory. Packets, skips, the link header and the transport headers are
//! those of `packet_decode`.
//!
//! `packet_of_record` and `packet_of_datagram` give the packet of either version, as `specs/Versions` says.
#![tactic(auto)]

mod header;
mod laws;
mod numbers;
mod records;
mod version;
mod walk;

pub use laws::addresses_are_kept;
pub use records::{decode6, decode6_datagram};
pub use version::{packet_of_datagram, packet_of_record};
