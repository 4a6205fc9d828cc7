//! Unified2: alerts and packets as the records that barnyard2 and like tools read.
//!
//! `write_record` appends the bytes of one record to the caller's buffer, exactly those of
//! `unified2_text` (specs/Records): the kind, the length and the body, all numbers with the most
//! significant byte first; `write_packet` does so for a packet whose bytes are lent. `read_records` gives
//! back exactly the records whose texts, joined, are the bytes, or the place after the longest list of
//! records that the bytes begin with (specs/Reading).
//! The two fit together: no text of a record begins another's, and a list of records is one by its
//! joined text (proofs/Laws). After a refusal the caller's buffer is as it was.
#![tactic(auto)]

mod kinds;
mod read;
mod record;
mod write;

pub use read::read_records;
pub use record::{LentPacket, U2, U2Event, U2Fault, U2Packet};
pub use write::{write_packet, write_record};
