//! The reader of pcapng captures: the packets of a file, one by one.
//!
//! A pcapng file is blocks one after another (draft-ietf-opsawg-pcapng; `Blocks` in `specs/` says
//! which of them this project reads, and how). `NgReader` takes the bytes of a host's open capture
//! piece by piece and gives exactly the records and the ending that the whole text has by that
//! definition. At each record it has taken the bytes up to the end of that record's block, and none
//! after them. Bytes that nothing is read from are passed over and never held. A record is that of
//! `pcap_input`, beside the link of its own interface. `read_up_to` reads a whole capture by these calls.
//! `ReadFault` is why a capture of either format is not read, and `BadCapture` has the messages of those that
//! are refused.
#![tactic(auto)]

mod block;
mod capture;
mod content;
mod fault;
mod last;
mod laws;
mod options;
mod piece;
mod reader;
mod resolution;
mod step;
mod walk;
mod whole;

pub use capture::{NgFault, NgRecord};
pub use fault::{BadCapture, ReadFault};
pub use laws::{calls_give_the_records, savefile_and_pcapng_are_twins};
pub use reader::NgReader;
pub use whole::{Found, read_up_to};
