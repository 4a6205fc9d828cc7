//! The reader of classic pcap captures: the records of a file, one by one.
//!
//! A capture is a file header and records, as the libpcap savefile format has them (`Savefile` in
//! `specs/`). `CaptureReader` takes the bytes of a host's open capture piece by piece and gives
//! exactly the head, the records and the ending that the whole text has by that definition. At
//! each record it has taken that record's bytes and none after them. The decoder of packets and
//! the run over a capture build on it.
#![tactic(auto)]

mod capture;
mod draws;
#[doc(hidden)]
pub mod fill;
mod frames;
mod generate;
mod header;
#[doc(hidden)]
pub mod number;
mod reader;
#[doc(hidden)]
pub mod spares;
mod traffic;

pub use capture::{CaptureFault, CaptureHead, Record};
pub use generate::{made_captures_are_whole, make_capture};
pub use header::sections_are_no_savefiles;
pub use reader::CaptureReader;
