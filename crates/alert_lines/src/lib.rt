//! Alerts on their way out: items with the rules that match them go in, and bytes come out, in blocks.
//!
//! An `AlertWriter` takes the matches of a batch of jobs (`show`): its filters say which events are kept, and the text of
//! each of these, a line or two Unified2 records, comes after those that wait. They are written in blocks, and what still
//! waits by `write_out`. What a step says of the texts and of the sink is one relation (specs/Gathering), for whatever
//! items were given before (specs/Matching). `record_lines` tells the records of a Unified2 file as lines.
#![tactic(auto)]

mod fault;
mod lines;
mod listing;
mod record;
mod sources;
mod tally;
mod unified2;
mod writer;

pub use fault::WriteFault;
pub use listing::record_lines;
pub use record::LinkedRecord;
pub use sources::Sources;
pub use tally::{Tally, sum};
pub use writer::{AlertWriter, Shown};
