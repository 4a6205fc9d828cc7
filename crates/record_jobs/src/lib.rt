//! The front of the detector: the records of a capture become the jobs of its flows.
//!
//! A `Front` takes the records one by one. It reads each packet, of version 4 or 6, puts fragments together,
//! finds the flow of each packet and which flow ends for it, and says by which engine and which policy either
//! end goes. What it gives is `jobs` and `finishes` of specs/Jobs, which are defined over the list of all
//! records, without a cache; what the records are counted as is `counts` of specs/Counts. The lanes of
//! flow_lanes run the jobs; what makes a whole run rests on both.
#![tactic(auto)]

mod adding;
mod config;
mod content;
mod counts;
mod engines;
mod front;
mod item;
mod laws;
mod split_laws;
mod time;
mod touches;

pub use config::FrontConfig;
pub use counts::RecordCounts;
pub use front::Front;
pub use laws::{
    datagrams_keep_addresses, jobs_are_in_order, jobs_fit, lanes_may_run, no_records_no_jobs,
    open_flows_live, records_are_counted, streams_hold_few_bytes,
};
pub use split_laws::parts_have_their_items;
