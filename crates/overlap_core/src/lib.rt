//! Which byte the receiving host keeps where segments overlap.
//!
//! A host that gets two different bytes for one place keeps one of them, and hosts differ in which.
//! `wins` is the table of seven preferences, and a `Queue` answers by it for any list of segments
//! (`chosen_byte` of specs/Overlap). It keeps pieces in order of place, each byte once, with the whole
//! bounds of the segment that it came in (specs/Pieces); the list of segments is seen by proofs alone.
//! Datagrams of fragments and the streams of a session are put together over it.
#![tactic(auto)]

mod arriving;
mod laws;
mod piece;
mod queue;
mod room;
mod row;
mod runs;
mod segment;
mod table;

pub use laws::{agreeing_segments_are_one_stream, first_and_last_go_by_arrival, kept_bytes_came};
pub use piece::Piece;
pub use queue::Queue;
pub use segment::{Bounds, Run};
pub use table::wins;
