//! The bytes of one direction of a stream, as the receiving host takes them.
//!
//! A `Direction` queues the segments that one side of a session sends and gives their bytes in runs
//! once the other side has acknowledged enough of them, or at the end (specs/Segments). It puts
//! sequence numbers, which go round modulo 2^32, at places that don't (specs/Sequence), and keeps the
//! bytes in a `Queue` of overlap_core, which chooses where segments overlap. An `Extent` counts how far
//! the data of one side reach (specs/Extents). The lanes of flows build on this crate.
#![tactic(auto)]

mod counted;
mod direction;
mod extent;
mod laws;
mod limits;
mod sequence;

pub use direction::Direction;
pub use extent::Extent;
pub use laws::held_bytes_are_few;
pub use limits::{Added, Limits};
