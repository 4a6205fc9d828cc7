//! Datagrams out of fragments, by the receiving host's policy.
//!
//! A `Frag3` takes the fragments of all datagrams one by one, and answers the datagram that a
//! fragment makes whole. Its meaning is `after` and `taken` of specs/Trackers: a list of trackers,
//! one a datagram, each with its fragments whole, in order of arrival; which byte a place has is
//! the overlap table's choice. Here the trackers are in a cache that finds one by its key and
//! drops the earliest without a walk, and a tracker's fragments in a queue of `overlap_core`.
//! The detector's front builds on it: each datagram that it gives is decoded and inspected.
#![tactic(auto)]

mod answer;
mod bounds;
mod frag3;
mod hashed;
mod key;
#[doc(hidden)]
pub mod seed;
mod tracker;
mod trackers;

pub use answer::{Datagram, FragRules, Ignored, Taken};
pub use bounds::held_fragments_are_few;
pub use frag3::Frag3;
pub use key::DatagramKey;
