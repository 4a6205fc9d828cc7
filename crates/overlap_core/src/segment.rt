//! Segments, their bounds, and runs of bytes.
use edge_io::Text;

/// The bounds of a segment: the places from `start` on and below `end`.
#[derive(Clone, Copy, Debug, PartialEq, Eq)]
pub struct Bounds {
    pub start: u64,
    pub end: u64,
}

/// A run of places that all have a byte: the place of the first, and the bytes.
#[derive(Debug, Drop)]
pub struct Run {
    pub start: u64,
    pub bytes: Text,
}
