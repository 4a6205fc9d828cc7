/// What one direction may hold, and when it is flushed.
#[derive(Clone, Copy, Debug, PartialEq, Eq)]
pub struct Limits {
    /// How many places past the base a segment may end: from 1024 to 1073741824.
    pub bytes: u32,
    /// How many segments are queued between two flushes: at least 2.
    pub segs: u32,
    /// How many places are acknowledged at least before they are flushed: at least 1.
    pub flush: u32,
}

/// What became of a segment.
#[derive(Clone, Copy, Debug, PartialEq, Eq)]
pub enum Added {
    /// The segment is held.
    Queued,
    /// The segment ends at or before the base.
    Old,
    /// The segment ends too many places past the base.
    PastWindow,
    /// As many segments as may be were queued since the last flush.
    TooManySegs,
}
