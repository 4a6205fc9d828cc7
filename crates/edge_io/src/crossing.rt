//! For a crate's tests that its types may move to another thread and be shared by threads. Each call
//! below is proved only for a type that may.

/// Proved only for a type that may move to another thread.
pub fn sendable<T: Send>() {}

/// Proved only for a type that threads may share.
pub fn shareable<T: Sync>() {}
