//! For a test of how the keys of windows are hashed.

use crate::counting::CountKey;
use crate::seed::CountSeed;
use edge_io::Addr;
use std::hash::{BuildHasher, BuildHasherDefault, FoldHasher};

/// The key of events of one rule, of an address.
fn key_of(addr: Addr) -> CountKey {
    CountKey {
        place: 0,
        gid: 1,
        sid: 1,
        addr,
    }
}

/// The hash of the key by std's default hasher.
pub fn usual_hash(addr: Addr) -> u64 {
    let hasher: BuildHasherDefault<FoldHasher> = BuildHasherDefault::new();
    hasher.hash_one(key_of(addr))
}

/// The hash of the key by the hasher whose seed no rule has a part in.
pub fn seeded_hash(addr: Addr) -> u64 {
    CountSeed::of(&[]).hash_one(key_of(addr))
}
