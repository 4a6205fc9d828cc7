//! How keys are hashed: those that are chosen to have one hash by std's default hasher have others here.

use edge_io::{Addr, Moment};
use event_filters::spread::{seeded_hash, usual_hash};
use frag3_core::DatagramKey;
use frag3_core::seed::Seed;
use packet_decode::IpHead;
use std::hash::{BuildHasher, BuildHasherDefault, FoldHasher};

/// A host of 9e37:79b9:7f4a:7c15::/64. By std's default hasher all keys of such hosts have one hash.
fn chosen_host(host: u64) -> Addr {
    Addr::V6(0x9e37_79b9_7f4a_7c15_0000_0000_0000_0000 | u128::from(host))
}

/// The key of fragments from such a host.
fn chosen_key(host: u64) -> DatagramKey {
    DatagramKey {
        src: chosen_host(host),
        dst: Addr::V6(0xfd00_0000_0000_0000_0000_0000_0000_0001),
        id: 7,
        protocol: 17,
    }
}

/// The seed of a first fragment at this moment.
fn seed_at(nanos: u64) -> Seed {
    let ip = IpHead {
        id: 7,
        more: true,
        ..IpHead::between(Addr::V4(0x0a00_0001), Addr::V4(0x0a00_0002), 253)
    };
    Seed::of(&ip, b"abcdefgh", Moment { nanos })
}

/// With the seed of a first fragment the keys of fragments have other hashes, and with that of another one others again.
#[test]
fn keys_of_fragments_spread(rt: HostRuntime) {
    let hasher: BuildHasherDefault<FoldHasher> = BuildHasherDefault::new();
    let (seed, later) = (seed_at(1), seed_at(2));
    let first = chosen_key(0);
    for host in 1..64u64 {
        let key = chosen_key(host);
        assert!(rt; hasher.hash_one(key) == hasher.hash_one(first));
        assert!(rt; seed.hash_one(key) != seed.hash_one(first));
        assert!(rt; seed.hash_one(key) != later.hash_one(key));
    }
}

/// With a seed the keys of windows have other hashes, also with one that no rule has a part in.
#[test]
fn keys_of_windows_spread(rt: HostRuntime) {
    let first = chosen_host(0);
    for host in 1..64u64 {
        let host = chosen_host(host);
        assert!(rt; usual_hash(host) == usual_hash(first));
        assert!(rt; seeded_hash(host) != seeded_hash(first));
    }
}
