//! What the keys of trackers are hashed with.

use crate::DatagramKey;
use edge_io::Moment;
use packet_decode::IpHead;
use std::hash::{BuildHasher, DefaultHasher, Hash, Hasher};

/// What every hash begins with: a hasher (SipHash-1-3) that has taken the first fragment and its moment, which
/// another sender can't tell. So who sends fragments can't choose keys that have one hash. No contract speaks
/// of it, since no answer depends on a hash.
///
/// The hasher has taken whole words of 8 bytes: after a part of a word it takes a key byte by byte.
#[derive(Clone, Copy)]
pub struct Seed {
    initial: DefaultHasher,
}

impl Seed {
    /// The seed of a fragment: its moment, its key, and its part with zeros up to a whole word.
    pub fn of(ip: &IpHead, part: &[u8], moment: Moment) -> Seed {
        let mut initial = DefaultHasher::new();
        moment.nanos.hash(&mut initial);
        DatagramKey::of(ip).hash(&mut initial);
        initial.write(part);
        initial.write(&[0; 8][part.len() % 8..]);
        Seed { initial }
    }
}

impl BuildHasher for Seed {
    type Hasher = DefaultHasher;

    ghost build_hasher = { λ seed. seed.initial };

    fn build_hasher(&self) -> DefaultHasher {
        self.initial
    }
}
