//! What of a key is hashed: its numbers one after the other, in few writes of whole words.
//!
//! A hasher spends about as much on a write of one byte as on a word of 8. No answer depends on a hash.
ghost use Rattle.std.specs.Prelude.{◌≡◌};
ghost use Rattle.frag3_core.specs.Hashed.{pair_of_version_4, short_row, last_word, number_of, key_writes};

use crate::DatagramKey;
use edge_io::Addr;
use std::hash::{Hash, Hasher};

impl Hash for DatagramKey {
    ghost use Rattle.std.proofs.Common.{rules};
    ghost use Rattle.std.specs.Cmp.Rules.{hashing};

    ghost hash_input = { key_writes };

    ghost respects_eq = { Prim.search (hashing, rules) };

    fn hash<H: Hasher>(&self, state: &mut H) {
        match pair_of_version_4(self.src, self.dst) {
            Some((src, dst)) => state.write_u128(short_row(src, dst, self.id, self.protocol)),
            None => {
                state.write_u128(number_of(self.src));
                state.write_u128(number_of(self.dst));
                state.write_u64(last_word(self.id, self.protocol));
            }
        }
    }
}

/// The numbers of two addresses, where both are of version 4.
fn pair_of_version_4(src: Addr, dst: Addr) -> Option<(u32, u32)>
    ensures { result ≡ pair_of_version_4 src dst }
{
    match (src, dst) {
        (Addr::V4(src), Addr::V4(dst)) => Some((src, dst)),
        _ => None,
    }
}

/// A key of version 4 as one number.
fn short_row(src: u32, dst: u32, id: u32, protocol: u8) -> u128
    ensures { result ≡ short_row src dst id protocol }
{
    u128::from(src)
        + (u128::from(dst) << 32)
        + (u128::from(id) << 64)
        + (u128::from(protocol) << 96)
}

/// The number of an address.
fn number_of(addr: Addr) -> u128
    ensures { result ≡ number_of addr }
{
    match addr {
        Addr::V4(number) => u128::from(number),
        Addr::V6(number) => number,
    }
}

/// What a key has beside its addresses, as one number.
fn last_word(id: u32, protocol: u8) -> u64
    ensures { result ≡ last_word id protocol }
{
    u64::from(id) + (u64::from(protocol) << 32)
}
