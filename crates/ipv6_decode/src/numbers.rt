//! Numbers of sixteen bytes, the most significant first.
ghost use Rattle.std.specs.Prelude.{◌≡◌, ◌+◌, ◌≤◌, length};
ghost use Rattle.ipv6_decode.specs.Headers.{be128};

use byteorder::{BigEndian, ByteOrder};

/// The number in the sixteen bytes from `place`.
#[tactic(auto, using(edge_io::proofs::Bytes::numbers), unfolding(crate::specs::Headers::be128))]
pub fn be128(bytes: &[u8], place: usize) -> u128
    requires { place + 16 ≤ length bytes.now }
    ensures { result ≡ be128 bytes.now place }
{
    BigEndian::read_u128(&bytes[place..])
}
