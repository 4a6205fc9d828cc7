//! Numbers of two and four bytes, the most significant first.
ghost use Rattle.std.specs.Prelude.{◌≡◌, ◌+◌, ◌≤◌, length};
ghost use Rattle.edge_io.specs.Bytes.{be16, be32};

use byteorder::{BigEndian, ByteOrder};

/// The number in the two bytes from `place`.
#[tactic(auto, using(edge_io::proofs::Bytes::numbers), unfolding(edge_io::specs::Bytes::be16))]
pub fn be16(bytes: &[u8], place: usize) -> u16
    requires { place + 2 ≤ length bytes.now }
    ensures { result ≡ be16 bytes.now place }
{
    BigEndian::read_u16(&bytes[place..])
}

/// The number in the four bytes from `place`.
#[tactic(auto, using(edge_io::proofs::Bytes::numbers), unfolding(edge_io::specs::Bytes::be32))]
pub fn be32(bytes: &[u8], place: usize) -> u32
    requires { place + 4 ≤ length bytes.now }
    ensures { result ≡ be32 bytes.now place }
{
    BigEndian::read_u32(&bytes[place..])
}
