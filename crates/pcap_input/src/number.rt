//! Numbers in a file's byte order. The reader of pcapng captures reads its own by them, too.
ghost use Rattle.std.specs.Prelude.{◌≡◌, ◌+◌, ◌≤◌, length};
ghost use Rattle.pcap_input.specs.Savefile.{number_at};

use byteorder::{BigEndian, ByteOrder, LittleEndian};

/// The number of 32 bits at a place, in the file's byte order.
#[tactic(auto, using(edge_io::proofs::Bytes::numbers), unfolding(crate::specs::Savefile::number_at))]
pub fn u32_at(swapped: bool, bytes: &[u8], place: usize) -> u32
    requires { place + 4 ≤ length bytes.now }
    ensures { result ≡ number_at swapped place 4 bytes.now }
{
    let bytes = &bytes[place..];
    if swapped {
        BigEndian::read_u32(bytes)
    } else {
        LittleEndian::read_u32(bytes)
    }
}

/// The number of 16 bits at a place, in the file's byte order.
#[tactic(auto, using(edge_io::proofs::Bytes::numbers), unfolding(crate::specs::Savefile::number_at))]
pub fn u16_at(swapped: bool, bytes: &[u8], place: usize) -> u16
    requires { place + 2 ≤ length bytes.now }
    ensures { result ≡ number_at swapped place 2 bytes.now }
{
    let bytes = &bytes[place..];
    if swapped {
        BigEndian::read_u16(bytes)
    } else {
        LittleEndian::read_u16(bytes)
    }
}
