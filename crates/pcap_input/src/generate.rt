//! A capture that is made of a seed.
ghost use Rattle.std.specs.Prelude.{◌≡◌, ℕ, ◌++◌, ◌<◌, ◌≤◌, length, IfOk, Ok};
ghost use Rattle.pcap_input.specs.Cut.{IsWhole};
ghost use Rattle.pcap_input.specs.Generated.{record_fields, record_bytes, generated, made_cut, made_head};
ghost use Rattle.pcap_input.specs.Savefile.{head_of, most_records};

use crate::header::{FILE_HEADER, RECORD_HEADER};
use crate::traffic::Traffic;
use edge_io::NoMemory;
use std::alloc::{AllocError, Global};

/// The file header: microseconds, least significant byte first, version 2.4, Ethernet.
const HEADER: &[u8; FILE_HEADER] =
    b"\xd4\xc3\xb2\xa1\x02\0\x04\0\0\0\0\0\0\0\0\0\xff\xff\0\0\x01\0\0\0";

/// The bytes of the longest record: its header, and a frame with 64 bytes of data.
const LONGEST_RECORD: usize = 134;

/// A capture of `count` packets that are drawn from a seed, one a millisecond: sixteen TCP sessions
/// with a web server, and UDP datagrams to a name server. Equal arguments give equal bytes.
///
/// It fails only for want of memory, of which it takes 134 bytes a packet at once.
pub fn make_capture(alloc: Global, seed: u32, count: u32) -> Result<Vec<u8>, NoMemory>
    ensures { IfOk result (λ bytes. bytes.items ≡ generated seed count) }
{
    let mut traffic = Traffic::new(seed);
    let mut bytes = Vec::with_capacity(alloc, FILE_HEADER + count as usize * LONGEST_RECORD)?;
    bytes.extend_from_slice(HEADER)?;
    for millis in 0..count {
        let frame = traffic.frame(alloc)?;
        add_record(&mut bytes, millis, &frame)?;
    }
    Ok(bytes)
}

/// A law for callers: a capture that is made is a savefile of Ethernet, of microseconds and with the least
/// significant byte first; after its file header come as many records as were asked for, up to a clean ending.
pub fn made_captures_are_whole()
    ensures head { (seed count : ℕ) → head_of (generated seed count) ≡ Ok made_head }
    ensures whole { (seed count : ℕ) → count ≤ most_records → IsWhole count (made_cut seed count) }
{}

/// The header of the record of a frame of `size` bytes at `millis` milliseconds.
#[tactic(auto, unfolding(crate::specs::Generated::record_fields))]
fn record_fields(millis: u32, size: u32) -> [u8; RECORD_HEADER]
    ensures { result ≡ record_fields millis size }
{
    let [second_0, second_1, second_2, second_3] = (millis / 1000).to_le_bytes();
    let [micro_0, micro_1, micro_2, micro_3] = (millis % 1000 * 1000).to_le_bytes();
    let [size_0, size_1, size_2, size_3] = size.to_le_bytes();
    [
        second_0, second_1, second_2, second_3, micro_0, micro_1, micro_2, micro_3, size_0, size_1,
        size_2, size_3, size_0, size_1, size_2, size_3,
    ]
}

/// Adds the record of a frame.
#[tactic(auto, unfolding(crate::specs::Generated::record_bytes))]
fn add_record(bytes: &mut Vec<u8>, millis: u32, frame: &[u8]) -> Result<(), AllocError>
    requires { length frame.now < 1000 }
    ensures { IfOk result (λ _. bytes.new.items ≡ bytes.old.items ++ record_bytes millis frame.now) }
{
    let header = record_fields(millis, frame.len() as u32);
    bytes.extend_from_slice(&header)?;
    bytes.extend_from_slice(frame)?;
    Ok(())
}
