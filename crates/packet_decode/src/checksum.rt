//! Checksums (RFC 1071), with the words summed in the machine's own byte order.
//!
//! A word whose bytes are exchanged is 256 times the word modulo 65535, since 256 * 256 is 65536, and
//! 256 times a sum is divisible by 65535 exactly where the sum is. So the bytes are read as they lie,
//! and only the sum of the pseudo header, which comes from numbers, is multiplied by 256.
ghost use Rattle.std.specs.Prelude.{◌≡◌, ℕ, ◌+◌, ◌-◌, ◌*◌, ◌^◌, ◌<◌, ◌≤◌, max, length};
ghost use Rattle.edge_io.specs.Bytes.{word_sum};
ghost use Rattle.packet_decode.specs.Checksum.{is_all_ones, sums_to_all_ones, address_sum, pseudo_sum};
ghost use Rattle.packet_decode.specs.Decoding.{is_segment_right, is_message_right};

use crate::{IpHead, IpVersion};
use byteorder::{ByteOrder, LittleEndian};
use edge_io::Addr;

/// The length of a wide word, which counts as its four words of 16 bits.
const WIDE_LEN: usize = 8;

/// How many bytes are added at once where there are as many.
const ROW_LEN: usize = 32;

/// A sum of words as a number of 64 bits that counts as much.
fn folded(sum: u128) -> u64
    requires { sum < 2 ^ 127 }
    ensures { is_all_ones result ≡ is_all_ones sum }
{
    let high = (sum >> 64) as u64;
    let low = (sum & 0xFFFF_FFFF_FFFF_FFFF) as u64;
    high + (low >> 32) + (low & 0xFFFF_FFFF)
}

/// A sum of words has a one's complement sum of all ones, as it has where a checksum is right.
#[tactic(auto, unfolding(crate::specs::Checksum::is_all_ones))]
fn is_all_ones(sum: u128) -> bool
    requires { sum < 2 ^ 127 }
    ensures { result ≡ is_all_ones sum }
{
    let total = folded(sum);
    total > 0 && total % 0xFFFF == 0
}

/// Adds the wide word in the first bytes, and gives the bytes after it.
fn add_wide(total: u128, bytes: &[u8]) -> (u128, &[u8])
    requires room { total < 2 ^ 126 }
    requires long { 8 ≤ length bytes.now }
    ensures same { sums_to_all_ones result.0 result.1.now ≡ sums_to_all_ones total bytes.now }
    ensures bound { result.0 < total + 2 ^ 64 }
    ensures after { length result.1.now + 8 ≡ length bytes.now }
{
    let (front, rest) = bytes.split_at(WIDE_LEN);
    (total + u128::from(LittleEndian::read_u64(front)), rest)
}

/// Adds the four wide words in the first bytes, and gives the bytes after them.
fn add_row(total: u128, bytes: &[u8]) -> (u128, &[u8])
    requires room { total < 2 ^ 125 }
    requires long { 32 ≤ length bytes.now }
    ensures same { sums_to_all_ones result.0 result.1.now ≡ sums_to_all_ones total bytes.now }
    ensures bound { result.0 < total + 2 ^ 66 }
    ensures after { length result.1.now + 32 ≡ length bytes.now }
{
    let (one, after_one) = add_wide(total, bytes);
    let (two, after_two) = add_wide(one, after_one);
    let (three, after_three) = add_wide(two, after_two);
    add_wide(three, after_three)
}

/// Adds the wide words, row by row while there are rows, and gives the bytes that are left.
///
/// No slice is long enough to overflow the sum.
fn add_rows(start: u128, bytes: &[u8]) -> (u128, &[u8])
    requires { start < 2 ^ 76 }
    ensures same { sums_to_all_ones result.0 result.1.now ≡ sums_to_all_ones start bytes.now }
    ensures bound { result.0 < 2 ^ 125 }
    ensures few { length result.1.now < 32 }
{
    let mut total = start;
    let mut rest = bytes;
    while rest.len() >= ROW_LEN {
        let (sum, after) = add_row(total, rest);
        total = sum;
        rest = after;
    }
    (total, rest)
}

/// Adds the wide word in the first bytes, if there are as many, and gives the bytes that are left.
fn add_eight(total: u128, bytes: &[u8]) -> (u128, &[u8])
    requires room { total < 2 ^ 126 }
    ensures same { sums_to_all_ones result.0 result.1.now ≡ sums_to_all_ones total bytes.now }
    ensures bound { result.0 < total + 2 ^ 64 }
    ensures few { length result.1.now ≤ max 7 (length bytes.now - 8) }
{
    if bytes.len() < WIDE_LEN {
        return (total, bytes);
    }
    add_wide(total, bytes)
}

/// Adds the wide words in less than a row, and gives the bytes that are left.
fn add_wides(start: u128, bytes: &[u8]) -> (u128, &[u8])
    requires room { start < 2 ^ 125 }
    requires few { length bytes.now < 32 }
    ensures same { sums_to_all_ones result.0 result.1.now ≡ sums_to_all_ones start bytes.now }
    ensures bound { result.0 < start + 2 ^ 66 }
    ensures few { length result.1.now < 8 }
{
    let (one, after_one) = add_eight(start, bytes);
    let (two, after_two) = add_eight(one, after_one);
    add_eight(two, after_two)
}

/// Adds the two words in the first four bytes, if there are as many, and gives the bytes that are left.
fn add_four(total: u128, bytes: &[u8]) -> (u128, &[u8])
    requires room { total < 2 ^ 126 }
    ensures same { sums_to_all_ones result.0 result.1.now ≡ sums_to_all_ones total bytes.now }
    ensures bound { result.0 < total + 2 ^ 32 }
    ensures few { length result.1.now ≤ max 3 (length bytes.now - 4) }
{
    if bytes.len() < 4 {
        return (total, bytes);
    }
    let (front, rest) = bytes.split_at(4);
    (total + u128::from(LittleEndian::read_u32(front)), rest)
}

/// Adds the word in the first two bytes, if there are as many, and gives the bytes that are left.
fn add_two(total: u128, bytes: &[u8]) -> (u128, &[u8])
    requires room { total < 2 ^ 126 + 2 ^ 32 }
    ensures same { sums_to_all_ones result.0 result.1.now ≡ sums_to_all_ones total bytes.now }
    ensures bound { result.0 < total + 2 ^ 16 }
    ensures few { length result.1.now ≤ max 1 (length bytes.now - 2) }
{
    if bytes.len() < 2 {
        return (total, bytes);
    }
    let (front, rest) = bytes.split_at(2);
    (total + u128::from(LittleEndian::read_u16(front)), rest)
}

/// Adds the words of a few bytes; an odd last one is followed by a byte of zeros.
fn add_last(start: u128, bytes: &[u8]) -> u128
    requires room { start < 2 ^ 126 }
    requires few { length bytes.now < 8 }
    ensures same { is_all_ones result ≡ sums_to_all_ones start bytes.now }
    ensures bound { result < 2 ^ 127 }
{
    let (fours, after_fours) = add_four(start, bytes);
    let (twos, after_twos) = add_two(fours, after_fours);
    match after_twos {
        [last] => twos + u128::from(*last),
        _ => twos,
    }
}

/// The words that `start` stands for, and those of the bytes, sum to all ones.
fn sums_to_all_ones(start: u128, bytes: &[u8]) -> bool
    requires { start < 2 ^ 76 }
    ensures { result ≡ sums_to_all_ones start bytes.now }
{
    let (rows, after_rows) = add_rows(start, bytes);
    let (wides, after_wides) = add_wides(rows, after_rows);
    is_all_ones(add_last(wides, after_wides))
}

/// An address as a sum that stands for its words.
fn address_total(addr: Addr) -> u128
    ensures same { (more : ℕ) → is_all_ones (result + more) ≡ is_all_ones (address_sum addr + more) }
    ensures bound { result < 2 ^ 65 }
{
    match addr {
        Addr::V4(number) => u128::from(number),
        Addr::V6(number) => (number >> 64) + (number & u128::from(u64::MAX)),
    }
}

/// The pseudo header of a segment of `len` bytes, as a sum that stands for its words in the machine's
/// byte order.
fn pseudo_total(ip: &IpHead, len: usize) -> u128
    ensures same { (more : ℕ) → is_all_ones (256 * result + more)
        ≡ is_all_ones (pseudo_sum ip.now.src ip.now.dst ip.now.protocol len + more) }
    ensures bound { result < 2 ^ 76 }
{
    let source = address_total(ip.src);
    let destination = address_total(ip.dst);
    let protocol = ip.protocol;
    (source + destination + u128::from(protocol) + len as u128) * 256
}

/// The checksum over a part of a packet is right, where it has no pseudo header.
pub fn is_part_right(part: &[u8]) -> bool
    ensures { result ≡ is_all_ones (word_sum part.now) }
{
    sums_to_all_ones(0, part)
}

/// The checksum over an IPv4 header is right; most have no options.
pub fn is_header_right(header: &[u8]) -> bool
    requires { 20 ≤ length header.now }
    ensures { result ≡ is_all_ones (word_sum header.now) }
{
    let (eight, after_eight) = add_wide(0, header);
    let (sixteen, after_sixteen) = add_wide(eight, after_eight);
    let (twenty, options) = add_four(sixteen, after_sixteen);
    if options.is_empty() {
        is_all_ones(twenty)
    } else {
        sums_to_all_ones(twenty, options)
    }
}

/// The checksum over a segment with its pseudo header is right.
#[tactic(auto, unfolding(crate::specs::Decoding::is_segment_right))]
pub fn is_segment_right(ip: &IpHead, segment: &[u8]) -> bool
    ensures { result ≡ is_segment_right ip.now segment.now }
{
    sums_to_all_ones(pseudo_total(ip, segment.len()), segment)
}

/// The checksum over a control message is right: over version 6 it has a pseudo header.
#[tactic(auto, unfolding(crate::specs::Decoding::is_message_right))]
pub fn is_message_right(version: IpVersion, ip: &IpHead, message: &[u8]) -> bool
    ensures { result ≡ is_message_right version ip.now message.now }
{
    match version {
        IpVersion::Four => is_part_right(message),
        IpVersion::Six => is_segment_right(ip, message),
    }
}
