//! The packets of rows: over Ethernet II and IPv4, from C, 10.0.0.1, to S, 10.0.0.2, or back.

use crate::page::Page;
use row_files::{TextParts, cut};

/// An end of a packet: C or S, and a port.
#[derive(Clone, Copy)]
pub(crate) struct FrameEnd {
    pub host: u16,
    pub port: u16,
}

/// Ethernet II addresses and the type of IPv4.
const LINK: &[u8] = b"\x02\0\0\0\0\x02\x02\0\0\0\0\x01\x08\0";

/// The head of a capture: microseconds, least significant byte first, Ethernet.
pub(crate) const HEAD: &[u8] =
    b"\xd4\xc3\xb2\xa1\x02\0\x04\0\0\0\0\0\0\0\0\0\xff\xff\0\0\x01\0\0\0";

/// The end that a text such as `C:1000` names.
fn end_of(parts: &mut TextParts<'_>, text: &str) -> FrameEnd {
    let (name, port) = cut(text, ':');
    let mut port = TextParts::of(port, ' ');
    let end = FrameEnd {
        host: host_of(parts, name),
        port: port.short(),
    };
    if port.is_wrong() {
        parts.refuse();
    }
    end
}

/// The last number of a host's address.
fn host_of(parts: &mut TextParts<'_>, name: &str) -> u16 {
    match name {
        "C" => 1,
        "S" => 2,
        _ => {
            parts.refuse();
            0
        }
    }
}

/// Both ends of a packet, which the next part says, as `C:1000>S:2000`.
pub(crate) fn ends_of(parts: &mut TextParts<'_>) -> (FrameEnd, FrameEnd) {
    let (source, target) = cut(parts.word(), '>');
    (end_of(parts, source), end_of(parts, target))
}

/// Appends bytes.
fn push(page: &mut Page, packet: &mut Vec<u8>, bytes: &[u8]) {
    page.note(packet.extend_from_slice(bytes));
}

/// Appends the bytes of numbers, most significant first.
fn push_words(page: &mut Page, packet: &mut Vec<u8>, words: &[u16]) {
    for word in words {
        push(page, packet, &word.to_be_bytes());
    }
}

/// The sum of words.
fn sum_of(words: &[u16]) -> u64 {
    let mut sum = 0u64;
    for word in words {
        sum = sum.wrapping_add(u64::from(*word));
    }
    sum
}

/// The sum of the big-endian 16-bit words of bytes (RFC 1071).
fn byte_sum(bytes: &[u8]) -> u64 {
    let mut sum = 0u64;
    let mut place = 256u64;
    for byte in bytes {
        sum = sum.wrapping_add(u64::from(*byte).wrapping_mul(place));
        place = 257u64.wrapping_sub(place);
    }
    sum
}

/// The Internet checksum of words with this sum.
fn checksum(sum: u64) -> u16 {
    65_535 - (sum % 65_535) as u16
}

fn size_of(bytes: &[u8]) -> u16 {
    u16::try_from(bytes.len()).unwrap_or(u16::MAX)
}

/// The fields of an IPv4 header that differ from row to row.
#[derive(Clone, Copy)]
struct Fields {
    id: u16,
    /// Flags and offset.
    offset: u16,
    protocol: u16,
    source: u16,
    target: u16,
    /// How many bytes the datagram has.
    size: u16,
}

/// The addresses of both hosts, by their last numbers.
fn addresses_of(source: u16, target: u16) -> [u16; 4] {
    [0x0a00, source, 0x0a00, target]
}

/// Appends a link header and an IPv4 header.
fn push_head(page: &mut Page, packet: &mut Vec<u8>, fields: Fields) {
    let ttl_and_protocol = 0x4000 + fields.protocol % 256;
    let front = [
        0x4500,
        fields.size,
        fields.id,
        fields.offset,
        ttl_and_protocol,
    ];
    let addresses = addresses_of(fields.source, fields.target);
    let sum = checksum(sum_of(&front).wrapping_add(sum_of(&addresses)));
    push(page, packet, LINK);
    push_words(page, packet, &front);
    push_words(page, packet, &[sum]);
    push_words(page, packet, &addresses);
}

/// Appends a UDP packet without a checksum.
pub(crate) fn push_udp(
    page: &mut Page,
    packet: &mut Vec<u8>,
    ends: (FrameEnd, FrameEnd),
    text: &[u8],
) {
    let (source, target) = ends;
    let size = size_of(text).saturating_add(8);
    let fields = Fields {
        id: 1,
        offset: 0,
        protocol: 17,
        source: source.host,
        target: target.host,
        size: size.saturating_add(20),
    };
    push_head(page, packet, fields);
    push_words(page, packet, &[source.port, target.port, size, 0]);
    push(page, packet, text);
}

/// The upper and the lower half of a number.
fn halves(number: u32) -> (u16, u16) {
    ((number / 65_536) as u16, (number % 65_536) as u16)
}

/// A TCP header up to its checksum: 20 bytes long, window 65535.
fn tcp_front(ends: (FrameEnd, FrameEnd), flags: u16, numbers: (u32, u32)) -> [u16; 8] {
    let (sequence_high, sequence_low) = halves(numbers.0);
    let (acknowledged_high, acknowledged_low) = halves(numbers.1);
    [
        ends.0.port,
        ends.1.port,
        sequence_high,
        sequence_low,
        acknowledged_high,
        acknowledged_low,
        0x5000 + flags % 256,
        0xffff,
    ]
}

/// Appends a TCP packet with a header of 20 bytes, window 65535 and its checksum.
pub(crate) fn push_tcp(
    page: &mut Page,
    packet: &mut Vec<u8>,
    ends: (FrameEnd, FrameEnd),
    flags: u16,
    numbers: (u32, u32),
    text: &[u8],
) {
    let front = tcp_front(ends, flags, numbers);
    let addresses = addresses_of(ends.0.host, ends.1.host);
    let size = size_of(text).saturating_add(20);
    let sum = sum_of(&addresses)
        .wrapping_add(6 + u64::from(size))
        .wrapping_add(sum_of(&front))
        .wrapping_add(byte_sum(text));
    let fields = Fields {
        id: 1,
        offset: 0,
        protocol: 6,
        source: ends.0.host,
        target: ends.1.host,
        size: size.saturating_add(20),
    };
    push_head(page, packet, fields);
    push_words(page, packet, &front);
    push_words(page, packet, &[checksum(sum), 0]);
    push(page, packet, text);
}

/// Appends a fragment from C to S: number 7, protocol 253, the offset in bytes.
pub(crate) fn push_fragment(
    page: &mut Page,
    packet: &mut Vec<u8>,
    offset: u16,
    has_more: bool,
    text: &[u8],
) {
    let more = if has_more { 0x2000 } else { 0 };
    let fields = Fields {
        id: 7,
        offset: (offset / 8) | more,
        protocol: 253,
        source: 1,
        target: 2,
        size: size_of(text).saturating_add(20),
    };
    push_head(page, packet, fields);
    push(page, packet, text);
}

/// The header of a record with these bytes: numbers, least significant byte first.
pub(crate) fn record_head(moment: (u32, u32), bytes: &[u8]) -> [u32; 4] {
    let size = u32::try_from(bytes.len()).unwrap_or(u32::MAX);
    [moment.0, moment.1, size, size]
}
