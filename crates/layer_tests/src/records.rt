//! Records of Unified2 with the bytes that the format's tables give, worked out by hand. The borders of what is read
//! are rows of layer_rows.

ghost use Rattle.std.specs.Prelude.{◌<◌};
ghost use Rattle.unified2_out.specs.Records.{AreOfOneVersion};

use edge_io::{Addr, NoMemory, Text};
use row_files::TextParts;
use std::alloc::Global;
use std::process::Abort;
use std::test::Fail;
use unified2_out::{U2, U2Event, U2Packet, read_records, write_record};

/// A datagram in an Ethernet frame: from 10.0.0.1 port 1000 to 10.0.0.2 port 2000, `abc`.
const FRAME: &[u8; 45] =
    b"\x02\0\0\0\0\x02\x02\0\0\0\0\x01\x08\0\x45\0\0\x1f\0\x01\0\0\x40\x11\x66\xcb\
    \x0a\0\0\x01\x0a\0\0\x02\x03\xe8\x07\xd0\0\x0b\0\0abc";

/// The event of the rule 1:1:0 on that datagram, and the datagram's packet without its bytes.
const EVENT: &str = "00000007 00000034
    00000000 00000001 00000000 00000000 00000001 00000001 00000000 00000000 00000000
    0a000001 0a000002 03e8 07d0 11 00 00 00";

const PACKET: &str = "00000002 00000049
    00000000 00000001 00000000 00000000 00000000 00000001 0000002d";

/// The record of a kind that isn't known.
const OTHER: &str = "00000063 00000002 6162";

/// An event of version 6 in which each field has a value of its own.
const EVENT_IP6: &str = "00000048 0000004c
    00000001 00000002 00000003 00000004 00000005 00000006 00000007 00000008 00000009
    20010db8 00*11 01 20010db8 00*11 02 0a0b 0c0d 0e 0f 10 11";

/// The event that the first text is.
fn event() -> U2Event
    ensures { AreOfOneVersion result.src result.dst }
{
    U2Event {
        sensor: 0,
        id: 1,
        second: 0,
        micro: 0,
        sid: 1,
        gid: 1,
        rev: 0,
        class: 0,
        priority: 0,
        src: Addr::V4(0x0a00_0001),
        dst: Addr::V4(0x0a00_0002),
        sport: 1000,
        dport: 2000,
        protocol: 17,
        impact_flag: 0,
        impact: 0,
        blocked: 0,
    }
}

/// The event that the text of version 6 is.
fn event_ip6() -> U2Event
    ensures { AreOfOneVersion result.src result.dst }
{
    U2Event {
        sensor: 1,
        id: 2,
        second: 3,
        micro: 4,
        sid: 5,
        gid: 6,
        rev: 7,
        class: 8,
        priority: 9,
        src: Addr::V6(0x2001_0db8_0000_0000_0000_0000_0000_0001),
        dst: Addr::V6(0x2001_0db8_0000_0000_0000_0000_0000_0002),
        sport: 0x0a0b,
        dport: 0x0c0d,
        protocol: 0x0e,
        impact_flag: 0x0f,
        impact: 0x10,
        blocked: 0x11,
    }
}

/// The value of a hexadecimal digit.
fn digit(byte: u8) -> u8
    ensures { result < 16 }
{
    match byte {
        b'0'..=b'9' => byte - b'0',
        b'a'..=b'f' => byte - b'a' + 10,
        _ => 0,
    }
}

/// Appends the bytes of a word in hexadecimal digits.
fn push_word(bytes: &mut Vec<u8>, word: &str) -> Result<(), NoMemory> {
    for pair in word.as_bytes().chunks(2) {
        if let [high, low] = pair {
            bytes.push(digit(*high) * 16 + digit(*low))?;
        }
    }
    Ok(())
}

/// Appends the bytes of words in hexadecimal digits; after a word, `*6` writes it six times.
fn push_words(bytes: &mut Vec<u8>, text: &str) -> Result<(), NoMemory> {
    for part in text.split_whitespace() {
        let mut part = TextParts::of(part, '*');
        let word = part.word();
        let times = if part.is_read() { 1 } else { part.number() };
        for _ in 0..times {
            push_word(bytes, word)?;
        }
    }
    Ok(())
}

/// Appends the bytes of all records.
fn push_all(bytes: &mut Vec<u8>) -> Result<(), NoMemory> {
    push_words(bytes, EVENT)?;
    push_words(bytes, PACKET)?;
    bytes.extend_from_slice(FRAME)?;
    push_words(bytes, EVENT_IP6)?;
    push_words(bytes, OTHER)
}

/// Writes the packet.
fn write_packet(alloc: Global, out: &mut Vec<u8>) -> Result<(), NoMemory> {
    let packet = U2Packet {
        sensor: 0,
        id: 1,
        event_second: 0,
        second: 0,
        micro: 0,
        link: 1,
        bytes: Text::copy(alloc, FRAME)?,
    };
    write_record(&U2::Packet(packet), out)
}

/// Writes a record of a kind that isn't known.
fn write_other(alloc: Global, out: &mut Vec<u8>) -> Result<(), NoMemory> {
    let bytes = Text::copy(alloc, b"ab")?;
    write_record(&U2::Other { kind: 99, bytes }, out)
}

/// Writes all records.
fn write_all(alloc: Global, out: &mut Vec<u8>) -> Result<(), NoMemory> {
    write_record(&U2::Event(event()), out)?;
    write_packet(alloc, out)?;
    write_record(&U2::Event(event_ip6()), out)?;
    write_other(alloc, out)
}

/// Compares what is written with the bytes.
fn check_written(
    rt: &impl Abort,
    alloc: Global,
    out: &mut Vec<u8>,
    want: &mut Vec<u8>,
) -> Result<(), NoMemory> {
    write_all(alloc, out)?;
    push_all(want)?;
    assert!(rt; out.as_slice() == want.as_slice());
    Ok(())
}

#[test]
fn records_are_written_as_these_bytes(rt: HostRuntime) -> Result<(), Fail> {
    let mut out = Vec::new(rt.alloc());
    let mut want = Vec::new(rt.alloc());
    check_written(&rt, rt.alloc(), &mut out, &mut want)?;
    Ok(())
}

/// Whether this is the packet whose record was written.
fn is_packet(packet: &U2Packet) -> bool {
    let numbers = [
        packet.sensor,
        packet.id,
        packet.event_second,
        packet.second,
        packet.micro,
        packet.link,
    ];
    numbers == [0, 1, 0, 0, 0, 1] && packet.bytes.bytes() == FRAME.as_slice()
}

/// Whether these are all records that were written.
fn are_all(entries: &[U2]) -> bool {
    match entries {
        [
            U2::Event(first),
            U2::Packet(packet),
            U2::Event(second),
            U2::Other { kind, bytes },
        ] => {
            *first == event()
                && is_packet(packet)
                && *second == event_ip6()
                && *kind == 99
                && bytes.bytes() == b"ab".as_slice()
        }
        _ => false,
    }
}

/// Compares what is read with the records.
fn check_read(
    rt: &impl Abort,
    alloc: Global,
    bytes: &mut Vec<u8>,
    entries: &mut Vec<U2>,
) -> Result<(), Fail> {
    push_all(bytes)?;
    read_records(alloc, bytes.as_slice(), entries)?;
    assert!(rt; are_all(entries.as_slice()));
    Ok(())
}

#[test]
fn bytes_are_read_as_these_records(rt: HostRuntime) -> Result<(), Fail> {
    let mut bytes = Vec::new(rt.alloc());
    let mut entries = Vec::new(rt.alloc());
    check_read(&rt, rt.alloc(), &mut bytes, &mut entries)
}
