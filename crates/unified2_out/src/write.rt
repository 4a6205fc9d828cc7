//! Records written as bytes.
ghost use Rattle.std.specs.Prelude.{◌≡◌, ◌+◌, ◌≤◌, ◌∷◌, ◌++◌, OnOk, OnErr, take, length};
ghost use Rattle.byteorder.specs.Endian.{big_bytes};
ghost use Rattle.unified2_out.specs.Records.{numbers, address_bytes, event_kind, event_words, event_ports, event_octets, frame_text, packet_of, unified2_text};
ghost use Rattle.unified2_out.specs.Parts.{event_len};

use crate::kinds::{
    EVENT, EVENT_HEAD, EVENT_IP6, EVENT_OTHERS, HEADER, PACKET, PACKET_HEAD, PACKET_NUMBERS,
};
use crate::record::{LentPacket, U2, U2Event, U2Packet};
use byteorder::{BigEndian, ByteOrder};
use edge_io::{Addr, NoMemory};
use std::alloc::AllocError;

/// Appends the bytes of a record: its kind, the length of its body, and the body, all numbers with the
/// most significant byte first (Snort Users Manual 2.9, "Unified2 File Format").
///
/// `read_records` reads it where it `IsWritable`: an event between addresses of one version, a packet of at
/// most 1,048,548 bytes, or any other record of at most 1,048,576 and a kind that is none of 2, 7 and 72. Of a
/// longer one the length is written modulo 2^32. Where memory is lacking, nothing is appended.
pub fn write_record(entry: &U2, out: &mut Vec<u8>) -> Result<(), NoMemory>
    ensures appended { OnOk result (out.new.items ≡ out.old.items ++ unified2_text entry.now) }
    ensures unchanged { OnErr result (out.new.items ≡ out.old.items) }
{
    let length = out.len();
    match push_record(entry, out) {
        Ok(()) => Ok(()),
        Err(error) => {
            out.truncate(length);
            Err(error.into())
        }
    }
}

/// Appends the bytes of a packet whose own bytes are lent, as `write_record` does those of a packet. Where
/// memory is lacking, nothing is appended.
pub fn write_packet(packet: &LentPacket<'_>, out: &mut Vec<u8>) -> Result<(), NoMemory>
    ensures appended { OnOk result
        (out.new.items ≡ out.old.items ++ unified2_text (U2.Packet (packet_of packet.now))) }
    ensures unchanged { OnErr result (out.new.items ≡ out.old.items) }
{
    let length = out.len();
    match push_packet(packet, out) {
        Ok(()) => Ok(()),
        Err(error) => {
            out.truncate(length);
            Err(error.into())
        }
    }
}

// Where memory is lacking, a part of the record may be left after what was there.
fn push_record(entry: &U2, out: &mut Vec<u8>) -> Result<(), AllocError>
    ensures appended { OnOk result (out.new.items ≡ out.old.items ++ unified2_text entry.now) }
    ensures kept { OnErr result (take (length out.old.items) out.new.items ≡ out.old.items) }
{
    match entry {
        U2::Event(event) => push_event(event, out),
        U2::Packet(packet) => push_packet(&lent(packet), out),
        U2::Other { kind, bytes } => push_other(*kind, bytes.bytes(), out),
    }
}

// Where memory is lacking, a part of the event may be left after what was there.
fn push_event(event: &U2Event, out: &mut Vec<u8>) -> Result<(), AllocError>
    ensures appended { OnOk result
        (out.new.items ≡ out.old.items ++ unified2_text (U2.Event event.now)) }
    ensures kept { OnErr result (take (length out.old.items) out.new.items ≡ out.old.items) }
{
    out.extend_from_slice(&event_head(event))?;
    push_address(event.src, out)?;
    push_address(event.dst, out)?;
    out.extend_from_slice(&event_tail(event))?;
    Ok(())
}

/// The kind of an event between such addresses.
fn kind_of(src: Addr) -> u32
    ensures { result ≡ event_kind src }
{
    match src {
        Addr::V4(_) => EVENT,
        Addr::V6(_) => EVENT_IP6,
    }
}

/// How many bytes an address has.
fn address_len(address: Addr) -> u32
    ensures len { result ≡ length (address_bytes address) }
    ensures small { result ≤ 16 }
{
    match address {
        Addr::V4(_) => 4,
        Addr::V6(_) => 16,
    }
}

/// What comes before the addresses of an event: its kind, its length, and its numbers of four bytes.
fn event_head(event: &U2Event) -> [u8; EVENT_HEAD]
    ensures { result ≡ numbers 4
        (event_kind event.now.src ∷ event_len event.now.src event.now.dst ∷ event_words event.now) }
{
    let mut head = [0; EVENT_HEAD];
    BigEndian::write_u32_into(
        &[
            kind_of(event.src),
            EVENT_OTHERS + address_len(event.src) + address_len(event.dst),
            event.sensor,
            event.id,
            event.second,
            event.micro,
            event.sid,
            event.gid,
            event.rev,
            event.class,
            event.priority,
        ],
        &mut head,
    );
    head
}

/// What comes after the addresses of an event: its ports, and its numbers of one byte.
fn event_tail(event: &U2Event) -> [u8; 8]
    ensures { result ≡ numbers 2 (event_ports event.now) ++ event_octets event.now }
{
    let [sport_high, sport_low] = event.sport.to_be_bytes();
    let [dport_high, dport_low] = event.dport.to_be_bytes();
    [
        sport_high,
        sport_low,
        dport_high,
        dport_low,
        event.protocol,
        event.impact_flag,
        event.impact,
        event.blocked,
    ]
}

fn push_address(address: Addr, out: &mut Vec<u8>) -> Result<(), AllocError>
    ensures appended { OnOk result (out.new.items ≡ out.old.items ++ address_bytes address) }
    ensures unchanged { OnErr result (out.new.items ≡ out.old.items) }
{
    match address {
        Addr::V4(address) => out.extend_from_slice(&address.to_be_bytes()),
        Addr::V6(address) => out.extend_from_slice(&address.to_be_bytes()),
    }
}

/// The packet, with its bytes lent.
fn lent(packet: &U2Packet) -> LentPacket<'_>
    ensures { packet_of result ≡ packet.entry.now }
{
    LentPacket {
        sensor: packet.sensor,
        id: packet.id,
        event_second: packet.event_second,
        second: packet.second,
        micro: packet.micro,
        link: packet.link,
        bytes: packet.bytes.bytes(),
    }
}

/// The length of `count` bytes after `head` others, modulo 2^32.
fn length_word(head: u32, count: usize) -> u32
    ensures { big_bytes 4 result ≡ big_bytes 4 (head + count) }
{
    head.wrapping_add((count % (1 << 32)) as u32)
}

// Where memory is lacking, a part of the packet may be left after what was there.
fn push_packet(packet: &LentPacket<'_>, out: &mut Vec<u8>) -> Result<(), AllocError>
    ensures appended { OnOk result
        (out.new.items ≡ out.old.items ++ unified2_text (U2.Packet (packet_of packet.now))) }
    ensures kept { OnErr result (take (length out.old.items) out.new.items ≡ out.old.items) }
{
    let bytes = packet.bytes;
    let size = length_word(PACKET_NUMBERS as u32, bytes.len());
    let count = length_word(0, bytes.len());
    let mut head = [0; PACKET_HEAD];
    BigEndian::write_u32_into(
        &[
            PACKET,
            size,
            packet.sensor,
            packet.id,
            packet.event_second,
            packet.second,
            packet.micro,
            packet.link,
            count,
        ],
        &mut head,
    );
    out.extend_from_slice(&head)?;
    out.extend_from_slice(bytes)?;
    Ok(())
}

// Where memory is lacking, a part of the record may be left after what was there.
fn push_other(kind: u32, body: &[u8], out: &mut Vec<u8>) -> Result<(), AllocError>
    ensures appended { OnOk result (out.new.items ≡ out.old.items ++ frame_text kind body.now) }
    ensures kept { OnErr result (take (length out.old.items) out.new.items ≡ out.old.items) }
{
    let size = length_word(0, body.len());
    let mut head = [0; HEADER];
    BigEndian::write_u32_into(&[kind, size], &mut head);
    out.extend_from_slice(&head)?;
    out.extend_from_slice(body)?;
    Ok(())
}
