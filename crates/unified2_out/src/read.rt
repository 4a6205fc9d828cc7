//! Records read from bytes.
ghost use Rattle.std.specs.Prelude.{◌≡◌, ◌≤◌, OnOk, OnErr, IfOk, IfErr, IfNone, MatchOption, take, length};
ghost use Rattle.unified2_out.specs.Records.{most_body_bytes};
ghost use Rattle.unified2_out.specs.Reading.{AddsRecords, IsCauseOf};
ghost use Rattle.unified2_out.specs.Fronts.{IsFrontFrame, HasNoFrame, IsRecordOf, IsOfNoRecord, IsEventOf, HasNoRecord, AddsFront};

use crate::kinds::{
    EVENT, EVENT_IP6, EVENT_IP6_LEN, EVENT_LEN, EVENT_NUMBERS, HEADER, MAX_BODY, PACKET,
    PACKET_NUMBERS,
};
use crate::record::{U2, U2Event, U2Fault, U2Packet};
use byteorder::{BigEndian, ByteOrder};
use edge_io::{Addr, NoMemory, Text};
use std::alloc::Global;

/// Appends the records whose texts, joined, are these bytes.
///
/// `Bad` comes exactly where there are none: `at` is the place after the longest list of records
/// whose joined texts the bytes begin with. After a refusal, also for want of memory, `out` is as it
/// was.
pub fn read_records(alloc: Global, bytes: &[u8], out: &mut Vec<U2>) -> Result<(), U2Fault>
    ensures read { OnOk result (AddsRecords bytes.now out.old.items out.new.items) }
    ensures refused { IfErr result (IsCauseOf bytes.now) }
    ensures unchanged { OnErr result (out.new.items ≡ out.old.items) }
{
    let length = out.len();
    match push_records(alloc, bytes, out) {
        Ok(()) => Ok(()),
        Err(fault) => {
            out.truncate(length);
            Err(fault)
        }
    }
}

// At a refusal some records may be left after what was there.
fn push_records(alloc: Global, bytes: &[u8], out: &mut Vec<U2>) -> Result<(), U2Fault>
    ensures read { OnOk result (AddsRecords bytes.now out.old.items out.new.items) }
    ensures refused { IfErr result (IsCauseOf bytes.now) }
    ensures kept { OnErr result (take (length out.old.items) out.new.items ≡ out.old.items) }
{
    let mut place = 0;
    while place < bytes.len() {
        match push_front(alloc, &bytes[place..], out)? {
            Some(size) => place += size,
            None => return Err(U2Fault::Bad { at: place as u64 }),
        }
    }
    Ok(())
}

// Appends the record that the bytes begin with, and gives the length of its text.
fn push_front(alloc: Global, bytes: &[u8], out: &mut Vec<U2>) -> Result<Option<usize>, NoMemory>
    ensures found { IfOk result (λ found. MatchOption found (HasNoRecord bytes.now)
        (AddsFront bytes.now out.old.items out.new.items)) }
    ensures none { IfOk result (λ found. IfNone found (out.new.items ≡ out.old.items)) }
    ensures unchanged { OnErr result (out.new.items ≡ out.old.items) }
{
    let Some(frame) = front_frame(bytes) else {
        return Ok(None);
    };
    let Some(entry) = record_of(alloc, frame.kind, frame.body)? else {
        return Ok(None);
    };
    out.push(entry)?;
    Ok(Some(HEADER + frame.body.len()))
}

// A kind with a body.
#[derive(Clone, Copy)]
struct Frame<'a> {
    kind: u32,
    body: &'a [u8],
}

// The frame that the bytes begin with.
fn front_frame(bytes: &[u8]) -> Option<Frame<'_>>
    ensures { MatchOption result (HasNoFrame bytes.now)
        (λ frame. IsFrontFrame bytes.now frame.kind frame.body.now) }
{
    if bytes.len() < HEADER {
        return None;
    }
    let kind = BigEndian::read_u32(bytes);
    let len = BigEndian::read_u32(&bytes[4..]) as usize;
    let after = &bytes[HEADER..];
    if len > MAX_BODY || after.len() < len {
        return None;
    }
    Some(Frame {
        kind,
        body: &after[..len],
    })
}

// The record of a kind and a body.
fn record_of(alloc: Global, kind: u32, body: &[u8]) -> Result<Option<U2>, NoMemory>
    requires { length body.now ≤ most_body_bytes }
    ensures { IfOk result (λ found. MatchOption found
        (IsOfNoRecord kind body.now) (IsRecordOf kind body.now)) }
{
    match kind {
        EVENT => Ok(event(body)),
        EVENT_IP6 => Ok(event_ip6(body)),
        PACKET => packet(alloc, body),
        _ => Ok(Some(U2::Other {
            kind,
            bytes: Text::copy(alloc, body)?,
        })),
    }
}

fn event(body: &[u8]) -> Option<U2>
    ensures { MatchOption result (IsOfNoRecord 7 body.now) (IsRecordOf 7 body.now) }
{
    if body.len() != EVENT_LEN {
        return None;
    }
    let (words, after) = body.split_at(EVENT_NUMBERS);
    let (addresses, tail) = after.split_at(8);
    let (src, dst) = addresses.split_at(4);
    Some(U2::Event(event_between(
        words,
        Addr::V4(BigEndian::read_u32(src)),
        Addr::V4(BigEndian::read_u32(dst)),
        tail,
    )))
}

fn event_ip6(body: &[u8]) -> Option<U2>
    ensures { MatchOption result (IsOfNoRecord 72 body.now) (IsRecordOf 72 body.now) }
{
    if body.len() != EVENT_IP6_LEN {
        return None;
    }
    let (words, after) = body.split_at(EVENT_NUMBERS);
    let (addresses, tail) = after.split_at(32);
    let (src, dst) = addresses.split_at(16);
    Some(U2::Event(event_between(
        words,
        Addr::V6(BigEndian::read_u128(src)),
        Addr::V6(BigEndian::read_u128(dst)),
        tail,
    )))
}

// The event between these addresses whose other numbers these bytes are.
fn event_between(words: &[u8], src: Addr, dst: Addr, tail: &[u8]) -> U2Event
    requires nine { length words.now ≡ 36 }
    requires eight { length tail.now ≡ 8 }
    ensures { IsEventOf words.now src dst tail.now result }
{
    let mut numbers = [0; 9];
    BigEndian::read_u32_into(words, &mut numbers);
    let [sensor, id, second, micro, sid, gid, rev, class, priority] = numbers;
    let (ports, octets) = tail.split_at(4);
    let mut ends = [0; 2];
    BigEndian::read_u16_into(ports, &mut ends);
    let [sport, dport] = ends;
    U2Event {
        sensor,
        id,
        second,
        micro,
        sid,
        gid,
        rev,
        class,
        priority,
        src,
        dst,
        sport,
        dport,
        protocol: octets[0],
        impact_flag: octets[1],
        impact: octets[2],
        blocked: octets[3],
    }
}

fn packet(alloc: Global, body: &[u8]) -> Result<Option<U2>, NoMemory>
    requires { length body.now ≤ most_body_bytes }
    ensures { IfOk result (λ found. MatchOption found
        (IsOfNoRecord 2 body.now) (IsRecordOf 2 body.now)) }
{
    if body.len() < PACKET_NUMBERS {
        return Ok(None);
    }
    let (words, bytes) = body.split_at(PACKET_NUMBERS);
    let mut numbers = [0; 7];
    BigEndian::read_u32_into(words, &mut numbers);
    let [sensor, id, event_second, second, micro, link, count] = numbers;
    if count as usize != bytes.len() {
        return Ok(None);
    }
    Ok(Some(U2::Packet(U2Packet {
        sensor,
        id,
        event_second,
        second,
        micro,
        link,
        bytes: Text::copy(alloc, bytes)?,
    })))
}
