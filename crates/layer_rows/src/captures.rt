//! Captures: the calls of pcap_input and pcapng_input, on captures that words give.

use crate::bytes::{CAPTURE, host_of, show_bytes};
use crate::page::Page;
use crate::row::Row;
use edge_io::{Host, Link, MemHost, NoMemory};
use pcap_input::{CaptureHead, CaptureReader, Record, make_capture};
use pcapng_input::{Found, read_up_to};
use row_files::TextParts;

/// Number, nanoseconds, original length and bytes.
fn show_record(page: &mut Page, record: &Record) {
    page.show(format_args!(
        "{} {} {} ",
        record.number, record.moment.nanos, record.original
    ));
    show_bytes(page, record.bytes.bytes());
}

/// Shows what a reader gives next.
fn show_next(page: &mut Page, reader: &mut CaptureReader, host: &mut MemHost) {
    match reader.next(page.alloc, host) {
        Ok(Some(record)) => show_record(page, &record),
        Ok(None) => page.put("end"),
        Err(why) => page.debug(&why),
    }
}

/// Shows what a reader knows of its capture, and `count` of its answers.
fn show_answers(page: &mut Page, reader: &mut CaptureReader, host: &mut MemHost, count: u32) {
    let CaptureHead {
        link,
        swapped,
        nanos,
    } = reader.head();
    page.show(format_args!("{link:?} {swapped} {nanos}"));
    for _ in 0..count {
        page.put("; ");
        show_next(page, reader, host);
    }
}

/// `pcap COUNT WORDS`: the head of the capture and COUNT answers after it, or why it is refused.
fn pcap(page: &mut Page, row: &Row, count: u32, words: &str) {
    let mut host = host_of(page, row, words);
    match CaptureReader::open(&mut host, CAPTURE) {
        Ok(mut reader) => show_answers(page, &mut reader, &mut host, count),
        Err(why) => page.debug(&why),
    }
}

/// `resumed NUMBER WORDS`: two answers of a reader that has given NUMBER records of Ethernet and is at 24, where
/// these bytes are left.
fn resumed(page: &mut Page, row: &Row, number: u32, words: &str) {
    let mut host = host_of(page, row, words);
    if host.open(CAPTURE).is_err() {
        page.put("not opened: ");
    }
    let head = CaptureHead {
        link: Link::Ethernet,
        swapped: false,
        nanos: false,
    };
    let mut reader = CaptureReader::resume(head, number, 24);
    show_answers(page, &mut reader, &mut host, 2);
}

/// Shows the records, each with its link, and what follows them.
fn show_found(page: &mut Page, found: &Found) {
    for given in found.records.as_slice() {
        page.debug(&given.link);
        page.put(" ");
        show_record(page, &given.item);
        page.put("; ");
    }
    match &found.refused {
        Some(why) => page.debug(why),
        None => page.put("end"),
    }
}

/// `pcapng LIMIT WORDS`: at most LIMIT records and what follows them, or why the capture is refused.
fn pcapng(page: &mut Page, row: &Row, limit: u32, words: &str) {
    let mut host = host_of(page, row, words);
    match read_up_to(page.alloc, &mut host, CAPTURE, limit as usize) {
        Ok(found) => show_found(page, &found),
        Err(why) => page.debug(&why),
    }
}

/// Shows the last `length` bytes in digits.
fn show_last(page: &mut Page, bytes: &[u8], length: usize) {
    let from = bytes.len().saturating_sub(length);
    match hex::encode(page.alloc, bytes.get(from..).unwrap_or(&[])) {
        Ok(digits) => page.put(&digits),
        Err(_) => page.lacks_memory = true,
    }
}

/// `made SEED COUNT LENGTH`: the last LENGTH bytes of the capture that is made of the seed and COUNT packets.
fn made(page: &mut Page, seed: u32, rest: &str) {
    let mut rest = TextParts::of(rest, ' ');
    let (count, length) = (rest.number(), rest.number());
    match make_capture(page.alloc, seed, count) {
        Ok(bytes) => show_last(page, &bytes, length as usize),
        Err(NoMemory) => page.lacks_memory = true,
    }
}

/// The calls of captures.
pub(crate) fn call(page: &mut Page, row: &Row, call: &str, given: &str) -> bool {
    let mut given = TextParts::of(given, ' ');
    let number = given.number();
    let rest = given.left();
    match call {
        "pcap" => pcap(page, row, number, rest),
        "resumed" => resumed(page, row, number, rest),
        "pcapng" => pcapng(page, row, number, rest),
        "made" => made(page, number, rest),
        _ => return false,
    }
    true
}
