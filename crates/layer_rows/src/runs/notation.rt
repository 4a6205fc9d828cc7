//! The lines of a row of a whole run.

use crate::bytes::{CAPTURE, push_digits};
use crate::notation::{CONF, apply_given, push_number};
use crate::page::Page;
use crate::runs::frames::{HEAD, ends_of, push_fragment, push_tcp, push_udp, record_head};
use crate::runs::row::RunRow;
use row_files::{RowLine, TextParts, cut};

/// Applies a line to a row, as often as it is read; false where it isn't understood.
pub(crate) fn apply(page: &mut Page, row: &mut RunRow, line: &str) -> bool {
    let line = RowLine::read(line);
    let mut is_taken = true;
    for turn in 0..line.times {
        let line = page.line_at(line, turn);
        is_taken &= apply_once(page, row, line.as_str());
    }
    is_taken
}

/// Applies a line: what the run is given, its capture, or what it must leave.
fn apply_once(page: &mut Page, row: &mut RunRow, line: &str) -> bool {
    let (key, rest) = cut(line, ' ');
    apply_given(page, &mut row.given, key, rest)
        || apply_run(page, row, key, rest)
        || apply_captured(page, row, key, rest)
        || apply_packet(page, row, key, rest)
        || apply_left(page, row, key, rest)
}

/// The words, the bytes of the configuration, how many bytes a sink takes at a call, and the calls of sinks that fail.
fn apply_run(page: &mut Page, row: &mut RunRow, key: &str, rest: &str) -> bool {
    match key {
        "words" => set_words(page, row, rest),
        "confhex" => append_hex(page, row, CONF, rest),
        "step" => return set_step(row, rest),
        "alerts" => return push_number(page, &mut row.alerts, rest),
        "errors" => return push_number(page, &mut row.errors, rest),
        _ => return false,
    }
    true
}

fn set_words(page: &mut Page, row: &mut RunRow, words: &str) {
    row.words.clear();
    page.note(row.words.push_str(words));
}

fn set_step(row: &mut RunRow, text: &str) -> bool {
    row.step = TextParts::of(text, ' ').number();
    row.step > 0
}

/// The bytes of the capture, and the moment of its next record.
fn apply_captured(page: &mut Page, row: &mut RunRow, key: &str, rest: &str) -> bool {
    match key {
        "head" => page.note(row.given.files.append(CAPTURE, HEAD)),
        "hex" => append_hex(page, row, CAPTURE, rest),
        "at" => return set_moment(row, rest),
        _ => return false,
    }
    true
}

/// Seconds and microseconds, as `1 500000`.
fn set_moment(row: &mut RunRow, text: &str) -> bool {
    let mut parts = TextParts::of(text, ' ');
    row.moment = Some((parts.number(), parts.number()));
    parts.is_read()
}

/// A packet in a record.
fn apply_packet(page: &mut Page, row: &mut RunRow, key: &str, rest: &str) -> bool {
    let mut parts = TextParts::of(rest, ' ');
    let mut packet = Vec::new(page.alloc);
    push_packet(page, &mut packet, key, &mut parts);
    if !parts.is_wrong() {
        append_record(page, row, &packet);
    }
    !parts.is_wrong()
}

/// Appends a record: its moment is the one that was told, or as many seconds as records come before.
fn append_record(page: &mut Page, row: &mut RunRow, packet: &[u8]) {
    let moment = row.moment.unwrap_or((row.records, 0));
    for number in &record_head(moment, packet) {
        page.note(row.given.files.append(CAPTURE, &number.to_le_bytes()));
    }
    page.note(row.given.files.append(CAPTURE, packet));
    row.records = row.records.saturating_add(1);
    row.moment = None;
}

/// Appends the packet of a line to an empty one.
fn push_packet(page: &mut Page, packet: &mut Vec<u8>, key: &str, parts: &mut TextParts<'_>) {
    match key {
        "U" => push_udp_line(page, packet, parts),
        "UX" => push_hex_line(page, packet, parts),
        "T" => push_tcp_line(page, packet, parts),
        "F" => push_fragment_line(page, packet, parts),
        _ => parts.refuse(),
    }
}

/// `C:1000>S:2000 TEXT`
fn push_udp_line(page: &mut Page, packet: &mut Vec<u8>, parts: &mut TextParts<'_>) {
    let ends = ends_of(parts);
    push_udp(page, packet, ends, parts.left().as_bytes());
}

/// `C:1000>S:2000 HEX`
fn push_hex_line(page: &mut Page, packet: &mut Vec<u8>, parts: &mut TextParts<'_>) {
    let ends = ends_of(parts);
    let payload = bytes_of(page, parts.left());
    push_udp(page, packet, ends, &payload);
}

/// The TCP flags of these letters.
fn flags_of(parts: &mut TextParts<'_>) -> u16 {
    match parts.word() {
        "S" => 2,
        "SA" => 18,
        "A" => 16,
        "FA" => 17,
        "R" => 4,
        _ => {
            parts.refuse();
            0
        }
    }
}

/// `C:1000>S:80 A 1 101 TEXT`
fn push_tcp_line(page: &mut Page, packet: &mut Vec<u8>, parts: &mut TextParts<'_>) {
    let ends = ends_of(parts);
    let flags = flags_of(parts);
    let numbers = (parts.number(), parts.number());
    push_tcp(page, packet, ends, flags, numbers, parts.left().as_bytes());
}

/// `8 M TEXT`, or `-` in place of M
fn push_fragment_line(page: &mut Page, packet: &mut Vec<u8>, parts: &mut TextParts<'_>) {
    let offset = parts.short();
    let more = parts.word() == "M";
    push_fragment(page, packet, offset, more, parts.left().as_bytes());
}

/// The bytes of pairs of hexadecimal digits, between which blanks may be. The page has what is wrong with them.
fn bytes_of(page: &mut Page, digits: &str) -> Vec<u8> {
    let mut bytes = Vec::new(page.alloc);
    for word in digits.split(' ') {
        push_digits(page, &mut bytes, word.as_bytes());
    }
    bytes
}

/// Appends the bytes of digits to a file. Without any the file is there, and empty.
fn append_hex(page: &mut Page, row: &mut RunRow, name: &str, digits: &str) {
    let bytes = bytes_of(page, digits);
    page.note(row.given.files.append(name, &bytes));
}

/// What the run must leave.
fn apply_left(page: &mut Page, row: &mut RunRow, key: &str, rest: &str) -> bool {
    match key {
        "alert" => push_line(page, &mut row.alert_bytes, rest),
        "alert-" => push_part(page, &mut row.alert_bytes, rest),
        "alerthex" => push_hex(page, &mut row.alert_bytes, rest),
        "error" => push_line(page, &mut row.error_bytes, rest),
        "error-" => push_part(page, &mut row.error_bytes, rest),
        "status" => return set_status(row, rest),
        "left" => return set_left(row, rest),
        _ => return false,
    }
    true
}

fn set_status(row: &mut RunRow, text: &str) -> bool {
    let mut parts = TextParts::of(text, ' ');
    row.status = parts.number();
    parts.is_read()
}

fn set_left(row: &mut RunRow, text: &str) -> bool {
    let mut parts = TextParts::of(text, ' ');
    row.left = Some(parts.number());
    parts.is_read()
}

fn push_hex(page: &mut Page, bytes: &mut Vec<u8>, digits: &str) {
    let more = bytes_of(page, digits);
    page.note(bytes.extend_from_slice(&more));
}

fn push_part(page: &mut Page, bytes: &mut Vec<u8>, text: &str) {
    page.note(bytes.extend_from_slice(text.as_bytes()));
}

fn push_line(page: &mut Page, bytes: &mut Vec<u8>, text: &str) {
    push_part(page, bytes, text);
    push_part(page, bytes, "\n");
}
