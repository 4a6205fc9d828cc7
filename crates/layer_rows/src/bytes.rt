//! Bytes as words: each is the name of one of the row's files, whose text is hexadecimal digits, or it is digits, or
//! `<N`, which leaves the first N bytes of those before it.

use crate::page::Page;
use crate::row::Row;
use edge_io::MemHost;

/// The name of the file that is read as a capture.
pub(crate) const CAPTURE: &str = "p";

/// Appends the bytes of pairs of digits, or writes what is wrong with them.
pub(crate) fn push_digits(page: &mut Page, bytes: &mut Vec<u8>, digits: &[u8]) {
    match hex::decode(page.alloc, digits) {
        Ok(more) => page.note(bytes.extend_from_slice(&more)),
        Err(fault) => page.debug(&fault),
    }
}

/// The digits of a word: those of the file of this name, or its own.
fn digits_of<'a>(row: &'a Row, word: &'a str) -> &'a [u8] {
    let named = row.files.bytes(word);
    if named.is_empty() {
        word.as_bytes()
    } else {
        named
    }
}

/// Appends the bytes of a word, or leaves the first ones.
fn push_word(page: &mut Page, row: &Row, bytes: &mut Vec<u8>, word: &str) {
    match word.strip_prefix('<') {
        Some(length) => bytes.truncate(length.parse::<usize>().unwrap_or(0)),
        None => push_digits(page, bytes, digits_of(row, word)),
    }
}

/// The bytes of words.
pub(crate) fn bytes_of(page: &mut Page, row: &Row, words: &str) -> Vec<u8> {
    let mut bytes = Vec::new(page.alloc);
    for word in words.split_whitespace() {
        push_word(page, row, &mut bytes, word);
    }
    bytes
}

/// A host with the row's failing calls that has these bytes as a capture, and none where there are no words.
pub(crate) fn host_of(page: &mut Page, row: &Row, words: &str) -> MemHost {
    let mut host = row.host(page);
    let bytes = bytes_of(page, row, words);
    if !words.is_empty() {
        page.note(host.put(CAPTURE, &bytes));
    }
    host
}

/// Shows bytes as numbers, or how many there are if above 1,000.
pub(crate) fn show_bytes(page: &mut Page, bytes: &[u8]) {
    if bytes.len() > 1000 {
        page.show(bytes.len());
    } else {
        page.debug(&bytes);
    }
}
