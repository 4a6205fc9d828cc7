//! Policies and patterns of plain texts: the calls of edge_io.

use crate::page::Page;
use crate::row::Row;
use edge_io::{FragPolicy, Pattern, PatternFlags, PatternMaker, Preference, StreamPolicy};
use row_files::cut;

/// `preference KIND NAME`: the row of the overlap table that the policy of this name for fragments or streams has.
fn preference(kind: &str, name: &[u8]) -> Option<Preference> {
    if kind == "fragments" {
        Some(FragPolicy::read(name)?.preference())
    } else {
        Some(StreamPolicy::read(name)?.preference())
    }
}

/// The flags of a word: all are off for `plain`, and else on, but for that of case.
fn flags_of(word: &str) -> PatternFlags {
    let more = word != "plain";
    PatternFlags {
        nocase: word == "nocase",
        dot_all: more,
        multi_line: more,
        extended: more,
    }
}

/// `literal FLAGS TEXT~BYTES`: the leftmost match of the text in the bytes, or why there is no such pattern.
fn literal(page: &mut Page, row: &Row, flags: &str, rest: &str) {
    let (text, bytes) = cut(rest, '~');
    let mut maker = row.maker(page);
    match maker.make(page.alloc, text, flags_of(flags)) {
        Ok(pattern) => page.debug(&pattern.find(bytes.as_bytes())),
        Err(fault) => page.debug(&fault),
    }
}

/// The calls of policies and plain texts.
pub(crate) fn call(page: &mut Page, row: &Row, call: &str, given: &str) -> bool {
    let (word, rest) = cut(given, ' ');
    match call {
        "preference" => page.debug(&preference(word, rest.as_bytes())),
        "literal" => literal(page, row, word, rest),
        _ => return false,
    }
    true
}
