//! The lines of a file of rows.

use crate::page::Page;
use crate::row::Row;
use row_files::{RowLine, cut};

/// The name of the configuration.
pub(crate) const CONF: &str = "r";

/// The line, with its stand-ins for a tab, a line feed and a carriage return written out.
pub(crate) fn written(page: &mut Page, line: &str) -> String {
    let line = page.replaced(line, "\u{2409}", "\t");
    let line = page.replaced(&line, "\u{240a}", "\n");
    page.replaced(&line, "\u{240d}", "\r")
}

/// Applies a line to a row, as often as it is read; false where it says nothing of the row, so that it is a call.
pub(crate) fn apply(page: &mut Page, row: &mut Row, line: RowLine<'_>) -> bool {
    let mut is_taken = true;
    for turn in 0..line.times {
        let line = page.line_at(line, turn);
        is_taken &= apply_once(page, row, line.as_str());
    }
    is_taken
}

/// Applies a line: what a call is given, or a run and a call alike.
fn apply_once(page: &mut Page, row: &mut Row, line: &str) -> bool {
    let (key, rest) = cut(line, ' ');
    match key {
        "item" => set_text(page, &mut row.item, rest),
        "front" => push_text(page, &mut row.front, rest),
        "step" => return push_step(page, row, rest),
        _ => return apply_given(page, row, key, rest),
    }
    true
}

/// Applies a line of the files, or of the failing calls.
pub(crate) fn apply_given(page: &mut Page, row: &mut Row, key: &str, rest: &str) -> bool {
    match key {
        "conf" | "conf-" => append(page, row, CONF, rest, key == "conf"),
        "file" | "file-" => append_named(page, row, rest, key == "file"),
        "host" => return push_number(page, &mut row.host, rest),
        "maker" => return push_number(page, &mut row.maker, rest),
        _ => return false,
    }
    true
}

/// Appends a text to the file of this name, and where it is a whole line a line feed.
fn append(page: &mut Page, row: &mut Row, name: &str, text: &str, is_whole: bool) {
    page.note(row.files.append(name, text.as_bytes()));
    if is_whole {
        page.note(row.files.append(name, b"\n"));
    }
}

/// `NAME TEXT`
fn append_named(page: &mut Page, row: &mut Row, rest: &str, is_whole: bool) {
    let (name, text) = cut(rest, ' ');
    append(page, row, name, text, is_whole);
}

fn push_text(page: &mut Page, text: &mut String, more: &str) {
    page.note(text.push_str(more));
}

fn set_text(page: &mut Page, text: &mut String, new: &str) {
    text.clear();
    push_text(page, text, new);
}

fn push_line(page: &mut Page, text: &mut String, line: &str) {
    push_text(page, text, line);
    push_text(page, text, "\n");
}

/// `GIVEN@WANTED`: a line for the next call, and the line that it must give for it.
fn push_step(page: &mut Page, row: &mut Row, rest: &str) -> bool {
    match rest.split_once('@') {
        Some((given, wanted)) => {
            push_line(page, &mut row.steps, given);
            push_line(page, &mut row.wanted, wanted);
            true
        }
        None => false,
    }
}

/// Appends the number that a text is; false where it is none.
pub(crate) fn push_number(page: &mut Page, numbers: &mut Vec<u32>, text: &str) -> bool {
    match text.parse::<u32>() {
        Ok(number) => {
            page.note(numbers.push(number));
            true
        }
        Err(_) => false,
    }
}
