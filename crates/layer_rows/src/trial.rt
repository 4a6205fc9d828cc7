//! Rows of calls, tried one by one.

use crate::calls::answer;
use crate::notation::{apply, written};
use crate::page::Page;
use crate::row::Row;
use row_files::{PassCount, RowLine, cut};
use std::alloc::Global;
use std::io;
use std::thread::Threads;

/// What a call is given, and what it must give.
#[derive(Clone, Copy)]
struct Call<'a> {
    name: &'a str,
    given: &'a str,
    wanted: &'a str,
}

/// What a line `CALL GIVEN@WANTED@WHAT` says; without an `@` the row's steps have what is wanted.
fn call_of<'a>(line: &'a str, steps_wanted: &'a str) -> Call<'a> {
    let (call, wanted) = match line.split_once('@') {
        Some((call, rest)) => (call, cut(rest, '@').0),
        None => (line, steps_wanted),
    };
    let (name, given) = cut(call, ' ');
    Call {
        name,
        given,
        wanted,
    }
}

/// A text without its last line feed.
fn trimmed(text: &str) -> &str {
    text.strip_suffix('\n').unwrap_or(text)
}

/// Whether a call gives what it must; the page has what it gives.
fn gives<R: Threads + Sync>(rt: &R, page: &mut Page, row: &Row, call: Call<'_>) -> bool {
    let given = page.joined(row.front.as_str(), call.given);
    if !answer(rt, page, row, call.name, given.as_str()) {
        page.put("not understood");
    }
    !page.lacks_memory && trimmed(page.text.as_str()) == trimmed(call.wanted)
}

/// Makes the call of a line, and prints what it gives where that is not what it must.
fn try_call<R: Print + Threads + Sync>(
    rt: &R,
    page: &mut Page,
    row: &Row,
    line: &str,
    count: &mut PassCount,
) -> io::Result<()> {
    if gives(rt, page, row, call_of(line, row.wanted.as_str())) {
        count.pass();
        return Ok(());
    }
    count.differ();
    println!(rt; "{}: {}: {}{}", row.label, line, page.text, page.lack())
}

/// Makes the calls of a line, one for each time that it is read.
fn try_calls<R: Print + Threads + Sync>(
    rt: &R,
    page: &mut Page,
    row: &Row,
    line: RowLine<'_>,
    count: &mut PassCount,
) -> io::Result<()> {
    for turn in 0..line.times {
        let line = page.line_at(line, turn);
        try_call(rt, page, row, line.as_str(), count)?;
        page.clear();
    }
    Ok(())
}

/// Applies a line to its row, or makes its calls, if it has a text in it or in its row's label.
fn try_line<R: Print + Threads + Sync>(
    rt: &R,
    page: &mut Page,
    row: &mut Row,
    line: &str,
    only: &str,
    count: &mut PassCount,
) -> io::Result<()> {
    let line_read = RowLine::read(line);
    if apply(page, row, line_read) {
        return Ok(());
    }
    if row.label.contains(only) || line.contains(only) {
        try_calls(rt, page, row, line_read, count)?;
    }
    row.close_call();
    Ok(())
}

/// Tries the rows of a text: the calls that have a text in their lines or their labels.
pub(crate) fn try_rows<R: Print + Threads + Sync>(
    rt: &R,
    alloc: Global,
    text: &str,
    only: &str,
    count: &mut PassCount,
) -> io::Result<()> {
    let mut page = Page::new(alloc);
    let mut row = Row::new(alloc);
    for line in text.lines() {
        if let Some(label) = line.strip_prefix("row ") {
            row.begin(&mut page, label);
        } else {
            let line = written(&mut page, line);
            try_line(rt, &mut page, &mut row, line.as_str(), only, count)?;
        }
    }
    Ok(())
}
