//! Whole runs as rows of data: each row of a file has the words, the files and the capture of a run over memory, the calls
//! of the outside that fail, and what the run must leave.
//!
//! A row that differs is named, with what differs.

mod frames;
mod notation;
mod outcome;
mod row;

use crate::page::Page;
use crate::runs::notation::apply;
use crate::runs::outcome::note_differences;
use crate::runs::row::RunRow;
use row_files::PassCount;
use std::alloc::Global;
use std::io;
use std::thread::Threads;

/// Whether a row is run: it has a label, which has a text in it.
fn is_asked(row: &RunRow, only: &str) -> bool {
    let label = row.given.label.as_str();
    !label.is_empty() && label.contains(only)
}

/// Runs a row that is asked for, and prints what differs.
fn close_row<R: Print + Threads + Sync>(
    rt: &R,
    page: &mut Page,
    row: &RunRow,
    only: &str,
    count: &mut PassCount,
) -> io::Result<()> {
    if !is_asked(row, only) {
        return Ok(());
    }
    note_differences(rt, page, row);
    if page.is_empty() {
        count.pass();
        return Ok(());
    }
    count.differ();
    println!(rt; "{}:{}{}", row.given.label, page.text, page.lack())
}

/// Applies a line to a row, or says that it isn't understood; a line that begins a row ends the one before.
fn take_line<R: Print + Threads + Sync>(
    rt: &R,
    page: &mut Page,
    row: &mut RunRow,
    line: &str,
    only: &str,
    count: &mut PassCount,
) -> io::Result<()> {
    if let Some(label) = line.strip_prefix("row ") {
        close_row(rt, page, row, only, count)?;
        row.begin(page, label);
    } else if let Some(label) = line.strip_prefix("again ") {
        close_row(rt, page, row, only, count)?;
        row.again(page, label);
    } else if !apply(page, row, line) {
        count.differ();
        println!(rt; "{}: not understood: {}", row.given.label, line)?;
    }
    Ok(())
}

/// Runs the rows of a text whose labels have another.
pub(crate) fn run_rows<R: Print + Threads + Sync>(
    rt: &R,
    alloc: Global,
    text: &str,
    only: &str,
    count: &mut PassCount,
) -> io::Result<()> {
    let mut page = Page::new(alloc);
    let mut row = RunRow::new(alloc);
    for line in text.lines() {
        take_line(rt, &mut page, &mut row, line, only, count)?;
    }
    close_row(rt, &mut page, &row, only, count)
}
