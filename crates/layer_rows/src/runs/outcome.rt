//! What a row's run leaves, beside what it must leave.

use crate::page::Page;
use crate::runs::row::RunRow;
use edge_io::{Host, MemHost, MemSink, NoMemory, OpenGate, PatternMaker, Sink};
use snort_engine::run;
use std::alloc::Global;
use std::thread::Threads;

/// How many bytes a sink has room for.
const ROOM: usize = 16_777_216;

/// Where a run writes.
#[derive(Drop)]
struct Sinks {
    alerts: MemSink,
    errors: MemSink,
}

fn sink_of(alloc: Global, step: u32) -> Result<MemSink, NoMemory> {
    let step = usize::try_from(step.max(1)).unwrap_or(1);
    MemSink::new(alloc, step, ROOM)
}

/// Two sinks that take this many bytes at a call.
fn sinks_of(alloc: Global, step: u32) -> Result<Sinks, NoMemory> {
    let alerts = sink_of(alloc, step)?;
    let errors = sink_of(alloc, step)?;
    Ok(Sinks { alerts, errors })
}

/// How many bytes are left of the open capture.
fn left_of(page: &mut Page, host: &mut MemHost) -> u32 {
    page.note(host.fail_calls(&[]));
    let mut byte = [0u8];
    let mut left = 0u32;
    for _ in 0..u32::MAX {
        if host.read(&mut byte).unwrap_or(0) == 0 {
            break;
        }
        left = left.saturating_add(1);
    }
    left
}

/// Tells of a number that differs.
fn note_number(page: &mut Page, what: &str, found: u32, wanted: u32) {
    if found != wanted {
        page.show(format_args!(" {what} {found}, not {wanted};"));
    }
}

/// Tells of bytes that differ.
fn note_bytes(page: &mut Page, what: &str, found: &[u8], wanted: &[u8]) {
    if found != wanted {
        page.show(format_args!(" {what} "));
        page.lossy(found);
        page.put(";");
    }
}

/// The words of the row's command.
fn command_of(row: &RunRow) -> &str {
    if row.words.is_empty() {
        "snort -c r -r p"
    } else {
        row.words.as_str()
    }
}

/// Runs a command over any host, maker and sinks; its exit status.
fn code_of<R: Threads + Sync, H: Host, M: PatternMaker, S: Sink>(
    rt: &R,
    alloc: Global,
    words: &[String],
    host: &mut H,
    maker: &mut M,
    alerts: &mut S,
    errors: &mut S,
) -> u8 {
    run(rt, alloc, words, host, maker, alerts, errors, &OpenGate).code()
}

/// Runs the row's command over a host and these sinks; its exit status.
fn status_of<R: Threads + Sync>(
    rt: &R,
    page: &mut Page,
    row: &RunRow,
    host: &mut MemHost,
    sinks: &mut Sinks,
) -> u32 {
    let words = page.words(command_of(row));
    let mut maker = row.given.maker(page);
    let code = code_of(
        rt,
        page.alloc,
        words.as_slice(),
        host,
        &mut maker,
        &mut sinks.alerts,
        &mut sinks.errors,
    );
    u32::from(code)
}

/// Runs the row's command over a host and these sinks, and tells what differs.
fn note_run<R: Threads + Sync>(
    rt: &R,
    page: &mut Page,
    row: &RunRow,
    host: &mut MemHost,
    sinks: &mut Sinks,
) {
    page.note(sinks.alerts.fail_calls(&row.alerts));
    page.note(sinks.errors.fail_calls(&row.errors));
    let status = status_of(rt, page, row, host, sinks);
    note_number(page, "status", status, row.status);
    note_bytes(page, "alerts", sinks.alerts.bytes(), &row.alert_bytes);
    note_bytes(page, "errors", sinks.errors.bytes(), &row.error_bytes);
}

/// Tells of the bytes that are left of the capture, where the row says how many.
fn note_left(page: &mut Page, row: &RunRow, host: &mut MemHost) {
    if let Some(wanted) = row.left {
        let left = left_of(page, host);
        note_number(page, "bytes left", left, wanted);
    }
}

/// Runs a row over a host with its files, and tells what differs.
fn note_run_over<R: Threads + Sync>(rt: &R, page: &mut Page, row: &RunRow, sinks: &mut Sinks) {
    let mut host = row.given.host(page);
    note_run(rt, page, row, &mut host, sinks);
    note_left(page, row, &mut host);
}

/// Runs a row. The page stays empty where the run leaves what the row says, and else tells what differs.
pub(crate) fn note_differences<R: Threads + Sync>(rt: &R, page: &mut Page, row: &RunRow) {
    match sinks_of(page.alloc, row.step) {
        Ok(mut sinks) => note_run_over(rt, page, row, &mut sinks),
        Err(NoMemory) => page.lacks_memory = true,
    }
}
