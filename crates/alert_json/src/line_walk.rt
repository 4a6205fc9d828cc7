//! Alert lines one after another, and the records that they give.
ghost use Rattle.std.specs.Prelude.{◌≡◌, ⊤, ℕ, List, IfOk, MatchOption, drop, true, false};
ghost use Rattle.alert_fast.specs.Fronts.{IsWord, Lacks};
ghost use Rattle.alert_fast.specs.LinesRead.{line_facts};
ghost use Rattle.alert_fast.specs.Told.{IsReading};
ghost use Rattle.alert_json.specs.Facts.{run_facts};
ghost use Rattle.alert_json.specs.LineWalks.{AddsLine, IsFrontLine, IsLine, IsStep, IsUntold, IsWholeStep, NeverTold, NoLine, WalksLines};

use crate::event::RunFields;
use crate::line::push_event;
use crate::line_event::event_of;
use crate::line_moment::moment_of;
use crate::line_year::{YearFrom, year_of};
use alert_fast::{AlertLine, read_line};
use edge_io::NoMemory;
use memchr::memchr;
use std::alloc::Global;

/// The most bytes of a line, with its line feed.
const MOST_LINE: usize = 1_048_576;

/// What is at the front of bytes: a line of `size` bytes, none yet, or none ever.
#[derive(Clone, Copy)]
pub(crate) enum FrontLine {
    Line { size: usize },
    Waits,
    Foreign,
}

// The bytes before the first line feed, if there is one.
fn first_text(bytes: &[u8]) -> Option<(&[u8], &[u8])>
    ensures { MatchOption result (Lacks 10 bytes.now) (λ p. IsWord 10 bytes.now p.0.now p.1.now) }
{
    let place = memchr(b'\n', bytes)?;
    Some((&bytes[..place], &bytes[place + 1..]))
}

fn front_of(bytes: &[u8]) -> FrontLine
    ensures { IsFrontLine bytes.now result }
{
    match first_text(bytes) {
        Some((text, _)) => {
            if text.len() < MOST_LINE {
                FrontLine::Line {
                    size: text.len() + 1,
                }
            } else {
                FrontLine::Foreign
            }
        }
        None => {
            if bytes.len() < MOST_LINE {
                FrontLine::Waits
            } else {
                FrontLine::Foreign
            }
        }
    }
}

// Appends the record of an alert that a line tells, if its time has a moment.
fn push_alert(
    alloc: Global,
    alert: AlertLine<'_>,
    from: YearFrom,
    run: &RunFields<'_>,
    out: &mut Vec<u8>,
) -> Result<Option<YearFrom>, NoMemory>
    ensures told { IfOk result (λ told. (line : List ℕ) → IsReading line (line_facts alert.entry)
        → MatchOption told (IsUntold from line)
        (λ next. AddsLine (run_facts run.now) from line out.old.items out.new.items next)) }
    ensures unchanged { IfOk result (λ told. MatchOption told (out.new.items ≡ out.old.items) (λ next. ⊤)) }
{
    let year = year_of(from, alert.time);
    match moment_of(year, alert.time) {
        None => Ok(None),
        Some(moment) => {
            push_event(alloc, &event_of(alert, moment), run, out)?;
            Ok(Some(YearFrom::After {
                year: year as u16,
                month: alert.time.month,
                day: alert.time.day,
            }))
        }
    }
}

// Appends the record of a line, if it gives one, and tells what the next line's year follows from.
fn push_line(
    alloc: Global,
    line: &[u8],
    from: YearFrom,
    run: &RunFields<'_>,
    out: &mut Vec<u8>,
) -> Result<Option<YearFrom>, NoMemory>
    ensures told { IfOk result (λ told. MatchOption told (IsUntold from line.now)
        (λ next. AddsLine (run_facts run.now) from line.now out.old.items out.new.items next)) }
    ensures unchanged { IfOk result (λ told. MatchOption told (out.new.items ≡ out.old.items) (λ next. ⊤)) }
{
    match read_line(alloc, line)? {
        None => Ok(None),
        Some(alert) => push_alert(alloc, alert, from, run, out),
    }
}

// What is at the front of bytes: a line of `size` bytes that gave its record, and what the next one's year follows
// from; none yet; or none that gives one, whatever follows.
#[derive(Clone, Copy)]
pub(crate) enum LineStep {
    Took { size: usize, next: YearFrom },
    Waits,
    Foreign,
}

// Appends the record of the line that is all of these bytes.
fn push_whole(
    alloc: Global,
    line: &[u8],
    from: YearFrom,
    run: &RunFields<'_>,
    out: &mut Vec<u8>,
) -> Result<LineStep, NoMemory>
    requires { IsLine line.now }
    ensures { IfOk result (λ step. IsWholeStep (run_facts run.now) from line.now out.old.items out.new.items step) }
{
    match push_line(alloc, line, from, run, out)? {
        None => Ok(LineStep::Foreign),
        Some(next) => Ok(LineStep::Took {
            size: line.len(),
            next,
        }),
    }
}

// Appends the record of the line at the front of bytes.
fn push_front(
    alloc: Global,
    bytes: &[u8],
    from: YearFrom,
    run: &RunFields<'_>,
    out: &mut Vec<u8>,
) -> Result<LineStep, NoMemory>
    ensures { IfOk result (λ step. IsStep (run_facts run.now) from bytes.now out.old.items out.new.items step) }
{
    match front_of(bytes) {
        FrontLine::Line { size } => push_whole(alloc, &bytes[..size], from, run, out),
        FrontLine::Waits => Ok(LineStep::Waits),
        FrontLine::Foreign => Ok(LineStep::Foreign),
    }
}

/// How far bytes are alert lines, how many they are, what the next line's year follows from, and whether no line that gives a
/// record can begin there, whatever follows.
#[derive(Clone, Copy, Debug)]
pub struct LinesTaken {
    pub size: usize,
    pub count: usize,
    pub next: YearFrom,
    pub is_foreign: bool,
}

/// Appends the records of the alert lines at the front of bytes, up to a place where no line is whole, or gives none.
///
/// The first line's year follows from `from`. A line is at most 1,048,576 bytes long.
pub fn push_lines(
    alloc: Global,
    bytes: &[u8],
    from: YearFrom,
    run: &RunFields<'_>,
    out: &mut Vec<u8>,
) -> Result<LinesTaken, NoMemory>
    ensures walks { IfOk result (λ taken. WalksLines (run_facts run.now) from bytes.now out.old.items out.new.items taken) }
    ensures waits { IfOk result (λ taken. taken.is_foreign ≡ false → NoLine (drop taken.size bytes.now)) }
    ensures foreign { IfOk result (λ taken. taken.is_foreign ≡ true → NeverTold taken.next (drop taken.size bytes.now)) }
{
    let mut taken = LinesTaken {
        size: 0,
        count: 0,
        next: from,
        is_foreign: false,
    };
    'lines: loop {
        match push_front(alloc, &bytes[taken.size..], taken.next, run, out)? {
            LineStep::Took { size, next } => {
                taken.size += size;
                taken.count += 1;
                taken.next = next;
            }
            LineStep::Waits => return Ok(taken),
            LineStep::Foreign => {
                taken.is_foreign = true;
                return Ok(taken);
            }
        }
    }
}
