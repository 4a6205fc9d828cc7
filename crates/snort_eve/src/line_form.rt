//! Alert lines as a form of input.
ghost use Rattle.std.specs.Prelude.{◌≡◌, [], Ok, refl, false, OnOk};
ghost use Rattle.snort_eve.specs.Forms.{Adds, Closes, Gives};
ghost use Rattle.alert_json.specs.Facts.{run_facts};
ghost use Rattle.alert_json.specs.LineWalks.{NeverTold};
ghost use Rattle.snort_eve.specs.LineForms.{AlertLinesCame, LinesEndBy, of_lines};

use crate::form::{Ending, InputForm};
use alert_json::{RunFields, YearFrom, push_lines};
use edge_io::NoMemory;
use std::alloc::Global;

/// Tells alert lines as JSON lines: what all records have alike, and what a file's first year follows from.
#[derive(Clone, Copy)]
pub(crate) struct AlertLines<'a> {
    pub(crate) run: RunFields<'a>,
    pub(crate) from: YearFrom,
}

/// The bytes that wait for the rest of their line, how many lines there were, and what the next one's year follows from.
#[derive(Drop)]
pub(crate) struct LineState {
    pub(crate) rest: Vec<u8>,
    pub(crate) count: u64,
    pub(crate) next: YearFrom,
}

// How bytes end behind so many lines where these wait.
fn ending_of(rest: &[u8], count: u64) -> Ending
    ensures { LinesEndBy rest.now count result }
{
    if rest.is_empty() {
        Ending::Done
    } else {
        Ending::NoLine {
            number: count.saturating_add(1),
        }
    }
}

// Nothing has come.
fn start_lines(alloc: Global, form: &AlertLines<'_>) -> LineState
    ensures { AlertLinesCame form.now result [] [] }
{
    LineState {
        rest: Vec::new(alloc),
        count: 0,
        next: form.from,
    }
}

// Appends the records of the lines that a piece completes.
fn feed_lines(
    alloc: Global,
    form: &AlertLines<'_>,
    state: &mut LineState,
    piece: &[u8],
    out: &mut Vec<u8>,
) -> Result<bool, NoMemory>
    ensures gives { OnOk result (Adds out.old.items out.new.items (Gives (AlertLinesCame form.now state.old)
        (AlertLinesCame form.now state.new) (of_lines (run_facts form.now.run) form.now.from) piece.now)) }
    ensures over { result ≡ Ok false → NeverTold state.new.next state.new.rest.items }
{
    state.rest.extend_from_slice(piece)?;
    let taken = push_lines(alloc, &state.rest, state.next, &form.run, out)?;
    state.rest = Vec::from_slice(alloc, &state.rest[taken.size..])?;
    state.count = state.count.saturating_add(taken.count as u64);
    state.next = taken.next;
    Ok(!taken.is_foreign)
}

// Tells how the bytes end.
fn finish_lines(form: &AlertLines<'_>, state: &LineState, _read: u64, out: &Vec<u8>) -> Ending
    ensures { Adds out.now.items out.now.items (Closes (AlertLinesCame form.now state.now)
        (NeverTold state.now.next state.now.rest.items) (of_lines (run_facts form.now.run) form.now.from) _read result) }
{
    ending_of(&state.rest, state.count)
}

impl<'a> InputForm for AlertLines<'a> {
    type State = LineState;

    ghost came = { AlertLinesCame };

    ghost foreign = { λ _ state. NeverTold state.next state.rest.items };

    ghost means = { λ form. of_lines (run_facts form.run) form.from };

    fn start(&self, alloc: Global) -> LineState {
        start_lines(alloc, self)
    }

    fn feed(
        &self,
        alloc: Global,
        state: &mut LineState,
        piece: &[u8],
        out: &mut Vec<u8>,
    ) -> Result<bool, NoMemory> {
        feed_lines(alloc, self, state, piece, out)
    }

    fn finish(
        &self,
        _alloc: Global,
        state: &LineState,
        read: u64,
        out: &mut Vec<u8>,
    ) -> Result<Ending, NoMemory> {
        Ok(finish_lines(self, state, read, out))
    }

    ghost nothing = { λ form bytes. record {
      lines = [];
      rest = bytes;
      all = [];
      next = form.from;
      told = (refl, refl);
      split = refl;
      begins = record { rest = []; is = refl };
    } };
}
