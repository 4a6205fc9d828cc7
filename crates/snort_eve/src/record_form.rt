//! Records of Unified2 as a form of input.
ghost use Rattle.std.specs.Prelude.{◌≡◌, [], Ok, refl, false, IfOk, OnOk};
ghost use Rattle.snort_eve.specs.Joins.{joined, lines_of};
ghost use Rattle.snort_eve.specs.Streams.{IsForeign};
ghost use Rattle.snort_eve.specs.Endings.{EndsBy, RecordsCame, of_records};
ghost use Rattle.snort_eve.specs.Forms.{Adds, Closes, Gives};
ghost use Rattle.snort_eve.specs.Events.{line_by};

use crate::events::JsonLines;
use crate::form::{Ending, InputForm};
use crate::stream::{Fed, Stream};
use edge_io::NoMemory;
use std::alloc::Global;

// Whether more may come behind such bytes.
fn goes_on(fed: Fed) -> bool
    ensures { result ≡ false → fed ≡ Fed.Foreign }
{
    match fed {
        Fed::Waits => true,
        Fed::Foreign => false,
    }
}

// How bytes end that were so many, of which these wait.
fn ending_of(rest: &[u8], read: u64) -> Ending
    ensures { EndsBy rest.now read result }
{
    if rest.is_empty() {
        Ending::Done
    } else {
        Ending::Bad {
            at: read.saturating_sub(rest.len() as u64),
        }
    }
}

// Nothing has come.
fn start_records(alloc: Global, lines: &JsonLines<'_>) -> Stream
    ensures { RecordsCame lines.now result [] [] }
{
    Stream::new(alloc)
}

// Appends the lines of the events that a piece completes.
fn feed_records(
    alloc: Global,
    lines: &JsonLines<'_>,
    state: &mut Stream,
    piece: &[u8],
    out: &mut Vec<u8>,
) -> Result<bool, NoMemory>
    ensures gives { OnOk result (Adds out.old.items out.new.items
        (Gives (RecordsCame lines.now state.old) (RecordsCame lines.now state.new) (of_records (line_by lines.now)) piece.now)) }
    ensures over { result ≡ Ok false → IsForeign state.new.rest.items }
{
    let fed = state.feed(alloc, lines, piece, out)?;
    Ok(goes_on(fed))
}

// Appends the line of the event that waits at the end.
fn finish_records(
    alloc: Global,
    lines: &JsonLines<'_>,
    state: &Stream,
    read: u64,
    out: &mut Vec<u8>,
) -> Result<Ending, NoMemory>
    ensures { IfOk result (λ ending. Adds out.old.items out.new.items (Closes (RecordsCame lines.now state.now)
        (IsForeign state.now.rest.items) (of_records (line_by lines.now)) read ending)) }
{
    state.finish(alloc, lines, out)?;
    Ok(ending_of(&state.rest, read))
}

impl<'a> InputForm for JsonLines<'a> {
    type State = Stream;

    ghost came = { RecordsCame };

    ghost foreign = { λ _ stream. IsForeign stream.rest.items };

    ghost means = { λ lines. of_records (line_by lines) };

    fn start(&self, alloc: Global) -> Stream {
        start_records(alloc, self)
    }

    fn feed(
        &self,
        alloc: Global,
        state: &mut Stream,
        piece: &[u8],
        out: &mut Vec<u8>,
    ) -> Result<bool, NoMemory> {
        feed_records(alloc, self, state, piece, out)
    }

    fn finish(
        &self,
        alloc: Global,
        state: &Stream,
        read: u64,
        out: &mut Vec<u8>,
    ) -> Result<Ending, NoMemory> {
        finish_records(alloc, self, state, read, out)
    }

    ghost nothing = { λ lines _ entries _ _. record { rest = lines_of (line_by lines) (joined entries); is = refl } };
}
