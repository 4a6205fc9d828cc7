//! What a run tells on the error sink.
ghost use Rattle.std.specs.Prelude.{◌≡◌, ◌≤◌, ◌++◌, true, OnOk};
ghost use Rattle.std.specs.List.{concat};
ghost use Rattle.edge_io.specs.Told.{Rose};
ghost use Rattle.snort_engine.specs.Counts.{with_counts};
ghost use Rattle.snort_engine.specs.Steps.Stop.{outcome_status, outcome_text};
ghost use Rattle.snort_engine.specs.Steps.Reporting.{Reports, TellsOn, TellsLast, counts_due};

use crate::Status;
use crate::counts::Counts;
use crate::stop::{RunStop, is_whole};
use edge_io::{NoMemory, Sink, Text, write_all};
use std::alloc::Global;

/// Writes a text to the error sink, in one offer, if the sink is well. It is well still where it took
/// the text.
fn tell<E: Sink>(errors: &mut E, text: &[u8], well: bool) -> bool
    ensures tells { TellsOn text.now well (E.written errors.old) (E.written errors.new)
        (Rose (E.faults errors.old) (E.faults errors.new)) result }
    ensures later { E.faults errors.old ≤ E.faults errors.new }
{
    if !well {
        return false;
    }
    match write_all(errors, text) {
        Ok(()) => true,
        Err(_stop) => false,
    }
}

/// Writes the texts, each in one offer, until the sink fails. It is well still where it took all.
pub(crate) fn tell_all<E: Sink>(errors: &mut E, texts: &[Text]) -> bool
    ensures tells { TellsOn (concat texts.now) true (E.written errors.old) (E.written errors.new)
        (Rose (E.faults errors.old) (E.faults errors.new)) result }
    ensures later { E.faults errors.old ≤ E.faults errors.new }
{
    let mut well = true;
    for text in texts {
        well = tell(errors, text.bytes(), well);
    }
    well
}

/// The counts that are told of a capture: none where they aren't asked for, and none where the work on it
/// was cut short.
pub(crate) fn counts_due(
    counted: bool,
    outcome: &Result<(), RunStop>,
    counts: Counts,
) -> Option<Counts>
    ensures { result ≡ counts_due counted outcome.now counts }
{
    if is_whole(outcome) && counted {
        Some(counts)
    } else {
        None
    }
}

/// Appends the message of an outcome, if it has one, and the counts that are told.
fn push_report(
    out: &mut Vec<u8>,
    source: &str,
    outcome: &Result<(), RunStop>,
    told: Option<Counts>,
) -> Result<(), NoMemory>
    ensures { OnOk result (out.new.items ≡ out.old.items ++ with_counts (outcome_text source.now outcome.now) told) }
{
    if let Err(stop) = outcome {
        stop.push(source, out)?;
    }
    match told {
        Some(counts) => counts.push(out),
        None => Ok(()),
    }
}

/// The status of an outcome.
fn status_of(outcome: &Result<(), RunStop>) -> Status
    ensures { result ≡ outcome_status outcome.now }
{
    match outcome {
        Ok(()) => Status::Done,
        Err(stop) => stop.status(),
    }
}

/// Writes the message of a run that was stopped, if it was, and the counts that are told, if the sink is
/// well, and gives the status. The text is made whole first; where memory is lacking for it, the run ends
/// for want of memory. A fault of the sink changes nothing.
pub(crate) fn report<E: Sink>(
    alloc: Global,
    errors: &mut E,
    well: bool,
    source: &str,
    outcome: &Result<(), RunStop>,
    told: Option<Counts>,
) -> Status
    ensures reports { Reports (with_counts (outcome_text source.now outcome.now) told) outcome.now result
        (λ text. TellsLast text well (E.written errors.old) (E.written errors.new)
        (Rose (E.faults errors.old) (E.faults errors.new))) }
    ensures later { E.faults errors.old ≤ E.faults errors.new }
{
    let mut text = Vec::new(alloc);
    match push_report(&mut text, source, outcome, told) {
        Ok(()) => {
            let _still = tell(errors, &text, well);
            status_of(outcome)
        }
        Err(NoMemory) => {
            let _still = tell(errors, b"ERROR: no memory\n", well);
            Status::NoMemory
        }
    }
}
