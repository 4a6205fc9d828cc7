//! A Unified2 file, told as lines.
ghost use Rattle.std.specs.Prelude.{◌≡◌, ◌≤◌, OnOk, OnErr, IfOk, IfErr, IsErrOf};
ghost use Rattle.edge_io.specs.Files.{Files};
ghost use Rattle.edge_io.specs.Told.{Rose, grown};
ghost use Rattle.edge_io.specs.Frames.{OnlyLoaded};
ghost use Rattle.alert_lines.specs.Written.{WritesPart};
ghost use Rattle.snort_engine.specs.Messages.{too_large_text};
ghost use Rattle.snort_engine.specs.Steps.Preparing.{HasCause, ListsBytes, ListsFile, StopsAtFile};
ghost use Rattle.snort_engine.specs.Steps.Seen.{HostRose};
ghost use Rattle.snort_engine.specs.Steps.Stop.{IsWriteStop, ReadsQuietly};

use crate::stop::RunStop;
use alert_fast::TextPiece::Bytes;
use alert_fast::push_pieces;
use alert_lines::record_lines;
use edge_io::{Host, LoadFault, NoMemory, Sink, Text, write_all};
use std::alloc::Global;
use unified2_out::U2Fault;

/// How many bytes a Unified2 file has at most.
const MOST_BYTES: usize = 16_777_216;

/// The lines of the records that these bytes are.
fn lines_of(alloc: Global, bytes: &[u8]) -> Result<Text, RunStop>
    ensures { ListsBytes bytes.now result }
{
    match record_lines(alloc, bytes) {
        Ok(lines) => Ok(lines),
        Err(U2Fault::Bad { at }) => Err(RunStop::BadUnified2 { at }),
        Err(U2Fault::NoMemory) => Err(RunStop::NoMemory),
    }
}

/// How a file of this name that was not loaded stops a run.
#[tactic(auto, unfolding(crate::specs::Messages::too_large_text))]
fn file_stop(alloc: Global, name: &[u8], fault: LoadFault) -> RunStop
    ensures { StopsAtFile name.now fault result }
{
    match fault {
        LoadFault::Failed => match Text::copy(alloc, name) {
            Ok(name) => RunStop::CannotReadFile { name },
            Err(NoMemory) => RunStop::NoMemory,
        },
        LoadFault::TooLarge => match too_large(alloc, name) {
            Ok(message) => RunStop::Refused { message },
            Err(NoMemory) => RunStop::NoMemory,
        },
        LoadFault::NoMemory => RunStop::NoMemory,
    }
}

/// The message of a file that is too large.
#[tactic(auto, unfolding(crate::specs::Messages::too_large_text))]
fn too_large(alloc: Global, name: &[u8]) -> Result<Text, NoMemory>
    ensures { IfOk result (λ text. text ≡ too_large_text name.now) }
{
    let mut text = Vec::new(alloc);
    push_pieces(
        &mut text,
        &[
            Bytes(b"ERROR: "),
            Bytes(name),
            Bytes(b"(0) file is too large\n"),
        ],
    )?;
    Ok(Text::from_vec(text))
}

/// Reads the Unified2 file of this name, and gives the lines of its records.
pub(crate) fn list_records<H: Host>(
    alloc: Global,
    name: &str,
    host: &mut H,
) -> Result<Text, RunStop>
    ensures lists { (files : Files) → H.agrees host.new files
        → ListsFile name.now files (HostRose H.Host host.old host.new) result }
    ensures cause { IfErr result (HasCause (HostRose H.Host host.old host.new) (H.contents host.old)) }
    ensures quiet { ReadsQuietly result (H.faults host.old) (H.faults host.new) }
    ensures host { OnlyLoaded H.Host host.old host.new }
{
    let mut bytes = Vec::new(alloc);
    match host.load(name, MOST_BYTES, &mut bytes) {
        Ok(()) => lines_of(alloc, &bytes),
        Err(fault) => Err(file_stop(alloc, name.as_bytes(), fault)),
    }
}

/// Writes lines, whole. Takes no memory.
pub(crate) fn write_lines<A: Sink>(lines: &Text, alerts: &mut A) -> Result<(), RunStop>
    ensures whole { OnOk result (A.written alerts.new ≡ grown (A.written alerts.old) lines.now) }
    ensures part { OnErr result (WritesPart (A.written alerts.old) lines.now (A.written alerts.new)) }
    ensures kind { IfErr result IsWriteStop }
    ensures write_fault { IsErrOf result RunStop.CannotWrite → Rose (A.faults alerts.old) (A.faults alerts.new) }
    ensures quiet { OnOk result (A.faults alerts.new ≡ A.faults alerts.old) }
    ensures later { A.faults alerts.old ≤ A.faults alerts.new }
{
    match write_all(alerts, lines.bytes()) {
        Ok(()) => Ok(()),
        Err(stop) => Err(RunStop::from(stop)),
    }
}
