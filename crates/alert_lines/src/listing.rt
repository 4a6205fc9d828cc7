//! The records of a Unified2 file, told as lines.
ghost use Rattle.std.specs.Prelude.{◌≡◌, ◌++◌, OnOk, IfOk, IfErr};
ghost use Rattle.unified2_out.specs.Reading.{IsCauseOf};
ghost use Rattle.alert_lines.specs.RecordLines.{AreLinesOf, counted_line, end_text, entry_line, entry_lines};
ghost use Rattle.alert_lines.specs.RecordLines.{event_front, event_line, micro_text};

use alert_fast::TextPiece::{Bytes, Number};
use alert_fast::{push_address, push_pieces, six_digits};
use edge_io::{Addr, NoMemory, Text};
use std::alloc::Global;
use unified2_out::{U2, U2Event, U2Fault, read_records};

/// Appends a number of microseconds, in six digits at least.
#[tactic(auto, unfolding(crate::specs::RecordLines::micro_text))]
fn push_micro(micro: u32, out: &mut Vec<u8>) -> Result<(), NoMemory>
    ensures { OnOk result (out.new.items ≡ out.old.items ++ micro_text micro) }
{
    if micro < 1_000_000 {
        push_pieces(out, &[Bytes(&six_digits(micro))])
    } else {
        push_pieces(out, &[Number(micro as u64)])
    }
}

/// Appends an address with its port, and what follows it.
#[tactic(auto, unfolding(crate::specs::RecordLines::end_text))]
fn push_end(address: Addr, port: u16, then: &[u8], out: &mut Vec<u8>) -> Result<(), NoMemory>
    ensures { OnOk result (out.new.items ≡ out.old.items ++ (end_text address port ++ then.now)) }
{
    push_address(address, out)?;
    push_pieces(out, &[Bytes(b":"), Number(port as u64), Bytes(then)])
}

/// Appends the number of an event, its rule and its second.
#[tactic(auto, unfolding(crate::specs::RecordLines::event_front))]
fn push_front(event: &U2Event, out: &mut Vec<u8>) -> Result<(), NoMemory>
    ensures { OnOk result (out.new.items ≡ out.old.items ++ event_front event.now) }
{
    push_pieces(
        out,
        &[
            Bytes(b"event "),
            Number(event.id as u64),
            Bytes(b" ["),
            Number(event.gid as u64),
            Bytes(b":"),
            Number(event.sid as u64),
            Bytes(b":"),
            Number(event.rev as u64),
            Bytes(b"] "),
            Number(event.second as u64),
            Bytes(b"."),
        ],
    )
}

/// Appends the line of an event.
fn push_event(event: &U2Event, out: &mut Vec<u8>) -> Result<(), NoMemory>
    ensures { OnOk result (out.new.items ≡ out.old.items ++ event_line event.now) }
{
    push_front(event, out)?;
    push_micro(event.micro, out)?;
    push_pieces(out, &[Bytes(b" ")])?;
    push_end(event.src, event.sport, b" -> ", out)?;
    push_end(event.dst, event.dport, b"\n", out)
}

/// Appends a word, a number, and how many bytes there are, as a line.
#[tactic(auto, unfolding(crate::specs::RecordLines::counted_line))]
fn push_counted(word: &[u8], number: u32, count: usize, out: &mut Vec<u8>) -> Result<(), NoMemory>
    ensures { OnOk result (out.new.items ≡ out.old.items ++ counted_line word.now number count) }
{
    push_pieces(
        out,
        &[
            Bytes(word),
            Number(number as u64),
            Bytes(b" "),
            Number(count as u64),
            Bytes(b" bytes\n"),
        ],
    )
}

/// Appends the line of a record.
#[tactic(auto, unfolding(crate::specs::RecordLines::entry_line))]
fn push_entry(entry: &U2, out: &mut Vec<u8>) -> Result<(), NoMemory>
    ensures { OnOk result (out.new.items ≡ out.old.items ++ entry_line entry.now) }
{
    match entry {
        U2::Event(event) => push_event(event, out),
        U2::Packet(packet) => {
            push_counted(b"packet ", packet.id, packet.bytes.bytes().len(), out)
        }
        U2::Other { kind, bytes } => push_counted(b"other ", *kind, bytes.bytes().len(), out),
    }
}

/// Appends the lines of records, one after another.
fn push_entries(entries: &[U2], out: &mut Vec<u8>) -> Result<(), NoMemory>
    ensures { OnOk result (out.new.items ≡ out.old.items ++ entry_lines entries.now) }
{
    for entry in entries {
        push_entry(entry, out)?;
    }
    Ok(())
}

/// The lines of the records that these bytes are, all made before any is given; or the place from which on no record
/// begins.
pub fn record_lines(alloc: Global, bytes: &[u8]) -> Result<Text, U2Fault>
    ensures told { IfOk result (AreLinesOf bytes.now) }
    ensures refused { IfErr result (IsCauseOf bytes.now) }
{
    let mut entries = Vec::new(alloc);
    read_records(alloc, bytes, &mut entries)?;
    let mut lines = Vec::new(alloc);
    push_entries(&entries, &mut lines)?;
    Ok(Text::from_vec(lines))
}
