//! How a run ends, its status and its message.
ghost use Rattle.std.specs.Prelude.{◌≡◌, ◌++◌, true, false, IfOk, OnOk};
ghost use Rattle.edge_io.specs.Told.{grown};
ghost use Rattle.snort_eve.specs.Runs.{bad_front, bad_text, message_text, no_line_text, outcome_of, place_text, undated};

use crate::capture::CaptureStop;
use crate::copy::CopyStop;
use crate::form::Ending;
use alert_fast::TextPiece::{Bytes, Number};
use alert_fast::push_pieces;
use edge_io::{NoMemory, Sink, Text, write_all};
use pcapng_input::{BadCapture, ReadFault};
use std::alloc::Global;

/// How a run ends, or the copying of one of its files.
#[derive(Debug, Drop)]
pub(crate) enum Outcome<'a> {
    /// All is told.
    Done,
    /// The words ask for the usage.
    Help,
    /// The words are no command line.
    CommandLine,
    /// A line of the configuration is refused, with this message.
    Refused { message: Text },
    /// The configuration, or a file that it includes, can't be read.
    NoConf { name: Text },
    /// No whole record begins at this byte of this file.
    Bad { name: &'a str, at: u64 },
    /// The line of this number of this file gives no record.
    NoLine { name: &'a str, number: u64 },
    /// The capture ends before a record.
    NoRecord,
    /// The capture is refused before its first record is read.
    BadCapture { why: BadCapture },
    /// This file can't be opened, or a read of it failed.
    Unread { name: &'a str },
    /// A write failed.
    Unwritten,
    /// This file has 2^64 bytes or more.
    TooLong { name: &'a str },
    /// Memory ran out.
    NoMemory,
}

impl<'a> Outcome<'a> {
    /// The exit status.
    pub(crate) fn code(&self) -> u8 {
        match self {
            Outcome::Done | Outcome::Help => 0,
            Outcome::CommandLine | Outcome::Refused { .. } => 1,
            Outcome::Bad { .. }
            | Outcome::NoLine { .. }
            | Outcome::NoRecord
            | Outcome::BadCapture { .. } => 2,
            Outcome::NoConf { .. } | Outcome::Unread { .. } | Outcome::TooLong { .. } => 3,
            Outcome::Unwritten => 4,
            Outcome::NoMemory => 5,
        }
    }
}

/// Whether all is told.
pub(crate) fn is_done(outcome: &Outcome<'_>) -> bool
    ensures done { result ≡ true → outcome.now ≡ Outcome.Done }
    ensures other { result ≡ false → outcome.now ≡ Outcome.Done → ⊥ }
{
    match outcome {
        Outcome::Done => true,
        Outcome::Help
        | Outcome::CommandLine
        | Outcome::Refused { .. }
        | Outcome::NoConf { .. }
        | Outcome::Bad { .. }
        | Outcome::NoLine { .. }
        | Outcome::NoRecord
        | Outcome::BadCapture { .. }
        | Outcome::Unread { .. }
        | Outcome::Unwritten
        | Outcome::TooLong { .. }
        | Outcome::NoMemory => false,
    }
}

/// How the file of this name ends whose copying ended so.
pub(crate) fn outcome_of<'a>(name: &'a str, copied: Result<Ending, CopyStop>) -> Outcome<'a>
    ensures { result ≡ outcome_of name.entry copied }
{
    match copied {
        Ok(Ending::Done) => Outcome::Done,
        Ok(Ending::Bad { at }) => Outcome::Bad { name, at },
        Ok(Ending::NoLine { number }) => Outcome::NoLine { name, number },
        Err(CopyStop::Unread) => Outcome::Unread { name },
        Err(CopyStop::Unwritten) => Outcome::Unwritten,
        Err(CopyStop::TooLong) => Outcome::TooLong { name },
        Err(CopyStop::NoMemory) => Outcome::NoMemory,
    }
}

/// How a run ends whose capture, of this name, doesn't tell its first record.
pub(crate) fn undated<'a>(name: &'a str, stop: CaptureStop) -> Outcome<'a>
    ensures { result ≡ undated name.entry stop }
{
    match stop {
        CaptureStop::Empty => Outcome::NoRecord,
        CaptureStop::Fault(ReadFault::Bad(why)) => Outcome::BadCapture { why },
        CaptureStop::Fault(ReadFault::Failed) => Outcome::Unread { name },
        CaptureStop::Fault(ReadFault::NoMemory) => Outcome::NoMemory,
    }
}

/// The usage, and what follows its first words.
const USAGE: &[u8] =
    b"usage: snort_eve [-c CONF] [-S NAME=VALUE] [--year N|--capture FILE] [--lines|--unified2] ";

const USAGE_END: &[u8] = b"[--host NAME] [--pcap-filename NAME] [--community-id-seed N] [FILE..]\n";

fn push_bad_front(name: &[u8], out: &mut Vec<u8>) -> Result<(), NoMemory>
    ensures { OnOk result (out.new.items ≡ out.old.items ++ bad_front name.now) }
{
    push_pieces(
        out,
        &[
            Bytes(b"ERROR: unified2 file "),
            Bytes(name),
            Bytes(b" is bad at byte "),
        ],
    )
}

fn push_place(at: u64, out: &mut Vec<u8>) -> Result<(), NoMemory>
    ensures { OnOk result (out.new.items ≡ out.old.items ++ place_text at) }
{
    push_pieces(out, &[Number(at), Bytes(b"\n")])
}

fn push_bad(name: &[u8], at: u64, out: &mut Vec<u8>) -> Result<(), NoMemory>
    ensures { OnOk result (out.new.items ≡ out.old.items ++ bad_text name.now at) }
{
    push_bad_front(name, out)?;
    push_place(at, out)
}

fn push_no_line(name: &[u8], number: u64, out: &mut Vec<u8>) -> Result<(), NoMemory>
    ensures { OnOk result (out.new.items ≡ out.old.items ++ no_line_text name.now number) }
{
    push_pieces(
        out,
        &[
            Bytes(b"ERROR: "),
            Bytes(name),
            Bytes(b"("),
            Number(number),
            Bytes(b") no alert line\n"),
        ],
    )
}

#[tactic(auto, unfolding(crate::specs::Runs::message_text))]
fn push_message(outcome: &Outcome<'_>, out: &mut Vec<u8>) -> Result<(), NoMemory>
    ensures { OnOk result (out.new.items ≡ out.old.items ++ message_text outcome.now) }
{
    match outcome {
        Outcome::Done => Ok(()),
        Outcome::Help => push_pieces(out, &[Bytes(USAGE), Bytes(USAGE_END)]),
        Outcome::CommandLine => push_pieces(out, &[Bytes(b"ERROR: command line\n")]),
        Outcome::Refused { message } => push_pieces(out, &[Bytes(message.bytes())]),
        Outcome::NoConf { name } => push_pieces(
            out,
            &[
                Bytes(b"ERROR: cannot read "),
                Bytes(name.bytes()),
                Bytes(b"\n"),
            ],
        ),
        Outcome::Bad { name, at } => push_bad(name.as_bytes(), *at, out),
        Outcome::NoLine { name, number } => push_no_line(name.as_bytes(), *number, out),
        Outcome::NoRecord => push_pieces(out, &[Bytes(b"ERROR: capture has no record\n")]),
        Outcome::BadCapture { why } => why.push(out),
        Outcome::Unread { name } => push_pieces(
            out,
            &[
                Bytes(b"ERROR: cannot read "),
                Bytes(name.as_bytes()),
                Bytes(b"\n"),
            ],
        ),
        Outcome::Unwritten => push_pieces(out, &[Bytes(b"ERROR: cannot write\n")]),
        Outcome::TooLong { name } => push_pieces(
            out,
            &[
                Bytes(b"ERROR: unified2 file "),
                Bytes(name.as_bytes()),
                Bytes(b" is too long\n"),
            ],
        ),
        Outcome::NoMemory => push_pieces(out, &[Bytes(b"ERROR: no memory\n")]),
    }
}

fn message(alloc: Global, outcome: &Outcome<'_>) -> Result<Vec<u8>, NoMemory>
    ensures { IfOk result (λ text. text.items ≡ message_text outcome.now) }
{
    let mut text = Vec::new(alloc);
    push_message(outcome, &mut text)?;
    Ok(text)
}

/// Tells how a run ended. A fault of the stream of errors changes nothing, nor does want of memory for the message.
pub(crate) fn tell<E: Sink>(alloc: Global, outcome: &Outcome<'_>, errors: &mut E) -> bool
    ensures { result ≡ true → E.written errors.new ≡ grown (E.written errors.old) (message_text outcome.now) }
{
    match message(alloc, outcome) {
        Ok(text) => write_all(errors, &text).is_ok(),
        Err(NoMemory) => false,
    }
}
