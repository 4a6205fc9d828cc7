//! Why a run ends early, with its status and message.
ghost use Rattle.std.specs.Prelude.{◌≡◌, ◌++◌, OnOk};
ghost use Rattle.snort_engine.specs.Answer.{fault_text};
ghost use Rattle.snort_engine.specs.Messages.{cannot_read_text};
ghost use Rattle.snort_engine.specs.Steps.Stop.{is_whole, stop_status, stop_text};

use crate::Status;
use alert_fast::TextPiece::{Bytes, Number};
use alert_fast::push_pieces;
use alert_lines::WriteFault;
use edge_io::{NoMemory, Text, WriteStop};
use pcapng_input::ReadFault;
use snort_setup::SetupStop;
use std::alloc::AllocFailed;

/// Why a run ends before a capture is read to its end. Each has a status and a message.
#[derive(Debug, Drop)]
pub(crate) enum RunStop {
    /// The words ask how the command is used.
    Usage,
    /// The words ask which program this is.
    Version,
    /// The configuration is accepted, with this many rules, and nothing else was asked for.
    Accepted { rules: u64 },
    /// The words are no command.
    CommandLine,
    /// A line of a file is refused, or a file that is too large, with this message.
    Refused { message: Text },
    /// The host failed at this file, which is read before the capture, or lacks it.
    CannotReadFile { name: Text },
    /// The capture is refused, or can't be read.
    Capture(ReadFault),
    /// The alert sink failed.
    CannotWrite,
    /// Memory ran out.
    NoMemory,
    /// The bytes of a Unified2 file from this one on begin no record.
    BadUnified2 { at: u64 },
}

/// Whether the work on a capture came to its end: it was read to its end, or to where it is refused.
pub(crate) fn is_whole(outcome: &Result<(), RunStop>) -> bool
    ensures { result ≡ is_whole outcome.now }
{
    match outcome {
        Ok(()) => true,
        Err(RunStop::Capture(ReadFault::Failed | ReadFault::NoMemory)) => false,
        Err(RunStop::CannotWrite | RunStop::NoMemory) => false,
        Err(_) => true,
    }
}

impl RunStop {
    /// The status with which it ends a run.
    pub fn status(&self) -> Status
        ensures { result ≡ stop_status self.now }
    {
        match self {
            RunStop::Usage | RunStop::Version | RunStop::Accepted { .. } => Status::Done,
            RunStop::CommandLine | RunStop::Refused { .. } => Status::Refused,
            RunStop::CannotReadFile { .. } | RunStop::Capture(ReadFault::Failed) =>
                Status::HostFault,
            RunStop::CannotWrite => Status::WriteFault,
            RunStop::NoMemory | RunStop::Capture(ReadFault::NoMemory) => Status::NoMemory,
            RunStop::BadUnified2 { .. } | RunStop::Capture(ReadFault::Bad(_)) => Status::BadCapture,
        }
    }

    /// Appends the stop's message, with a line feed at its end, where the capture has this name.
    #[tactic(auto, unfolding(crate::specs::Steps::Stop::stop_text, crate::specs::Messages::usage_text, crate::specs::Messages::version_text, crate::specs::Messages::accepted_text, crate::specs::Messages::command_line_text, crate::specs::Messages::cannot_write_text, crate::specs::Messages::no_memory_text, crate::specs::Messages::bad_unified2_text))]
    pub fn push(&self, source: &str, out: &mut Vec<u8>) -> Result<(), NoMemory>
        ensures { OnOk result (out.new.items ≡ out.old.items ++ stop_text source.now self.now) }
    {
        match self {
            RunStop::Usage => push_pieces(
                out,
                &[Bytes(b"usage: snort -c CONF -r FILE [options]\n")],
            ),
            RunStop::Version => push_pieces(out, &[Bytes(b"snort offline profile 2.9\n")]),
            RunStop::Accepted { rules } => push_pieces(
                out,
                &[
                    Bytes(b"configuration accepted: "),
                    Number(*rules),
                    Bytes(b" rules\n"),
                ],
            ),
            RunStop::CommandLine => push_pieces(out, &[Bytes(b"ERROR: command line\n")]),
            RunStop::Refused { message } => push_pieces(out, &[Bytes(message.bytes())]),
            RunStop::CannotReadFile { name } => push_cannot_read(name.bytes(), out),
            RunStop::Capture(why) => push_fault(*why, source, out),
            RunStop::CannotWrite => push_pieces(out, &[Bytes(b"ERROR: cannot write\n")]),
            RunStop::NoMemory => push_pieces(out, &[Bytes(b"ERROR: no memory\n")]),
            RunStop::BadUnified2 { at } => push_pieces(
                out,
                &[
                    Bytes(b"ERROR: unified2 file is bad at byte "),
                    Number(*at),
                    Bytes(b"\n"),
                ],
            ),
        }
    }
}

/// Appends the message that a file of this name can't be read.
#[tactic(auto, unfolding(crate::specs::Messages::cannot_read_text))]
fn push_cannot_read(name: &[u8], out: &mut Vec<u8>) -> Result<(), NoMemory>
    ensures { OnOk result (out.new.items ≡ out.old.items ++ cannot_read_text name.now) }
{
    push_pieces(
        out,
        &[Bytes(b"ERROR: cannot read "), Bytes(name), Bytes(b"\n")],
    )
}

/// Appends the message that the capture of this name is refused, or can't be read.
#[tactic(auto, unfolding(crate::specs::Messages::no_memory_text))]
fn push_fault(why: ReadFault, source: &str, out: &mut Vec<u8>) -> Result<(), NoMemory>
    ensures { OnOk result (out.new.items ≡ out.old.items ++ fault_text source.now why) }
{
    match why {
        ReadFault::Bad(bad) => bad.push(out),
        ReadFault::Failed => push_cannot_read(source.as_bytes(), out),
        ReadFault::NoMemory => push_pieces(out, &[Bytes(b"ERROR: no memory\n")]),
    }
}

impl From<NoMemory> for RunStop {
    ghost use Rattle.snort_engine.specs.declared.stop.RunStop.TheVariants.{NoMemory as out_of_memory};

    ghost from_gives = { λ _ stop. stop ≡ out_of_memory };

    fn from(_error: NoMemory) -> RunStop {
        RunStop::NoMemory
    }
}

impl<T: Drop> From<AllocFailed<T>> for RunStop {
    ghost use Rattle.snort_engine.specs.declared.stop.RunStop.TheVariants.{NoMemory as out_of_memory};

    ghost from_gives = { λ _ stop. stop ≡ out_of_memory };

    fn from(_error: AllocFailed<T>) -> RunStop {
        RunStop::NoMemory
    }
}

impl From<WriteFault> for RunStop {
    ghost use Rattle.snort_engine.specs.Steps.Stop.{write_stop};

    ghost from_gives = { λ why stop. stop ≡ write_stop why };

    fn from(why: WriteFault) -> RunStop {
        match why {
            WriteFault::Unwritten => RunStop::CannotWrite,
            WriteFault::NoMemory => RunStop::NoMemory,
        }
    }
}

impl From<WriteStop> for RunStop {
    ghost use Rattle.snort_engine.specs.declared.stop.RunStop.TheVariants.{CannotWrite};

    ghost from_gives = { λ _ stop. stop ≡ CannotWrite };

    fn from(_stop: WriteStop) -> RunStop {
        RunStop::CannotWrite
    }
}

impl From<ReadFault> for RunStop {
    ghost use Rattle.snort_engine.specs.declared.stop.RunStop.TheVariants.{Capture};

    ghost from_gives = { λ why stop. stop ≡ Capture why };

    fn from(why: ReadFault) -> RunStop {
        RunStop::Capture(why)
    }
}

impl From<SetupStop> for RunStop {
    ghost use Rattle.snort_engine.specs.Steps.Stop.{setup_stop};

    ghost from_gives = { λ why stop. stop ≡ setup_stop why };

    fn from(why: SetupStop) -> RunStop {
        match why {
            SetupStop::Refused { message } => RunStop::Refused { message },
            SetupStop::CannotRead { name } => RunStop::CannotReadFile { name },
            SetupStop::NoMemory => RunStop::NoMemory,
        }
    }
}
