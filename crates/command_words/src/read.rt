//! The words of a command, read.
ghost use Rattle.std.specs.Prelude.{◌≡◌, IfOk, map, option_and_then, option_map, string_bytes};
ghost use Rattle.clap.specs.Words.{found_of, rows_of};
ghost use Rattle.command_words.specs.Clap.{asked_in};
ghost use Rattle.command_words.specs.CommandLine.{command_line};
ghost use Rattle.command_words.specs.Told.{IsAnswered, asked};

use crate::asked::Command;
use crate::decide::decide;
use crate::syntax::matches;
use clap::ArgMatches;
use edge_io::NoMemory;
use std::alloc::Global;

/// Why words give no command.
#[derive(Clone, Copy, Debug, PartialEq, Eq)]
pub enum WordsFault {
    /// Memory ran out. This answer is free: no contract ties it to a refused allocation.
    NoMemory,
    /// The words are no command line.
    CommandLine,
}

/// What the matches of the words ask for, if there are any.
fn asked_in<'a>(matches: Option<ArgMatches<'a>>) -> Option<Command<'a>>
    ensures { option_map asked result
        ≡ option_and_then asked_in (option_map (λ m. rows_of (found_of m)) matches.entry) }
{
    decide(&matches?)
}

/// What the words ask for, None where they are no command line.
fn read<'a>(alloc: Global, words: &'a [String]) -> Result<Option<Command<'a>>, NoMemory>
    ensures { IfOk result (λ reply. option_map asked reply
        ≡ command_line (map string_bytes words.entry.now)) }
{
    let matches = matches(alloc, words)?;
    Ok(asked_in(matches))
}

/// What the words of a command ask for, the program's name among them. The texts of the answer are
/// lent from the words.
///
/// `snort -c a.conf -r b.pcap -n 5` is a run with the limit 5. The words are refused as
/// `specs/CommandLine.antt` says, with `CommandLine`; `NoMemory` is free.
pub fn read_words<'a>(alloc: Global, words: &'a [String]) -> Result<Command<'a>, WordsFault>
    // An answer exactly where the plain reading has it, and a refusal exactly where it has none.
    ensures { IsAnswered result (command_line (map string_bytes words.entry.now)) }
{
    match read(alloc, words) {
        Err(NoMemory) => Err(WordsFault::NoMemory),
        Ok(None) => Err(WordsFault::CommandLine),
        Ok(Some(command)) => Ok(command),
    }
}
