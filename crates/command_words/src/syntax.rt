//! The command as `clap` has it, and the matches of words.
ghost use Rattle.std.specs.Prelude.{◌≡◌, false, IfOk, map, option_map, string_bytes};
ghost use Rattle.clap.specs.Words.{app_of, found_of, rows_of, rule_of};
ghost use Rattle.command_words.specs.Clap.{app_with, clap_rows, rule_as, snort};

use clap::error::ErrorKind;
use clap::{Arg, ArgAction, ArgMatches, Command};
use edge_io::NoMemory;
use std::alloc::{AllocError, Global};

/// An option or a flag: its id, by which its matches are found, and what words use it by. An option takes a
/// value, a flag takes none.
#[derive(Clone, Copy, Debug)]
pub(crate) enum CommandArg {
    /// An option with a letter.
    LetterOption(&'static str, char),
    /// An option with a name, which is its id.
    NameOption(&'static str),
    /// A flag with a letter.
    LetterFlag(&'static str, char),
    /// A flag with a name, which is its id.
    NameFlag(&'static str),
}

/// The options and flags of the command. What is listed here may be used, and is refused beside
/// `--read-unified2` as all but `--help` and `-V` is.
const CHOICES: [CommandArg; 20] = [
    CommandArg::LetterOption("c", 'c'),
    CommandArg::LetterOption("r", 'r'),
    CommandArg::LetterOption("A", 'A'),
    CommandArg::LetterOption("k", 'k'),
    CommandArg::LetterOption("n", 'n'),
    CommandArg::LetterOption("S", 'S'),
    CommandArg::NameOption("host-table"),
    CommandArg::NameOption("lanes"),
    CommandArg::NameOption("flush-point"),
    CommandArg::NameOption("generate"),
    CommandArg::NameOption("seed"),
    CommandArg::NameOption("read-unified2"),
    CommandArg::LetterFlag("q", 'q'),
    CommandArg::LetterFlag("U", 'U'),
    CommandArg::LetterFlag("T", 'T'),
    CommandArg::LetterFlag("V", 'V'),
    CommandArg::NameFlag("skip-refused"),
    CommandArg::NameFlag("stats"),
    CommandArg::NameFlag("unified2"),
    CommandArg::NameFlag("help"),
];

/// An option or a flag as `clap` has it.
fn argument<'a>(alloc: Global, choice: CommandArg) -> Arg<'a>
    ensures rule { rule_of result ≡ rule_as choice }
    ensures local { result.global ≡ false }
{
    match choice {
        CommandArg::LetterOption(id, letter) => {
            Arg::new(alloc, id).short(letter).action(ArgAction::Set)
        }
        CommandArg::NameOption(name) => Arg::new(alloc, name).long(name).action(ArgAction::Set),
        CommandArg::LetterFlag(id, letter) => {
            Arg::new(alloc, id).short(letter).action(ArgAction::SetTrue)
        }
        CommandArg::NameFlag(name) => Arg::new(alloc, name).long(name).action(ArgAction::SetTrue),
    }
}

/// The command with these options and flags more.
fn with_choices<'a>(
    alloc: Global,
    bare: Command<'a>,
    choices: &[CommandArg],
) -> Result<Command<'a>, AllocError>
    ensures { IfOk result (λ command. app_of command ≡ app_with (app_of bare.entry) choices.now) }
{
    let mut command = bare;
    for choice in choices {
        command = command.arg(argument(alloc, *choice))?;
    }
    Ok(command)
}

/// The command, with all of its options and flags.
#[tactic(auto, unfolding(crate::specs::Clap::snort))]
fn snort<'a>(alloc: Global) -> Result<Command<'a>, AllocError>
    ensures { IfOk result (λ command. app_of command ≡ snort) }
{
    let bare = Command::new(alloc, "snort")
        .disable_help_flag(true)
        .disable_version_flag(true);
    with_choices(alloc, bare, &CHOICES)
}

/// The matches of the words, or None where `clap` refuses them.
pub(crate) fn matches<'a>(
    alloc: Global,
    words: &'a [String],
) -> Result<Option<ArgMatches<'a>>, NoMemory>
    ensures { IfOk result (λ reply. option_map (λ m. rows_of (found_of m)) reply
        ≡ clap_rows (map string_bytes words.entry.now)) }
{
    let command = snort(alloc)?;
    match command.try_get_matches_from(words) {
        Ok(matches) => Ok(Some(matches)),
        Err(error) => match error.kind() {
            ErrorKind::OutOfMemory => Err(NoMemory),
            _ => Ok(None),
        },
    }
}
