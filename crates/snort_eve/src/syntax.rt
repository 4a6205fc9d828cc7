//! The command as `clap` has it, and the matches of words.
ghost use Rattle.std.specs.Prelude.{◌≡◌, false, IfOk, map, option_map, string_bytes};
ghost use Rattle.clap.specs.Words.{app_of, found_of, rows_of, rule_of};
ghost use Rattle.snort_eve.specs.Command.{app_with, clap_rows, eve_command, rule_as};

use clap::error::ErrorKind;
use clap::{Arg, ArgAction, ArgMatches, Command};
use edge_io::NoMemory;
use std::alloc::{AllocError, Global};

/// What words may use: an option with a letter or with a name, which takes a value, a flag with a name, or the names of
/// files. Its matches are found by its id, or by its name.
#[derive(Clone, Copy, Debug)]
pub(crate) enum EveArg {
    LetterOption(&'static str, char),
    NameOption(&'static str),
    NameFlag(&'static str),
    Names(&'static str),
}

const CHOICES: [EveArg; 11] = [
    EveArg::LetterOption("c", 'c'),
    EveArg::LetterOption("S", 'S'),
    EveArg::NameOption("year"),
    EveArg::NameOption("capture"),
    EveArg::NameFlag("lines"),
    EveArg::NameFlag("unified2"),
    EveArg::NameOption("host"),
    EveArg::NameOption("pcap-filename"),
    EveArg::NameOption("community-id-seed"),
    EveArg::NameFlag("help"),
    EveArg::Names("FILE"),
];

fn argument<'a>(alloc: Global, choice: EveArg) -> Arg<'a>
    ensures rule { rule_of result ≡ rule_as choice }
    ensures local { result.global ≡ false }
{
    match choice {
        EveArg::LetterOption(id, letter) => {
            Arg::new(alloc, id).short(letter).action(ArgAction::Set)
        }
        EveArg::NameOption(name) => Arg::new(alloc, name).long(name).action(ArgAction::Set),
        EveArg::NameFlag(name) => Arg::new(alloc, name).long(name).action(ArgAction::SetTrue),
        EveArg::Names(id) => Arg::new(alloc, id).action(ArgAction::Append),
    }
}

/// The command with these more.
fn with_choices<'a>(
    alloc: Global,
    bare: Command<'a>,
    choices: &[EveArg],
) -> Result<Command<'a>, AllocError>
    ensures { IfOk result (λ command. app_of command ≡ app_with (app_of bare.entry) choices.now) }
{
    let mut command = bare;
    for choice in choices {
        command = command.arg(argument(alloc, *choice))?;
    }
    Ok(command)
}

#[tactic(auto, unfolding(crate::specs::Command::eve_command))]
fn eve_command<'a>(alloc: Global) -> Result<Command<'a>, AllocError>
    ensures { IfOk result (λ command. app_of command ≡ eve_command) }
{
    let bare = Command::new(alloc, "snort_eve")
        .disable_help_flag(true)
        .disable_version_flag(true);
    with_choices(alloc, bare, &CHOICES)
}

/// The matches of the words, or None where `clap` refuses them.
pub(crate) fn matches<'a>(
    alloc: Global,
    words: &'a [String],
) -> Result<Option<ArgMatches<'a>>, NoMemory>
    ensures { IfOk result (λ reply. option_map (λ m. rows_of (found_of m)) reply
        ≡ clap_rows (map string_bytes words.entry.now)) }
{
    let command = eve_command(alloc)?;
    match command.try_get_matches_from(words) {
        Ok(matches) => Ok(Some(matches)),
        Err(error) => match error.kind() {
            ErrorKind::OutOfMemory => Err(NoMemory),
            _ => Ok(None),
        },
    }
}
