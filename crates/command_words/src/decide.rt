//! What the words ask for, by what they gave.
ghost use Rattle.std.specs.Prelude.{◌≡◌, option_map};
ghost use Rattle.clap.specs.Words.{found_of, rows_of};
ghost use Rattle.command_words.specs.Clap.{asked_in, given_in, others_in};
ghost use Rattle.command_words.specs.CommandLine.{asked_by, definition, form_of, has_its_capture, if_alone, named, run_by};
ghost use Rattle.command_words.specs.Told.{asked, defined_of, run_of};

use crate::asked::{AlertForm, Command, Definition, Words};
use crate::given::{given, has_others, is_given};
use crate::values::{CheckedValues, read_values};
use clap::ArgMatches;
use net_lists::{cut, is_name};

/// A variable of this name and value.
fn named<'a>(name: &'a [u8], value: &'a [u8]) -> Option<Definition<'a>>
    ensures { option_map defined_of result ≡ named name.entry.now value.entry.now }
{
    if is_name(name) && !value.is_empty() {
        Some(Definition { name, value })
    } else {
        None
    }
}

/// The variable that `name=value` defines.
fn definition(text: &[u8]) -> Option<Definition<'_>>
    ensures { option_map defined_of result ≡ definition text.now }
{
    let (name, value) = cut(text, b'=')?;
    named(name, value)
}

/// The form of alerts.
fn form_of(unified2: bool) -> AlertForm
    ensures { result ≡ form_of unified2 }
{
    if unified2 {
        AlertForm::Unified2
    } else {
        AlertForm::Lines
    }
}

/// Whether the capture comes from one place, or none is wanted.
fn has_its_capture(wanted: &Words<'_>) -> bool
    ensures { result ≡ has_its_capture (run_of wanted.now) }
{
    if wanted.capture.is_some() {
        wanted.generate.is_none()
    } else {
        wanted.generate.is_some() || wanted.test
    }
}

/// The run that the words ask for.
fn run_by<'a>(matches: &ArgMatches<'a>, values: CheckedValues) -> Option<Command<'a>>
    ensures { option_map asked result ≡ run_by (given_in (rows_of (found_of matches.now))) values }
{
    let defined = match given(matches, "S") {
        None => None,
        Some(text) => Some(definition(text.as_bytes())?),
    };
    let wanted = Words {
        conf: given(matches, "c")?,
        capture: given(matches, "r"),
        checks: values.checks,
        limit: values.limit,
        defined,
        host_table: given(matches, "host-table"),
        lanes: values.lanes,
        flush_point: values.flush_point,
        generate: values.generate,
        seed: values.seed,
        quiet: is_given(matches, "q"),
        test: is_given(matches, "T"),
        skip_refused: is_given(matches, "skip-refused"),
        stats: is_given(matches, "stats") || values.generate.is_some(),
        form: form_of(is_given(matches, "unified2")),
    };
    if has_its_capture(&wanted) {
        Some(Command::Run(wanted))
    } else {
        None
    }
}

/// The records of a Unified2 file, where nothing else is wanted.
fn records_of<'a>(matches: &ArgMatches<'a>, file: &'a str) -> Option<Command<'a>>
    ensures { option_map asked result
        ≡ if_alone (others_in (rows_of (found_of matches.now))) file.entry.now }
{
    if has_others(matches) {
        None
    } else {
        Some(Command::ReadUnified2(file))
    }
}

/// What the words ask for.
#[tactic(auto, unfolding(crate::specs::CommandLine::asked_by))]
pub(crate) fn decide<'a>(matches: &ArgMatches<'a>) -> Option<Command<'a>>
    ensures { option_map asked result ≡ asked_in (rows_of (found_of matches.now)) }
{
    let values = read_values(matches)?;
    if is_given(matches, "help") {
        return Some(Command::Help);
    }
    if is_given(matches, "V") {
        return Some(Command::Version);
    }
    match given(matches, "read-unified2") {
        None => run_by(matches, values),
        Some(file) => records_of(matches, file),
    }
}
