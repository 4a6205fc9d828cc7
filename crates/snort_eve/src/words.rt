//! What the words of the command ask for.
ghost use Rattle.std.specs.Prelude.{◌≡◌, ◌++◌, bytes_eq, codes, map, option_and_then, option_map, string_bytes, IfOk, OnOk};
ghost use Rattle.std.specs.List.{list_any};
ghost use Rattle.clap.specs.Words.{found_of, rows_of};
ghost use Rattle.clap.specs.Walk.{all_of};
ghost use Rattle.alert_json.specs.Facts.{bytes_of};
ghost use Rattle.snort_eve.specs.Asking.{asked_facts, asked_in, asked_of, conf_facts, conf_with, defined_facts, file_of, files_of, given_in, if_apart, if_given, is_apart, needed_by, seed_of, since_by, since_facts, since_in, wanted_facts, wanted_in};
ghost use Rattle.command_words.specs.CommandLine.{definition, maybe, named};
ghost use Rattle.net_lists.specs.Numbers.{number_in};

use crate::syntax::matches;
use alert_json::RunFields;
use clap::ArgMatches;
use clap::parser::ValueSource;
use edge_io::NoMemory;
use net_lists::{cut, is_name, number_in};
use std::alloc::Global;

/// A variable's name and its value.
#[derive(Clone, Copy, Debug)]
pub(crate) struct Variable<'a> {
    pub(crate) name: &'a [u8],
    pub(crate) value: &'a [u8],
}

/// The name of a configuration, and the variable that the words define.
#[derive(Clone, Copy, Debug)]
pub(crate) struct Conf<'a> {
    pub(crate) name: &'a str,
    pub(crate) defined: Option<Variable<'a>>,
}

/// What the year of a file's first line follows from.
#[derive(Clone, Copy, Debug)]
pub(crate) enum Since<'a> {
    /// It is this one.
    Year(u16),
    /// The capture of this name.
    Capture(&'a str),
}

/// What all records have alike; the configuration, if there is one; what the year of a file's first line follows from, where
/// files are alert lines and not records; and the names of the files, in their order.
#[derive(Drop)]
pub(crate) struct Conversion<'a> {
    pub(crate) run: RunFields<'a>,
    pub(crate) conf: Option<Conf<'a>>,
    pub(crate) since: Option<Since<'a>>,
    pub(crate) files: Vec<&'a str>,
}

/// What the words ask for.
#[derive(Drop)]
pub(crate) enum Request<'a> {
    /// The usage.
    Help,
    /// The lines of files.
    Lines(Conversion<'a>),
}

/// The name of standard input.
const INPUT: &str = "/dev/stdin";

/// A text, if the words gave it.
fn if_given<'a>(source: Option<ValueSource>, text: Option<&'a str>) -> Option<&'a str>
    ensures { option_map (λ t. t.now) result ≡ if_given source (option_map (λ t. t.now) text.entry) }
{
    match source {
        Some(ValueSource::CommandLine) => text,
        Some(ValueSource::DefaultValue) | None => None,
    }
}

/// The text that the words gave an option or a flag; a flag's is `true`.
fn given<'a>(matches: &ArgMatches<'a>, id: &str) -> Option<&'a str>
    ensures { option_map (λ t. t.now) result ≡ given_in (rows_of (found_of matches.now)) id.now }
{
    if_given(matches.value_source(id), matches.get_str(id))
}

/// The bytes of a text, if there is one.
fn bytes_of<'a>(text: Option<&'a str>) -> Option<&'a [u8]>
    ensures { bytes_of result ≡ option_map (λ t. t.now) text.entry }
{
    match text {
        None => None,
        Some(text) => Some(text.as_bytes()),
    }
}

fn seed_of(value: Option<&str>) -> Option<u16>
    ensures { result ≡ seed_of (option_map (λ t. t.now) value.entry) }
{
    match value {
        None => Some(0),
        Some(value) => Some(number_in(0, 65535, value.as_bytes())? as u16),
    }
}

/// A variable of this name and value.
fn named<'a>(name: &'a [u8], value: &'a [u8]) -> Option<Variable<'a>>
    ensures { option_map defined_facts result ≡ named name.entry.now value.entry.now }
{
    if is_name(name) && !value.is_empty() {
        Some(Variable { name, value })
    } else {
        None
    }
}

/// The variable that `name=value` defines.
fn definition(text: &[u8]) -> Option<Variable<'_>>
    ensures { option_map defined_facts result ≡ definition text.now }
{
    let (name, value) = cut(text, b'=')?;
    named(name, value)
}

/// The variable that `-S` defines, if it is there.
fn maybe_definition<'a>(text: Option<&'a str>) -> Option<Option<Variable<'a>>>
    ensures { option_map (option_map defined_facts) result ≡ maybe definition (option_map (λ t. t.now) text.entry) }
{
    match text {
        None => Some(None),
        Some(text) => Some(Some(definition(text.as_bytes())?)),
    }
}

/// The configuration of this name, if there is one, with this variable.
fn conf_of<'a>(name: Option<&'a str>, defined: Option<Variable<'a>>) -> Option<Conf<'a>>
    ensures { option_map conf_facts result
        ≡ option_map (conf_with (option_map defined_facts defined.entry)) (option_map (λ t. t.now) name.entry) }
{
    match name {
        None => None,
        Some(name) => Some(Conf { name, defined }),
    }
}

fn file_of<'a>(name: &'a str) -> &'a str
    ensures { result.now ≡ file_of name.entry.now }
{
    if name == "-" { INPUT } else { name }
}

/// Adds the files of these names.
fn push_files<'a>(names: &[&'a str], files: &mut Vec<&'a str>) -> Result<(), NoMemory>
    ensures { OnOk result (map (λ name. name.now) files.new.items
        ≡ map (λ name. name.now) files.old.items ++ map file_of (map (λ name. name.now) names.now)) }
{
    for name in names {
        files.push(file_of(*name))?;
    }
    Ok(())
}

/// Adds the files of these names, if there are any, else standard input.
fn push_named<'a>(names: Option<&[&'a str]>, files: &mut Vec<&'a str>) -> Result<(), NoMemory>
    ensures { OnOk result (map (λ name. name.now) files.new.items
        ≡ map (λ name. name.now) files.old.items ++ files_of (option_map (λ ns. map (λ name. name.now) ns.now) names.entry)) }
{
    match names {
        None => Ok(files.push(INPUT)?),
        Some(names) => push_files(names, files),
    }
}

/// The files that the words name.
fn files_of<'a>(alloc: Global, matches: &ArgMatches<'a>) -> Result<Vec<&'a str>, NoMemory>
    ensures { IfOk result (λ files. map (λ name. name.now) files.items
        ≡ files_of (all_of (codes "FILE") (rows_of (found_of matches.now)))) }
{
    let mut files = Vec::new(alloc);
    push_named(matches.get_strs("FILE"), &mut files)?;
    Ok(files)
}

/// The year, if it is there.
fn maybe_year(text: Option<&str>) -> Option<Option<u16>>
    ensures { result ≡ maybe (number_in 1970 2553) (option_map (λ t. t.now) text.entry) }
{
    match text {
        None => Some(None),
        Some(text) => Some(Some(number_in(1970, 2553, text.as_bytes())? as u16)),
    }
}

/// What the year of a file's first line follows from: a year or a capture, and not both.
fn since_by<'a>(year: Option<u16>, capture: Option<&'a str>) -> Option<Option<Since<'a>>>
    ensures { option_map (option_map since_facts) result ≡ since_by year (option_map (λ t. t.now) capture.entry) }
{
    match (year, capture) {
        (None, None) => Some(None),
        (Some(year), None) => Some(Some(Since::Year(year))),
        (None, Some(name)) => Some(Some(Since::Capture(file_of(name)))),
        (Some(_), Some(_)) => None,
    }
}

/// What the year of a file's first line follows from, if the files are alert lines: they need one, and are no records.
fn needed_by<'a>(lines: bool, unified2: bool, since: Option<Since<'a>>) -> Option<Option<Since<'a>>>
    ensures { option_map (option_map since_facts) result ≡ needed_by lines unified2 (option_map since_facts since.entry) }
{
    if lines {
        if unified2 { None } else { Some(Some(since?)) }
    } else {
        Some(None)
    }
}

fn since_in<'a>(matches: &ArgMatches<'a>) -> Option<Option<Since<'a>>>
    ensures { option_map (option_map since_facts) result ≡ since_in (rows_of (found_of matches.now)) }
{
    let year = maybe_year(given(matches, "year"))?;
    let since = since_by(year, given(matches, "capture"))?;
    needed_by(
        given(matches, "lines").is_some(),
        given(matches, "unified2").is_some(),
        since,
    )
}

/// Whether a name is among those of files.
fn is_among(name: &str, files: &[&str]) -> bool
    ensures { result ≡ list_any (λ file. bytes_eq file name.now) (map (λ file. file.now) files.now) }
{
    for file in files {
        if *file == name {
            return true;
        }
    }
    false
}

/// Whether a capture is none of the files.
fn is_apart(since: Option<Since<'_>>, files: &[&str]) -> bool
    ensures { result ≡ is_apart (option_map since_facts since.entry) (map (λ file. file.now) files.now) }
{
    match since {
        None | Some(Since::Year(_)) => true,
        Some(Since::Capture(name)) => !is_among(name, files),
    }
}

/// The lines that are asked for, with this seed, this variable and what the year follows from.
fn wanted_in<'a>(
    alloc: Global,
    matches: &ArgMatches<'a>,
    seed: u16,
    defined: Option<Variable<'a>>,
    since: Option<Since<'a>>,
) -> Result<Conversion<'a>, NoMemory>
    ensures { IfOk result (λ wanted. wanted_facts wanted
        ≡ wanted_in (rows_of (found_of matches.now)) seed (option_map defined_facts defined.entry)
        (option_map since_facts since.entry)) }
{
    let files = files_of(alloc, matches)?;
    Ok(Conversion {
        run: RunFields {
            seed,
            host: bytes_of(given(matches, "host")),
            pcap_filename: bytes_of(given(matches, "pcap-filename")),
        },
        conf: conf_of(given(matches, "c"), defined),
        since,
        files,
    })
}

/// What is wanted, if the capture is none of the files.
fn if_apart<'a>(wanted: Conversion<'a>) -> Option<Request<'a>>
    ensures { option_map asked_facts result ≡ if_apart (wanted_facts wanted.entry) }
{
    if is_apart(wanted.since, &wanted.files) {
        Some(Request::Lines(wanted))
    } else {
        None
    }
}

/// What is asked for beside this seed and this variable.
fn dated_in<'a>(
    alloc: Global,
    matches: &ArgMatches<'a>,
    seed: u16,
    defined: Option<Variable<'a>>,
) -> Result<Option<Request<'a>>, NoMemory>
    ensures { IfOk result (λ asked. option_map asked_facts asked
        ≡ option_and_then (λ since. if_apart (wanted_in (rows_of (found_of matches.now)) seed
        (option_map defined_facts defined.entry) since)) (since_in (rows_of (found_of matches.now)))) }
{
    match since_in(matches) {
        None => Ok(None),
        Some(since) => Ok(if_apart(wanted_in(alloc, matches, seed, defined, since)?)),
    }
}

/// What is asked for beside this seed.
fn defined_in<'a>(
    alloc: Global,
    matches: &ArgMatches<'a>,
    seed: u16,
) -> Result<Option<Request<'a>>, NoMemory>
    ensures { IfOk result (λ a. option_map asked_facts a ≡ option_and_then (λ defined.
        option_and_then (λ since. if_apart (wanted_in (rows_of (found_of matches.now)) seed defined since))
        (since_in (rows_of (found_of matches.now)))) (maybe definition (given_in (rows_of (found_of matches.now)) (codes "S")))) }
{
    match maybe_definition(given(matches, "S")) {
        None => Ok(None),
        Some(defined) => dated_in(alloc, matches, seed, defined),
    }
}

/// What the matches of the words ask for.
fn asked_in<'a>(alloc: Global, matches: &ArgMatches<'a>) -> Result<Option<Request<'a>>, NoMemory>
    ensures { IfOk result (λ asked. option_map asked_facts asked ≡ asked_in (rows_of (found_of matches.now))) }
{
    if given(matches, "help").is_some() {
        return Ok(Some(Request::Help));
    }
    match seed_of(given(matches, "community-id-seed")) {
        None => Ok(None),
        Some(seed) => defined_in(alloc, matches, seed),
    }
}

/// What the words ask for, the program's name among them; None where they are no command line.
pub(crate) fn asked_of<'a>(
    alloc: Global,
    words: &'a [String],
) -> Result<Option<Request<'a>>, NoMemory>
    ensures { IfOk result (λ asked. option_map asked_facts asked ≡ asked_of (map string_bytes words.entry.now)) }
{
    match matches(alloc, words)? {
        None => Ok(None),
        Some(matches) => asked_in(alloc, &matches),
    }
}
