//! The program `snort_eve`: the alerts in files of Unified2 records become JSON lines.
//!
//! `snort_eve FILE..`, or standard input without a name, writes one line an event to standard output, in the form of
//! Suricata's EVE records; with `--lines` it reads alert lines, whose year is given or follows from a capture. What the lines
//! are is the contract of `copy_on_system`: that of `copy_named`, by any files that give all that the system answered.
#![tactic(auto)]

ghost use Rattle.std.specs.Prelude.{◌≡◌, Some, map, string_bytes};
ghost use Rattle.edge_io.specs.Told.{Rose};
ghost use Rattle.edge_io.specs.Answers.{Agree, taken_of};
ghost use Rattle.snort_eve.specs.Runs.{OnUnread, Runs, UnlessFault};
ghost use Rattle.snort_eve.specs.Asking.{asked_of};

mod capture;
mod conf;
mod copy;
mod events;
mod form;
mod joins;
mod line_form;
mod maker;
mod outcome;
mod record_form;
mod records;
mod run;
mod stream;
mod syntax;
mod texts;
mod words;

use crate::outcome::{Outcome, tell};
use crate::run::copy_named;
use edge_io::{FileHost, HeardHost, HeardSink, StdSink};
use std::alloc::Global;
use std::io::Stdout;
use std::process::ExitCode;
use std::rt::{Env, Files};
use std::{env, io};

/// Writes the lines of the events of the files that the words name, from the system's files to standard output.
///
/// Whatever files give all that the host answered in this run, what the stream took is what `Runs` says of these files.
fn copy_on_system<'a, R: Files>(
    alloc: Global,
    words: &'a [String],
    host: &mut HeardHost<R>,
    alerts: &mut HeardSink<Stdout>,
) -> Outcome<'a>
    ensures runs { Runs (asked_of (map string_bytes words.entry.now)) (Agree host.new.heard.answers)
        (Some (taken_of alerts.old.heard.answers)) (Some (taken_of alerts.new.heard.answers)) result }
    ensures unread { OnUnread result (λ name. Rose host.old.host.faults host.new.host.faults) }
    ensures unwritten { result ≡ Outcome.Unwritten → Rose alerts.old.sink.faults alerts.new.sink.faults }
    ensures quiet { UnlessFault (asked_of (map string_bytes words.entry.now)) result
        (host.new.host.faults ≡ host.old.host.faults) }
    ensures quiet_alerts { (result ≡ Outcome.Unwritten → ⊥) → alerts.new.sink.faults ≡ alerts.old.sink.faults }
{
    copy_named(alloc, words, host, alerts)
}

/// The words of the command. There are none where one of them isn't text.
fn command_words(rt: &(impl Env + AllocGlobal)) -> io::Result<Vec<String>> {
    match env::args(rt) {
        Ok(args) => Ok(args.collect(rt.alloc())?),
        Err(error) if error.kind() == io::ErrorKind::InvalidData => Ok(Vec::new(rt.alloc())),
        Err(error) => Err(error),
    }
}

fn main(rt: HostRuntime) -> ExitCode {
    let alloc = rt.alloc();
    let mut alerts = HeardSink::over(StdSink::output(rt.stdout()));
    let mut errors = StdSink::errors(rt.stderr());
    let (Ok(words), Ok(host)) = (command_words(&rt), FileHost::new(alloc, &rt)) else {
        // Memory is lacking before the run.
        tell(alloc, &Outcome::NoMemory, &mut errors);
        return ExitCode::from(Outcome::NoMemory.code());
    };
    let outcome = copy_on_system(alloc, &words, &mut HeardHost::over(host), &mut alerts);
    tell(alloc, &outcome, &mut errors);
    ExitCode::from(outcome.code())
}
