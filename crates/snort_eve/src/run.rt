//! A run: from the words to its end.
ghost use Rattle.std.specs.Prelude.{◌≡◌, ◌⊎◌, None, Some, map, string_bytes, option_map};
ghost use Rattle.edge_io.specs.Files.{Files, Lacks, IsOpened};
ghost use Rattle.edge_io.specs.Told.{Rose};
ghost use Rattle.snort_setup.specs.Words.{HasName};
ghost use Rattle.snort_eve.specs.Runs.{AreLinesRun, AreRun, IsFileRun, IsInputRun, IsLinesRun, OnUnread, Runs, UnlessFault, UnlessShort, UnlessUnread, Writes, line_of};
ghost use Rattle.snort_eve.specs.Asking.{AskNamed, IsNamed, asked_facts, asked_of, conf_facts, lines, of_capture, wanted_facts};
ghost use Rattle.snort_eve.specs.Texts.{texts_of};
ghost use Rattle.snort_eve.specs.Endings.{of_records};

use crate::capture::{after_moment, first_moment};
use crate::conf::{halted, read_texts};
use crate::copy::copy_records;
use crate::events::JsonLines;
use crate::form::InputForm;
use crate::line_form::AlertLines;
use crate::outcome::{Outcome, is_done, outcome_of, undated};
use crate::texts::Texts;
use crate::words::{Conf, Conversion, Request, Since, asked_of};
use alert_json::YearFrom;
use edge_io::{Failed, Host, NoMemory, Sink};
use std::alloc::Global;

/// Writes the lines of the events of the file that is open, of this name.
fn copy_open<'a, H: Host, F: InputForm, A: Sink>(
    alloc: Global,
    host: &mut H,
    form: &F,
    name: &'a str,
    alerts: &mut A,
) -> Outcome<'a>
    ensures runs { ((files : Files) → H.agrees host.old files → IsOpened (Some files) name.entry.now (H.left_of host.old files))
        → Writes (H.agrees host.new) (A.written alerts.old) (A.written alerts.new)
        (λ files wrote. IsFileRun (F.means form.now) files name.entry.now wrote result) }
    ensures earlier { (files : Files) → H.agrees host.new files → H.agrees host.old files }
    ensures same_contents { H.contents host.new ≡ H.contents host.old }
    ensures unread { OnUnread result (λ name. Rose (H.faults host.old) (H.faults host.new)) }
    ensures unwritten { result ≡ Outcome.Unwritten → Rose (A.faults alerts.old) (A.faults alerts.new) }
    ensures quiet { UnlessUnread result (H.faults host.new ≡ H.faults host.old) }
    ensures quiet_alerts { (result ≡ Outcome.Unwritten → ⊥) → A.faults alerts.new ≡ A.faults alerts.old }
{
    outcome_of(name, copy_records(alloc, host, form, alerts))
}

/// Writes the lines of the events of the file of this name.
fn copy_file<'a, H: Host, F: InputForm, A: Sink>(
    alloc: Global,
    host: &mut H,
    form: &F,
    name: &'a str,
    alerts: &mut A,
) -> Outcome<'a>
    ensures runs { Writes (H.agrees host.new) (A.written alerts.old) (A.written alerts.new)
        (λ files wrote. IsFileRun (F.means form.now) files name.entry.now wrote result) }
    ensures earlier { (files : Files) → H.agrees host.new files → H.agrees host.old files }
    ensures same_contents { H.contents host.new ≡ H.contents host.old }
    ensures unread { OnUnread result (λ name. Rose (H.faults host.old) (H.faults host.new) ⊎ Lacks (H.contents host.old) name) }
    ensures unwritten { result ≡ Outcome.Unwritten → Rose (A.faults alerts.old) (A.faults alerts.new) }
    ensures quiet { UnlessUnread result (H.faults host.new ≡ H.faults host.old) }
    ensures quiet_alerts { (result ≡ Outcome.Unwritten → ⊥) → A.faults alerts.new ≡ A.faults alerts.old }
{
    match host.open(name) {
        Ok(()) => copy_open(alloc, host, form, name, alerts),
        Err(Failed) => Outcome::Unread { name },
    }
}

/// Writes the lines of the events of files, one after another, up to the first that isn't done.
fn copy_files<'a, H: Host, F: InputForm, A: Sink>(
    alloc: Global,
    host: &mut H,
    form: &F,
    names: &[&'a str],
    alerts: &mut A,
) -> Outcome<'a>
    ensures runs { Writes (H.agrees host.new) (A.written alerts.old) (A.written alerts.new)
        (λ files wrote. AreRun (F.means form.now) files (map (λ name. name.now) names.now) wrote result) }
    ensures earlier { (files : Files) → H.agrees host.new files → H.agrees host.old files }
    ensures unread { OnUnread result (λ name. Rose (H.faults host.old) (H.faults host.new) ⊎ Lacks (H.contents host.old) name) }
    ensures unwritten { result ≡ Outcome.Unwritten → Rose (A.faults alerts.old) (A.faults alerts.new) }
    ensures quiet { UnlessUnread result (H.faults host.new ≡ H.faults host.old) }
    ensures quiet_alerts { (result ≡ Outcome.Unwritten → ⊥) → A.faults alerts.new ≡ A.faults alerts.old }
{
    for name in names {
        let outcome = copy_file(alloc, host, form, *name, alerts);
        if !is_done(&outcome) {
            return outcome;
        }
    }
    Outcome::Done
}

/// Writes the lines that are wanted, by these texts.
fn copy_by<'a, H: Host, A: Sink>(
    alloc: Global,
    wanted: &Conversion<'a>,
    texts: &Texts,
    host: &mut H,
    alerts: &mut A,
) -> Outcome<'a>
    ensures runs { Writes (H.agrees host.new) (A.written alerts.old) (A.written alerts.new)
        (λ files wrote. AreRun (of_records (line_of (texts_of texts.now) (wanted_facts wanted.now).run)) files
        (wanted_facts wanted.now).files wrote result) }
    ensures earlier { (files : Files) → H.agrees host.new files → H.agrees host.old files }
    ensures unread { OnUnread result (λ name. Rose (H.faults host.old) (H.faults host.new) ⊎ Lacks (H.contents host.old) name) }
    ensures unwritten { result ≡ Outcome.Unwritten → Rose (A.faults alerts.old) (A.faults alerts.new) }
    ensures quiet { UnlessUnread result (H.faults host.new ≡ H.faults host.old) }
    ensures quiet_alerts { (result ≡ Outcome.Unwritten → ⊥) → A.faults alerts.new ≡ A.faults alerts.old }
{
    let form = JsonLines {
        run: wanted.run,
        texts,
    };
    copy_files(alloc, host, &form, &wanted.files, alerts)
}

/// Writes the lines that are wanted, without texts.
fn copy_bare<'a, H: Host, A: Sink>(
    alloc: Global,
    wanted: &Conversion<'a>,
    host: &mut H,
    alerts: &mut A,
) -> Outcome<'a>
    ensures runs { Writes (H.agrees host.new) (A.written alerts.old) (A.written alerts.new)
        (λ files wrote. IsLinesRun None (wanted_facts wanted.now) files wrote result) }
    ensures unread { OnUnread result (λ name. Rose (H.faults host.old) (H.faults host.new) ⊎ Lacks (H.contents host.old) name) }
    ensures unwritten { result ≡ Outcome.Unwritten → Rose (A.faults alerts.old) (A.faults alerts.new) }
    ensures quiet { UnlessUnread result (H.faults host.new ≡ H.faults host.old) }
    ensures quiet_alerts { (result ≡ Outcome.Unwritten → ⊥) → A.faults alerts.new ≡ A.faults alerts.old }
{
    copy_by(alloc, wanted, &Texts::none(alloc), host, alerts)
}

/// Writes the lines that are wanted, by the texts of a configuration.
fn copy_with<'a, H: Host, A: Sink>(
    alloc: Global,
    wanted: &Conversion<'a>,
    conf: &Conf<'_>,
    host: &mut H,
    alerts: &mut A,
) -> Outcome<'a>
    requires { HasName (conf_facts conf.now).definition }
    ensures runs { Writes (H.agrees host.new) (A.written alerts.old) (A.written alerts.new)
        (λ files wrote. IsLinesRun (Some (conf_facts conf.now)) (wanted_facts wanted.now) files wrote result) }
    ensures unread { OnUnread result (λ name. Rose (H.faults host.old) (H.faults host.new) ⊎ Lacks (H.contents host.old) name) }
    ensures unwritten { result ≡ Outcome.Unwritten → Rose (A.faults alerts.old) (A.faults alerts.new) }
    ensures quiet { UnlessShort result (H.faults host.new ≡ H.faults host.old) }
    ensures quiet_alerts { (result ≡ Outcome.Unwritten → ⊥) → A.faults alerts.new ≡ A.faults alerts.old }
{
    match read_texts(alloc, conf, host) {
        Ok(texts) => copy_by(alloc, wanted, &texts, host, alerts),
        Err(stop) => halted(stop),
    }
}

/// Writes the lines of the events of records.
fn copy_events<'a, H: Host, A: Sink>(
    alloc: Global,
    wanted: &Conversion<'a>,
    host: &mut H,
    alerts: &mut A,
) -> Outcome<'a>
    requires { IsNamed (wanted_facts wanted.now).conf }
    ensures runs { Writes (H.agrees host.new) (A.written alerts.old) (A.written alerts.new)
        (λ files wrote. IsLinesRun (wanted_facts wanted.now).conf (wanted_facts wanted.now) files wrote result) }
    ensures unread { OnUnread result (λ name. Rose (H.faults host.old) (H.faults host.new) ⊎ Lacks (H.contents host.old) name) }
    ensures unwritten { result ≡ Outcome.Unwritten → Rose (A.faults alerts.old) (A.faults alerts.new) }
    ensures quiet { UnlessFault (Some (lines (wanted_facts wanted.now))) result (H.faults host.new ≡ H.faults host.old) }
    ensures quiet_alerts { (result ≡ Outcome.Unwritten → ⊥) → A.faults alerts.new ≡ A.faults alerts.old }
{
    match wanted.conf {
        None => copy_bare(alloc, wanted, host, alerts),
        Some(conf) => copy_with(alloc, wanted, &conf, host, alerts),
    }
}

/// Writes the records of alert lines; the year of the first one of each file follows from this.
fn copy_lines<'a, H: Host, A: Sink>(
    alloc: Global,
    wanted: &Conversion<'a>,
    from: YearFrom,
    host: &mut H,
    alerts: &mut A,
) -> Outcome<'a>
    ensures runs { Writes (H.agrees host.new) (A.written alerts.old) (A.written alerts.new)
        (λ files wrote. AreLinesRun from (wanted_facts wanted.now) files wrote result) }
    ensures earlier { (files : Files) → H.agrees host.new files → H.agrees host.old files }
    ensures unread { OnUnread result (λ name. Rose (H.faults host.old) (H.faults host.new) ⊎ Lacks (H.contents host.old) name) }
    ensures unwritten { result ≡ Outcome.Unwritten → Rose (A.faults alerts.old) (A.faults alerts.new) }
    ensures quiet { UnlessUnread result (H.faults host.new ≡ H.faults host.old) }
    ensures quiet_alerts { (result ≡ Outcome.Unwritten → ⊥) → A.faults alerts.new ≡ A.faults alerts.old }
{
    let form = AlertLines {
        run: wanted.run,
        from,
    };
    copy_files(alloc, host, &form, &wanted.files, alerts)
}

/// Writes the records of alert lines, the first of each file after the date of the first record of this capture.
fn copy_after<'a, H: Host, A: Sink>(
    alloc: Global,
    wanted: &Conversion<'a>,
    capture: &'a str,
    host: &mut H,
    alerts: &mut A,
) -> Outcome<'a>
    ensures runs { Writes (H.agrees host.new) (A.written alerts.old) (A.written alerts.new)
        (λ files wrote. IsInputRun (Some (of_capture capture.entry.now)) (wanted_facts wanted.now) files wrote result) }
    ensures unread { OnUnread result (λ name. Rose (H.faults host.old) (H.faults host.new) ⊎ Lacks (H.contents host.old) name) }
    ensures unwritten { result ≡ Outcome.Unwritten → Rose (A.faults alerts.old) (A.faults alerts.new) }
    ensures quiet { UnlessUnread result (H.faults host.new ≡ H.faults host.old) }
    ensures quiet_alerts { (result ≡ Outcome.Unwritten → ⊥) → A.faults alerts.new ≡ A.faults alerts.old }
{
    match first_moment(alloc, host, capture) {
        Ok(moment) => copy_lines(alloc, wanted, after_moment(moment), host, alerts),
        Err(stop) => undated(capture, stop),
    }
}

/// Writes the lines that are wanted.
fn copy_wanted<'a, H: Host, A: Sink>(
    alloc: Global,
    wanted: &Conversion<'a>,
    host: &mut H,
    alerts: &mut A,
) -> Outcome<'a>
    requires { IsNamed (wanted_facts wanted.now).conf }
    ensures runs { Runs (Some (lines (wanted_facts wanted.now))) (H.agrees host.new)
        (A.written alerts.old) (A.written alerts.new) result }
    ensures unread { OnUnread result (λ name. Rose (H.faults host.old) (H.faults host.new) ⊎ Lacks (H.contents host.old) name) }
    ensures unwritten { result ≡ Outcome.Unwritten → Rose (A.faults alerts.old) (A.faults alerts.new) }
    ensures quiet { UnlessFault (Some (lines (wanted_facts wanted.now))) result (H.faults host.new ≡ H.faults host.old) }
    ensures quiet_alerts { (result ≡ Outcome.Unwritten → ⊥) → A.faults alerts.new ≡ A.faults alerts.old }
{
    match wanted.since {
        None => copy_events(alloc, wanted, host, alerts),
        Some(Since::Year(year)) => {
            copy_lines(alloc, wanted, YearFrom::Given { year }, host, alerts)
        }
        Some(Since::Capture(name)) => copy_after(alloc, wanted, name, host, alerts),
    }
}

/// Writes the lines that are asked for, if any are.
fn copy_asked<'a, H: Host, A: Sink>(
    alloc: Global,
    asked: Option<Request<'a>>,
    host: &mut H,
    alerts: &mut A,
) -> Outcome<'a>
    requires { AskNamed (option_map asked_facts asked) }
    ensures runs { Runs (option_map asked_facts asked.entry) (H.agrees host.new)
        (A.written alerts.old) (A.written alerts.new) result }
    ensures unread { OnUnread result (λ name. Rose (H.faults host.old) (H.faults host.new) ⊎ Lacks (H.contents host.old) name) }
    ensures unwritten { result ≡ Outcome.Unwritten → Rose (A.faults alerts.old) (A.faults alerts.new) }
    ensures quiet { UnlessFault (option_map asked_facts asked.entry) result (H.faults host.new ≡ H.faults host.old) }
    ensures quiet_alerts { (result ≡ Outcome.Unwritten → ⊥) → A.faults alerts.new ≡ A.faults alerts.old }
{
    match asked {
        None => Outcome::CommandLine,
        Some(Request::Help) => Outcome::Help,
        Some(Request::Lines(wanted)) => copy_wanted(alloc, &wanted, host, alerts),
    }
}

/// Writes the lines of the events of the files that the words name.
///
/// Where a host tells its files, or notes what it answered, the lines are those of the files' events, in order, each event
/// once; where a read or a write fails or memory is lacking, a beginning of them.
pub(crate) fn copy_named<'a, H: Host, A: Sink>(
    alloc: Global,
    words: &'a [String],
    host: &mut H,
    alerts: &mut A,
) -> Outcome<'a>
    ensures runs { Runs (asked_of (map string_bytes words.entry.now)) (H.agrees host.new)
        (A.written alerts.old) (A.written alerts.new) result }
    ensures unread { OnUnread result (λ name. Rose (H.faults host.old) (H.faults host.new) ⊎ Lacks (H.contents host.old) name) }
    ensures unwritten { result ≡ Outcome.Unwritten → Rose (A.faults alerts.old) (A.faults alerts.new) }
    ensures quiet { UnlessFault (asked_of (map string_bytes words.entry.now)) result (H.faults host.new ≡ H.faults host.old) }
    ensures quiet_alerts { (result ≡ Outcome.Unwritten → ⊥) → A.faults alerts.new ≡ A.faults alerts.old }
{
    match asked_of(alloc, words) {
        Ok(asked) => copy_asked(alloc, asked, host, alerts),
        Err(NoMemory) => Outcome::NoMemory,
    }
}
