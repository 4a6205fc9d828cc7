//! Whole setups: the calls of snort_setup over the row's files, and those of what rests on one.

ghost use Rattle.std.specs.Prelude.{All, IfOk};
ghost use Rattle.std.specs.Option.{option_map};
ghost use Rattle.conf_types.specs.Sound.{IsSound};
ghost use Rattle.rule_types.specs.Sound.{IsTriable};
ghost use Rattle.snort_setup.specs.Words.{HasName};

use crate::batches::batches;
use crate::candidates::candidates;
use crate::dialogues::dialogue;
use crate::events::events;
use crate::notation::CONF;
use crate::page::Page;
use crate::row::Row;
use edge_io::{Host, Items, Literal, PatternMaker, Text};
use net_lists::is_name;
use row_files::cut;
use snort_setup::{Setup, SetupStop, SetupWords, read_setup};
use std::alloc::Global;
use std::thread::Threads;

/// The variable that the words define.
fn definition(words: &str) -> Option<(&'static [u8], &'static [u8])>
    ensures { HasName (option_map (λ pair. record { name = pair.0.now; value = pair.1.now }) result) }
{
    let name = b"N".as_slice();
    if words.contains("-S") && is_name(name) {
        Some((name, b"$M".as_slice()))
    } else {
        None
    }
}

/// The host table of the words.
fn table(words: &str) -> Option<&'static str> {
    if words.contains("--host-table") {
        Some("h")
    } else {
        None
    }
}

/// Shows why nothing is ready.
fn show_stop(page: &mut Page, stop: &SetupStop) {
    match stop {
        SetupStop::Refused { message } => page.bytes(message.bytes()),
        SetupStop::CannotRead { name } => {
            page.put("cannot read ");
            page.bytes(name.bytes());
            page.put("\n");
        }
        SetupStop::NoMemory => page.lacks_memory = true,
    }
}

fn show_warnings(page: &mut Page, warnings: &Items<Text>) {
    for warning in warnings.as_slice() {
        page.bytes(warning.bytes());
    }
}

fn show_counts(page: &mut Page, setup: &Setup<Literal>) {
    let (rules, hosts) = (setup.set.rules().len(), setup.hosts.entries().len());
    page.show(format_args!("ready: {rules} rules, {hosts} hosts\n"));
}

/// Shows what a call finds of a setup.
fn show_setup<R: Threads + Sync>(
    rt: &R,
    page: &mut Page,
    row: &Row,
    setup: &Setup<Literal>,
    call: &str,
    given: &str,
)
    requires config { IsSound setup.now.config }
    requires rules { All IsTriable setup.now.set.rules }
{
    match call {
        "candidates" => candidates(page, row, setup.set.rules(), given),
        "events" => events(page, setup, row.steps.as_str()),
        "dialogue" => dialogue(page, &setup.set, row.steps.as_str(), given),
        "batches" => batches(rt, page, &setup.set, given),
        _ => show_counts(page, setup),
    }
}

/// The setup of these words over any host, or why nothing is ready.
fn ready_over<H: Host, M: PatternMaker>(
    alloc: Global,
    words: &SetupWords<'_>,
    host: &mut H,
    maker: &mut M,
    warnings: &mut Items<Text>,
) -> Result<Setup<M::Made>, SetupStop>
    requires { HasName (option_map (λ pair. record { name = pair.0.now; value = pair.1.now }) words.now.defined) }
    ensures config { IfOk result (λ setup. IsSound setup.config) }
    ensures rules { IfOk result (λ setup. All IsTriable setup.set.rules) }
{
    read_setup(alloc, words, host, maker, warnings)
}

/// The setup of these words over the row's files, or why nothing is ready.
fn ready(
    page: &mut Page,
    row: &Row,
    words: &SetupWords<'_>,
    warnings: &mut Items<Text>,
) -> Result<Setup<Literal>, SetupStop>
    requires { HasName (option_map (λ pair. record { name = pair.0.now; value = pair.1.now }) words.now.defined) }
    ensures config { IfOk result (λ setup. IsSound setup.config) }
    ensures rules { IfOk result (λ setup. All IsTriable setup.set.rules) }
{
    let mut host = row.host(page);
    let mut maker = row.maker(page);
    ready_over(page.alloc, words, &mut host, &mut maker, warnings)
}

/// Shows what a call finds of the setup of these words, or why nothing is ready; for `setup` the warnings, too.
fn set_up<R: Threads + Sync>(
    rt: &R,
    page: &mut Page,
    row: &Row,
    words: &SetupWords<'_>,
    call: &str,
    given: &str,
)
    requires { HasName (option_map (λ pair. record { name = pair.0.now; value = pair.1.now }) words.now.defined) }
{
    let mut warnings = Items::new(page.alloc);
    let answer = ready(page, row, words, &mut warnings);
    if call == "setup" {
        show_warnings(page, &warnings);
    }
    match &answer {
        Ok(setup) => show_setup(rt, page, row, setup, call, given),
        Err(stop) => show_stop(page, stop),
    }
}

/// `setup CONF WORDS`: the warnings of the setup, and after them its answer. With `-S` the variable N is `$M`; with
/// `--host-table` the table is `h`.
fn setup<R: Threads + Sync>(rt: &R, page: &mut Page, row: &Row, given: &str) {
    let (conf, words) = cut(given, ' ');
    let words = SetupWords {
        conf,
        defined: definition(words),
        host_table: table(words),
        skip_refused: words.contains("--skip-refused"),
    };
    set_up(rt, page, row, &words, "setup", given);
}

/// A call on what the row's configuration sets up.
fn on_setup<R: Threads + Sync>(rt: &R, page: &mut Page, row: &Row, call: &str, given: &str) {
    let words = SetupWords {
        conf: CONF,
        defined: None,
        host_table: None,
        skip_refused: false,
    };
    set_up(rt, page, row, &words, call, given);
}

/// The calls of setups, and on them.
pub(crate) fn call<R: Threads + Sync>(
    rt: &R,
    page: &mut Page,
    row: &Row,
    call: &str,
    given: &str,
) -> bool {
    match call {
        "setup" => setup(rt, page, row, given),
        "candidates" | "events" | "dialogue" | "batches" => on_setup(rt, page, row, call, given),
        _ => return false,
    }
    true
}
