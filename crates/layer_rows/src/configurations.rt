//! Configurations: the calls of conf_parser, over the row's files.

use crate::notation::CONF;
use crate::page::Page;
use crate::row::Row;
use conf_parser::{
    ConfKind, Config, FragEngine, LoadStop, Loaded, StreamConfig, StreamEngine, Suppress, load,
};
use edge_io::{Host, MemHost};
use net_lists::{PortList, Vars};

/// What the rows call a kind.
fn kind_name(kind: &ConfKind) -> &'static str {
    match kind {
        ConfKind::UnknownDirective => "directive",
        ConfKind::BadValue => "value",
        ConfKind::UnknownVariable(_) => "variable",
        ConfKind::BadAddress => "address",
        ConfKind::BadPort => "port",
        ConfKind::Duplicate => "twice",
        ConfKind::TooDeep => "deep",
        ConfKind::TooLarge => "large",
        ConfKind::OutsideProfile => "outside",
        ConfKind::Limit => "limit",
    }
}

/// Shows why a file is refused: a kind with its file and line, or `host` with the numbers of files and warnings.
fn show_stop(page: &mut Page, stop: &LoadStop, out: &Loaded) {
    match stop {
        LoadStop::Conf(fault) => {
            page.put(kind_name(&fault.kind));
            page.show(format_args!(" {} {}", fault.file, fault.line));
        }
        LoadStop::HostFailed { name: _ } => show_sizes(
            page,
            "host",
            out.files.as_slice().len(),
            out,
        ),
        LoadStop::NoMemory => page.lacks_memory = true,
    }
}

/// Shows a word with a number and that of warnings.
fn show_sizes(page: &mut Page, word: &str, size: usize, out: &Loaded) {
    let warnings = out.warnings.as_slice().len();
    page.show(format_args!("{word} {size} {warnings}"));
}

/// `load`: `fine` with the numbers of warnings and rule lines, or why it is refused.
fn show_answer(page: &mut Page, answer: &Result<(), LoadStop>, out: &Loaded) {
    let (warnings, rules) = (out.warnings.as_slice().len(), out.rules.as_slice().len());
    match answer {
        Ok(()) => page.show(format_args!("fine {warnings} {rules}")),
        Err(stop) => show_stop(page, stop, out),
    }
}

/// The kind of a refusal, or `fine`.
fn show_kind(page: &mut Page, answer: &Result<(), LoadStop>) {
    page.put(match answer {
        Ok(()) => "fine",
        Err(LoadStop::Conf(fault)) => kind_name(&fault.kind),
        Err(LoadStop::HostFailed { name: _ }) => "host",
        Err(LoadStop::NoMemory) => "no memory",
    });
}

/// The ports of a list among some.
fn listed(ports: &Option<PortList>) -> [bool; 6] {
    let mut listed = [false; 6];
    if let Some(ports) = ports {
        for (place, port) in [21, 25, 53, 80, 8080, 3306].iter().enumerate() {
            listed[place] = ports.contains(*port);
        }
    }
    listed
}

fn show_frag_engine(page: &mut Page, engine: &FragEngine) {
    let (bound, policy) = (engine.bind.is_some(), engine.policy);
    let (timeout, min_ttl) = (engine.timeout, engine.min_ttl);
    page.show(format_args!("frag {bound} {policy:?} {timeout} {min_ttl}\n"));
}

fn show_frag(page: &mut Page, config: &Config) {
    if let Some(frag) = &config.frag {
        page.show(format_args!("max_frags {}\n", frag.max_frags));
        for engine in frag.engines.as_slice() {
            show_frag_engine(page, engine);
        }
    }
}

fn show_stream_engine(page: &mut Page, engine: &StreamEngine) {
    let (bound, policy, timeout) = (engine.bind.is_some(), engine.policy, engine.timeout);
    page.show(format_args!("stream {bound} {policy:?} {timeout}\n"));
    let (handshake, bytes, segs) = (engine.handshake, engine.bytes_limit, engine.segs_limit);
    page.show(format_args!("{handshake:?} {bytes} {segs}\n"));
    let (client, server) = (listed(&engine.client_ports), listed(&engine.server_ports));
    page.show(format_args!("{client:?} {server:?}\n"));
}

fn show_streams(page: &mut Page, stream: &StreamConfig) {
    let (tcp, udp) = ((stream.tcp, stream.max_tcp), (stream.udp, stream.max_udp));
    page.show(format_args!("tcp {tcp:?} udp {udp:?} {}\n", stream.udp_timeout));
    for engine in stream.engines.as_slice() {
        show_stream_engine(page, engine);
    }
}

fn show_events(page: &mut Page, config: &Config) {
    for filter in config.filters.as_slice() {
        page.show(format_args!("{filter:?}\n"));
    }
    for Suppress { gid, sid, track } in config.suppress.as_slice() {
        page.show(format_args!("suppress {gid} {sid} {}\n", track.is_some()));
    }
}

/// The values of a configuration, a line for each part.
fn show_config(page: &mut Page, config: &Config) {
    let (checks, queue, inserts) = (config.checks, config.queue, config.inserts);
    page.show(format_args!("{checks:?} {queue:?} inserts {inserts}\n"));
    show_frag(page, config);
    show_streams(page, &config.stream);
    show_events(page, config);
}

fn show_rules(page: &mut Page, out: &Loaded) {
    for rule in out.rules.as_slice() {
        page.show(format_args!("rule {} {} ", rule.file, rule.line));
        page.bytes(rule.text.bytes());
        page.put("\n");
    }
}

fn show_warnings(page: &mut Page, out: &Loaded) {
    for warning in out.warnings.as_slice() {
        page.show(format_args!("skipped {} {} ", warning.file, warning.line));
        page.bytes(warning.directive.bytes());
        page.put(" ");
        page.bytes(warning.name.bytes());
        page.put("\n");
    }
}

/// `values`: those of the configuration, and after them its rules, what was skipped, and how many files it has.
fn show_values(page: &mut Page, answer: &Result<(), LoadStop>, out: &Loaded) {
    if answer.is_err() {
        page.put("refused\n");
    }
    show_config(page, &out.config);
    show_rules(page, out);
    show_warnings(page, out);
    page.show(format_args!("files {}\n", out.files.as_slice().len()));
}

/// `class NAME`: the place of the class.
fn show_class(page: &mut Page, answer: &Result<(), LoadStop>, out: &Loaded, name: &str) {
    if answer.is_err() {
        page.put("refused\n");
    }
    page.debug(&out.config.classes.find(name.as_bytes()));
}

/// A host with the row's files, and these lines in the file `c/16`.
fn host_with(page: &mut Page, row: &Row, lines: &str) -> MemHost {
    let mut host = row.host(page);
    if !lines.is_empty() {
        page.note(host.put("c/16", lines.as_bytes()));
    }
    host
}

/// Loads a file from any host, so that what is promised of one is not worked out for the one of the rows; the answer.
pub(crate) fn load_file<H: Host>(
    page: &Page,
    host: &mut H,
    name: &str,
    vars: &mut Vars,
    out: &mut Loaded,
) -> Result<(), LoadStop> {
    load(page.alloc, host, name, vars, out)
}

/// Loads a file without variables; the answer.
fn load_alone(
    page: &Page,
    host: &mut MemHost,
    name: &str,
    out: &mut Loaded,
) -> Result<(), LoadStop> {
    let mut vars = Vars::new(page.alloc);
    load_file(page, host, name, &mut vars, out)
}

/// Shows what a call finds of what is loaded.
fn show(page: &mut Page, answer: &Result<(), LoadStop>, out: &Loaded, call: &str, given: &str) {
    match call {
        "load" => show_answer(page, answer, out),
        "line" => show_kind(page, answer),
        "values" => show_values(page, answer, out),
        _ => show_class(page, answer, out, given),
    }
}

/// Loads a file, and shows what the call finds.
fn ask(page: &mut Page, host: &mut MemHost, file: &str, call: &str, given: &str) {
    let mut out = Loaded::new(page.alloc);
    let answer = load_alone(page, host, file, &mut out);
    show(page, &answer, &out, call, given);
}

/// The calls of configurations. `load NAME` shows the answer of loading a file. `line LINES` shows the kind of the first
/// that is refused, or `fine`, where they are in the file `c/16`, and `c/0` is loaded.
pub(crate) fn call(page: &mut Page, row: &Row, call: &str, given: &str) -> bool {
    let (file, lines) = match call {
        "load" => (given, ""),
        "line" => ("c/0", given),
        "values" | "class" => (CONF, ""),
        _ => return false,
    };
    let mut host = host_with(page, row, lines);
    ask(page, &mut host, file, call, given);
    true
}
