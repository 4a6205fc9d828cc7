//! The `stream5_tcp` lines.
ghost use Rattle.std.specs.Prelude.{◌≡◌, ◌++◌, Some, IfOk, OnOk, map, if◌then◌else◌};
ghost use Rattle.net_lists.specs.Parts.{one_port};
ghost use Rattle.conf_parser.specs.Values.{mapped, with_new};
ghost use Rattle.net_lists.specs.Stops.{Gives};
ghost use Rattle.conf_types.specs.Defaults.{default_ports};
ghost use Rattle.conf_parser.specs.Stream5.{whole, is_unread_tcp, tcp_name, limit_from, queue_limit, handshake_seconds, side, port_word, port_words, joined_ports, with_client, with_server, with_ports, ports_value, engine_value, tcp_value, lacks_ports, lacks_value, named_tcp, tcp_part, tcp_settings, first_tcp, engine_of, has_default, with_engine, stream5_tcp};

use crate::draft::StreamDraft;
use crate::line::ConfKind;
use crate::stream5::{Partial, PortsSide, TcpDraft, TcpName, stream_parts};
use crate::value::{put_addresses, put_or_stop, put_some, setting_text};
use crate::word::is;
use conf_types::{DEFAULT_PORTS, DEFAULT_STREAM_SETTINGS, StreamEngine, StreamSettings};
use edge_io::{Items, NoMemory, StreamPolicy};
use net_lists::{
    Parts, PortList, PortPart, Stop, TryPartStep, ValueBounds, Vars, first_word, number_in,
};
use std::alloc::Global;

/// Engines that a configuration may have.
const MOST_ENGINES: usize = 1024;

/// The most that may be queued.
const MOST_QUEUED: u32 = 1073741824;

/// Whether this setting changes nothing.
#[tactic(auto, unfolding(crate::specs::Stream5::is_unread_tcp))]
fn is_unread(name: &[u8]) -> bool
    ensures { result ≡ is_unread_tcp name.now }
{
    is(name, b"overlap_limit")
        || is(name, b"max_window")
        || is(name, b"detect_anomalies")
        || is(name, b"check_session_hijacking")
        || is(name, b"use_static_footprint_sizes")
        || is(name, b"dont_store_large_packets")
        || is(name, b"dont_reassemble_async")
        || is(name, b"small_segments")
        || is(name, b"ignore_any_rules")
        || is(name, b"flush_factor")
        || is(name, b"protocol")
        || is(name, b"log_asymmetric_traffic")
}

/// The setting of this name.
#[tactic(auto, unfolding(crate::specs::Stream5::tcp_name))]
fn tcp_name(name: &[u8]) -> Option<TcpName>
    ensures { result ≡ tcp_name name.now }
{
    if is(name, b"policy") {
        Some(TcpName::Policy)
    } else if is(name, b"timeout") {
        Some(TcpName::Timeout)
    } else if is(name, b"bind_to") {
        Some(TcpName::BindTo)
    } else if is(name, b"require_3whs") {
        Some(TcpName::Handshake)
    } else if is(name, b"max_queued_bytes") {
        Some(TcpName::QueuedBytes)
    } else if is(name, b"max_queued_segs") {
        Some(TcpName::QueuedSegs)
    } else if is(name, b"ports") {
        Some(TcpName::Ports)
    } else if is_unread(name) {
        Some(TcpName::Unread)
    } else {
        None
    }
}

/// A limit of at least `least`; 0 stands for the most that may be asked for.
fn limit_from(least: u32, number: u32) -> Option<u32>
    ensures { result ≡ limit_from least number }
{
    if number == 0 {
        Some(MOST_QUEUED)
    } else if number >= least {
        Some(number)
    } else {
        None
    }
}

/// A limit of at least `least`, at most 1073741824.
#[tactic(auto, unfolding(crate::specs::Stream5::queue_limit))]
fn queue_limit(least: u32, value: &[u8]) -> Option<u32>
    ensures { result ≡ queue_limit least value.now }
{
    match number_in(0, MOST_QUEUED, value) {
        Some(number) => limit_from(least, number),
        None => None,
    }
}

/// The seconds after `require_3whs`.
#[tactic(auto, unfolding(crate::specs::Stream5::handshake_seconds))]
fn handshake_seconds(value: &[u8]) -> Option<u32>
    ensures { result ≡ handshake_seconds value.now }
{
    if value.is_empty() {
        Some(0)
    } else {
        number_in(0, 86400, value)
    }
}

/// Whose ports a `ports` setting gives.
#[tactic(auto, unfolding(crate::specs::Stream5::side))]
fn side(word: &[u8]) -> Option<PortsSide>
    ensures { result ≡ side word.now }
{
    if is(word, b"client") {
        Some(PortsSide::Client)
    } else if is(word, b"server") {
        Some(PortsSide::Server)
    } else if is(word, b"both") {
        Some(PortsSide::Both)
    } else {
        None
    }
}

/// The part that one port is by itself.
fn one_port(port: u16) -> PortPart
    ensures { result ≡ one_port port }
{
    PortPart {
        negated: false,
        bounds: ValueBounds {
            low: port,
            high: port,
        },
    }
}

/// The ports of words.
#[derive(Drop)]
struct PortStep;

impl TryPartStep<Items<PortPart>, ConfKind> for PortStep {
    ghost next_draft = { λ step ports word. port_word ports word };

    #[tactic(auto, unfolding(crate::specs::Stream5::port_word))]
    fn try_next(
        &self,
        ports: Items<PortPart>,
        word: &[u8],
    ) -> Result<Items<PortPart>, Stop<ConfKind>> {
        let Some(port) = number_in(0, 65535, word) else {
            return Err(Stop::Wrong(ConfKind::BadValue));
        };
        let mut ports = ports;
        ports.push(one_port(port as u16))?;
        Ok(ports)
    }
}

/// The ports that a setting gives: None where it gives none.
#[tactic(auto, unfolding(crate::specs::Stream5::port_words))]
fn port_words(alloc: Global, value: &[u8]) -> Result<Option<Items<PortPart>>, Stop<ConfKind>>
    ensures { Gives result (port_words value.now) }
{
    if is(value, b"all") {
        return Ok(Some(Items::new(alloc)));
    }
    if is(value, b"none") {
        return Ok(None);
    }
    let ports = Parts::words(value).try_fold_by(&PortStep, Items::new(alloc))?;
    Ok(Some(ports))
}

/// The ports of two lists that have parts, one after the other.
fn appended(ports: Items<PortPart>, more: &[PortPart]) -> Result<Items<PortPart>, NoMemory>
    ensures { IfOk result (λ all. all ≡ ports ++ more.now) }
{
    let mut ports = ports.into_vec();
    ports.extend_from_slice(more)?;
    Ok(Items::from_vec(ports))
}

/// The ports of both, where a list without parts has every port.
fn joined(ports: Items<PortPart>, more: Items<PortPart>) -> Result<Items<PortPart>, NoMemory>
    ensures { IfOk result (λ all. joined_ports (Some ports) (Some more) ≡ Some all) }
{
    if ports.as_slice().is_empty() {
        return Ok(ports);
    }
    if more.as_slice().is_empty() {
        return Ok(more);
    }
    appended(ports, more.as_slice())
}

/// The ports of both.
fn joined_ports(
    ports: Option<Items<PortPart>>,
    more: Option<Items<PortPart>>,
) -> Result<Option<Items<PortPart>>, NoMemory>
    ensures { IfOk result (λ all. all ≡ joined_ports ports more) }
{
    match (ports, more) {
        (None, more) => Ok(more),
        (Some(ports), None) => Ok(Some(ports)),
        (Some(ports), Some(more)) => Ok(Some(joined(ports, more)?)),
    }
}

/// Adds ports for the client's data.
fn add_client(draft: &mut TcpDraft, ports: Option<Items<PortPart>>) -> Result<(), NoMemory>
    ensures { OnOk result (draft.new ≡ with_client draft.old ports) }
{
    let client = joined_ports(draft.client.take(), ports)?;
    draft.client = client;
    draft.ports_stood = true;
    Ok(())
}

/// Adds ports for the server's data.
fn add_server(draft: &mut TcpDraft, ports: Option<Items<PortPart>>) -> Result<(), NoMemory>
    ensures { OnOk result (draft.new ≡ with_server draft.old ports) }
{
    let server = joined_ports(draft.server.take(), ports)?;
    draft.server = server;
    draft.ports_stood = true;
    Ok(())
}

/// Adds the ports of this text on the client's side.
fn client_value(alloc: Global, draft: &mut TcpDraft, value: &[u8]) -> Result<(), Stop<ConfKind>>
    ensures { Gives (with_new result draft.new) (mapped (with_client draft.old) (port_words value.now)) }
{
    let ports = port_words(alloc, value)?;
    add_client(draft, ports)?;
    Ok(())
}

/// Adds the ports of this text on the server's side.
fn server_value(alloc: Global, draft: &mut TcpDraft, value: &[u8]) -> Result<(), Stop<ConfKind>>
    ensures { Gives (with_new result draft.new) (mapped (with_server draft.old) (port_words value.now)) }
{
    let ports = port_words(alloc, value)?;
    add_server(draft, ports)?;
    Ok(())
}

/// Adds the ports of this text on a side.
fn side_value(
    alloc: Global,
    draft: &mut TcpDraft,
    side: PortsSide,
    value: &[u8],
) -> Result<(), Stop<ConfKind>>
    ensures { Gives (with_new result draft.new) (mapped (with_ports draft.old side) (port_words value.now)) }
{
    match side {
        PortsSide::Client => client_value(alloc, draft, value),
        PortsSide::Server => server_value(alloc, draft, value),
        PortsSide::Both => {
            client_value(alloc, draft, value)?;
            server_value(alloc, draft, value)
        }
    }
}

/// `ports`: a side, and the ports that it has more.
#[tactic(auto, unfolding(crate::specs::Stream5::ports_value))]
fn ports_value(alloc: Global, draft: &mut TcpDraft, value: &[u8]) -> Result<(), Stop<ConfKind>>
    ensures { Gives (with_new result draft.new) (ports_value draft.old value.now) }
{
    let (word, ports) = first_word(value);
    let Some(side) = side(word) else {
        return Err(Stop::Wrong(ConfKind::BadValue));
    };
    side_value(alloc, draft, side, ports)
}

/// The value of a setting other than `ports`.
fn engine_value(
    alloc: Global,
    vars: &Vars,
    engine: &mut StreamEngine,
    name: TcpName,
    value: &[u8],
) -> Result<(), Stop<ConfKind>>
    ensures { Gives (with_new result engine.new) (engine_value vars.now engine.old name value.now) }
{
    match name {
        TcpName::Policy => put_or_stop(&mut engine.policy, StreamPolicy::read(value)),
        TcpName::Timeout => put_or_stop(&mut engine.timeout, number_in(1, 86400, value)),
        TcpName::BindTo => put_addresses(alloc, vars, &mut engine.bind, value),
        TcpName::Handshake => put_some(&mut engine.handshake, handshake_seconds(value)),
        TcpName::QueuedBytes => put_or_stop(&mut engine.bytes_limit, queue_limit(1024, value)),
        TcpName::QueuedSegs => put_or_stop(&mut engine.segs_limit, queue_limit(2, value)),
        TcpName::Ports | TcpName::Unread => Ok(()),
    }
}

/// The value of a setting.
fn tcp_value(
    alloc: Global,
    vars: &Vars,
    draft: &mut TcpDraft,
    name: TcpName,
    value: &[u8],
) -> Result<(), Stop<ConfKind>>
    ensures { Gives (with_new result draft.new) (tcp_value vars.now draft.old name value.now) }
{
    if matches!(name, TcpName::Ports) {
        return ports_value(alloc, draft, value);
    }
    engine_value(alloc, vars, &mut draft.engine, name, value)
}

/// Whether a `ports` setting is without a side, or without ports after one.
#[tactic(auto, unfolding(crate::specs::Stream5::lacks_ports))]
fn lacks_ports(value: &[u8]) -> bool
    ensures { result ≡ lacks_ports value.now }
{
    let (word, ports) = first_word(value);
    value.is_empty() || (side(word).is_some() && ports.is_empty())
}

impl TcpName {
    /// Whether the setting lacks its value.
    fn lacks_value(self, value: &[u8]) -> bool
        ensures { result ≡ lacks_value self value.now }
    {
        match self {
            TcpName::Ports => lacks_ports(value),
            TcpName::Handshake | TcpName::Unread => false,
            TcpName::Policy
            | TcpName::Timeout
            | TcpName::BindTo
            | TcpName::QueuedBytes
            | TcpName::QueuedSegs => value.is_empty(),
        }
    }
}

/// A setting by its name.
#[tactic(auto, unfolding(crate::specs::Stream5::named_tcp))]
fn named_tcp(
    alloc: Global,
    vars: &Vars,
    partial: &mut Partial<TcpDraft>,
    name: TcpName,
    value: &[u8],
) -> Result<(), Stop<ConfKind>>
    ensures { Gives (with_new result partial.new) (named_tcp vars.now partial.old name value.now) }
{
    if name.lacks_value(value) {
        partial.lacks = true;
        return Ok(());
    }
    tcp_value(alloc, vars, &mut partial.draft, name, value)
}

/// The settings of a line.
#[derive(Drop)]
struct TcpStep<'a> {
    alloc: Global,
    vars: &'a Vars,
}

impl<'a> TryPartStep<Partial<TcpDraft>, ConfKind> for TcpStep<'a> {
    ghost next_draft = { λ step partial part. tcp_part step.vars.now partial part };

    #[tactic(auto, unfolding(crate::specs::Stream5::tcp_part))]
    fn try_next(
        &self,
        partial: Partial<TcpDraft>,
        part: &[u8],
    ) -> Result<Partial<TcpDraft>, Stop<ConfKind>> {
        let (word, value) = first_word(part);
        let Some(name) = tcp_name(word) else {
            return Err(Stop::Wrong(ConfKind::BadValue));
        };
        let mut partial = partial;
        named_tcp(self.alloc, self.vars, &mut partial, name, value)?;
        Ok(partial)
    }
}

/// The client's ports: the default where there is no `ports` setting.
fn client_ports(
    alloc: Global,
    client: Option<Items<PortPart>>,
    ports_stood: bool,
) -> Result<Option<PortList>, NoMemory>
    ensures { IfOk result (λ ports. ports ≡ (if ports_stood then client else Some (map one_port default_ports))) }
{
    if ports_stood {
        return Ok(listed(client));
    }
    Ok(Some(PortList::from_ports(alloc, &DEFAULT_PORTS)?))
}

/// Ports as a list.
fn listed(ports: Option<Items<PortPart>>) -> Option<PortList>
    ensures { result ≡ ports }
{
    match ports {
        Some(ports) => Some(PortList::from_vec(ports.into_vec())),
        None => None,
    }
}

/// The engine that a line's settings give.
#[tactic(auto, unfolding(crate::specs::Stream5::engine_of))]
fn engine_of(alloc: Global, draft: TcpDraft) -> Result<StreamEngine, NoMemory>
    ensures { IfOk result (λ engine. engine ≡ engine_of draft) }
{
    let mut engine = draft.engine;
    engine.client_ports = client_ports(alloc, draft.client, draft.ports_stood)?;
    engine.server_ports = listed(draft.server);
    Ok(engine)
}

/// Whether an engine for all hosts is there.
#[tactic(auto, unfolding(crate::specs::Stream5::has_default))]
fn has_default(engines: &[StreamEngine]) -> bool
    ensures { result ≡ has_default engines.now }
{
    engines.iter().any(|engine| engine.bind.is_none())
}

/// Adds one engine more.
#[tactic(auto, unfolding(crate::specs::Stream5::with_engine))]
fn add_engine(draft: &mut StreamDraft, engine: StreamEngine) -> Result<(), Stop<ConfKind>>
    ensures { Gives (with_new result draft.new) (with_engine draft.old engine) }
{
    if engine.bind.is_none() && has_default(draft.engines.as_slice()) {
        return Err(Stop::Wrong(ConfKind::Duplicate));
    }
    if draft.engines.as_slice().len() >= MOST_ENGINES {
        return Err(Stop::Wrong(ConfKind::Limit));
    }
    draft.engines.push(engine)?;
    Ok(())
}

/// What the whole line says, if no setting lacked its value.
fn whole_tcp(partial: Partial<TcpDraft>) -> Result<TcpDraft, ConfKind>
    ensures { result ≡ whole partial }
{
    let Partial { draft, lacks } = partial;
    if lacks {
        Err(ConfKind::BadValue)
    } else {
        Ok(draft)
    }
}

/// The draft of an engine before the first setting.
#[tactic(auto, unfolding(conf_types::specs::Defaults::default_stream_engine))]
fn first_tcp() -> TcpDraft
    ensures { result ≡ first_tcp }
{
    let StreamSettings {
        policy,
        timeout,
        handshake,
        bytes_limit,
        segs_limit,
    } = DEFAULT_STREAM_SETTINGS;
    TcpDraft {
        engine: StreamEngine {
            bind: None,
            policy,
            timeout,
            handshake,
            bytes_limit,
            segs_limit,
            client_ports: None,
            server_ports: None,
        },
        client: None,
        server: None,
        ports_stood: false,
    }
}

/// `stream5_tcp`, by what comes after the name.
#[tactic(auto, unfolding(crate::specs::Stream5::stream5_tcp))]
pub fn stream5_tcp(
    alloc: Global,
    vars: &Vars,
    draft: &mut StreamDraft,
    rest: &[u8],
) -> Result<(), Stop<ConfKind>>
    ensures { Gives (with_new result draft.new) (stream5_tcp vars.now draft.old rest.now) }
{
    let text = setting_text(rest)?;
    let tcp = tcp_settings(alloc, vars, text)?;
    let engine = engine_of(alloc, tcp)?;
    add_engine(draft, engine)
}

/// What the settings of a text give.
#[tactic(auto, unfolding(crate::specs::Stream5::tcp_settings))]
fn tcp_settings(alloc: Global, vars: &Vars, text: &[u8]) -> Result<TcpDraft, Stop<ConfKind>>
    ensures { Gives result (tcp_settings vars.now text.now) }
{
    let first = Partial {
        draft: first_tcp(),
        lacks: false,
    };
    let partial = stream_parts(text).try_fold_by(&TcpStep { alloc, vars }, first)?;
    let tcp = whole_tcp(partial)?;
    Ok(tcp)
}
