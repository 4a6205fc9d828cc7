//! The stream5 lines.
ghost use Rattle.std.specs.Prelude.{◌≡◌};
ghost use Rattle.conf_parser.specs.Stream5.{stream_parts, whole, is_unread_global, global_name, track_icmp, global_value, wants_value, named_global, global_part, global_values, with_global, stream5_global, udp_timeout, udp_part, with_udp, stream5_udp};
ghost use Rattle.conf_parser.specs.Values.{with_new};

use crate::draft::{StreamDraft, StreamGlobal};
use crate::line::ConfKind;
use crate::settings::DEFAULT_GLOBAL;
use crate::value::{put, setting_text, yes_or_no};
use crate::word::is;
use conf_types::StreamEngine;
use edge_io::Items;
use net_lists::{PartStep, Parts, PortPart, first_word, number_in};

/// What the settings read so far say.
#[derive(Drop)]
pub struct Partial<D> {
    pub draft: D,
    /// A setting was given without its value.
    pub lacks: bool,
}

/// An engine's settings read so far.
#[derive(Drop)]
pub struct TcpDraft {
    pub engine: StreamEngine,
    /// The ports for the client's data; without parts, all ports.
    pub client: Option<Items<PortPart>>,
    /// The ports for the server's data; without parts, all ports.
    pub server: Option<Items<PortPart>>,
    /// A `ports` setting was given.
    pub ports_stood: bool,
}

/// Whose data a `ports` setting speaks of.
#[derive(Clone, Copy)]
pub enum PortsSide {
    Client,
    Server,
    Both,
}

/// The settings of `stream5_global`.
#[derive(Clone, Copy)]
pub enum GlobalName {
    TrackTcp,
    TrackUdp,
    TrackIcmp,
    MaxTcp,
    MaxUdp,
    /// Changes nothing.
    Unread,
}

/// The settings of `stream5_tcp`.
#[derive(Clone, Copy)]
pub enum TcpName {
    Policy,
    Timeout,
    BindTo,
    Handshake,
    QueuedBytes,
    QueuedSegs,
    Ports,
    /// Changes nothing.
    Unread,
}

/// Whether this setting of `stream5_global` changes nothing.
#[tactic(auto, unfolding(crate::specs::Stream5::is_unread_global))]
fn is_unread_global(name: &[u8]) -> bool
    ensures { result ≡ is_unread_global name.now }
{
    is(name, b"max_icmp")
        || is(name, b"max_ip")
        || is(name, b"memcap")
        || is(name, b"flush_on_alert")
        || is(name, b"show_rebuilt_packets")
        || is(name, b"prune_log_max")
        || is(name, b"max_active_responses")
        || is(name, b"min_response_seconds")
}

/// The setting of `stream5_global` of this name.
#[tactic(auto, unfolding(crate::specs::Stream5::global_name))]
fn global_name(name: &[u8]) -> Option<GlobalName>
    ensures { result ≡ global_name name.now }
{
    if is(name, b"track_tcp") {
        Some(GlobalName::TrackTcp)
    } else if is(name, b"track_udp") {
        Some(GlobalName::TrackUdp)
    } else if is(name, b"track_icmp") {
        Some(GlobalName::TrackIcmp)
    } else if is(name, b"max_tcp") {
        Some(GlobalName::MaxTcp)
    } else if is(name, b"max_udp") {
        Some(GlobalName::MaxUdp)
    } else if is_unread_global(name) {
        Some(GlobalName::Unread)
    } else {
        None
    }
}

/// `track_icmp`: no.
#[tactic(auto, unfolding(crate::specs::Stream5::track_icmp))]
fn track_icmp(value: &[u8]) -> Result<bool, ConfKind>
    ensures { result ≡ track_icmp value.now }
{
    let (word, _) = first_word(value);
    if is(word, b"yes") {
        Err(ConfKind::OutsideProfile)
    } else if is(value, b"no") {
        Ok(false)
    } else {
        Err(ConfKind::BadValue)
    }
}

/// The value of a setting of `stream5_global`.
fn global_value(values: &mut StreamGlobal, name: GlobalName, value: &[u8]) -> Result<(), ConfKind>
    ensures { with_new result values.new ≡ global_value values.old name value.now }
{
    match name {
        GlobalName::TrackTcp => put(&mut values.track_tcp, yes_or_no(value)),
        GlobalName::TrackUdp => put(&mut values.track_udp, yes_or_no(value)),
        GlobalName::TrackIcmp => {
            track_icmp(value)?;
            Ok(())
        }
        GlobalName::MaxTcp => put(&mut values.max_tcp, number_in(1, 1048576, value)),
        GlobalName::MaxUdp => put(&mut values.max_udp, number_in(1, 1048576, value)),
        GlobalName::Unread => Ok(()),
    }
}

impl GlobalName {
    /// Whether the setting wants a value.
    fn wants_value(self) -> bool
        ensures { result ≡ wants_value self }
    {
        !matches!(self, GlobalName::Unread)
    }
}

/// The settings of `stream5_global`.
#[derive(Drop)]
struct StreamGlobalStep;

impl PartStep<Partial<StreamGlobal>, ConfKind> for StreamGlobalStep {
    ghost next_draft = { λ step partial part. global_part partial part };

    #[tactic(auto, unfolding(crate::specs::Stream5::global_part))]
    fn next(
        &self,
        partial: Partial<StreamGlobal>,
        part: &[u8],
    ) -> Result<Partial<StreamGlobal>, ConfKind> {
        let (word, value) = first_word(part);
        let Some(name) = global_name(word) else {
            return Err(ConfKind::BadValue);
        };
        let mut partial = partial;
        named_global(&mut partial, name, value)?;
        Ok(partial)
    }
}

/// A setting of `stream5_global` by its name.
#[tactic(auto, unfolding(crate::specs::Stream5::named_global))]
fn named_global(
    partial: &mut Partial<StreamGlobal>,
    name: GlobalName,
    value: &[u8],
) -> Result<(), ConfKind>
    ensures { with_new result partial.new ≡ named_global partial.old name value.now }
{
    if name.wants_value() && value.is_empty() {
        partial.lacks = true;
        return Ok(());
    }
    global_value(&mut partial.draft, name, value)
}

/// The settings of a line's text: none where it is empty.
#[tactic(auto, using(crate::proofs::StreamParts::no_stream_parts))]
pub fn stream_parts(text: &[u8]) -> Parts<'_>
    ensures { result ≡ stream_parts text.now }
{
    if text.is_empty() {
        Parts::words(text)
    } else {
        Parts::commas(text)
    }
}

/// The global line, which may be given once.
#[tactic(auto, unfolding(crate::specs::Stream5::with_global))]
fn put_global(draft: &mut StreamDraft, values: StreamGlobal) -> Result<(), ConfKind>
    ensures { with_new result draft.new ≡ with_global draft.old values }
{
    if draft.global.is_some() {
        return Err(ConfKind::Duplicate);
    }
    draft.global = Some(values);
    Ok(())
}

/// What the whole line says, if no setting lacked its value.
fn whole_global(partial: Partial<StreamGlobal>) -> Result<StreamGlobal, ConfKind>
    ensures { result ≡ whole partial }
{
    if partial.lacks {
        Err(ConfKind::BadValue)
    } else {
        Ok(partial.draft)
    }
}

/// `stream5_global`, by what comes after the name.
#[tactic(auto, unfolding(crate::specs::Stream5::stream5_global))]
pub fn stream5_global(draft: &mut StreamDraft, rest: &[u8]) -> Result<(), ConfKind>
    ensures { with_new result draft.new ≡ stream5_global draft.old rest.now }
{
    let text = setting_text(rest)?;
    let values = global_values(text)?;
    put_global(draft, values)
}

/// The values that the settings of a text give.
#[tactic(auto, unfolding(crate::specs::Stream5::global_values))]
fn global_values(text: &[u8]) -> Result<StreamGlobal, ConfKind>
    ensures { result ≡ global_values text.now }
{
    let first = Partial {
        draft: DEFAULT_GLOBAL,
        lacks: false,
    };
    let partial = stream_parts(text).fold_by(&StreamGlobalStep, first)?;
    whole_global(partial)
}

/// One setting of `stream5_udp`.
#[tactic(auto, unfolding(crate::specs::Stream5::udp_part))]
fn udp_part(partial: &mut Partial<u32>, part: &[u8]) -> Result<(), ConfKind>
    ensures { with_new result partial.new ≡ udp_part partial.old part.now }
{
    let (word, value) = first_word(part);
    if is(word, b"ignore_any_rules") {
        return if value.is_empty() {
            Ok(())
        } else {
            Err(ConfKind::BadValue)
        };
    }
    if !is(word, b"timeout") {
        return Err(ConfKind::BadValue);
    }
    if value.is_empty() {
        partial.lacks = true;
        return Ok(());
    }
    put(&mut partial.draft, number_in(1, 86400, value))
}

/// The settings of `stream5_udp`.
#[derive(Drop)]
struct UdpStep;

impl PartStep<Partial<u32>, ConfKind> for UdpStep {
    ghost next_draft = { λ step partial part. udp_part partial part };

    fn next(&self, partial: Partial<u32>, part: &[u8]) -> Result<Partial<u32>, ConfKind> {
        let mut partial = partial;
        udp_part(&mut partial, part)?;
        Ok(partial)
    }
}

/// The timeout of the whole line, if no setting lacked its value.
fn whole_udp(partial: Partial<u32>) -> Result<u32, ConfKind>
    ensures { result ≡ whole partial }
{
    if partial.lacks {
        Err(ConfKind::BadValue)
    } else {
        Ok(partial.draft)
    }
}

/// The line of UDP, which may be given once.
#[tactic(auto, unfolding(crate::specs::Stream5::with_udp))]
fn put_udp(draft: &mut StreamDraft, timeout: u32) -> Result<(), ConfKind>
    ensures { with_new result draft.new ≡ with_udp draft.old timeout }
{
    if draft.udp_timeout.is_some() {
        return Err(ConfKind::Duplicate);
    }
    draft.udp_timeout = Some(timeout);
    Ok(())
}

/// `stream5_udp`, by what comes after the name.
#[tactic(auto, unfolding(crate::specs::Stream5::stream5_udp))]
pub fn stream5_udp(draft: &mut StreamDraft, rest: &[u8]) -> Result<(), ConfKind>
    ensures { with_new result draft.new ≡ stream5_udp draft.old rest.now }
{
    let text = setting_text(rest)?;
    let timeout = udp_timeout(text)?;
    put_udp(draft, timeout)
}

/// The timeout that the settings of a text give.
#[tactic(auto, unfolding(crate::specs::Stream5::udp_timeout))]
fn udp_timeout(text: &[u8]) -> Result<u32, ConfKind>
    ensures { result ≡ udp_timeout text.now }
{
    let first = Partial {
        draft: 30,
        lacks: false,
    };
    let partial = stream_parts(text).fold_by(&UdpStep, first)?;
    whole_udp(partial)
}
