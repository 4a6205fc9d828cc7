//! The members of a record, group by group.
ghost use Rattle.std.specs.Prelude.{◌≡◌, ◌++◌, OnOk, OnErr, IfOk, IsAscii, [], codes, option_map, unwrap_or, decimal, Some};
ghost use Rattle.alert_json.specs.Facts.{bytes_of, alert_facts, packet_facts, event_facts, run_facts};
ghost use Rattle.alert_json.specs.Stamps.{timestamp_text};
ghost use Rattle.alert_json.specs.Texts.{text_of, printable_text};
ghost use Rattle.alert_json.specs.Tokens.{Adds};
ghost use Rattle.alert_json.specs.Value.{text_field, maybe_text, known_name, protocol_name, time_fields, source_port, target_port, message_kind, message_code, flow_fields, action, severity, alert_fields, packet_fields, run_fields, object_field, number_field};
ghost use Rattle.alert_json.specs.FlowNumbers.{community_text, number_hash};
ghost use Rattle.base64.specs.GeneralPurpose.{encode_of};
ghost use Rattle.base64.specs.Engines.{standard};
ghost use Rattle.alert_fast.specs.Line.{address_text};
ghost use Rattle.edge_io.specs.declared.address.Addr.TheVariants.{V4, V6};

use crate::event::{Alert, Captured, Event, FiveTuple, Pair, RunFields};
use crate::flow_ids::{community_hash, community_text, number_of};
use crate::members::{
    push_ascii, push_bytes, push_digits, push_maybe_number, push_number, push_text,
};
use crate::stamp::timestamp;
use crate::texts::{printed, push_dots};
use alert_fast::push_address;
use base64::engine::general_purpose::STANDARD;
use edge_io::{Addr, Moment, NoMemory};
use json::Writer;
use std::alloc::{AllocError, Global};

/// Writes the members of when.
#[tactic(auto, unfolding(crate::specs::Value::time_fields))]
pub(crate) fn push_time(
    writer: &mut Writer,
    event: Event<'_>,
    hash: Option<[u8; 20]>,
) -> Result<(), AllocError>
    requires { hash ≡ number_hash event.flow event.flow.pair }
    ensures added { OnOk result (Adds writer.old.tokens writer.new.tokens
        (time_fields (event_facts event.entry))) }
    ensures before { writer.new.before ≡ writer.old.before }
{
    push_moment(writer, event.moment)?;
    push_maybe_number(writer, "flow_id", number_of(hash))?;
    push_maybe_number(writer, "pcap_cnt", event.count)?;
    push_text(writer, "event_type", "alert")
}

fn push_moment(writer: &mut Writer, moment: Moment) -> Result<(), AllocError>
    ensures added { OnOk result (Adds writer.old.tokens writer.new.tokens
        (text_field (codes "timestamp") (timestamp_text moment.nanos))) }
    ensures before { writer.new.before ≡ writer.old.before }
{
    push_ascii(writer, "timestamp", &timestamp(moment))
}

/// Writes the members of between whom.
#[tactic(auto, unfolding(crate::specs::Value::flow_fields))]
pub(crate) fn push_flow(
    alloc: Global,
    writer: &mut Writer,
    seed: u16,
    flow: FiveTuple,
    hash: Option<[u8; 20]>,
) -> Result<(), NoMemory>
    requires { hash ≡ number_hash flow flow.pair }
    ensures added { OnOk result (Adds writer.old.tokens writer.new.tokens (flow_fields seed flow)) }
    ensures before { writer.new.before ≡ writer.old.before }
{
    push_end(alloc, writer, "src_ip", flow.src)?;
    push_maybe_number(writer, "src_port", source_port(flow.pair))?;
    push_end(alloc, writer, "dest_ip", flow.dst)?;
    push_maybe_number(writer, "dest_port", target_port(flow.pair))?;
    push_protocol(writer, flow.protocol)?;
    push_maybe_number(writer, "icmp_type", message_kind(flow.pair))?;
    push_maybe_number(writer, "icmp_code", message_code(flow.pair))?;
    push_community(alloc, writer, community_hash(seed, flow, hash))?;
    Ok(())
}

fn push_end(alloc: Global, writer: &mut Writer, key: &str, address: Addr) -> Result<(), NoMemory>
    ensures added { OnOk result (Adds writer.old.tokens writer.new.tokens
        (text_field key.now (address_text address))) }
    ensures before { writer.new.before ≡ writer.old.before }
{
    match address {
        Addr::V4(address) => Ok(push_dotted(alloc, writer, key, address)?),
        Addr::V6(address) => push_colons(alloc, writer, key, address),
    }
}

// The most bytes of an address: eight groups of four, and seven colons.
const LONGEST_ADDRESS: usize = 39;

#[tactic(auto, unfolding(alert_fast::specs::Line::address_text))]
fn dotted(alloc: Global, address: u32) -> Result<Vec<u8>, AllocError>
    ensures text { IfOk result (λ text. text.items ≡ address_text (V4 address)) }
    ensures ascii { IfOk result (λ text. IsAscii text.items) }
{
    let mut text = Vec::with_capacity(alloc, LONGEST_ADDRESS)?;
    push_dots(&mut text, address)?;
    Ok(text)
}

fn colons(alloc: Global, address: u128) -> Result<Vec<u8>, NoMemory>
    ensures text { IfOk result (λ text. text.items ≡ address_text (V6 address)) }
    ensures ascii { IfOk result (λ text. IsAscii text.items) }
{
    let mut text = Vec::with_capacity(alloc, LONGEST_ADDRESS)?;
    push_address(Addr::V6(address), &mut text)?;
    Ok(text)
}

fn push_dotted(
    alloc: Global,
    writer: &mut Writer,
    key: &str,
    address: u32,
) -> Result<(), AllocError>
    ensures added { OnOk result (Adds writer.old.tokens writer.new.tokens
        (text_field key.now (address_text (V4 address)))) }
    ensures before { writer.new.before ≡ writer.old.before }
{
    let text = dotted(alloc, address)?;
    push_ascii(writer, key, &text)
}

fn push_colons(alloc: Global, writer: &mut Writer, key: &str, address: u128) -> Result<(), NoMemory>
    ensures added { OnOk result (Adds writer.old.tokens writer.new.tokens
        (text_field key.now (address_text (V6 address)))) }
    ensures before { writer.new.before ≡ writer.old.before }
{
    let text = colons(alloc, address)?;
    push_ascii(writer, key, &text)?;
    Ok(())
}

fn source_port(pair: Pair) -> Option<u64>
    ensures { result ≡ source_port pair }
{
    match pair {
        Pair::Ports { sport, dport: _ } => Some(sport as u64),
        Pair::Unknown | Pair::Message { .. } => None,
    }
}

fn target_port(pair: Pair) -> Option<u64>
    ensures { result ≡ target_port pair }
{
    match pair {
        Pair::Ports { sport: _, dport } => Some(dport as u64),
        Pair::Unknown | Pair::Message { .. } => None,
    }
}

fn message_kind(pair: Pair) -> Option<u64>
    ensures { result ≡ message_kind pair }
{
    match pair {
        Pair::Message { kind, code: _ } => Some(kind as u64),
        Pair::Unknown | Pair::Ports { .. } => None,
    }
}

fn message_code(pair: Pair) -> Option<u64>
    ensures { result ≡ message_code pair }
{
    match pair {
        Pair::Message { kind: _, code } => Some(code as u64),
        Pair::Unknown | Pair::Ports { .. } => None,
    }
}

#[tactic(auto, unfolding(crate::specs::Value::known_name))]
fn known_name(protocol: u8) -> Option<&'static str>
    ensures { option_map (λ name. name.now) result ≡ known_name protocol }
{
    match protocol {
        6 => Some("TCP"),
        17 => Some("UDP"),
        1 => Some("ICMP"),
        58 => Some("IPv6-ICMP"),
        2 => Some("IGMP"),
        41 => Some("IPv6"),
        47 => Some("GRE"),
        50 => Some("ESP"),
        51 => Some("AH"),
        103 => Some("PIM"),
        132 => Some("SCTP"),
        _ => None,
    }
}

fn push_protocol(writer: &mut Writer, protocol: u8) -> Result<(), AllocError>
    ensures added { OnOk result (Adds writer.old.tokens writer.new.tokens
        (text_field (codes "proto") (protocol_name protocol))) }
    ensures before { writer.new.before ≡ writer.old.before }
{
    match known_name(protocol) {
        Some(name) => push_text(writer, "proto", name),
        None => push_digits(writer, "proto", protocol as u64),
    }
}

fn push_community(
    alloc: Global,
    writer: &mut Writer,
    hash: Option<[u8; 20]>,
) -> Result<(), AllocError>
    ensures added { OnOk result (Adds writer.old.tokens writer.new.tokens
        (maybe_text (codes "community_id") (option_map community_text hash))) }
    ensures before { writer.new.before ≡ writer.old.before }
{
    match hash {
        None => Ok(()),
        Some(hash) => push_text(
            writer,
            "community_id",
            community_text(alloc, hash)?.as_str(),
        ),
    }
}

fn action(blocked: bool) -> &'static str
    ensures { result.now ≡ action blocked }
{
    if blocked { "blocked" } else { "allowed" }
}

#[tactic(auto, unfolding(crate::specs::Value::severity))]
fn severity(class: Option<&[u8]>, priority: u32) -> u32
    ensures { result ≡ severity (bytes_of class.entry) priority }
{
    match class {
        None => { if priority == 0 { 3 } else { priority } }
        Some(_) => priority,
    }
}

fn category(class: Option<&[u8]>) -> &[u8]
    ensures { result.now ≡ unwrap_or (bytes_of class.entry) [] }
{
    match class {
        Some(text) => text,
        None => b"",
    }
}

/// Writes the members of which rule.
#[tactic(auto, unfolding(crate::specs::Value::alert_fields))]
fn push_alert_members(
    alloc: Global,
    writer: &mut Writer,
    alert: Alert<'_>,
) -> Result<(), AllocError>
    ensures added { OnOk result (Adds writer.old.tokens writer.new.tokens
        (alert_fields (alert_facts alert.entry))) }
    ensures before { writer.new.before ≡ writer.old.before }
{
    push_text(writer, "action", action(alert.blocked))?;
    push_number(writer, "gid", alert.gid as u64)?;
    push_number(writer, "signature_id", alert.sid as u64)?;
    push_number(writer, "rev", alert.rev as u64)?;
    push_bytes(alloc, writer, "signature", alert.msg)?;
    push_bytes(alloc, writer, "category", category(alert.class))?;
    push_number(
        writer,
        "severity",
        severity(alert.class, alert.priority) as u64,
    )
}

/// Writes the member of which rule.
pub(crate) fn push_alert(
    alloc: Global,
    writer: &mut Writer,
    alert: Alert<'_>,
) -> Result<(), AllocError>
    ensures added { OnOk result (Adds writer.old.tokens writer.new.tokens
        (object_field (codes "alert") (alert_fields (alert_facts alert.entry)))) }
    ensures before { writer.new.before ≡ writer.old.before }
{
    writer.key("alert")?;
    writer.begin_object()?;
    push_alert_members(alloc, writer, alert)?;
    writer.end_object()
}

fn push_printed(alloc: Global, writer: &mut Writer, payload: &[u8]) -> Result<(), AllocError>
    ensures added { OnOk result (Adds writer.old.tokens writer.new.tokens
        (text_field (codes "payload_printable") (printable_text payload.now))) }
    ensures before { writer.new.before ≡ writer.old.before }
{
    let text = printed(alloc, payload)?;
    push_ascii(writer, "payload_printable", &text)
}

fn push_payload(
    alloc: Global,
    writer: &mut Writer,
    payload: Option<&[u8]>,
) -> Result<(), AllocError>
    ensures added { OnOk result (Adds writer.old.tokens writer.new.tokens
        (maybe_text (codes "payload_printable")
        (option_map printable_text (bytes_of payload.entry)))) }
    ensures before { writer.new.before ≡ writer.old.before }
{
    match payload {
        None => Ok(()),
        Some(payload) => push_printed(alloc, writer, payload),
    }
}

fn push_link(writer: &mut Writer, link: u32) -> Result<(), AllocError>
    ensures added { OnOk result (Adds writer.old.tokens writer.new.tokens
        (object_field (codes "packet_info") (number_field (codes "linktype") link))) }
    ensures before { writer.new.before ≡ writer.old.before }
{
    writer.key("packet_info")?;
    writer.begin_object()?;
    push_number(writer, "linktype", link as u64)?;
    writer.end_object()
}

fn push_base64(alloc: Global, writer: &mut Writer, bytes: &[u8]) -> Result<(), AllocError>
    ensures added { OnOk result (Adds writer.old.tokens writer.new.tokens
        (text_field (codes "packet") (encode_of standard bytes.now))) }
    ensures before { writer.new.before ≡ writer.old.before }
{
    let text = STANDARD.encode(alloc, bytes)?;
    push_text(writer, "packet", text.as_str())
}

fn push_captured(alloc: Global, writer: &mut Writer, packet: Captured<'_>) -> Result<(), AllocError>
    ensures added { OnOk result (Adds writer.old.tokens writer.new.tokens
        (packet_fields (Some (packet_facts packet.entry)))) }
    ensures before { writer.new.before ≡ writer.old.before }
{
    push_payload(alloc, writer, packet.payload)?;
    push_base64(alloc, writer, packet.bytes)?;
    push_link(writer, packet.link)
}

/// Writes the members of the packet, where it is known.
#[tactic(auto, unfolding(crate::specs::Value::packet_fields))]
pub(crate) fn push_packet(
    alloc: Global,
    writer: &mut Writer,
    packet: Option<Captured<'_>>,
) -> Result<(), AllocError>
    ensures added { OnOk result (Adds writer.old.tokens writer.new.tokens
        (packet_fields (option_map packet_facts packet.entry))) }
    ensures before { writer.new.before ≡ writer.old.before }
{
    match packet {
        None => Ok(()),
        Some(packet) => push_captured(alloc, writer, packet),
    }
}

fn push_name(
    alloc: Global,
    writer: &mut Writer,
    key: &str,
    name: Option<&[u8]>,
) -> Result<(), AllocError>
    ensures added { OnOk result (Adds writer.old.tokens writer.new.tokens
        (maybe_text key.now (option_map text_of (bytes_of name.entry)))) }
    ensures before { writer.new.before ≡ writer.old.before }
{
    match name {
        None => Ok(()),
        Some(name) => push_bytes(alloc, writer, key, name),
    }
}

/// Writes the members that all events of a run have alike.
#[tactic(auto, unfolding(crate::specs::Value::run_fields))]
pub(crate) fn push_run(
    alloc: Global,
    writer: &mut Writer,
    run: RunFields<'_>,
) -> Result<(), AllocError>
    ensures added { OnOk result (Adds writer.old.tokens writer.new.tokens
        (run_fields (run_facts run.entry))) }
    ensures before { writer.new.before ≡ writer.old.before }
{
    push_name(alloc, writer, "host", run.host)?;
    push_name(alloc, writer, "pcap_filename", run.pcap_filename)
}
