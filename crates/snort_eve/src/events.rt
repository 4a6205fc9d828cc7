//! What is told of an event of Unified2.
ghost use Rattle.std.specs.Prelude.{◌≡◌, Option, Some, None, option_map, not};
ghost use Rattle.alert_json.specs.Facts.{event_facts, packet_facts, alert_facts};
ghost use Rattle.packet_decode.specs.Decoding.{seen, fields_of};
ghost use Rattle.ipv6_decode.specs.Versions.{record_decoded};
ghost use Rattle.snort_eve.specs.Joins.{joined_of};
ghost use Rattle.snort_eve.specs.Texts.{texts_of};
ghost use Rattle.snort_eve.specs.Events.{link_of, unchecked, packet_of, packet_in, is_fragment, is_unbroken, has_pair, pair_by, pair_of, flow_of, class_of, rule_of, captured_of, event_of, line_by, nanos_of};

use crate::joins::Teller;
use crate::texts::Texts;
use alert_json::{Alert, Captured, Event, FiveTuple, Pair, RunFields, push_event};
use edge_io::{Link, Moment, NoMemory};
use ipv6_decode::decode6;
use packet_decode::{Body, Checks, Packet, Skip, decode};
use std::alloc::Global;
use unified2_out::{U2Event, U2Packet};

/// Tells events as JSON lines.
#[derive(Clone, Copy)]
pub(crate) struct JsonLines<'a> {
    pub(crate) run: RunFields<'a>,
    pub(crate) texts: &'a Texts,
}

impl<'a> Teller for JsonLines<'a> {
    ghost line = { line_by };

    fn push_line(
        &self,
        alloc: Global,
        event: &U2Event,
        packet: Option<&U2Packet>,
        out: &mut Vec<u8>,
    ) -> Result<(), NoMemory> {
        push_event(alloc, &told(self.texts, event, packet), &self.run, out)
    }
}

// No checksum is verified: a packet that was captured on its way out may have none yet.
const UNCHECKED: Checks = Checks {
    ip: false,
    tcp: false,
    udp: false,
    icmp: false,
};

#[tactic(auto, unfolding(crate::specs::Events::link_of))]
fn link_of(number: u32) -> Option<Link>
    ensures { result ≡ link_of number }
{
    match number {
        1 => Some(Link::Ethernet),
        101 => Some(Link::RawIp),
        113 => Some(Link::Cooked),
        _ => None,
    }
}

#[tactic(auto, unfolding(ipv6_decode::specs::Versions::record_decoded))]
fn read_record<'a>(link: Link, bytes: &'a [u8]) -> Result<Packet<'a>, Skip>
    ensures { seen result ≡ record_decoded link bytes.now unchecked }
{
    match decode(link, bytes, UNCHECKED) {
        Ok(packet) => Ok(packet),
        Err(Skip::OtherProtocol) => decode6(link, bytes, UNCHECKED),
        Err(skip) => Err(skip),
    }
}

fn packet_in(number: u32, bytes: &[u8]) -> Option<Packet<'_>>
    ensures { option_map fields_of result ≡ packet_in number bytes.now }
{
    match link_of(number) {
        None => None,
        Some(link) => packet_of(read_record(link, bytes)),
    }
}

fn packet_of<'a>(answer: Result<Packet<'a>, Skip>) -> Option<Packet<'a>>
    ensures { option_map fields_of result ≡ packet_of (seen answer.entry) }
{
    match answer {
        Ok(packet) => Some(packet),
        Err(_) => None,
    }
}

fn is_unbroken(packet: Option<Packet<'_>>) -> bool
    ensures { result ≡ is_unbroken (option_map fields_of packet.entry) }
{
    match packet {
        None => false,
        Some(packet) => !is_fragment(packet.body),
    }
}

fn is_fragment(body: Body) -> bool
    ensures { result ≡ is_fragment body }
{
    match body {
        Body::Fragment => true,
        Body::Tcp(_) | Body::Udp { .. } | Body::Icmp { .. } | Body::Other | Body::Stream { .. } => {
            false
        }
    }
}

#[tactic(auto, unfolding(crate::specs::Events::has_pair))]
fn has_pair(event: &U2Event, whole: bool) -> bool
    ensures { result ≡ has_pair event.now whole }
{
    (event.sport != 0 || event.dport != 0) || whole
}

#[tactic(auto, unfolding(crate::specs::Events::pair_by))]
fn pair_by(protocol: u8, sport: u16, dport: u16) -> Pair
    ensures { result ≡ pair_by protocol sport dport }
{
    if protocol == 6 || protocol == 17 {
        Pair::Ports { sport, dport }
    } else if protocol == 1 || protocol == 58 {
        Pair::Message {
            kind: sport,
            code: dport,
        }
    } else {
        Pair::Unknown
    }
}

#[tactic(auto, unfolding(crate::specs::Events::pair_of))]
fn pair_of(event: &U2Event, whole: bool) -> Pair
    ensures { result ≡ pair_of event.now whole }
{
    if has_pair(event, whole) {
        pair_by(event.protocol, event.sport, event.dport)
    } else {
        Pair::Unknown
    }
}

fn moment_of(event: &U2Event) -> Moment
    ensures { result.nanos ≡ nanos_of event.now }
{
    Moment {
        nanos: (event.second as u64 * 1_000_000 + event.micro as u64) * 1_000,
    }
}

fn flow_of(event: &U2Event, whole: bool) -> FiveTuple
    ensures { result ≡ flow_of event.now whole }
{
    FiveTuple {
        protocol: event.protocol,
        src: event.src,
        dst: event.dst,
        pair: pair_of(event, whole),
    }
}

#[tactic(auto, unfolding(crate::specs::Events::class_of))]
fn class_of(texts: &Texts, number: u32) -> Option<&[u8]>
    ensures { option_map (λ text. text.now) result ≡ class_of (texts_of texts.now) number }
{
    if number == 0 {
        None
    } else {
        Some(texts.class_text(number))
    }
}

fn rule_of<'a>(texts: &'a Texts, event: &U2Event) -> Alert<'a>
    ensures { alert_facts result ≡ rule_of (texts_of texts.entry.now) event.now }
{
    Alert {
        blocked: event.blocked == 1,
        gid: event.gid,
        sid: event.sid,
        rev: event.rev,
        msg: texts.message(event.gid, event.sid),
        class: class_of(texts, event.class),
        priority: event.priority,
    }
}

fn captured_of<'a>(packet: &'a U2Packet, read: Option<Packet<'a>>) -> Captured<'a>
    requires { option_map fields_of read ≡ packet_in packet.now.link packet.now.bytes }
    ensures { packet_facts result ≡ captured_of packet.entry.now }
{
    Captured {
        link: packet.link,
        bytes: packet.bytes.bytes(),
        payload: payload_of(read),
    }
}

fn payload_of<'a>(packet: Option<Packet<'a>>) -> Option<&'a [u8]>
    ensures { option_map (λ b. b.now) result ≡ option_map (λ f. f.payload) (option_map fields_of packet.entry) }
{
    match packet {
        None => None,
        Some(packet) => Some(packet.payload),
    }
}

// What is told of an event without its packet.
fn told_alone<'a>(texts: &'a Texts, event: &U2Event) -> Event<'a>
    ensures { event_facts result ≡ event_of (texts_of texts.entry.now) (joined_of event.now None) }
{
    Event {
        moment: moment_of(event),
        flow: flow_of(event, false),
        alert: rule_of(texts, event),
        packet: None,
        count: None,
    }
}

// What is told of an event with its packet, which is read once.
fn told_with<'a>(texts: &'a Texts, event: &U2Event, packet: &'a U2Packet) -> Event<'a>
    ensures { event_facts result ≡ event_of (texts_of texts.entry.now) (joined_of event.now (Some packet.entry.now)) }
{
    let read = packet_in(packet.link, packet.bytes.bytes());
    Event {
        moment: moment_of(event),
        flow: flow_of(event, is_unbroken(read)),
        alert: rule_of(texts, event),
        packet: Some(captured_of(packet, read)),
        count: None,
    }
}

/// What is told of an event, with its packet where one follows it.
fn told<'a>(texts: &'a Texts, event: &U2Event, packet: Option<&'a U2Packet>) -> Event<'a>
    ensures { event_facts result
        ≡ event_of (texts_of texts.entry.now) (joined_of event.now (option_map (λ p. p.now) packet.entry)) }
{
    match packet {
        None => told_alone(texts, event),
        Some(packet) => told_with(texts, event, packet),
    }
}
