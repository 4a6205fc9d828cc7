//! Alerts as Unified2 records: an event, and its packet.
ghost use Rattle.std.specs.Prelude.{◌≡◌, ◌++◌, OnOk};
ghost use Rattle.unified2_out.specs.Records.{packet_of};
ghost use Rattle.alert_lines.specs.Beside.{beside};
ghost use Rattle.alert_lines.specs.Events.{event_of};
ghost use Rattle.alert_lines.specs.Unified2.{class_number, event_number, event_record, first_port, link_number};
ghost use Rattle.alert_lines.specs.Unified2.{micros_of, packet_record, records_text, second_port, seconds_of};

use crate::record::LinkedRecord;
use edge_io::{Link, Moment, NoMemory};
use packet_decode::{Body, ItemHead};
use rule_types::Rule;
use unified2_out::{LentPacket, U2, U2Event, write_packet, write_record};

/// The whole seconds of a moment, modulo 2^32.
fn seconds_of(moment: Moment) -> u32
    ensures { result ≡ seconds_of moment }
{
    (moment.nanos / 1_000_000_000 % (1 << 32)) as u32
}

/// The microseconds of a moment: what is less is cut off.
fn micros_of(moment: Moment) -> u32
    ensures { result ≡ micros_of moment }
{
    (moment.nanos / 1_000 % 1_000_000) as u32
}

/// The number of a link layer in captures.
fn link_number(link: Link) -> u32
    ensures { result ≡ link_number link }
{
    match link {
        Link::Ethernet => 1,
        Link::RawIp => 101,
        Link::Cooked => 113,
    }
}

/// The ports of a packet or a stream, or the type and the code of an ICMP message.
fn ports_of(body: Body) -> (u16, u16)
    ensures first { result.0 ≡ first_port body }
    ensures second { result.1 ≡ second_port body }
{
    match body {
        Body::Tcp(head) => (head.sport, head.dport),
        Body::Udp { sport, dport } => (sport, dport),
        Body::Stream { sport, dport } => (sport, dport),
        Body::Icmp { kind, code, .. } => (kind as u16, code as u16),
        Body::Other => (0, 0),
        Body::Fragment => (0, 0),
    }
}

/// The number of an event after `before` others, modulo 2^32.
fn event_number(before: u128) -> u32
    ensures { result ≡ event_number before }
{
    ((before % (1 << 32)) as u32).wrapping_add(1)
}

/// The class at a place, counted from 1, modulo 2^32; 0 where there is none.
fn class_number(class: Option<u32>) -> u32
    ensures { result ≡ class_number class }
{
    match class {
        None => 0,
        Some(place) => place.wrapping_add(1),
    }
}

/// The event of a rule that alerts on an item, after `before` others.
fn event_record(before: u128, head: &ItemHead, rule: &Rule) -> U2Event
    ensures { result ≡ event_record before (event_of head.now rule.now) }
{
    let (sport, dport) = ports_of(head.body);
    U2Event {
        sensor: 0,
        id: event_number(before),
        second: seconds_of(head.moment),
        micro: micros_of(head.moment),
        sid: rule.sid,
        gid: rule.gid,
        rev: rule.rev,
        class: class_number(rule.class),
        priority: rule.priority,
        src: head.ip.src,
        dst: head.ip.dst,
        sport,
        dport,
        protocol: head.ip.protocol,
        impact_flag: 0,
        impact: 0,
        blocked: 0,
    }
}

/// The packet of an event at this moment, after `before` others, which was captured so.
fn packet_record<'a>(before: u128, moment: Moment, origin: &'a LinkedRecord) -> LentPacket<'a>
    ensures { packet_of result ≡ packet_record before moment origin.now }
{
    let captured = origin.captured();
    LentPacket {
        sensor: 0,
        id: event_number(before),
        event_second: seconds_of(moment),
        second: seconds_of(captured.moment),
        micro: micros_of(captured.moment),
        link: link_number(origin.link()),
        bytes: captured.bytes.bytes(),
    }
}

/// Appends the records of a rule that alerts on an item, after `before` alerts, with the record whose
/// decoding made the item's job. Where memory is lacking, a part of them may be left there.
pub(crate) fn push_records(
    before: u128,
    origin: &LinkedRecord,
    head: &ItemHead,
    rule: &Rule,
    out: &mut Vec<u8>,
) -> Result<(), NoMemory>
    ensures { OnOk result (out.new.items ≡ out.old.items
        ++ records_text before (beside origin.now (event_of head.now rule.now))) }
{
    write_record(&U2::Event(event_record(before, head, rule)), out)?;
    write_packet(&packet_record(before, head.moment, origin), out)
}
