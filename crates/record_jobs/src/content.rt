//! What a record brings: its packet, or its fragment and the datagram that the fragment completes.
ghost use Rattle.std.specs.Prelude.{◌≡◌, ◌≤◌, length, IfOk, IfSome, OnOk, Ok, Some};
ghost use Rattle.packet_decode.specs.Decoding.{fields_of};
ghost use Rattle.ipv6_decode.specs.Versions.{IsReadAsFour};
ghost use Rattle.record_jobs.specs.Packets.{completed_datagram, datagram_from, datagram_item, datagram_of_fragment, datagram_skip, is_fragment, item_of, said_by};
ghost use Rattle.record_jobs.specs.Steps.{content_from, fragment_content, no_content, packet_content, record_content, waiting_after, waiting_after_fragment, waiting_from, HasShortPacket, IsShortDatagram};
ghost use Rattle.record_jobs.specs.Way.{linked, way_of};

use crate::config::FrontConfig;
use crate::engines::frag_rules;
use crate::item::{RecordItem, head_of};
use edge_io::{Link, Moment, NoMemory, Text};
use flow_lanes::Payload;
use frag3_core::{Datagram, Frag3, Taken};
use ipv6_decode::{packet_of_datagram, packet_of_record};
use packet_decode::{Body, Checks, ItemKind, Packet, Placed, Skip};
use pcap_input::Record;
use std::alloc::Global;

/// What a record brings.
///
/// It is written in its place: answered, it would be moved from call to call.
#[derive(Debug, Drop)]
pub(crate) struct RecordContent<'a> {
    /// The record's fragment, where it is one.
    pub fragment: Option<RecordItem<'a>>,
    /// The record's packet, or the datagram that its fragment completed.
    pub packet: Option<RecordItem<'a>>,
    /// Why the record, or that datagram, is skipped.
    pub skip: Option<Skip>,
    /// Whether the record's fragment completed a datagram.
    pub rebuilt: bool,
}

/// Nothing yet.
#[inline(always)]
pub(crate) fn no_content<'a>() -> RecordContent<'a>
    ensures { result ≡ no_content }
{
    RecordContent {
        fragment: None,
        packet: None,
        skip: None,
        rebuilt: false,
    }
}

/// Whether a packet is a fragment.
pub(crate) fn is_fragment(body: Body) -> bool
    ensures { result ≡ is_fragment body }
{
    match body {
        Body::Fragment => true,
        _ => false,
    }
}

/// What is inspected of a packet, its payload lent; nothing is known of its session.
fn item_of<'a>(kind: ItemKind, moment: Moment, packet: &Packet<'a>) -> RecordItem<'a>
    ensures { result ≡ item_of kind moment (fields_of packet.now) }
{
    RecordItem {
        head: head_of(kind, moment, packet.ip, packet.body),
        payload: Payload::lent(packet.payload),
    }
}

/// Writes what a packet brings that is no fragment.
fn packet_content<'a>(moment: Moment, packet: &Packet<'a>, content: &mut RecordContent<'a>)
    requires { content.old ≡ no_content }
    ensures { content.new ≡ packet_content moment (fields_of packet.now) }
{
    content.packet = Some(item_of(ItemKind::Packet, moment, packet));
}

/// What is inspected of a packet of a datagram, its payload copied: the datagram is done with before its job is.
fn rebuilt_item<'a>(
    alloc: Global,
    moment: Moment,
    packet: &Packet<'_>,
) -> Result<RecordItem<'a>, NoMemory>
    ensures { IfOk result (λ item. item ≡ item_of ItemKind.Rebuilt moment (fields_of packet.now)) }
{
    let payload = Text::copy(alloc, packet.payload)?;
    Ok(RecordItem {
        head: head_of(ItemKind::Rebuilt, moment, packet.ip, packet.body),
        payload: Payload::own(payload),
    })
}

/// Writes what is inspected of a datagram, or why it is skipped.
fn datagram_item(
    alloc: Global,
    checks: Checks,
    moment: Moment,
    datagram: &Datagram,
    content: &mut RecordContent<'_>,
) -> Result<(), NoMemory>
    requires { content.old ≡ no_content }
    ensures said { OnOk result (content.new ≡ record no_content {
      packet = datagram_item checks moment (Some datagram.now);
      skip = datagram_skip checks (Some datagram.now);
    }) }
    ensures short { IsShortDatagram datagram.now → OnOk result (HasShortPacket content.new) }
{
    match packet_of_datagram(datagram.ip, datagram.bytes.bytes(), checks) {
        Ok(packet) => content.packet = Some(rebuilt_item(alloc, moment, &packet)?),
        Err(skip) => content.skip = Some(skip),
    }
    Ok(())
}

/// The datagram, where a fragment completed one.
fn completed_datagram(taken: Taken) -> Option<Datagram>
    ensures { result ≡ completed_datagram taken }
{
    match taken {
        Taken::Whole(datagram) => Some(datagram),
        _ => None,
    }
}

/// Accepts a fragment, where fragments are put together: the datagram that it completes.
#[tactic(auto, unfolding(crate::specs::Packets::datagram_of_fragment, crate::specs::Steps::waiting_after_fragment))]
fn accept_fragment(
    alloc: Global,
    by: &FrontConfig<'_>,
    frag3: &mut Option<Frag3>,
    moment: Moment,
    packet: &Packet<'_>,
) -> Result<Option<Datagram>, NoMemory>
    ensures datagram { IfOk result (λ datagram.
        datagram ≡ datagram_of_fragment (way_of by.now) frag3.old moment (fields_of packet.now)) }
    ensures after { OnOk result
        (frag3.new ≡ waiting_after_fragment (way_of by.now) frag3.old moment (fields_of packet.now)) }
{
    match (&by.config.frag, frag3) {
        (Some(config), Some(frag3)) => {
            let rules = frag_rules(by.hosts, config, packet.ip.dst);
            let taken = frag3.accept(alloc, &packet.ip, packet.payload, moment, rules)?;
            Ok(completed_datagram(taken))
        }
        _ => Ok(None),
    }
}

/// Writes what a fragment brings that completed this datagram.
// Kept out of the line of the other fragments, which otherwise pay for its moves.
#[inline(never)]
fn completing_content<'a>(
    alloc: Global,
    checks: Checks,
    moment: Moment,
    packet: &Packet<'a>,
    datagram: &Datagram,
    content: &mut RecordContent<'a>,
) -> Result<(), NoMemory>
    requires { content.old ≡ no_content }
    ensures content { OnOk result
        (content.new ≡ fragment_content checks moment (fields_of packet.now) (Some datagram.now)) }
    ensures short { IsShortDatagram datagram.now → OnOk result (HasShortPacket content.new) }
{
    datagram_item(alloc, checks, moment, datagram, content)?;
    content.fragment = Some(item_of(ItemKind::Fragment, moment, packet));
    content.rebuilt = true;
    Ok(())
}

/// Writes what a fragment brings: itself, and the datagram that it completes.
// Kept out of the line of other packets, which otherwise pay for its moves.
#[inline(never)]
fn fragment_content<'a>(
    alloc: Global,
    by: &FrontConfig<'_>,
    frag3: &mut Option<Frag3>,
    moment: Moment,
    packet: &Packet<'a>,
    content: &mut RecordContent<'a>,
) -> Result<(), NoMemory>
    requires { content.old ≡ no_content }
    ensures content { OnOk result (content.new ≡ fragment_content by.now.checks moment (fields_of packet.now)
        (datagram_of_fragment (way_of by.now) frag3.old moment (fields_of packet.now))) }
    ensures after { OnOk result
        (frag3.new ≡ waiting_after_fragment (way_of by.now) frag3.old moment (fields_of packet.now)) }
    ensures short { IfSome (datagram_of_fragment (way_of by.now) frag3.old moment (fields_of packet.now)) IsShortDatagram
        → OnOk result (HasShortPacket content.new) }
{
    match accept_fragment(alloc, by, frag3, moment, packet)? {
        None => {
            content.fragment = Some(item_of(ItemKind::Fragment, moment, packet));
            Ok(())
        }
        Some(datagram) => completing_content(alloc, by.checks, moment, packet, &datagram, content),
    }
}

/// Writes what a packet brings: its fragment, or itself.
#[tactic(auto, using(crate::proofs::Fronts::Contents::contents))]
fn content_of<'a>(
    alloc: Global,
    by: &FrontConfig<'_>,
    frag3: &mut Option<Frag3>,
    moment: Moment,
    packet: &Packet<'a>,
    content: &mut RecordContent<'a>,
) -> Result<(), NoMemory>
    requires small { length packet.now.payload.now ≤ 65535 }
    requires none { content.old ≡ no_content }
    ensures content { OnOk result
        (content.new ≡ content_from (way_of by.now) frag3.old moment (Ok (fields_of packet.now))) }
    ensures after { OnOk result (frag3.new ≡ waiting_from (way_of by.now) frag3.old moment (Ok (fields_of packet.now))) }
    ensures short { IfSome (datagram_from (way_of by.now) frag3.old moment (Ok (fields_of packet.now))) IsShortDatagram
        → OnOk result (HasShortPacket content.new) }
{
    if is_fragment(packet.body) {
        return fragment_content(alloc, by, frag3, moment, packet, content);
    }
    packet_content(moment, packet, content);
    Ok(())
}

/// Writes what a record brings, whose bytes begin with this link layer; `four` is what was read of it as version 4.
#[tactic(auto, using(crate::proofs::Fronts::Contents::contents), unfolding(crate::specs::Steps::record_content, crate::specs::Steps::waiting_after, crate::specs::Packets::said_by))]
pub(crate) fn read_record<'a>(
    alloc: Global,
    by: &FrontConfig<'_>,
    frag3: &mut Option<Frag3>,
    link: Link,
    captured: &'a Record,
    four: Result<&Placed, Skip>,
    content: &mut RecordContent<'a>,
) -> Result<(), NoMemory>
    requires four { IsReadAsFour link captured.now.bytes by.now.checks four }
    requires none { content.old ≡ no_content }
    ensures content { OnOk result (content.new ≡ record_content (way_of by.now) frag3.old (linked link captured.now)) }
    ensures after { OnOk result (frag3.new ≡ waiting_after (way_of by.now) frag3.old (linked link captured.now)) }
    ensures short { IfSome (datagram_from (way_of by.now) frag3.old captured.now.moment
        (said_by (way_of by.now) (linked link captured.now))) IsShortDatagram
        → OnOk result (HasShortPacket content.new) }
{
    match packet_of_record(four, link, captured.bytes.bytes(), by.checks) {
        Ok(packet) => content_of(alloc, by, frag3, captured.moment, &packet, content),
        Err(skip) => {
            content.skip = Some(skip);
            Ok(())
        }
    }
}
