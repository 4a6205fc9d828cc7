//! Packets: the calls of packet_decode and ipv6_decode, on records and datagrams that words give.

use crate::bytes::bytes_of;
use crate::items::item_of;
use crate::page::Page;
use crate::row::Row;
use edge_io::{Addr, Link};
use ipv6_decode::{decode6, decode6_datagram};
use packet_decode::{Checks, IpHead, IpVersion, Packet, Skip, decode, decode_datagram, link_start};
use row_files::cut;

fn link_of(name: &str) -> Option<Link> {
    match name {
        "Ethernet" => Some(Link::Ethernet),
        "Cooked" => Some(Link::Cooked),
        "RawIp" => Some(Link::RawIp),
        _ => None,
    }
}

/// Whether a checksum of this name is checked: the word names all of them, the only one, or after a sign the
/// only one that isn't.
fn is_checked(word: &str, name: &str) -> bool {
    match word.strip_prefix('-') {
        Some(other) => other != name,
        None => word == "all" || word == name,
    }
}

fn checks_of(word: &str) -> Checks {
    Checks {
        ip: is_checked(word, "ip"),
        tcp: is_checked(word, "tcp"),
        udp: is_checked(word, "udp"),
        icmp: is_checked(word, "icmp"),
    }
}

/// `packet LINK CHECKS WORDS`: the packet of the record, or why it is skipped.
fn packet(page: &mut Page, row: &Row, link: Link, rest: &str) {
    let (checks, words) = cut(rest, ' ');
    let bytes = bytes_of(page, row, words);
    page.debug(&decode(link, &bytes, checks_of(checks)));
}

/// `ipv6-start LINK WORDS`: where the packet of version 6 starts in the record, or why it is skipped.
fn ipv6_start(page: &mut Page, row: &Row, link: Link, words: &str) {
    let bytes = bytes_of(page, row, words);
    page.debug(&link_start(IpVersion::Six, link, &bytes));
}

/// `datagram WORDS`: the packet of the datagram with the item's head, or why it is skipped.
fn datagram(page: &mut Page, row: &Row, words: &str) {
    let bytes = bytes_of(page, row, words);
    match item_of(&row.item) {
        Some(item) => page.debug(&decode_datagram(item.ip, &bytes, checks_of("all"))),
        None => page.put("not an item"),
    }
}

/// Shows a packet, or why there is none. Where the payload has over 1,000 bytes, their number takes their place.
fn show_packet(page: &mut Page, answer: Result<Packet<'_>, Skip>) {
    match &answer {
        Ok(packet) if packet.payload.len() > 1000 => {
            page.debug(&packet.ip);
            page.put(" ");
            page.debug(&packet.body);
            page.put(" ");
            page.show(packet.payload.len());
        }
        _ => page.debug(&answer),
    }
}

/// `packet6 LINK CHECKS WORDS`: the packet of version 6 of the record, or why it is skipped.
fn packet6(page: &mut Page, row: &Row, link: Link, rest: &str) {
    let (checks, words) = cut(rest, ' ');
    let bytes = bytes_of(page, row, words);
    show_packet(page, decode6(link, &bytes, checks_of(checks)));
}

/// Shows the packet of the datagram with this head, from and to addresses of version 6.
fn show_datagram6(page: &mut Page, ip: IpHead, bytes: &[u8]) {
    match (ip.src, ip.dst) {
        (Addr::V6(src), Addr::V6(dst)) => {
            let ip = IpHead {
                src: Addr::V6(src),
                dst: Addr::V6(dst),
                ..ip
            };
            show_packet(page, decode6_datagram(ip, bytes, checks_of("all")));
        }
        _ => page.put("not of version 6"),
    }
}

/// `datagram6 WORDS`: the packet of the datagram of version 6 with the item's head, or why it is skipped.
fn datagram6(page: &mut Page, row: &Row, words: &str) {
    let bytes = bytes_of(page, row, words);
    match item_of(&row.item) {
        Some(item) => show_datagram6(page, item.ip, &bytes),
        None => page.put("not an item"),
    }
}

/// The calls of records, which begin with a link.
fn record_call(page: &mut Page, row: &Row, call: &str, given: &str) -> bool {
    let (link, rest) = cut(given, ' ');
    let Some(link) = link_of(link) else {
        return false;
    };
    match call {
        "packet" => packet(page, row, link, rest),
        "packet6" => packet6(page, row, link, rest),
        "ipv6-start" => ipv6_start(page, row, link, rest),
        _ => return false,
    }
    true
}

/// The calls of packets.
pub(crate) fn call(page: &mut Page, row: &Row, call: &str, given: &str) -> bool {
    match call {
        "datagram" => datagram(page, row, given),
        "datagram6" => datagram6(page, row, given),
        _ => return record_call(page, row, call, given),
    }
    true
}
