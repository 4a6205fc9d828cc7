//! The header of a rule.
ghost use Rattle.std.specs.Prelude.{◌≡◌, ◌↔◌, IsTrue};
ghost use Rattle.header_eval.specs.Fields.{is_of, source_port, destination_port, source_of, destination_of, HasPort, PortHolds, IsEnd, IsWay, HeaderHolds};

use edge_io::Addr;
use net_lists::{AddrList, PortList};
use packet_decode::{Body, ItemHead};
use rule_types::{Proto, Rule};

/// An end of an item: its address, and its port where the item has ports.
#[derive(Clone, Copy)]
pub(crate) struct ItemEnd {
    pub addr: Addr,
    pub port: Option<u16>,
}

/// Whether the item is of the rule's protocol.
fn is_of(proto: Proto, body: &Body) -> bool
    ensures { result ≡ is_of proto body.now }
{
    match (proto, body) {
        (Proto::Ip, _) => true,
        (Proto::Tcp, Body::Tcp(_) | Body::Stream { .. }) => true,
        (Proto::Udp, Body::Udp { .. }) => true,
        (Proto::Icmp, Body::Icmp { .. }) => true,
        _ => false,
    }
}

/// The port of the source, where the item has ports.
fn source_port(body: &Body) -> Option<u16>
    ensures { result ≡ source_port body.now }
{
    match body {
        Body::Tcp(head) => Some(head.sport),
        Body::Udp { sport, .. } | Body::Stream { sport, .. } => Some(*sport),
        _ => None,
    }
}

/// The port of the destination, where the item has ports.
fn destination_port(body: &Body) -> Option<u16>
    ensures { result ≡ destination_port body.now }
{
    match body {
        Body::Tcp(head) => Some(head.dport),
        Body::Udp { dport, .. } | Body::Stream { dport, .. } => Some(*dport),
        _ => None,
    }
}

/// Whether the end has a port that is listed.
fn has_port(ports: &PortList, port: Option<u16>) -> bool
    ensures { IsTrue result ↔ HasPort ports.now port }
{
    match port {
        None => false,
        Some(port) => ports.contains(port),
    }
}

/// Whether the port is the rule's, where its protocol has ports.
fn port_holds(proto: Proto, ports: &PortList, port: Option<u16>) -> bool
    ensures { IsTrue result ↔ PortHolds proto ports.now port }
{
    match proto {
        Proto::Tcp | Proto::Udp => has_port(ports, port),
        Proto::Icmp | Proto::Ip => true,
    }
}

/// Whether the end is one of these addresses and ports.
fn is_end(proto: Proto, addrs: &AddrList, ports: &PortList, end: ItemEnd) -> bool
    ensures { IsTrue result ↔ IsEnd proto addrs.now ports.now end }
{
    port_holds(proto, ports, end.port) && addrs.contains(end.addr)
}

/// Whether the way from one end to the other is the rule's.
#[tactic(auto, unfolding(crate::specs::Fields::IsWay))]
fn is_way(rule: &Rule, from: ItemEnd, to: ItemEnd) -> bool
    ensures { IsTrue result ↔ IsWay rule.now from to }
{
    is_end(rule.proto, &rule.src, &rule.sports, from)
        && is_end(rule.proto, &rule.dst, &rule.dports, to)
}

/// Whether the rule's header holds of the item: its protocol, its addresses and its ports, in its
/// direction. Takes no memory.
#[tactic(auto, unfolding(crate::specs::Fields::HeaderHolds))]
pub fn header_matches(rule: &Rule, head: &ItemHead) -> bool
    ensures { IsTrue result ↔ HeaderHolds rule.now head.now }
{
    let source = ItemEnd {
        addr: head.ip.src,
        port: source_port(&head.body),
    };
    let destination = ItemEnd {
        addr: head.ip.dst,
        port: destination_port(&head.body),
    };
    is_of(rule.proto, &head.body)
        && (is_way(rule, source, destination) || rule.both && is_way(rule, destination, source))
}
