//! The options that look at fields.
ghost use Rattle.std.specs.Prelude.{◌≡◌};
ghost use Rattle.edge_io.specs.Addresses.{same_addr};
ghost use Rattle.header_eval.specs.Fields.{of_packet, itype, icode, icmp_id, icmp_seq, field_value, value_compares, flags_hold, fragbits, fragbits_hold, field_holds};

use crate::compare::{bits_hold, compares};
use crate::flow::flow_holds;
use crate::kind::{is_stream, tcp_of};
use crate::stream_size::stream_size_holds;
use edge_io::Addr;
use packet_decode::{Body, IpHead, ItemHead, TcpHead};
use rule_types::{Cmp, Field, Mode, Opt};

/// A number that each packet has, and no stretch of a stream.
fn of_packet(head: &ItemHead, number: u64) -> Option<u64>
    ensures { result ≡ of_packet head.now number }
{
    if is_stream(head.kind) {
        None
    } else {
        Some(number)
    }
}

/// The type of an ICMP packet (RFC 792).
fn itype(body: &Body) -> Option<u64>
    ensures { result ≡ itype body.now }
{
    match body {
        Body::Icmp { kind, .. } => Some(u64::from(*kind)),
        _ => None,
    }
}

/// The code of an ICMP packet.
fn icode(body: &Body) -> Option<u64>
    ensures { result ≡ icode body.now }
{
    match body {
        Body::Icmp { code, .. } => Some(u64::from(*code)),
        _ => None,
    }
}

/// The identifier of an ICMP packet.
fn icmp_id(body: &Body) -> Option<u64>
    ensures { result ≡ icmp_id body.now }
{
    match body {
        Body::Icmp { id, .. } => Some(u64::from(*id)),
        _ => None,
    }
}

/// The sequence number of an ICMP packet.
fn icmp_seq(body: &Body) -> Option<u64>
    ensures { result ≡ icmp_seq body.now }
{
    match body {
        Body::Icmp { seq, .. } => Some(u64::from(*seq)),
        _ => None,
    }
}

/// The number that a field has, where the item has the field.
#[tactic(auto, unfolding(crate::specs::Fields::field_value))]
fn field_value(field: Field, head: &ItemHead, len: usize) -> Option<u64>
    ensures { result ≡ field_value field head.now len }
{
    match field {
        Field::Ttl => of_packet(head, u64::from(head.ip.ttl)),
        Field::Tos => of_packet(head, u64::from(head.ip.tos)),
        Field::Id => of_packet(head, u64::from(head.ip.id)),
        Field::FragOffset => of_packet(head, u64::from(head.ip.offset)),
        Field::IpProto => Some(u64::from(head.ip.protocol)),
        Field::Seq => tcp_of(head).map(|tcp| u64::from(tcp.seq)),
        Field::Ack => tcp_of(head).map(|tcp| u64::from(tcp.ack)),
        Field::Window => tcp_of(head).map(|tcp| u64::from(tcp.window)),
        Field::Itype => itype(&head.body),
        Field::Icode => icode(&head.body),
        Field::IcmpId => icmp_id(&head.body),
        Field::IcmpSeq => icmp_seq(&head.body),
        Field::Dsize => of_packet(head, len as u64),
    }
}

/// The comparison of a number that may lack.
fn value_compares(value: Option<u64>, cmp: Cmp, low: u32, high: u32) -> bool
    ensures { result ≡ value_compares value cmp low high }
{
    match value {
        None => false,
        Some(number) => compares(cmp, number, low, high),
    }
}

/// Whether the flags of a TCP packet that aren't in the mask are as the option asks.
fn flags_hold(tcp: Option<TcpHead>, mode: Mode, bits: u8, mask: u8) -> bool
    ensures { result ≡ flags_hold tcp mode bits mask }
{
    match tcp {
        None => false,
        Some(tcp) => bits_hold(mode, tcp.flags & !mask, bits),
    }
}

/// The three bits: more fragments 1, don't fragment 2, reserved 4.
fn fragbits(ip: &IpHead) -> u8
    ensures { result ≡ fragbits ip.now }
{
    let more = if ip.more { 1 } else { 0 };
    let dont = if ip.dont { 2 } else { 0 };
    let reserved = if ip.reserved { 4 } else { 0 };
    more + dont + reserved
}

/// Whether the fragment bits of a packet are as the option asks.
fn fragbits_hold(head: &ItemHead, mode: Mode, bits: u8) -> bool
    ensures { result ≡ fragbits_hold head.now mode bits }
{
    !is_stream(head.kind) && bits_hold(mode, fragbits(&head.ip), bits)
}

/// Whether two addresses are the same.
fn sameip_holds(a: Addr, b: Addr) -> bool
    ensures { result ≡ same_addr a b }
{
    a == b
}

/// Whether the option holds of an item with `len` bytes of payload. An option that tests no field
/// holds of every item. Takes no memory.
#[tactic(auto, unfolding(crate::specs::Fields::field_holds))]
pub fn field_matches(opt: &Opt, head: &ItemHead, len: usize) -> bool
    ensures { result ≡ field_holds opt.now head.now len }
{
    match opt {
        Opt::Flow(flow) => flow_holds(flow, head),
        Opt::Flags { mode, bits, mask } => flags_hold(tcp_of(head), *mode, *bits, *mask),
        Opt::FragBits { mode, bits } => fragbits_hold(head, *mode, *bits),
        Opt::Compare {
            field,
            cmp,
            low,
            high,
        } => value_compares(field_value(*field, head, len), *cmp, *low, *high),
        Opt::SameIp => sameip_holds(head.ip.src, head.ip.dst),
        Opt::StreamSize { side, cmp, value } => {
            stream_size_holds(head.session.sizes, *side, *cmp, *value)
        }
        Opt::Content(_)
        | Opt::Pcre { .. }
        | Opt::ByteTest { .. }
        | Opt::ByteJump { .. }
        | Opt::ByteExtract { .. }
        | Opt::IsDataAt { .. }
        | Opt::BitTest { .. }
        | Opt::BitDo { .. }
        | Opt::Reassemble { .. } => true,
    }
}
