//! What the table of phases reads of a packet.
ghost use Rattle.std.specs.Prelude.{◌≡◌, ℕ};
ghost use Rattle.edge_io.specs.declared.moment.Moment.{Moment};
ghost use Rattle.packet_decode.specs.declared.packet.IpHead.{IpHead};
ghost use Rattle.stream5_sessions.specs.Phases.{IsBodyOf, segment_of, plus, fin_end, is_set};
ghost use Rattle.stream5_sessions.specs.Staying.{has_no_control};

use crate::End;
use edge_io::Moment;
use packet_decode::{Body, IpHead};

const FIN: u8 = 1;

const SYN: u8 = 2;

const RST: u8 = 4;

const ACK: u8 = 16;

/// What the table of phases reads of a packet.
#[derive(Clone, Copy, Debug, PartialEq, Eq)]
pub(crate) struct SessionSegment {
    pub sender: End,
    pub receiver: End,
    pub fin: bool,
    pub syn: bool,
    pub rst: bool,
    pub has_ack: bool,
    pub seq: u32,
    pub ack: u32,
    /// How many bytes of data it has.
    pub len: usize,
    pub moment: Moment,
}

/// The sequence number `count` places after another (RFC 793, section 3.3).
pub(crate) fn plus(seq: u32, count: usize) -> u32
    ensures { result ≡ plus seq count }
{
    ((u128::from(seq) + count as u128) % (1 << 32)) as u32
}

/// The end of a FIN: the place after the data and the FIN itself.
pub(crate) fn fin_end(segment: &SessionSegment) -> u32
    ensures { result ≡ fin_end segment.now }
{
    plus(plus(segment.seq, segment.len), 1)
}

/// One of the control bits is set.
fn is_set(flags: u8, bit: u8) -> bool
    ensures { result ≡ is_set bit flags }
{
    flags & bit != 0
}

/// The sender's port; 0 where the body has none.
pub(crate) fn sender_port(body: &Body) -> u16
    ensures { (ip : IpHead) (len : ℕ) (moment : Moment)
        → (segment_of ip body.now len moment).sender ≡ record { addr = ip.src; port = result } }
{
    match *body {
        Body::Tcp(head) => head.sport,
        Body::Udp { sport, .. } => sport,
        _ => 0,
    }
}

/// The packet acknowledges something.
pub(crate) fn has_ack(body: &Body) -> bool
    ensures { (ip : IpHead) (len : ℕ) (moment : Moment) → result ≡ (segment_of ip body.now len moment).has_ack }
{
    match *body {
        Body::Tcp(head) => is_set(head.flags, ACK),
        _ => false,
    }
}

/// The packet has none of SYN, FIN and RST.
pub(crate) fn has_no_control(body: &Body) -> bool
    ensures { (ip : IpHead) (len : ℕ) (moment : Moment) → result ≡ has_no_control (segment_of ip body.now len moment) }
{
    match *body {
        Body::Tcp(head) => {
            !is_set(head.flags, SYN) && !is_set(head.flags, FIN) && !is_set(head.flags, RST)
        }
        _ => true,
    }
}

/// A packet of a session, for the table.
pub(crate) fn segment_of(
    ip: &IpHead,
    body: &Body,
    len: usize,
    moment: Moment,
    tcp: bool,
) -> SessionSegment
    requires { IsBodyOf tcp body.now }
    ensures { result ≡ segment_of ip.now body.now len moment }
{
    match *body {
        Body::Tcp(head) => SessionSegment {
            sender: End {
                addr: ip.src,
                port: head.sport,
            },
            receiver: End {
                addr: ip.dst,
                port: head.dport,
            },
            fin: is_set(head.flags, FIN),
            syn: is_set(head.flags, SYN),
            rst: is_set(head.flags, RST),
            has_ack: is_set(head.flags, ACK),
            seq: head.seq,
            ack: head.ack,
            len,
            moment,
        },
        Body::Udp { sport, dport } => SessionSegment {
            sender: End {
                addr: ip.src,
                port: sport,
            },
            receiver: End {
                addr: ip.dst,
                port: dport,
            },
            fin: false,
            syn: false,
            rst: false,
            has_ack: false,
            seq: 0,
            ack: 0,
            len,
            moment,
        },
        _ => unreachable!(),
    }
}
