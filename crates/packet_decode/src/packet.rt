//! The headers of a packet and where its data is.
ghost use Rattle.std.specs.Prelude.{◌≡◌, false};

use edge_io::Addr;

/// The fields of an IP header: of version 4 (RFC 791, section 3.1), or of version 6 with its
/// fragment header (RFC 8200, sections 3 and 4.5).
#[derive(Clone, Copy, Debug, PartialEq, Eq)]
pub struct IpHead {
    pub src: Addr,
    pub dst: Addr,
    /// The protocol number: 6 for TCP, 17 for UDP, 1 for ICMP, 58 for that of version 6.
    pub protocol: u8,
    /// Time to live, or the hop limit.
    pub ttl: u8,
    /// Type of service, or the traffic class.
    pub tos: u8,
    /// The identification: 16 bits, or the 32 of a fragment header.
    pub id: u32,
    /// The reserved bit.
    pub reserved: bool,
    /// Don't fragment.
    pub dont: bool,
    /// More fragments.
    pub more: bool,
    /// The fragment offset, in units of 8 bytes.
    pub offset: u16,
}

impl IpHead {
    /// A whole datagram's head, from one address to another: time to live 64, all else 0.
    pub fn between(src: Addr, dst: Addr, protocol: u8) -> IpHead
        ensures { result ≡ record {
          src = src;
          dst = dst;
          protocol = protocol;
          ttl = 64;
          tos = 0;
          id = 0;
          reserved = false;
          dont = false;
          more = false;
          offset = 0;
        } }
    {
        IpHead {
            src,
            dst,
            protocol,
            ttl: 64,
            tos: 0,
            id: 0,
            reserved: false,
            dont: false,
            more: false,
            offset: 0,
        }
    }
}

/// The fields of a TCP header (RFC 793, section 3.1).
#[derive(Clone, Copy, Debug, PartialEq, Eq)]
pub struct TcpHead {
    pub sport: u16,
    pub dport: u16,
    pub seq: u32,
    pub ack: u32,
    /// All eight bits of the byte at offset 13: FIN is 1, SYN 2, RST 4, PSH 8, ACK 16, URG 32.
    pub flags: u8,
    pub window: u16,
}

/// What a packet carries after its IP header.
#[derive(Clone, Copy, Debug, PartialEq, Eq)]
pub enum Body {
    Tcp(TcpHead),
    Udp {
        sport: u16,
        dport: u16,
    },
    Icmp {
        kind: u8,
        code: u8,
        id: u16,
        seq: u16,
    },
    /// A protocol without a reader here: the payload is all that it carries.
    Other,
    /// A fragment: the payload is its part of the datagram.
    Fragment,
    /// A stretch of a reassembled stream. No call of this crate makes it.
    Stream {
        sport: u16,
        dport: u16,
    },
}

/// A packet, its payload lent from the record.
#[derive(Clone, Copy, Debug, PartialEq, Eq)]
pub struct Packet<'a> {
    pub ip: IpHead,
    pub body: Body,
    pub payload: &'a [u8],
}
