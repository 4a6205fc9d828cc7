//! A packet whose payload is named by its place, and the packet that is lent from it.
ghost use Rattle.std.specs.Prelude.{◌≡◌, ◌+◌, ◌≤◌, length};
ghost use Rattle.packet_decode.specs.Decoding.{fields_at, fields_of, payload_at};

use crate::{Body, IpHead, Packet};
use edge_io::Addr;

/// A packet, its payload by its place in the bytes that it was read from.
///
/// It is written in place, so that the fields of a packet aren't moved from call to call.
#[derive(Clone, Copy, Debug, PartialEq, Eq)]
pub struct Placed {
    pub ip: IpHead,
    pub body: Body,
    /// The place of the payload's first byte.
    pub start: usize,
    /// How many bytes the payload has.
    pub len: usize,
}

impl Placed {
    /// A place for a packet, before one is read.
    pub const EMPTY: Placed = Placed {
        ip: IpHead {
            src: Addr::V4(0),
            dst: Addr::V4(0),
            protocol: 0,
            ttl: 0,
            tos: 0,
            id: 0,
            reserved: false,
            dont: false,
            more: false,
            offset: 0,
        },
        body: Body::Other,
        start: 0,
        len: 0,
    };

    /// The payload, lent from the bytes that the packet was read from.
    pub fn payload<'a>(&self, bytes: &'a [u8]) -> &'a [u8]
        requires { self.now.start + self.now.len ≤ length bytes.now }
        ensures exact { result.now ≡ payload_at bytes.now self.now }
        ensures len { length result.now ≡ self.now.len }
    {
        &bytes[self.start..self.start + self.len]
    }

    /// The packet, its payload lent from the bytes that it was read from.
    pub fn packet<'a>(&self, bytes: &'a [u8]) -> Packet<'a>
        requires { self.now.start + self.now.len ≤ length bytes.now }
        ensures exact { fields_of result ≡ fields_at bytes.now self.now }
        ensures len { length result.payload.now ≡ self.now.len }
    {
        Packet {
            ip: self.ip,
            body: self.body,
            payload: self.payload(bytes),
        }
    }

    /// Puts in what comes after the header.
    pub(crate) fn put(&mut self, body: Body, start: usize, len: usize)
        ensures { self.new ≡ record self.old { body = body; start = start; len = len } }
    {
        self.body = body;
        self.start = start;
        self.len = len;
    }
}
