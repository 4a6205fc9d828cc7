//! A packet of a flow as it comes.

ghost use Rattle.std.specs.Prelude.{◌≡◌};
ghost use Rattle.stream5_sessions.specs.Keys.{same_end};
ghost use Rattle.flow_lanes.specs.Given.{packet_of};
ghost use Rattle.flow_lanes.specs.Sessions.{ack_of, is_tcp, receiver, sender, seq_of, toward};

use crate::job::Toward;
use edge_io::Moment;
use packet_decode::{Body, ItemHead};
use stream5_sessions::End;

/// A packet, lent from its job, with its moment and what goes by its two ends.
#[derive(Drop)]
pub(crate) struct Arrival<'a> {
    pub head: &'a ItemHead,
    pub payload: &'a [u8],
    pub moment: Moment,
    pub to_dst: Toward,
    pub to_src: Toward,
}

/// The two ends are one.
pub(crate) fn same_end(a: End, b: End) -> bool
    ensures { result ≡ same_end a b }
{
    a == b
}

impl Arrival<'_> {
    /// The packet is of TCP.
    pub fn is_tcp(&self) -> bool
        ensures { result ≡ is_tcp self.now.head.now.body }
    {
        matches!(self.head.body, Body::Tcp(_))
    }

    /// The source and destination port; 0 where the body has none.
    fn ports(&self) -> (u16, u16)
        ensures sender { result.0 ≡ (sender (packet_of self.now)).port }
        ensures receiver { result.1 ≡ (receiver (packet_of self.now)).port }
    {
        match self.head.body {
            Body::Tcp(head) => (head.sport, head.dport),
            Body::Udp { sport, dport } => (sport, dport),
            _ => (0, 0),
        }
    }

    /// The end that sent it.
    pub fn sender(&self) -> End
        ensures { result ≡ sender (packet_of self.now) }
    {
        let (port, _) = self.ports();
        End {
            addr: self.head.ip.src,
            port,
        }
    }

    /// The end that it goes to.
    pub fn receiver(&self) -> End
        ensures { result ≡ receiver (packet_of self.now) }
    {
        let (_, port) = self.ports();
        End {
            addr: self.head.ip.dst,
            port,
        }
    }

    /// The sequence number of its first byte.
    pub fn seq(&self) -> u32
        ensures { result ≡ seq_of (packet_of self.now) }
    {
        match self.head.body {
            Body::Tcp(head) => head.seq,
            _ => 0,
        }
    }

    /// What the packet acknowledges.
    pub fn ack(&self) -> u32
        ensures { result ≡ ack_of (packet_of self.now) }
    {
        match self.head.body {
            Body::Tcp(head) => head.ack,
            _ => 0,
        }
    }

    /// What goes by an end of the packet.
    pub fn toward(&self, end: End) -> Toward
        ensures { result ≡ toward (packet_of self.now) end }
    {
        if same_end(end, self.receiver()) {
            self.to_dst
        } else {
            self.to_src
        }
    }
}
