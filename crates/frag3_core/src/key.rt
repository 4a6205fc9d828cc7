//! Which datagram a fragment belongs to.
ghost use Rattle.std.specs.Prelude.{◌≡◌};
ghost use Rattle.frag3_core.specs.Trackers.{key_of};

use edge_io::Addr;
use packet_decode::IpHead;

/// Which datagram a fragment belongs to (RFC 791, section 3.2).
#[derive(Clone, Copy, Debug, PartialEq, Eq)]
pub struct DatagramKey {
    pub src: Addr,
    pub dst: Addr,
    pub id: u32,
    pub protocol: u8,
}

impl DatagramKey {
    /// The datagram that a packet with this header is a fragment of.
    pub fn of(ip: &IpHead) -> DatagramKey
        ensures { result ≡ key_of ip.now }
    {
        DatagramKey {
            src: ip.src,
            dst: ip.dst,
            id: ip.id,
            protocol: ip.protocol,
        }
    }
}
