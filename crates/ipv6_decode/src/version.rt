//! Which version of the internet protocol a record is read as, and a datagram out of fragments.
ghost use Rattle.std.specs.Prelude.{◌≡◌, ◌≤◌, length, IfOk};
ghost use Rattle.packet_decode.specs.Decoding.{seen};
ghost use Rattle.ipv6_decode.specs.Versions.{rebuilt_decoded, record_decoded, IsReadAsFour};

use crate::records::{decode6, decode6_datagram};
use edge_io::{Addr, Link};
use packet_decode::{Checks, IpHead, Packet, Placed, Skip, decode_datagram};

/// The packet of a captured record, of which `four` was read as version 4: one of version 6 where it carries another
/// protocol.
///
/// `bytes` are all that was captured, and the payload is lent from them. What `decode6` says of a record that carries
/// another protocol than version 4 holds, be it a packet or a reason to skip the record; of any other record `four` does.
/// Takes no memory.
#[tactic(auto, unfolding(crate::specs::Versions::record_decoded))]
pub fn packet_of_record<'a>(
    four: Result<&Placed, Skip>,
    link: Link,
    bytes: &'a [u8],
    checks: Checks,
) -> Result<Packet<'a>, Skip>
    requires { IsReadAsFour link bytes.now checks four }
    ensures exact { seen result ≡ record_decoded link bytes.now checks }
    ensures small { IfOk result (λ packet. length packet.payload.now ≤ 65535) }
{
    match four {
        Ok(read) => Ok(read.packet(bytes)),
        Err(Skip::OtherProtocol) => decode6(link, bytes, checks),
        Err(skip) => Err(skip),
    }
}

/// The packet of a datagram that was put together from fragments: of the version that its two addresses are of.
///
/// `bytes` are all that follows the header, and the payload is lent from them. `decode_datagram` and `decode6_datagram`
/// say when the datagram is skipped. Takes no memory.
#[tactic(auto, unfolding(crate::specs::Versions::rebuilt_decoded))]
pub fn packet_of_datagram<'a>(
    ip: IpHead,
    bytes: &'a [u8],
    checks: Checks,
) -> Result<Packet<'a>, Skip>
    ensures exact { seen result ≡ rebuilt_decoded ip bytes.now checks }
    ensures within { IfOk result (λ packet. length packet.payload.now ≤ length bytes.now) }
{
    match (ip.src, ip.dst) {
        (Addr::V6(_), Addr::V6(_)) => decode6_datagram(ip, bytes, checks),
        _ => decode_datagram(ip, bytes, checks),
    }
}
