//! Decoding a packet of IPv6, whole or a fragment.
ghost use Rattle.std.specs.Prelude.{◌≡◌, ◌+◌, ◌≤◌, length, IfOk};
ghost use Rattle.packet_decode.specs.Decoding.{seen};
ghost use Rattle.packet_decode.specs.Versions.{version_of};
ghost use Rattle.ipv6_decode.specs.Decoding6.{upper_at, walk_start, packet_after, packet_at, decoded6, datagram_decoded6};

use crate::header::{HEADER_LEN, ip_head, packet_stop};
use crate::walk::{HeaderWalk, walk_end};
use edge_io::Link;
use packet_decode::{Body, Checks, IpHead, IpVersion, Packet, Skip, decode_datagram, link_start};

/// The transport header and its data, where a walk ended.
fn upper<'a>(walk: HeaderWalk, packet: &'a [u8], checks: Checks) -> Result<Packet<'a>, Skip>
    requires { walk.place ≤ length packet.now }
    ensures exact { seen result ≡ upper_at walk packet.now checks }
    ensures within { IfOk result
        (λ found. walk.place + length found.payload.now ≤ length packet.now) }
{
    decode_datagram(walk.head, &packet[walk.place..], checks)
}

/// Where the walk over the extension headers of the packet at `start` begins.
#[tactic(auto, unfolding(crate::specs::Decoding6::walk_start))]
fn walk_start(packet: &[u8], start: usize) -> HeaderWalk
    requires { start + 40 ≤ length packet.now }
    ensures exact { result ≡ walk_start packet.now start }
    ensures place { result.place ≡ start + 40 }
{
    HeaderWalk {
        head: ip_head(packet, start),
        place: start + HEADER_LEN,
        is_part: false,
    }
}

/// The packet with which the bytes end, and whose walk ended so.
#[tactic(auto, unfolding(crate::specs::Decoding6::packet_after))]
fn packet_after<'a>(walk: HeaderWalk, packet: &'a [u8], checks: Checks) -> Result<Packet<'a>, Skip>
    requires { walk.place ≤ length packet.now }
    ensures exact { seen result ≡ packet_after walk packet.now checks }
    ensures within { IfOk result
        (λ found. walk.place + length found.payload.now ≤ length packet.now) }
{
    if walk.is_part {
        Ok(Packet {
            ip: walk.head,
            body: Body::Fragment,
            payload: &packet[walk.place..],
        })
    } else {
        upper(walk, packet, checks)
    }
}

/// The packet at `start`, with which the bytes end.
#[tactic(auto, unfolding(crate::specs::Decoding6::packet_at))]
fn packet_at<'a>(packet: &'a [u8], start: usize, checks: Checks) -> Result<Packet<'a>, Skip>
    requires { start + 40 ≤ length packet.now }
    ensures exact { seen result ≡ packet_at packet.now start checks }
    ensures within { IfOk result
        (λ found. start + 40 + length found.payload.now ≤ length packet.now) }
{
    let walk = walk_end(walk_start(packet, start), packet)?;
    packet_after(walk, packet, checks)
}

/// Reads the headers of a captured record: link header and tags, the IPv6 header (RFC 8200), its
/// extension headers, and the transport header as `decode_datagram` does, unless the packet is a
/// fragment.
///
/// `bytes` are all that was captured, and the payload is lent from them; it ends with the packet.
/// The first step that fails decides. `Skip::Short` says that captured bytes are missing, up to the
/// payload length; `Skip::OtherProtocol` that this is no IPv6, or comes after more than two tags;
/// `Skip::Malformed` that the version isn't 6, that an extension header ends after the packet,
/// that there are more than eight of them, or that the transport header doesn't fit;
/// `Skip::Checksum` that a checksum which `checks` asks for is wrong. A UDP checksum of 0 is none.
/// Takes no memory.
#[tactic(auto, unfolding(crate::specs::Decoding6::decoded6))]
pub fn decode6<'a>(link: Link, bytes: &'a [u8], checks: Checks) -> Result<Packet<'a>, Skip>
    ensures exact { seen result ≡ decoded6 link bytes.now checks }
    ensures small { IfOk result (λ packet. length packet.payload.now ≤ 65535) }
{
    let start = link_start(IpVersion::Six, link, bytes)?;
    let stop = packet_stop(bytes, start)?;
    packet_at(&bytes[..stop], start, checks)
}

/// Reads the extension headers and the transport header of a datagram that was put together from
/// fragments, beginning with what the protocol of its head names.
///
/// `bytes` are all that follows the header, and the payload is lent from them. The head comes back
/// with the protocol of the transport header, and with the identification of a fragment header, if
/// there is one. `Skip::Malformed` says that an extension header ends after the bytes, that there
/// are more than eight, that one of them makes the datagram a part of another, or that the
/// transport header doesn't fit; `Skip::Checksum` that a checksum which `checks` asks for is wrong.
/// Takes no memory.
#[tactic(auto, unfolding(crate::specs::Decoding6::datagram_decoded6))]
pub fn decode6_datagram<'a>(ip: IpHead, bytes: &'a [u8], checks: Checks) -> Result<Packet<'a>, Skip>
    requires source { version_of ip.src ≡ IpVersion.Six }
    requires destination { version_of ip.dst ≡ IpVersion.Six }
    ensures exact { seen result ≡ datagram_decoded6 ip bytes.now checks }
    ensures within { IfOk result (λ packet. length packet.payload.now ≤ length bytes.now) }
{
    let walk = walk_end(
        HeaderWalk {
            head: ip,
            place: 0,
            is_part: false,
        },
        bytes,
    )?;
    if walk.is_part {
        return Err(Skip::Malformed);
    }
    upper(walk, bytes, checks)
}
