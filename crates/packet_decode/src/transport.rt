//! The headers of TCP, UDP and ICMP.
ghost use Rattle.std.specs.Prelude.{◌≡◌, ◌+◌, ◌≤◌, length, IfOk, OnOk};
ghost use Rattle.std.specs.Result.{result_err};
ghost use Rattle.packet_decode.specs.Decoding.{seen, placed, tcp_head_at, tcp_at, udp_at, icmp_at, datagram_decoded};

use crate::checksum::{is_message_right, is_segment_right};
use crate::numbers::{be16, be32};
use crate::version::{icmp_protocol, version_of};
use crate::{Body, Checks, IpHead, Packet, Placed, Skip, TcpHead};

const TCP: u8 = 6;

const UDP: u8 = 17;

/// The length of a TCP header without options.
const TCP_LEN: usize = 20;

const UDP_LEN: usize = 8;

const ICMP_LEN: usize = 8;

/// The fields of the TCP header at the front of a segment.
#[tactic(auto, unfolding(crate::specs::Decoding::tcp_head_at))]
fn tcp_head(segment: &[u8]) -> TcpHead
    requires { 20 ≤ length segment.now }
    ensures { result ≡ tcp_head_at segment.now 0 }
{
    TcpHead {
        sport: be16(segment, 0),
        dport: be16(segment, 2),
        seq: be32(segment, 4),
        ack: be32(segment, 8),
        flags: segment[13],
        window: be16(segment, 14),
    }
}

/// A TCP segment, with its checksum if `check` holds.
#[tactic(auto, unfolding(crate::specs::Decoding::tcp_at))]
fn tcp(segment: &[u8], check: bool, out: &mut Placed) -> Result<(), Skip>
    ensures told { placed segment.now (result_err result) out.new
        ≡ tcp_at out.old.ip segment.now 0 (length segment.now) check }
    ensures within { OnOk result (out.new.start + out.new.len ≤ length segment.now) }
{
    if segment.len() < TCP_LEN {
        return Err(Skip::Malformed);
    }
    let header_len = usize::from(segment[12] / 16) * 4;
    if header_len < TCP_LEN || segment.len() < header_len {
        return Err(Skip::Malformed);
    }
    if check && !is_segment_right(&out.ip, segment) {
        return Err(Skip::Checksum);
    }
    let body = Body::Tcp(tcp_head(segment));
    out.put(body, header_len, segment.len() - header_len);
    Ok(())
}

/// A UDP datagram, which ends by its own length, with its checksum if `check` holds and it has one.
#[tactic(auto, unfolding(crate::specs::Decoding::udp_at))]
fn udp(bytes: &[u8], check: bool, out: &mut Placed) -> Result<(), Skip>
    ensures told { placed bytes.now (result_err result) out.new
        ≡ udp_at out.old.ip bytes.now 0 (length bytes.now) check }
    ensures within { OnOk result (out.new.start + out.new.len ≤ length bytes.now) }
{
    if bytes.len() < UDP_LEN {
        return Err(Skip::Malformed);
    }
    let len = usize::from(be16(bytes, 4));
    if len < UDP_LEN || bytes.len() < len {
        return Err(Skip::Malformed);
    }
    let has_checksum = be16(bytes, 6) != 0;
    if check && has_checksum && !is_segment_right(&out.ip, &bytes[..len]) {
        return Err(Skip::Checksum);
    }
    let body = Body::Udp {
        sport: be16(bytes, 0),
        dport: be16(bytes, 2),
    };
    out.put(body, UDP_LEN, len - UDP_LEN);
    Ok(())
}

/// An ICMP message, with its checksum if `check` holds.
#[tactic(auto, unfolding(crate::specs::Decoding::icmp_at))]
fn icmp(message: &[u8], check: bool, out: &mut Placed) -> Result<(), Skip>
    ensures told { placed message.now (result_err result) out.new
        ≡ icmp_at out.old.ip message.now 0 (length message.now) check }
    ensures within { OnOk result (out.new.start + out.new.len ≤ length message.now) }
{
    if message.len() < ICMP_LEN {
        return Err(Skip::Malformed);
    }
    if check && !is_message_right(version_of(out.ip.src), &out.ip, message) {
        return Err(Skip::Checksum);
    }
    let body = Body::Icmp {
        kind: message[0],
        code: message[1],
        id: be16(message, 4),
        seq: be16(message, 6),
    };
    out.put(body, ICMP_LEN, message.len() - ICMP_LEN);
    Ok(())
}

/// The data of a datagram, by the protocol of its head, which is in `out`.
#[tactic(auto, unfolding(crate::specs::Decoding::datagram_decoded, crate::specs::Decoding::transport_at))]
pub(crate) fn transport(bytes: &[u8], checks: Checks, out: &mut Placed) -> Result<(), Skip>
    ensures told { placed bytes.now (result_err result) out.new
        ≡ datagram_decoded out.old.ip bytes.now checks }
    ensures within { OnOk result (out.new.start + out.new.len ≤ length bytes.now) }
{
    let protocol = out.ip.protocol;
    if protocol == TCP {
        tcp(bytes, checks.tcp, out)
    } else if protocol == UDP {
        udp(bytes, checks.udp, out)
    } else if protocol == icmp_protocol(version_of(out.ip.src)) {
        icmp(bytes, checks.icmp, out)
    } else {
        out.put(Body::Other, 0, bytes.len());
        Ok(())
    }
}

/// Reads the transport header of a datagram that was put together from fragments, by the protocol
/// of its head: TCP (RFC 793), UDP (RFC 768), ICMP (RFC 792), or all bytes as the payload.
///
/// `bytes` are the whole data of the datagram, and the payload is lent from them. The head comes
/// back unchanged; its fragment fields aren't looked at. `Skip::Malformed` says that a header or its
/// length doesn't fit the bytes, and `Skip::Checksum` that a checksum which `checks` asks for is
/// wrong. A UDP checksum of 0 is none. Takes no memory.
pub fn decode_datagram<'a>(ip: IpHead, bytes: &'a [u8], checks: Checks) -> Result<Packet<'a>, Skip>
    ensures exact { seen result ≡ datagram_decoded ip bytes.now checks }
    ensures within { IfOk result (λ packet. length packet.payload.now ≤ length bytes.now) }
{
    let mut read = Placed {
        ip,
        ..Placed::EMPTY
    };
    transport(bytes, checks, &mut read)?;
    Ok(read.packet(bytes))
}
