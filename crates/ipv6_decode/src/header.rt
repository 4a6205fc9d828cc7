//! The fixed header of IPv6 (RFC 8200).
ghost use Rattle.std.specs.Prelude.{◌≡◌, ◌+◌, ◌/◌, ◌%◌, ◌≤◌, length, IfOk};
ghost use Rattle.edge_io.specs.Bytes.{be16};
ghost use Rattle.ipv6_decode.specs.Headers.{packet_stop, head_at};

use crate::numbers::be128;
use edge_io::Addr;
use packet_decode::numbers::be16;
use packet_decode::{IpHead, Skip};

/// The length of an IPv6 header.
pub const HEADER_LEN: usize = 40;

const VERSION: u8 = 6;

/// Where the packet at `start` stops, header and payload.
#[tactic(auto, unfolding(crate::specs::Headers::packet_stop))]
pub fn packet_stop(bytes: &[u8], start: usize) -> Result<usize, Skip>
    requires { start ≤ length bytes.now }
    ensures exact { result ≡ packet_stop bytes.now start }
    ensures has_header { IfOk result (λ stop. start + 40 ≤ stop) }
    ensures small { IfOk result (λ stop. stop ≤ start + 40 + 65535) }
    ensures captured { IfOk result (λ stop. stop ≤ length bytes.now) }
{
    if bytes.len() < start + HEADER_LEN {
        return Err(Skip::Short);
    }
    if bytes[start] / 16 != VERSION {
        return Err(Skip::Malformed);
    }
    let stop = start + HEADER_LEN + usize::from(be16(bytes, start + 4));
    if bytes.len() < stop {
        return Err(Skip::Short);
    }
    Ok(stop)
}

/// The traffic class of the IPv6 header at `start`: four bits of the first byte and four of the
/// second.
#[tactic(auto, using(crate::proofs::Class::traffic_class))]
fn traffic_class(bytes: &[u8], start: usize) -> u8
    requires { start + 40 ≤ length bytes.now }
    ensures { result ≡ be16 bytes.now start / 16 % 256 }
{
    bytes[start] % 16 * 16 + bytes[start + 1] / 16
}

/// The fields of the IPv6 header at `start`; those of a fragment are as if there were no such
/// header.
#[tactic(auto, unfolding(crate::specs::Headers::head_at))]
pub fn ip_head(bytes: &[u8], start: usize) -> IpHead
    requires { start + 40 ≤ length bytes.now }
    ensures { result ≡ head_at bytes.now start }
{
    IpHead {
        src: Addr::V6(be128(bytes, start + 8)),
        dst: Addr::V6(be128(bytes, start + 24)),
        protocol: bytes[start + 6],
        ttl: bytes[start + 7],
        tos: traffic_class(bytes, start),
        id: 0,
        reserved: false,
        dont: false,
        more: false,
        offset: 0,
    }
}
