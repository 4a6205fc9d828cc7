//! The header of IPv4 (RFC 791), and its checksum.
ghost use Rattle.std.specs.Prelude.{◌≡◌, ◌+◌, ◌≤◌, length, IfOk};
ghost use Rattle.packet_decode.specs.Decoding.{data_bounds, ip_head_at, is_fragment};

use crate::numbers::{be16, be32};
use crate::{IpHead, Skip};
use edge_io::Addr;

/// The length of an IPv4 header without options.
const MIN_LEN: usize = 20;

const RESERVED: u16 = 0x8000;

const DONT_FRAGMENT: u16 = 0x4000;

const MORE_FRAGMENTS: u16 = 0x2000;

const OFFSET: u16 = 0x1fff;

/// Where the data of a datagram start and stop in their record.
#[derive(Clone, Copy, Debug)]
pub struct DataBounds {
    pub start: usize,
    pub stop: usize,
}

/// The bounds of the data of the IPv4 datagram at `start`.
#[tactic(auto, unfolding(crate::specs::Decoding::data_bounds))]
pub fn data_bounds(bytes: &[u8], start: usize) -> Result<DataBounds, Skip>
    requires { start ≤ length bytes.now }
    ensures exact { result ≡ data_bounds bytes.now start }
    ensures has_header { IfOk result (λ bounds. start + 20 ≤ bounds.start) }
    ensures in_order { IfOk result (λ bounds. bounds.start ≤ bounds.stop) }
    ensures small { IfOk result (λ bounds. bounds.stop ≤ start + 65535) }
    ensures captured { IfOk result (λ bounds. bounds.stop ≤ length bytes.now) }
{
    if bytes.len() < start + MIN_LEN {
        return Err(Skip::Short);
    }
    let version = bytes[start] / 16;
    let header_len = usize::from(bytes[start] % 16) * 4;
    let total_len = usize::from(be16(bytes, start + 2));
    if version != 4 || header_len < MIN_LEN || total_len < header_len {
        return Err(Skip::Malformed);
    }
    if bytes.len() < start + total_len {
        return Err(Skip::Short);
    }
    Ok(DataBounds {
        start: start + header_len,
        stop: start + total_len,
    })
}

/// The fields of the IPv4 header at `start`.
#[tactic(auto, using(crate::proofs::Flags::flags), unfolding(crate::specs::Decoding::ip_head_at))]
pub fn ip_head(bytes: &[u8], start: usize) -> IpHead
    requires { start + 20 ≤ length bytes.now }
    ensures { result ≡ ip_head_at bytes.now start }
{
    let fragmentation = be16(bytes, start + 6);
    IpHead {
        src: Addr::V4(be32(bytes, start + 12)),
        dst: Addr::V4(be32(bytes, start + 16)),
        protocol: bytes[start + 9],
        ttl: bytes[start + 8],
        tos: bytes[start + 1],
        id: u32::from(be16(bytes, start + 4)),
        reserved: fragmentation & RESERVED != 0,
        dont: fragmentation & DONT_FRAGMENT != 0,
        more: fragmentation & MORE_FRAGMENTS != 0,
        offset: fragmentation & OFFSET,
    }
}

/// The packet is a part of a datagram.
pub fn is_fragment(ip: &IpHead) -> bool
    ensures { result ≡ is_fragment ip.now }
{
    ip.more || ip.offset > 0
}
