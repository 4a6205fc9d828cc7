//! Where the header of IP begins, after Ethernet, its tags or the cooked header.
ghost use Rattle.std.specs.Prelude.{◌≡◌, ◌+◌, ◌≤◌, length, IfOk};
ghost use Rattle.packet_decode.specs.Decoding.{after_tag, typed_start, link_start};

use crate::numbers::be16;
use crate::version::{ether_type, first_digit};
use crate::{IpVersion, Skip};
use edge_io::Link;

const ETHERNET_LEN: usize = 14;

const COOKED_LEN: usize = 16;

const TYPE_LEN: usize = 2;

const TAG_LEN: usize = 4;

const TAGGED: u16 = 0x8100;

/// The place of the next type field where the one at `place` is a tag's, and else `place`.
#[tactic(auto, unfolding(crate::specs::Decoding::after_tag))]
fn after_tag(bytes: &[u8], place: usize) -> Result<usize, Skip>
    requires { place + 2 ≤ length bytes.now }
    ensures exact { result ≡ after_tag bytes.now place }
    ensures within { IfOk result (λ inner. inner + 2 ≤ length bytes.now) }
{
    if be16(bytes, place) != TAGGED {
        return Ok(place);
    }
    if bytes.len() < place + TAG_LEN + TYPE_LEN {
        return Err(Skip::Short);
    }
    Ok(place + TAG_LEN)
}

/// Where the packet starts after the type field at `place`, and after at most two tags.
#[tactic(auto, unfolding(crate::specs::Decoding::typed_start))]
fn typed_start(version: IpVersion, bytes: &[u8], place: usize) -> Result<usize, Skip>
    requires { place + 2 ≤ length bytes.now }
    ensures exact { result ≡ typed_start version bytes.now place }
    ensures within { IfOk result (λ start. start ≤ length bytes.now) }
{
    let inner = after_tag(bytes, place)?;
    let innermost = after_tag(bytes, inner)?;
    if be16(bytes, innermost) == ether_type(version) {
        Ok(innermost + TYPE_LEN)
    } else {
        Err(Skip::OtherProtocol)
    }
}

/// Where the packet of a version starts in a captured record: the number of bytes before it, which
/// are the link header with at most two tags (IEEE 802.1Q).
///
/// `Skip::Short` says that bytes of these are missing, or that a raw record has none;
/// `Skip::OtherProtocol` that the link names something other than this version.
#[tactic(auto, unfolding(crate::specs::Decoding::link_start))]
pub fn link_start(version: IpVersion, link: Link, bytes: &[u8]) -> Result<usize, Skip>
    ensures exact { result ≡ link_start version link bytes.now }
    ensures within { IfOk result (λ start. start ≤ length bytes.now) }
{
    match link {
        Link::Ethernet => {
            if bytes.len() < ETHERNET_LEN {
                return Err(Skip::Short);
            }
            typed_start(version, bytes, ETHERNET_LEN - TYPE_LEN)
        }
        Link::Cooked => {
            if bytes.len() < COOKED_LEN {
                return Err(Skip::Short);
            }
            typed_start(version, bytes, COOKED_LEN - TYPE_LEN)
        }
        Link::RawIp => {
            if bytes.is_empty() {
                return Err(Skip::Short);
            }
            if bytes[0] / 16 == first_digit(version) {
                Ok(0)
            } else {
                Err(Skip::OtherProtocol)
            }
        }
    }
}
