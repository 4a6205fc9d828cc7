//! Walking over extension headers to the transport header.
ghost use Rattle.std.specs.Prelude.{◌≡◌, ◌+◌, ◌≤◌, length, IfOk};
ghost use Rattle.ipv6_decode.specs.Headers.{has_length_field, is_at_header, after_length_field, fragment_head, after_fragment_header, after_header, most_headers, walk_end};

use packet_decode::numbers::{be16, be32};
use packet_decode::{IpHead, Skip};

const HOP_BY_HOP: u8 = 0;

const ROUTING: u8 = 43;

const FRAGMENT: u8 = 44;

const DESTINATION: u8 = 60;

/// The length of an extension header whose length field is 0, and of a fragment header.
const MIN_LEN: usize = 8;

/// What a length field counts.
const UNIT: usize = 8;

const MORE_FRAGMENTS: u16 = 1;

/// How many extension headers are walked.
const MAX_HEADERS: u8 = 8;

/// Where a walk over extension headers is in a packet.
#[derive(Clone, Copy, Debug)]
pub struct HeaderWalk {
    /// The head so far: its protocol says what is at the place.
    pub head: IpHead,
    pub place: usize,
    /// A part of a datagram is at the place: so says the fragment header before it.
    pub is_part: bool,
}

/// The next header is one with a length field.
fn has_length_field(next: u8) -> bool
    ensures { result ≡ has_length_field next }
{
    next == HOP_BY_HOP || next == ROUTING || next == DESTINATION
}

/// An extension header is at the place.
fn is_at_header(walk: &HeaderWalk) -> bool
    ensures { result ≡ is_at_header walk.now }
{
    let next = walk.head.protocol;
    !walk.is_part && (has_length_field(next) || next == FRAGMENT)
}

/// The walk after an extension header with a length field.
#[tactic(auto, unfolding(crate::specs::Headers::after_length_field))]
fn after_length_field(walk: HeaderWalk, packet: &[u8]) -> Result<HeaderWalk, Skip>
    requires { walk.place ≤ length packet.now }
    ensures exact { result ≡ after_length_field walk packet.now }
    ensures onward { IfOk result (λ next. walk.place ≤ next.place) }
    ensures within { IfOk result (λ next. next.place ≤ length packet.now) }
{
    let place = walk.place;
    if packet.len() < place + 2 {
        return Err(Skip::Malformed);
    }
    let end = place + MIN_LEN + UNIT * usize::from(packet[place + 1]);
    if packet.len() < end {
        return Err(Skip::Malformed);
    }
    Ok(HeaderWalk {
        head: IpHead {
            protocol: packet[place],
            ..walk.head
        },
        place: end,
        is_part: walk.is_part,
    })
}

/// The head with what the fragment header at `place` says.
#[tactic(auto, using(crate::proofs::Flag::flag), unfolding(crate::specs::Headers::fragment_head))]
fn fragment_head(head: IpHead, packet: &[u8], place: usize) -> IpHead
    requires { place + 8 ≤ length packet.now }
    ensures { result ≡ fragment_head head packet.now place }
{
    let fragmentation = be16(packet, place + 2);
    IpHead {
        protocol: packet[place],
        id: be32(packet, place + 4),
        more: fragmentation & MORE_FRAGMENTS != 0,
        offset: fragmentation >> 3,
        ..head
    }
}

/// The walk after a fragment header.
#[tactic(auto, unfolding(crate::specs::Headers::after_fragment_header))]
fn after_fragment_header(walk: HeaderWalk, packet: &[u8]) -> Result<HeaderWalk, Skip>
    requires { walk.place ≤ length packet.now }
    ensures exact { result ≡ after_fragment_header walk packet.now }
    ensures onward { IfOk result (λ next. walk.place ≤ next.place) }
    ensures within { IfOk result (λ next. next.place ≤ length packet.now) }
{
    let end = walk.place + MIN_LEN;
    if packet.len() < end {
        return Err(Skip::Malformed);
    }
    let head = fragment_head(walk.head, packet, walk.place);
    Ok(HeaderWalk {
        head,
        place: end,
        is_part: head.more || head.offset > 0,
    })
}

/// The walk after the extension header at the place.
#[tactic(auto, unfolding(crate::specs::Headers::after_header))]
fn after_header(walk: HeaderWalk, packet: &[u8]) -> Result<HeaderWalk, Skip>
    requires { walk.place ≤ length packet.now }
    ensures exact { result ≡ after_header walk packet.now }
    ensures onward { IfOk result (λ next. walk.place ≤ next.place) }
    ensures within { IfOk result (λ next. next.place ≤ length packet.now) }
{
    if walk.head.protocol == FRAGMENT {
        after_fragment_header(walk, packet)
    } else {
        after_length_field(walk, packet)
    }
}

/// Where a walk ends: at a part of a datagram, or at what is no extension header.
#[tactic(auto, using(crate::proofs::Walks::walks))]
pub fn walk_end(start: HeaderWalk, packet: &[u8]) -> Result<HeaderWalk, Skip>
    requires { start.place ≤ length packet.now }
    ensures exact { result ≡ walk_end most_headers start packet.now }
    ensures onward { IfOk result (λ end. start.place ≤ end.place) }
    ensures within { IfOk result (λ end. end.place ≤ length packet.now) }
{
    let mut walk = start;
    let mut left = MAX_HEADERS;
    while is_at_header(&walk) {
        if left == 0 {
            return Err(Skip::Malformed);
        }
        walk = after_header(walk, packet)?;
        left -= 1;
    }
    Ok(walk)
}
