//! What names a flow: hashes over its ends.
ghost use Rattle.std.specs.Prelude.{◌≡◌, ◌++◌, List, ℕ, IfOk, string_bytes, option_map};
ghost use Rattle.sha1.specs.Sha1.{Holds};
ghost use Rattle.alert_json.specs.declared.event.Pair.TheVariants.{Ports};
ghost use Rattle.alert_json.specs.FlowNumbers.{address_number, address_bytes, is_in_order, turned, in_order, addresses_text, plain_hash, port_hash, partner, partner4, partner6, ends_of, message_ends, has_ports, wants_pair, community_hash, number_hash, community_text, first_bits};

use crate::event::{FiveTuple, Pair};
use base64::engine::general_purpose::STANDARD;
use edge_io::Addr;
use sha1::Sha1;
use std::alloc::{AllocError, Global};

/// The two ends of a flow, as they are hashed: addresses, and what takes the place of ports.
#[derive(Clone, Copy, Debug)]
pub(crate) struct Ends {
    pub(crate) first: Addr,
    pub(crate) second: Addr,
    pub(crate) here: u16,
    pub(crate) there: u16,
}

fn address_number(address: Addr) -> u128
    ensures { result ≡ address_number address }
{
    match address {
        Addr::V4(address) => address as u128,
        Addr::V6(address) => address,
    }
}

#[tactic(auto, unfolding(crate::specs::FlowNumbers::is_in_order))]
fn is_in_order(ends: Ends) -> bool
    ensures { result ≡ is_in_order ends }
{
    let first = address_number(ends.first);
    let second = address_number(ends.second);
    first < second || (first == second && ends.here <= ends.there)
}

#[tactic(auto, unfolding(crate::specs::FlowNumbers::in_order, crate::specs::FlowNumbers::turned))]
fn in_order(ends: Ends) -> Ends
    ensures { result ≡ in_order ends }
{
    if is_in_order(ends) {
        ends
    } else {
        Ends {
            first: ends.second,
            second: ends.first,
            here: ends.there,
            there: ends.here,
        }
    }
}

fn update_address(hasher: &mut Sha1, address: Addr)
    ensures { (m : List ℕ) → Holds hasher.old m → Holds hasher.new (m ++ address_bytes address) }
{
    match address {
        Addr::V4(address) => hasher.update(&address.to_be_bytes()),
        Addr::V6(address) => hasher.update(&address.to_be_bytes()),
    }
}

#[tactic(auto, unfolding(crate::specs::FlowNumbers::addresses_text))]
fn addresses_taken(seed: u16, protocol: u8, ends: Ends) -> Sha1
    ensures { Holds result (addresses_text seed protocol ends) }
{
    let mut hasher = Sha1::new();
    hasher.update(&seed.to_be_bytes());
    update_address(&mut hasher, ends.first);
    update_address(&mut hasher, ends.second);
    hasher.update(&[protocol, 0]);
    hasher
}

#[tactic(auto, unfolding(crate::specs::FlowNumbers::plain_hash))]
fn plain_hash(seed: u16, protocol: u8, ends: Ends) -> [u8; 20]
    ensures { result ≡ plain_hash seed protocol ends }
{
    addresses_taken(seed, protocol, ends).finalize()
}

#[tactic(auto, unfolding(crate::specs::FlowNumbers::port_hash))]
fn port_hash(seed: u16, protocol: u8, ends: Ends) -> [u8; 20]
    ensures { result ≡ port_hash seed protocol ends }
{
    let mut hasher = addresses_taken(seed, protocol, ends);
    hasher.update(&ends.here.to_be_bytes());
    hasher.update(&ends.there.to_be_bytes());
    hasher.finalize()
}

#[tactic(auto, unfolding(crate::specs::FlowNumbers::partner4))]
fn partner4(kind: u16) -> Option<u16>
    ensures { result ≡ partner4 kind }
{
    match kind {
        8 => Some(0),
        0 => Some(8),
        13 => Some(14),
        14 => Some(13),
        15 => Some(16),
        16 => Some(15),
        17 => Some(18),
        18 => Some(17),
        10 => Some(9),
        9 => Some(10),
        _ => None,
    }
}

#[tactic(auto, unfolding(crate::specs::FlowNumbers::partner6))]
fn partner6(kind: u16) -> Option<u16>
    ensures { result ≡ partner6 kind }
{
    match kind {
        128 => Some(129),
        129 => Some(128),
        133 => Some(134),
        134 => Some(133),
        135 => Some(136),
        136 => Some(135),
        130 => Some(131),
        131 => Some(130),
        139 => Some(140),
        140 => Some(139),
        144 => Some(145),
        145 => Some(144),
        _ => None,
    }
}

#[tactic(auto, unfolding(crate::specs::FlowNumbers::partner))]
fn partner(protocol: u8, kind: u16) -> Option<u16>
    ensures { result ≡ partner protocol kind }
{
    match protocol {
        1 => partner4(kind),
        58 => partner6(kind),
        _ => None,
    }
}

fn ends_of(flow: FiveTuple, here: u16, there: u16) -> Ends
    ensures { result ≡ ends_of flow here there }
{
    Ends {
        first: flow.src,
        second: flow.dst,
        here,
        there,
    }
}

#[tactic(auto, unfolding(crate::specs::FlowNumbers::message_ends))]
fn message_ends(flow: FiveTuple, kind: u16, code: u16) -> Ends
    ensures { result ≡ message_ends flow kind code (partner flow.protocol kind) }
{
    match partner(flow.protocol, kind) {
        Some(other) => in_order(ends_of(flow, kind, other)),
        None => ends_of(flow, kind, code),
    }
}

#[tactic(auto, unfolding(crate::specs::FlowNumbers::has_ports))]
fn has_ports(protocol: u8) -> bool
    ensures { result ≡ has_ports protocol }
{
    protocol == 6 || protocol == 17
}

#[tactic(auto, unfolding(crate::specs::FlowNumbers::wants_pair))]
fn wants_pair(protocol: u8) -> bool
    ensures { result ≡ wants_pair protocol }
{
    has_ports(protocol) || (protocol == 1 || (protocol == 58 || protocol == 132))
}

// The hash in the community ID of a flow with these ports: with the seed 0 the one in its number, which is known.
#[tactic(auto, unfolding(crate::specs::FlowNumbers::community_hash, crate::specs::FlowNumbers::number_hash))]
fn ports_hash(
    seed: u16,
    flow: FiveTuple,
    sport: u16,
    dport: u16,
    number: Option<[u8; 20]>,
) -> Option<[u8; 20]>
    requires { number ≡ number_hash flow (Ports sport dport) }
    ensures { result ≡ community_hash seed flow (Ports sport dport) }
{
    if seed == 0 {
        number
    } else {
        Some(port_hash(seed, flow.protocol, in_order(ends_of(flow, sport, dport))))
    }
}

/// The hash in a flow's community ID, where it has one, by that in its number.
#[tactic(auto, unfolding(crate::specs::FlowNumbers::community_hash))]
pub(crate) fn community_hash(
    seed: u16,
    flow: FiveTuple,
    number: Option<[u8; 20]>,
) -> Option<[u8; 20]>
    requires { number ≡ number_hash flow flow.pair }
    ensures { result ≡ community_hash seed flow flow.pair }
{
    match flow.pair {
        Pair::Ports { sport, dport } => ports_hash(seed, flow, sport, dport, number),
        Pair::Message { kind, code } => Some(port_hash(
            seed,
            flow.protocol,
            message_ends(flow, kind, code),
        )),
        Pair::Unknown => {
            if wants_pair(flow.protocol) {
                None
            } else {
                Some(plain_hash(seed, flow.protocol, in_order(ends_of(flow, 0, 0))))
            }
        }
    }
}

/// The hash in a flow's number, where it has one.
#[tactic(auto, unfolding(crate::specs::FlowNumbers::number_hash))]
pub(crate) fn number_hash(flow: FiveTuple) -> Option<[u8; 20]>
    ensures { result ≡ number_hash flow flow.pair }
{
    match flow.pair {
        Pair::Ports { sport, dport } => Some(port_hash(
            0,
            flow.protocol,
            in_order(ends_of(flow, sport, dport)),
        )),
        Pair::Message { .. } => Some(plain_hash(0, flow.protocol, in_order(ends_of(flow, 0, 0)))),
        Pair::Unknown => {
            if has_ports(flow.protocol) {
                None
            } else {
                Some(plain_hash(0, flow.protocol, in_order(ends_of(flow, 0, 0))))
            }
        }
    }
}

/// The number that a hash makes.
pub(crate) fn number_of(hash: Option<[u8; 20]>) -> Option<u64>
    ensures { result ≡ option_map first_bits hash }
{
    match hash {
        Some(hash) => Some(first_bits(hash)),
        None => None,
    }
}

#[tactic(auto, unfolding(crate::specs::FlowNumbers::first_bits))]
fn first_bits(hash: [u8; 20]) -> u64
    ensures { result ≡ first_bits hash }
{
    let [a, b, c, d, e, f, ..] = hash;
    u64::from_be_bytes([0, 0, a, b, c, d, e, f])
}

// The bytes of a community ID.
const LENGTH: usize = 30;

/// The community ID that a hash makes.
#[tactic(auto, unfolding(crate::specs::FlowNumbers::community_text))]
pub(crate) fn community_text(alloc: Global, hash: [u8; 20]) -> Result<String, AllocError>
    ensures { IfOk result (λ text. string_bytes text ≡ community_text hash) }
{
    let mut text = String::with_capacity(alloc, LENGTH)?;
    text.push_str("1:")?;
    STANDARD.encode_string(&hash, &mut text)?;
    Ok(text)
}
