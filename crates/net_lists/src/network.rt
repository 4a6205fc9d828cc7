//! Addresses and the networks around them, as configurations and host tables write them.
ghost use Rattle.std.specs.Prelude.{◌≡◌, ◌≤◌, ◌<◌, ◌^◌, ◌-◌, ◌+◌, IfSome, option_map, List, ℕ, Option};
ghost use Rattle.net_lists.specs.Addresses.{address, bits_of, cleared, network_at, network, bounds_at, IsNetwork, address_bounds};

use crate::address4::dotted;
use crate::address6::colons;
use crate::number::number_in;
use crate::part::{AddrBounds, Spelled, ValueBounds};
use crate::split::cut;
use edge_io::Addr;

/// The addresses that agree with `first` in its first `length` bits; its other bits are zeros.
#[derive(Clone, Copy, Debug, PartialEq, Eq)]
pub struct Network {
    pub first: Addr,
    pub length: u32,
}

/// An address of either version.
#[tactic(auto, unfolding(crate::specs::Addresses::address))]
fn address(text: &[u8]) -> Option<Addr>
    ensures { result ≡ address text.now }
{
    match dotted(text) {
        Some(value) => Some(Addr::V4(value)),
        None => Some(Addr::V6(colons(text)?)),
    }
}

/// How many bits an address has.
fn bits_of(addr: Addr) -> u32
    ensures bits { result ≡ bits_of addr }
    ensures most { result ≤ 128 }
{
    match addr {
        Addr::V4(_) => 32,
        Addr::V6(_) => 128,
    }
}

/// The number without its last bits, as many as are told.
fn cleared4(value: u32, last: u32) -> u32
    requires { last ≤ 32 }
    ensures cleared { result ≡ cleared value last }
    ensures within { result + (2 ^ last - 1) < 2 ^ 32 }
{
    let size = 1u64 << last;
    let value = u64::from(value);
    (value - value % size) as u32
}

/// The number without its last bits, as many as are told.
fn cleared6(value: u128, last: u32) -> u128
    requires { last ≤ 128 }
    ensures cleared { result ≡ cleared value last }
    ensures within { result + (2 ^ last - 1) < 2 ^ 128 }
{
    if last == 128 {
        return 0;
    }
    value - value % (1u128 << last)
}

impl Network {
    /// The network that an address text spells: `10.0.0.0/8`, `2001:db8::/32`, or an address alone, which
    /// is a network by itself. None for any other text.
    #[tactic(auto, unfolding(crate::specs::Addresses::network))]
    pub fn read(text: &[u8]) -> Option<Network>
        ensures network { result ≡ network text.now }
        ensures sound { IfSome result IsNetwork }
    {
        match cut(text, b'/') {
            Some((whole, length)) => {
                let whole = address(whole)?;
                let length = number_in(0, bits_of(whole), length)?;
                Some(Network::at(whole, length))
            }
            None => {
                let whole = address(text)?;
                Some(Network::at(whole, bits_of(whole)))
            }
        }
    }

    /// The bounds from the first address to the last.
    fn bounds(self) -> AddrBounds
        requires { IsNetwork self }
        ensures { result ≡ bounds_at self.first self.length }
    {
        match self.first {
            Addr::V4(low) => AddrBounds::V4(ValueBounds {
                low,
                high: low + last_of4(32 - self.length),
            }),
            Addr::V6(low) => AddrBounds::V6(ValueBounds {
                low,
                high: low + last_of6(128 - self.length),
            }),
        }
    }

    /// The addresses that agree with this one in their first `length` bits.
    pub fn at(addr: Addr, length: u32) -> Network
        requires { length ≤ bits_of addr }
        ensures network { result ≡ network_at addr length }
        ensures sound { IsNetwork result }
    {
        let first = match addr {
            Addr::V4(value) => Addr::V4(cleared4(value, 32 - length)),
            Addr::V6(value) => Addr::V6(cleared6(value, 128 - length)),
        };
        Network { first, length }
    }
}

/// How many addresses share all but their last bits, less one.
fn last_of4(last: u32) -> u32
    requires { last ≤ 32 }
    ensures { result ≡ 2 ^ last - 1 }
{
    ((1u64 << last) - 1) as u32
}

/// How many addresses of version 6 share all but their last bits, less one.
fn last_of6(last: u32) -> u128
    requires { last ≤ 128 }
    ensures { result ≡ 2 ^ last - 1 }
{
    if last == 128 {
        return u128::MAX;
    }
    (1u128 << last) - 1
}

/// The addresses that an address part spells.
#[tactic(auto, unfolding(crate::specs::Addresses::address_bounds))]
fn address_bounds(text: &[u8]) -> Option<AddrBounds>
    ensures { result ≡ address_bounds text.now }
{
    let net = Network::read(text)?;
    Some(net.bounds())
}

impl Spelled for AddrBounds {
    ghost bounds_of = { address_bounds };

    fn read(text: &[u8]) -> Option<AddrBounds> {
        address_bounds(text)
    }
}
