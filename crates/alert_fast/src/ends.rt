//! Both ends of a line.
ghost use Rattle.std.specs.Prelude.{◌≡◌, MatchOption, IfOk, Decides, true, false};
ghost use Rattle.alert_fast.specs.Fronts.{IsWhole, NoWhole};
ghost use Rattle.alert_fast.specs.Line.{dotted_text, colon_text, address_text};
ghost use Rattle.alert_fast.specs.Told.{IsV4, IsV6, IsAddr};
ghost use Rattle.alert_fast.specs.Ends.{IsPorted, ported_text, AreOwn, NoOwn, AreRead, NoEnds};

use crate::address::push_address;
use crate::cuts::back_word;
use crate::told::LineEnds;
use crate::words::port;
use edge_io::{Addr, NoMemory};
use std::alloc::Global;
use std::net::{Ipv4Addr, Ipv6Addr};

// The most bytes of an address: eight groups of four, and seven colons.
const LONGEST: usize = 39;

// The address of version 4 that is written so.
fn dotted(word: &[u8]) -> Option<u32>
    ensures { MatchOption result (NoWhole IsV4 dotted_text word.now) (IsWhole IsV4 dotted_text word.now) }
{
    match Ipv4Addr::parse_ascii(word) {
        Ok(address) => Some(u32::from_be_bytes(address.octets())),
        Err(_) => None,
    }
}

// Whether the address of version 6 is written so.
#[tactic(auto, unfolding(crate::specs::Line::address_text))]
fn is_colons(alloc: Global, address: u128, word: &[u8]) -> Result<bool, NoMemory>
    ensures { IfOk result (λ is. Decides is (colon_text address ≡ word.now)) }
{
    let mut written = Vec::with_capacity(alloc, LONGEST)?;
    push_address(Addr::V6(address), &mut written)?;
    Ok(written.as_slice() == word)
}

// The address of version 6 that is written so.
fn colons(alloc: Global, word: &[u8]) -> Result<Option<u128>, NoMemory>
    ensures { IfOk result (λ read.
        MatchOption read (NoWhole IsV6 colon_text word.now) (IsWhole IsV6 colon_text word.now)) }
{
    match Ipv6Addr::parse_ascii(word) {
        Ok(address) => {
            let address = address.to_bits();
            if is_colons(alloc, address, word)? {
                Ok(Some(address))
            } else {
                Ok(None)
            }
        }
        Err(_) => Ok(None),
    }
}

// The address that is written so.
fn address(alloc: Global, word: &[u8]) -> Result<Option<Addr>, NoMemory>
    ensures { IfOk result (λ read.
        MatchOption read (NoWhole IsAddr address_text word.now) (IsWhole IsAddr address_text word.now)) }
{
    match dotted(word) {
        Some(address) => Ok(Some(Addr::V4(address))),
        None => match colons(alloc, word)? {
            Some(address) => Ok(Some(Addr::V6(address))),
            None => Ok(None),
        },
    }
}

// The address and the port that are written so.
fn ported(alloc: Global, word: &[u8]) -> Result<Option<(Addr, u16)>, NoMemory>
    ensures { IfOk result (λ read.
        MatchOption read (NoWhole IsPorted ported_text word.now) (IsWhole IsPorted ported_text word.now)) }
{
    match back_word(word, b':') {
        None => Ok(None),
        Some((front, digits)) => match port(digits) {
            None => Ok(None),
            Some(port) => match address(alloc, front)? {
                None => Ok(None),
                Some(address) => Ok(Some((address, port))),
            },
        },
    }
}

// Ends with ports.
fn with_ports(alloc: Global, from: &[u8], to: &[u8]) -> Result<Option<LineEnds>, NoMemory>
    ensures { IfOk result (λ read.
        MatchOption read (NoOwn true from.now to.now) (AreOwn true from.now to.now)) }
{
    match ported(alloc, from)? {
        None => Ok(None),
        Some((src, sport)) => match ported(alloc, to)? {
            None => Ok(None),
            Some((dst, dport)) => Ok(Some(LineEnds {
                src,
                dst,
                ports: Some((sport, dport)),
            })),
        },
    }
}

// Ends without ports.
fn without_ports(alloc: Global, from: &[u8], to: &[u8]) -> Result<Option<LineEnds>, NoMemory>
    ensures { IfOk result (λ read.
        MatchOption read (NoOwn false from.now to.now) (AreOwn false from.now to.now)) }
{
    match address(alloc, from)? {
        None => Ok(None),
        Some(src) => match address(alloc, to)? {
            None => Ok(None),
            Some(dst) => Ok(Some(LineEnds {
                src,
                dst,
                ports: None,
            })),
        },
    }
}

fn own_ends(
    alloc: Global,
    ported: bool,
    from: &[u8],
    to: &[u8],
) -> Result<Option<LineEnds>, NoMemory>
    ensures { IfOk result (λ read.
        MatchOption read (NoOwn ported from.now to.now) (AreOwn ported from.now to.now)) }
{
    if ported {
        with_ports(alloc, from, to)
    } else {
        without_ports(alloc, from, to)
    }
}

/// Both ends, read from their words: with ports or without them as it is asked for, wherever they can be read so.
pub(crate) fn ends(
    alloc: Global,
    ported: bool,
    from: &[u8],
    to: &[u8],
) -> Result<Option<LineEnds>, NoMemory>
    ensures { IfOk result (λ read.
        MatchOption read (NoEnds from.now to.now) (AreRead ported from.now to.now)) }
{
    match own_ends(alloc, ported, from, to)? {
        Some(ends) => Ok(Some(ends)),
        None => own_ends(alloc, !ported, from, to),
    }
}
