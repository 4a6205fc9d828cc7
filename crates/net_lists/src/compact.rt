//! How the parts of a list of addresses are kept.
//!
//! A part of version 6 takes five times the memory of one of version 4, and most lists have parts of version
//! 4 alone: these are kept without a version, and a look for an address is one pass over them.
ghost use Rattle.std.specs.Prelude.{◌≡◌, ◌↔◌, [], IsTrue, IfOk, MatchOption, Any, map};
ghost use Rattle.net_lists.specs.Addresses.{address_bounds};
ghost use Rattle.net_lists.specs.Compact.{with_version, parts_of, parts_left, IsOfVersion6, IsCompact};
ghost use Rattle.net_lists.specs.Machine.{ReadsList, list_parts};
ghost use Rattle.net_lists.specs.Verdicts.{has_address, is_listed};

use crate::address_parts::Left;
use crate::member;
use crate::part::{AddrBounds, AddrPart, Part, ValueBounds};
use crate::read::{ReadFault, read_list};
use edge_io::Addr;
use std::alloc::{AllocError, Global};

/// A part of version 4.
pub type Addr4Part = Part<ValueBounds<u32>>;

/// The parts of a list of addresses, in order.
#[derive(Debug, Drop)]
pub enum Stored {
    /// All parts are of version 4.
    V4(Vec<Addr4Part>),
    Mixed(Vec<AddrPart>),
}

/// The part, with its version beside it.
pub fn with_version(part: Addr4Part) -> AddrPart
    ensures { result ≡ with_version part }
{
    Part {
        negated: part.negated,
        bounds: AddrBounds::V4(part.bounds),
    }
}

/// The part without its version, if that is 4.
fn without_version(part: AddrPart) -> Option<Addr4Part>
    ensures { MatchOption result (IsOfVersion6 part) (λ compact. with_version compact ≡ part) }
{
    match part.bounds {
        AddrBounds::V4(bounds) => Some(Part {
            negated: part.negated,
            bounds,
        }),
        AddrBounds::V6(_) => None,
    }
}

/// The parts without their versions, if all are of version 4.
#[tactic(auto, using(crate::proofs::Membership::Compacted::keeping))]
fn without_versions(alloc: Global, parts: &[AddrPart]) -> Result<Option<Vec<Addr4Part>>, AllocError>
    ensures { IfOk result (λ all. MatchOption all (Any IsOfVersion6 parts.now) (λ compact. map with_version compact.items
        ≡ parts.now)) }
{
    let mut compact = Vec::new(alloc);
    for part in parts {
        match without_version(*part) {
            Some(kept) => compact.push(kept)?,
            None => return Ok(None),
        }
    }
    Ok(Some(compact))
}

impl Stored {
    /// The list of these parts, kept compactly where that can be.
    fn of(alloc: Global, parts: Vec<AddrPart>) -> Result<Stored, AllocError>
        ensures parts { IfOk result (λ stored. parts_of stored ≡ parts.items) }
        ensures compact { IfOk result IsCompact }
    {
        match without_versions(alloc, &parts)? {
            Some(compact) => Ok(Stored::V4(compact)),
            None => Ok(Stored::Mixed(parts)),
        }
    }

    /// The parts of the list that the text spells.
    pub fn read(alloc: Global, text: &[u8]) -> Result<Stored, ReadFault>
        ensures { ReadsList parts_of result (list_parts address_bounds text.now) }
    {
        match read_list(alloc, text) {
            Ok(parts) => {
                let stored = Stored::of(alloc, parts)?;
                Ok(stored)
            }
            Err(fault) => Err(fault),
        }
    }

    /// The parts in order, lent.
    pub fn left(&self) -> Left<'_>
        ensures { parts_left result ≡ parts_of self.now }
    {
        match self {
            Stored::V4(parts) => Left::V4(parts.as_slice()),
            Stored::Mixed(parts) => Left::Mixed(parts.as_slice()),
        }
    }

    /// Whether there is no part.
    #[tactic(auto, using(crate::proofs::Membership::Compacted::none_kept))]
    pub fn is_empty(&self) -> bool
        ensures { IsTrue result ↔ (parts_of self.now ≡ []) }
    {
        match self {
            Stored::V4(parts) => parts.is_empty(),
            Stored::Mixed(parts) => parts.is_empty(),
        }
    }

    /// Whether the address is listed.
    pub fn is_listed(&self, addr: Addr) -> bool
        ensures { result ≡ is_listed (has_address addr) (parts_of self.now) }
    {
        match self {
            Stored::V4(parts) => is_listed_of_version_4(parts, addr),
            Stored::Mixed(parts) => member::is_listed(parts, addr),
        }
    }
}

/// Whether the address is listed by parts that are all of version 4.
#[tactic(auto, using(crate::proofs::Membership::Compacted::verdicts))]
fn is_listed_of_version_4(parts: &[Addr4Part], addr: Addr) -> bool
    ensures { result ≡ is_listed (has_address addr) (map with_version parts.now) }
{
    match addr {
        Addr::V4(value) => member::is_listed(parts, value),
        Addr::V6(value) => member::is_listed(parts, value),
    }
}
