//! Lists of addresses: reading them, and whether an address is among them.
ghost use Rattle.std.specs.Prelude.{◌≡◌, ◌↔◌, IsTrue, IfOk, IsErrOf, List, []};
ghost use Rattle.net_lists.specs.declared.part.AddrBounds.{AddrBounds};
ghost use Rattle.net_lists.specs.declared.part.Part.{Part};
ghost use Rattle.net_lists.specs.Addresses.{address_bounds};
ghost use Rattle.net_lists.specs.Membership.{IsListed, HasAddress};
ghost use Rattle.net_lists.specs.Verdicts.{has_address, is_listed};
ghost use Rattle.net_lists.specs.Lists.{IsList, IsAnswer, IsTooLong};

use crate::address_parts::AddrParts;
use crate::compact::Stored;
use crate::fault::ListFault;
use crate::read::ReadFault;
use edge_io::Addr;
use std::alloc::Global;
use std::marker::Model;

/// A list of addresses of both versions. Contracts see its parts in order; `any` has none.
#[derive(Debug, Drop)]
pub struct AddrList {
    stored: Stored,
}

impl Model for AddrList {
    ghost use Rattle.std.specs.Prelude.{List};
    ghost use Rattle.net_lists.specs.declared.part.AddrBounds.{AddrBounds};
    ghost use Rattle.net_lists.specs.declared.part.Part.{Part};

    ghost Value = { List (Part AddrBounds) };

    ghost use Rattle.net_lists.specs.Compact.{parts_of};

    ghost view = { λ list. parts_of list.stored };
}

impl AddrList {
    /// The list that the text spells: `any`, or addresses of either version, each with `/n` perhaps, with
    /// `!` and brackets.
    pub fn read(alloc: Global, text: &[u8]) -> Result<AddrList, ListFault>
        ensures spelled { IfOk result (λ list. IsList address_bounds text.now list) }
        // BadAddress comes only for a text that spells no list, BadPort never.
        ensures answer { (parts : List (Part AddrBounds)) → IsList address_bounds text.now parts → IsAnswer parts result }
        ensures too_long { IsErrOf result ListFault.ListTooLong → IsTooLong address_bounds text.now }
        ensures no_port { ¬ IsErrOf result ListFault.BadPort }
    {
        match Stored::read(alloc, text) {
            Ok(stored) => Ok(AddrList { stored }),
            Err(ReadFault::Bad) => Err(ListFault::BadAddress),
            Err(ReadFault::TooLong) => Err(ListFault::ListTooLong),
            Err(ReadFault::NoMemory) => Err(ListFault::NoMemory),
        }
    }

    /// The parts in order.
    pub fn parts(&self) -> AddrParts<'_>
        ensures { result ≡ self.now }
    {
        AddrParts {
            left: self.stored.left(),
        }
    }

    /// Whether this is `any`: a list without parts, which has every address.
    pub fn is_any(&self) -> bool
        ensures { IsTrue result ↔ (self.now ≡ []) }
    {
        self.stored.is_empty()
    }

    /// Whether the address is listed: a part has addresses of its own version alone. Takes no memory.
    pub fn contains(&self, addr: Addr) -> bool
        ensures listed { IsTrue result ↔ IsListed (HasAddress addr) self.now }
        ensures value { result ≡ is_listed (has_address addr) self.now }
    {
        self.stored.is_listed(addr)
    }
}
