//! Lists of ports: reading them, and whether a port is among them.
ghost use Rattle.std.specs.Prelude.{◌≡◌, ◌↔◌, IsTrue, IfOk, IsErrOf, List, [], ℕ, map};
ghost use Rattle.net_lists.specs.declared.part.ValueBounds.{ValueBounds};
ghost use Rattle.net_lists.specs.declared.part.Part.{Part};
ghost use Rattle.net_lists.specs.Membership.{IsListed, Has, has_port};
ghost use Rattle.net_lists.specs.Parts.{port_bounds, one_port};
ghost use Rattle.net_lists.specs.Lists.{IsList, IsAnswer, IsTooLong};

use crate::fault::ListFault;
use crate::member;
use crate::part::{Part, PortPart, ValueBounds};
use crate::read::{ReadFault, read_list};
use edge_io::NoMemory;
use std::alloc::Global;
use std::marker::Model;

/// A list of ports. Contracts see its parts in order; `any` has none.
#[derive(Debug, Drop)]
pub struct PortList {
    parts: Vec<PortPart>,
}

impl Model for PortList {
    ghost use Rattle.std.specs.Prelude.{List, ℕ};
    ghost use Rattle.net_lists.specs.declared.part.ValueBounds.{ValueBounds};
    ghost use Rattle.net_lists.specs.declared.part.Part.{Part};

    ghost Value = { List (Part (ValueBounds ℕ)) };

    ghost view = { λ list. list.parts.items };
}

/// The part that one port is by itself.
fn one_port(port: u16) -> PortPart
    ensures { result ≡ one_port port }
{
    Part {
        negated: false,
        bounds: ValueBounds {
            low: port,
            high: port,
        },
    }
}

impl PortList {
    /// The list that the text spells: `any`, or parts `n`, `a:b`, `a:` or `:b`, with `!` and brackets.
    pub fn read(alloc: Global, text: &[u8]) -> Result<PortList, ListFault>
        ensures spelled { IfOk result (λ list. IsList port_bounds text.now list) }
        // BadPort comes only for a text that spells no list, BadAddress never.
        ensures answer { (parts : List (Part (ValueBounds ℕ))) → IsList port_bounds text.now parts → IsAnswer parts result }
        ensures too_long { IsErrOf result ListFault.ListTooLong → IsTooLong port_bounds text.now }
        ensures no_address { ¬ IsErrOf result ListFault.BadAddress }
    {
        match read_list(alloc, text) {
            Ok(parts) => Ok(PortList { parts }),
            Err(ReadFault::Bad) => Err(ListFault::BadPort),
            Err(ReadFault::TooLong) => Err(ListFault::ListTooLong),
            Err(ReadFault::NoMemory) => Err(ListFault::NoMemory),
        }
    }

    /// The list with these parts; without any it is `any`.
    pub fn from_vec(parts: Vec<PortPart>) -> PortList
        ensures { result ≡ parts.items }
    {
        PortList { parts }
    }

    /// The list of these ports, each a part by itself. Without any it is `any`.
    pub fn from_ports(alloc: Global, ports: &[u16]) -> Result<PortList, NoMemory>
        ensures { IfOk result (λ list. list ≡ map one_port ports.now) }
    {
        let parts: Vec<PortPart> = ports.iter().map(|port| one_port(*port)).collect(alloc)?;
        Ok(PortList { parts })
    }

    /// The parts in order, lent.
    pub fn parts(&self) -> &[PortPart]
        ensures { result.now ≡ self.now }
    {
        &self.parts
    }

    /// Whether this is `any`: a list without parts, which has every port.
    pub fn is_any(&self) -> bool
        ensures { IsTrue result ↔ (self.now ≡ []) }
    {
        self.parts.is_empty()
    }

    /// Whether the port is listed. Takes no memory.
    pub fn contains(&self, port: u16) -> bool
        ensures listed { IsTrue result ↔ IsListed (Has port) self.now }
        ensures value { result ≡ has_port self.now port }
    {
        member::is_listed(self.parts(), port)
    }
}

/// A law for callers: a list has a port, as a test, just where the port is listed.
pub fn ports_are_as_listed()
    ensures { (ports : List (Part (ValueBounds ℕ))) (port : ℕ) → IsTrue (has_port ports port) ↔ IsListed (Has port) ports }
{}
