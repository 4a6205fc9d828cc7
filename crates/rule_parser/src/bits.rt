//! The names of flowbits, over all rules.
ghost use Rattle.std.specs.Prelude.{◌≡◌, ◌≤◌, ◌<◌, [], ◌∷◌, ◌++◌, length, take, OnOk, OnErr};

use edge_io::{NoMemory, Text};
use std::alloc::Global;
use std::marker::Model;

/// Names that there may be.
pub(crate) const MOST_BITS: usize = 1024;

/// The names of flowbits in the order in which rules first have them, at most 1024. Contracts see the list of
/// them; the first is bit 0.
#[derive(Debug, Drop)]
pub struct BitNames {
    names: Vec<Text>,
}

impl Model for BitNames {
    ghost use Rattle.std.specs.Prelude.{ℕ, List, length, ◌≤◌};

    ghost Value = { List (List ℕ) };

    ghost view = { λ bits. bits.names.items };

    ghost invariant = { λ bits. length bits.names.items ≤ 1024 };
}

impl BitNames {
    /// No names. Takes no memory.
    pub fn new(alloc: Global) -> BitNames
        ensures { result ≡ [] }
    {
        BitNames {
            names: Vec::new(alloc),
        }
    }

    /// The names, lent.
    pub(crate) fn as_slice(&self) -> &[Text]
        ensures value { result.now ≡ self.now }
        ensures within { length result.now ≤ 1024 }
    {
        &self.names
    }

    /// Adds a name after the last.
    pub(crate) fn push(&mut self, name: Text) -> Result<(), NoMemory>
        requires { length self.old < 1024 }
        ensures pushed { OnOk result (self.new ≡ self.old ++ name ∷ []) }
        ensures unchanged { OnErr result (self.new ≡ self.old) }
    {
        self.names.push(name)?;
        Ok(())
    }

    /// Takes the names after the first `count` away.
    pub(crate) fn truncate(&mut self, count: usize)
        ensures { self.new ≡ take count self.old }
    {
        self.names.truncate(count);
    }
}
