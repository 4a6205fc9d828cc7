//! Variables and what they have for values.
ghost use Rattle.std.specs.Prelude.{◌≡◌, OnOk, OnErr, option_copied};
ghost use Rattle.std.specs.FinMap as map;
ghost use Rattle.net_lists.specs.Variables.{IsName, defined, is_fixed, value_of};

use edge_io::NoMemory;
use std::alloc::Global;
use std::collections::BTreeMap;
use std::marker::Model;

/// What a name stands for.
#[derive(Debug, Drop)]
pub struct Entry {
    pub value: Vec<u8>,
    /// Whether it stays as it is.
    pub fixed: bool,
}

/// Variables. Contracts see a finite map from names to values, each with whether it is fixed.
#[derive(Debug, Drop)]
pub struct Vars {
    alloc: Global,
    entries: BTreeMap<Vec<u8>, Entry>,
}

impl Model for Vars {
    ghost use Rattle.std.specs.Prelude.{map as each};
    ghost use Rattle.std.specs.FinMap as map;
    ghost use Rattle.std.specs.Coded.{coded_list, coded_ℕ};
    ghost use Rattle.net_lists.specs.Variables.{Variables, variable_code};

    ghost Value = { Variables };

    ghost coded = { map.code (coded_list coded_ℕ) variable_code };

    ghost use Rattle.net_lists.specs.Stored.{stored};

    ghost view = { λ vars. map.from_entries (each stored vars.entries.entries) };
}

impl Vars {
    /// No variables. Takes no memory.
    pub fn new(alloc: Global) -> Vars
        ensures { result ≡ map.empty }
    {
        Vars {
            alloc,
            entries: BTreeMap::new(alloc),
        }
    }

    /// Defines a variable, in place of one that has the name, unless that is fixed.
    pub fn define(&mut self, name: &[u8], value: &[u8], fixed: bool) -> Result<(), NoMemory>
        requires { IsName name.now }
        ensures defined { OnOk result (self.new ≡ defined self.old name.now value.now fixed) }
        ensures unchanged { OnErr result (self.new ≡ self.old) }
    {
        if self.is_fixed(name) {
            return Ok(());
        }
        let name = Vec::from_slice(self.alloc, name)?;
        let value = Vec::from_slice(self.alloc, value)?;
        self.entries.insert(name, Entry { value, fixed })?;
        Ok(())
    }

    /// What the name stands for.
    pub(crate) fn value(&self, name: &[u8]) -> Option<&[u8]>
        ensures { option_copied result ≡ value_of (map.get self.now name.now) }
    {
        match self.entries.get(name) {
            Some(entry) => Some(entry.value.as_slice()),
            None => None,
        }
    }

    fn is_fixed(&self, name: &[u8]) -> bool
        ensures { result ≡ is_fixed (map.get self.now name.now) }
    {
        match self.entries.get(name) {
            Some(entry) => entry.fixed,
            None => false,
        }
    }
}
