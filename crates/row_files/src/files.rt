//! Files in memory, by their names.
ghost use Rattle.std.specs.Prelude.{◌≡◌, [], ◌∷◌, ◌++◌, IfOk, OnErr, OnOk};
ghost use Rattle.std.specs.FinMap as map;
ghost use Rattle.edge_io.specs.HeldFiles.{no_files};
ghost use Rattle.row_files.specs.Appending.{bytes_of, files_with};

use edge_io::{MemHost, NoMemory};
use std::alloc::{AllocError, Global};
use std::collections::BTreeMap;
use std::marker::Model;

/// Files in memory. Contracts see a finite map from names to bytes.
#[derive(Drop)]
pub struct Files {
    alloc: Global,
    entries: BTreeMap<String, Vec<u8>>,
}

impl Model for Files {
    ghost use Rattle.std.specs.Prelude.{map as each};
    ghost use Rattle.std.specs.FinMap as map;
    ghost use Rattle.std.specs.Coded.{coded_list, coded_ℕ};
    ghost use Rattle.edge_io.specs.Files as told;

    ghost Value = { told.Files };

    ghost coded = { map.code (coded_list coded_ℕ) (coded_list coded_ℕ) };

    ghost use Rattle.row_files.specs.Stored.{stored};

    ghost view = { λ files. map.from_entries (each stored files.entries.entries) };
}

impl Files {
    /// No files. Takes no memory.
    pub fn new(alloc: Global) -> Files
        ensures { result ≡ map.empty }
    {
        Files {
            alloc,
            entries: BTreeMap::new(alloc),
        }
    }

    /// The bytes of the file of this name; none where it isn't there.
    pub fn bytes(&self, name: &str) -> &[u8]
        ensures { result.now ≡ bytes_of self.now name.now }
    {
        match self.entries.get(name) {
            Some(bytes) => bytes.as_slice(),
            None => &[],
        }
    }

    /// Appends to the file of this name, which is made where it isn't there.
    pub fn append(&mut self, name: &str, bytes: &[u8]) -> Result<(), AllocError>
        ensures appended { OnOk result (self.new ≡ files_with self.old name.now bytes.now) }
        ensures unchanged { OnErr result (self.new ≡ self.old) }
    {
        if let Some(held) = self.entries.get_mut(name) {
            held.extend_from_slice(bytes)?;
            return Ok(());
        }
        let name = String::from_str(self.alloc, name)?;
        let bytes = Vec::from_slice(self.alloc, bytes)?;
        self.entries.insert(name, bytes)?;
        Ok(())
    }

    /// Appends a line and its line feed.
    pub fn append_line(&mut self, name: &str, line: &str) -> Result<(), AllocError>
        ensures appended { OnOk result (self.new ≡ files_with self.old name.now (line.now ++ 10 ∷ [])) }
        ensures unchanged { OnErr result (self.new ≡ self.old) }
    {
        let mut bytes = Vec::from_slice(self.alloc, line.as_bytes())?;
        bytes.push(b'\n')?;
        self.append(name, &bytes)
    }

    /// A host that has these files, and whose calls of these numbers fail.
    pub fn host(&self, failing: &[u32]) -> Result<MemHost, NoMemory>
        ensures { IfOk result (λ host. host ≡ record no_files {
          files = self.now;
          calls = record { made = 0; failing = failing.now };
        }) }
    {
        let mut host = MemHost::new(self.alloc);
        for (name, bytes) in self.entries.iter() {
            host.put(name, bytes)?;
        }
        host.fail_calls(failing)?;
        Ok(host)
    }
}
