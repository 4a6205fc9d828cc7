//! Files in memory, with short reads and failures.
ghost use Rattle.std.specs.Prelude.{◌≡◌, ◌<◌, ◌≤◌, ◌++◌, [], Option, Some, None, length, drop, take, vec_len, min, Ok, Err, IfOk, OnOk, OnErr, IfSome, IfNone, IsErrOf, IsErr, IsSome, IsTrue, false, refl};
ghost use Rattle.std.specs.FinMap.{get, insert};
ghost use Rattle.std.specs.Option.{option_copied};
ghost use Rattle.edge_io.specs.Calls.{fails};
ghost use Rattle.edge_io.specs.HeldFiles.{no_files, after_call, after_taking, rest as rest_of};
ghost use Rattle.edge_io.specs.PutFiles.{files_of, bytes_at};
ghost use Rattle.edge_io.specs.Told.{before};

use crate::calls::CallPlan;
use crate::fault::FaultCount;
use crate::{Failed, Host, LoadFault, NoMemory, Text};
use std::alloc::Global;
use std::marker::Model;

/// A file that a host in memory holds.
#[derive(Debug, Drop)]
struct HeldFile {
    name: Text,
    bytes: Text,
}

/// Where the open capture is: the place of its file, and how many of its bytes are left.
#[derive(Clone, Copy, Debug)]
struct Reading {
    file: usize,
    left: usize,
}

/// A host whose files are in memory, with failures by the number of the call.
///
/// Contracts see its files, what is left of the open capture, the counts of faults and of calls of
/// `open`, and the calls. An open capture keeps its bytes when its file is replaced.
#[derive(Debug, Drop)]
pub struct MemHost {
    // The files in the order in which they were put: of those with one name the last counts.
    held: Vec<HeldFile>,
    reading: Option<Reading>,
    faults: FaultCount,
    opens: u64,
    calls: CallPlan,
}

impl Model for MemHost {
    ghost use Rattle.edge_io.specs.HeldFiles.{HeldFiles, held_files_code};

    ghost Value = { HeldFiles };

    ghost coded = { held_files_code };

    ghost use Rattle.edge_io.specs.PutFiles.{files_of, left_of, IsReading};

    ghost view = { λ host. record {
      files = files_of host.held.items;
      left = left_of host.held.items host.reading;
      faults = host.faults;
      opens = host.opens;
      calls = host.calls;
    } };

    ghost invariant = { λ host. IsReading host.held.items host.reading };
}

impl MemHost {
    /// A host that holds nothing. Takes no memory.
    pub fn new(alloc: Global) -> MemHost
        ensures { result ≡ no_files }
    {
        MemHost {
            held: Vec::new(alloc),
            reading: None,
            faults: FaultCount::new(),
            opens: 0,
            calls: CallPlan::new(alloc),
        }
    }

    /// Adds a file, or replaces the one of this name.
    pub fn put(&mut self, name: &str, bytes: &[u8]) -> Result<(), NoMemory>
        ensures put { OnOk result (self.new ≡ record self.old { files = insert self.old.files name.now bytes.now }) }
        ensures unchanged { OnErr result (self.new ≡ self.old) }
    {
        let alloc = *self.held.allocator();
        let name = Text::copy(alloc, name.as_bytes())?;
        let bytes = Text::copy(alloc, bytes)?;
        self.held.push(HeldFile { name, bytes })?;
        Ok(())
    }

    /// Names the calls that fail, in place of those named before: counted from 0 over load, open
    /// and read together.
    pub fn fail_calls(&mut self, calls: &[u32]) -> Result<(), NoMemory>
        ensures named { OnOk result (self.new ≡ record self.old { calls = record self.old.calls { failing = calls.now } }) }
        ensures unchanged { OnErr result (self.new ≡ self.old) }
    {
        self.calls.fail_calls(calls)
    }

    /// Counts a call and, where it fails by its number, the fault.
    fn next_fails(&mut self) -> bool
        ensures failing { result ≡ fails self.old.calls }
        ensures quiet { result ≡ false → self.new.faults ≡ self.old.faults }
        ensures state { self.new ≡ after_call self.old }
        ensures later { self.old.faults ≤ self.new.faults }
    {
        let fails = self.calls.next_fails();
        if fails {
            self.faults.add();
        }
        fails
    }

    /// The bytes of a file.
    fn file(&self, name: &str) -> Option<&[u8]>
        ensures { option_copied result ≡ get self.now.files name.now }
    {
        let place = last_named(&self.held, name.as_bytes())?;
        Some(self.held[place].bytes.bytes())
    }

    /// The bytes that are left of the open capture; none where nothing is open.
    fn rest(&self) -> &[u8]
        ensures { result.now ≡ rest_of self.now }
    {
        match self.reading {
            None => &[],
            Some(Reading { file, left }) => {
                let bytes = self.held[file].bytes.bytes();
                &bytes[bytes.len() - left..]
            }
        }
    }

    /// Takes bytes off the front of what is left of the open capture.
    fn advance(&mut self, count: usize)
        requires { count ≤ length (rest_of self.old) }
        ensures { self.new ≡ after_taking count self.old }
    {
        if let Some(reading) = &mut self.reading {
            reading.left -= count;
        }
    }

    /// Closes the open capture, and opens the file of this name, if there is one.
    fn reopen(&mut self, name: &str) -> Result<(), Failed>
        ensures opened { self.new ≡ record self.old { left = get self.old.files name.now } }
        ensures found { OnOk result (IsSome (get self.old.files name.now)) }
        ensures lacking { OnErr result (get self.old.files name.now ≡ None) }
    {
        match last_named(&self.held, name.as_bytes()) {
            Some(file) => {
                let left = self.held[file].bytes.bytes().len();
                self.reading = Some(Reading { file, left });
                Ok(())
            }
            None => {
                self.reading = None;
                Err(Failed)
            }
        }
    }
}

impl Host for MemHost {
    ghost use Rattle.edge_io.specs.HeldFiles.{load_result, found_by_call, after_open, after_read, read_count};

    ghost contents = { λ host. Some host.files };

    ghost left = { λ host. host.left };

    ghost agrees = { λ host files. files ≡ host.files };

    ghost left_of = { λ host _. host.left };

    ghost faults = { λ host. host.faults };

    ghost opens = { λ host. host.opens };

    ghost as_told = { λ host. record { agree = refl; alone = λ _ same. same; left_is = refl } };

    fn load(&mut self, name: &str, limit: usize, out: &mut Vec<u8>) -> Result<(), LoadFault>
        ensures state { self.new ≡ after_call self.old }
        ensures loaded { OnOk result (load_result self.old name.now limit ≡ Ok (drop (vec_len out.old) out.new.items)) }
        ensures appends { OnOk result (out.new.items ≡ out.old.items ++ drop (vec_len out.old) out.new.items) }
        ensures failed { IsErrOf result LoadFault.Failed → load_result self.old name.now limit ≡ Err LoadFault.Failed }
        ensures too_large { IsErrOf result LoadFault.TooLarge → load_result self.old name.now limit ≡ Err LoadFault.TooLarge }
        ensures refused { OnErr result (out.new.items ≡ out.old.items) }
        ensures unfailed { (IsErrOf result LoadFault.Failed → ⊥) → self.new.faults ≡ self.old.faults }
        ensures later { self.old.faults ≤ self.new.faults }
    {
        if self.next_fails() {
            return Err(LoadFault::Failed);
        }
        match self.file(name) {
            None => Err(LoadFault::Failed),
            Some(bytes) if limit < bytes.len() => Err(LoadFault::TooLarge),
            Some(bytes) => Ok(out.extend_from_slice(bytes)?),
        }
    }

    fn open(&mut self, name: &str) -> Result<(), Failed>
        ensures state { self.new ≡ after_open self.old name.now }
        ensures opened { OnOk result (IsSome (found_by_call self.old name.now)) }
        ensures failed { OnErr result (found_by_call self.old name.now ≡ None) }
        ensures unfailed { OnOk result (self.new.faults ≡ self.old.faults) }
        ensures later { self.old.faults ≤ self.new.faults }
    {
        self.opens = self.opens.saturating_add(1);
        if self.next_fails() {
            self.reading = None;
            return Err(Failed);
        }
        self.reopen(name)
    }

    #[tactic(auto, unfolding(crate::specs::Told::before))]
    fn read(&mut self, buf: &mut [u8]) -> Result<usize, Failed>
        requires { 0 < length buf.old }
        ensures state { self.new ≡ after_read self.old (length buf.old) }
        ensures count { IfOk result (λ count. count ≡ read_count self.old (length buf.old)) }
        ensures filled { IfOk result (λ count. buf.new ≡ take count (rest_of self.old) ++ drop count buf.old) }
        ensures taken { IfOk result (λ count. self.old.left ≡ before (take count buf.new) self.new.left) }
        ensures failed { OnErr result (IsTrue (fails self.old.calls)) }
        ensures failing { IsTrue (fails self.old.calls) → IsErr result }
        ensures unfailed { OnOk result (self.new.faults ≡ self.old.faults) }
        ensures later { self.old.faults ≤ self.new.faults }
    {
        if self.next_fails() {
            return Err(Failed);
        }
        let rest = self.rest();
        let count = rest.len().min(buf.len());
        buf[..count].copy_from_slice(&rest[..count]);
        self.advance(count);
        Ok(count)
    }
}

/// The place of the last file of this name.
fn last_named(held: &[HeldFile], name: &[u8]) -> Option<usize>
    ensures found { IfSome result (λ place. get (files_of held.now) name.now ≡ Some (bytes_at held.now place)) }
    ensures within { IfSome result (λ place. place < length held.now) }
    ensures lacking { IfNone result (get (files_of held.now) name.now ≡ None) }
{
    let mut found = None;
    for (place, file) in held.iter().enumerate() {
        if name == file.name.bytes() {
            found = Some(place);
        }
    }
    found
}
