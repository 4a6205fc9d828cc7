//! Working memory that searches lend one another and that no search waits for.

ghost use Rattle.std.specs.Prelude.{◌≡◌, IfOk, IfSome};
ghost use Rattle.regex_maker.specs.Searching.{IsMemoryFor, IsShelfFor};

use crate::memory::Memory;
use counted_slot::{Counted, FREE, Fits, TAKEN};
use edge_io::NoMemory;
use regex_dfa::Dfa;
use std::alloc::Global;

/// How many memories a shelf holds. A memory is laid down only where a search ended, so no more lie
/// there than searches ran at one time.
const SLOTS: usize = 16;

/// The word of a slot in which a memory lies.
const FULL: u64 = 1 << 32;

/// A memory that lies on a shelf.
#[derive(Drop)]
pub(crate) struct Kept {
    memory: Box<Memory>,
}

impl Fits for Kept {
    type Tag = Dfa;

    ghost fits = { λ dfa kept. IsMemoryFor kept.memory.value dfa };
}

/// The memories of one expression that no search has at present.
#[derive(Drop)]
pub(crate) struct Shelf {
    slots: Vec<Counted<Option<Kept>>>,
}

/// Takes what lies in the slot. There is nothing where another search takes it or lays it down.
fn taken_from(slot: &Counted<Option<Kept>>) -> Option<Kept>
    ensures { IfSome result (λ kept. IsMemoryFor kept.memory.value slot.now) }
{
    if slot.load() != FULL {
        return None;
    }
    let (found, claim) = slot.turn(FULL, FULL + TAKEN);
    if found != FULL {
        claim.done();
        return None;
    }
    claim.put(None, FREE)
}

/// Lays the memory in the slot, or hands it back where the slot isn't free.
fn laid_in(slot: &Counted<Option<Kept>>, kept: Kept) -> Option<Kept>
    requires { IsMemoryFor kept.memory.value slot.now }
    ensures { IfSome result (λ back. back ≡ kept) }
{
    if slot.load() != FREE {
        return Some(kept);
    }
    let (found, claim) = slot.turn(FREE, TAKEN);
    if found != FREE {
        claim.done();
        return Some(kept);
    }
    let _before = claim.put(Some(kept), FULL);
    None
}

impl Shelf {
    pub(crate) fn new(alloc: Global, dfa: &Dfa) -> Result<Shelf, NoMemory>
        ensures { IfOk result (λ shelf. IsShelfFor shelf dfa.now) }
    {
        let mut slots = Vec::with_capacity(alloc, SLOTS)?;
        for _ in 0..SLOTS {
            slots.push(Counted::new(None, dfa))?;
        }
        Ok(Shelf { slots })
    }

    /// A memory that no search has, if one lies here.
    pub(crate) fn take(&self) -> Option<Box<Memory>>
        ensures { (dfa : _) → IsShelfFor self.now dfa → IfSome result (λ memory. IsMemoryFor memory.value dfa) }
    {
        for at in 0..self.slots.len() {
            if let Some(kept) = taken_from(&self.slots[at]) {
                return Some(kept.memory);
            }
        }
        None
    }

    /// Lays a memory down for the next search. It is dropped where no slot is free, and where the
    /// maker's patterns keep too much.
    pub(crate) fn lay(&self, dfa: &Dfa, mut memory: Box<Memory>)
        requires shelf { IsShelfFor self.now dfa.now }
        requires memory { IsMemoryFor memory.value dfa.now }
    {
        if !memory.count(dfa) {
            return;
        }
        let mut kept = Kept { memory };
        for at in 0..self.slots.len() {
            match laid_in(&self.slots[at], kept) {
                None => return,
                Some(back) => kept = back,
            }
        }
    }
}
