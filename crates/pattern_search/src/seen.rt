//! The places that were found in a walk: an ordered set, so that a walk costs no more than what it finds.

ghost use Rattle.std.specs.Prelude.{◌≡◌, ℕ, ◌==◌, ◌||◌, not, false, IfOk, OnOk};

use std::alloc::{AllocError, Global};
use std::collections::BTreeSet;

/// Which places are marked.
#[derive(Drop)]
pub struct MarkSet {
    pub places: BTreeSet<u32>,
}

impl MarkSet {
    ghost use Rattle.pattern_search.specs.Marking.{is_marked};

    /// No place is marked. Takes no memory.
    pub fn new(alloc: Global) -> MarkSet
        ensures { (place : ℕ) → is_marked result place ≡ false }
    {
        MarkSet {
            places: BTreeSet::new(alloc),
        }
    }

    /// Marks a place, and answers whether it wasn't marked before.
    pub fn mark(&mut self, at: u32) -> Result<bool, AllocError>
        ensures answer { IfOk result (λ fresh. fresh ≡ not (is_marked self.old at)) }
        ensures marked { OnOk result ((place : ℕ) → is_marked self.new place ≡ (is_marked self.old place || (place == at))) }
    {
        let fresh = self.places.insert(at)?;
        Ok(fresh)
    }
}
