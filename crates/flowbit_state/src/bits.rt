//! The bits that rules set in a session.
ghost use Rattle.std.specs.Prelude.{◌≡◌, ◌<◌, IsTrue, OnOk, OnErr};
ghost use Rattle.std.specs.FinSet.{empty, contains};
ghost use Rattle.flowbit_state.specs.Changes.{changed};

use crate::words::BitWords;
use edge_io::NoMemory;
use rule_types::BitChange;
use std::alloc::Global;
use std::marker::Model;

/// The bits of a session that are set. Contracts see the set of their numbers.
#[derive(Debug, Drop)]
pub struct Bits {
    /// None where no bit was changed yet.
    words: Option<Box<BitWords>>,
}

impl Model for Bits {
    ghost use Rattle.std.specs.FinSet.{FinSet, code};
    ghost use Rattle.std.specs.Ordering.{nat_cmp};
    ghost use Rattle.std.specs.Coded.{coded_ℕ};

    ghost Value = { FinSet nat_cmp };

    ghost coded = { code coded_ℕ };

    ghost use Rattle.std.specs.Prelude.{unwrap_or, option_map};
    ghost use Rattle.std.specs.FinSet.{empty};

    ghost view = { λ bits. unwrap_or (option_map (λ words. words.value) bits.words) empty };
}

impl Bits {
    /// No bit is set. Takes no memory.
    pub fn new() -> Bits
        ensures { result ≡ empty }
    {
        Bits { words: None }
    }

    /// Whether the bit is set. Takes no memory.
    pub fn test(&self, bit: u32) -> bool
        ensures set { result ≡ contains self.now bit }
        ensures below { IsTrue result → bit < 1024 }
    {
        match &self.words {
            None => false,
            Some(words) => words.test(bit),
        }
    }

    /// Sets, unsets or toggles the bit. Where memory is lacking, no bit changes.
    pub fn apply(&mut self, alloc: Global, change: BitChange, bit: u32) -> Result<(), NoMemory>
        requires { bit < 1024 }
        ensures changed { OnOk result (self.new ≡ changed change bit self.old) }
        ensures unchanged { OnErr result (self.new ≡ self.old) }
    {
        let mut words = match self.words.take() {
            Some(words) => words,
            None => Box::new(alloc, BitWords::new())?,
        };
        words.apply(change, bit);
        self.words = Some(words);
        Ok(())
    }
}
