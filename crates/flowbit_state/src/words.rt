//! A set of 1024 bits in sixteen words.
ghost use Rattle.std.specs.Prelude.{◌≡◌, ◌==◌, ℕ, ◌<◌, IsTrue, if◌then◌else◌};
ghost use Rattle.std.specs.FinSet.{empty, contains};
ghost use Rattle.flowbit_state.specs.Changes.{changed, bit_after};
ghost use Rattle.flowbit_state.specs.Words.{is_bit};

use rule_types::BitChange;
use std::marker::Model;

/// The bits of a word.
const WORD: u32 = 64;

/// 1024 bits, 64 in a word: bit n is bit n % 64 of word n / 64. Contracts see the set of those that
/// are set.
#[derive(Debug, Drop)]
pub struct BitWords {
    words: [u64; 16],
}

impl Model for BitWords {
    ghost use Rattle.std.specs.FinSet.{FinSet, code};
    ghost use Rattle.std.specs.Ordering.{nat_cmp};
    ghost use Rattle.std.specs.Coded.{coded_ℕ};

    ghost Value = { FinSet nat_cmp };

    ghost coded = { code coded_ℕ };

    ghost use Rattle.flowbit_state.specs.Words.{set_in};

    ghost view = { λ words. set_in words.words };

    ghost use Rattle.std.specs.Prelude.{◌≡◌, length};

    ghost invariant = { λ words. length words.words ≡ 16 };
}

/// The word with its bit changed.
fn word_with(word: u64, change: BitChange, bit: u32) -> u64
    requires { bit < 64 }
    ensures { (other : ℕ) → other < 64 →
        is_bit result other ≡ (if other == bit then bit_after change (is_bit word bit) else is_bit word other) }
{
    let mask = 1u64 << bit;
    match change {
        BitChange::Set => word | mask,
        BitChange::Unset => word & !mask,
        BitChange::Toggle => word ^ mask,
    }
}

impl BitWords {
    /// No bit is set.
    pub fn new() -> BitWords
        ensures { result ≡ empty }
    {
        BitWords { words: [0; 16] }
    }

    /// Whether the bit is set.
    pub fn test(&self, bit: u32) -> bool
        ensures set { result ≡ contains self.now bit }
        ensures below { IsTrue result → bit < 1024 }
    {
        match self.words.get((bit / WORD) as usize) {
            None => false,
            Some(word) => (*word >> (bit % WORD)) & 1 == 1,
        }
    }

    /// Sets, unsets or toggles the bit.
    pub fn apply(&mut self, change: BitChange, bit: u32)
        requires { bit < 1024 }
        ensures { self.new ≡ changed change bit self.old }
    {
        let at = (bit / WORD) as usize;
        self.words[at] = word_with(self.words[at], change, bit % WORD);
    }
}
