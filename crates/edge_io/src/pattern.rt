//! Regular expressions as rules use them: what makes them, and what a search finds.
ghost use Rattle.std.specs.Prelude.{◌≡◌, ℕ, ◌≤◌, [], ◌∷◌, ◌++◌, List, Option, length, IfOk, IfSome, OnOk, IsErrOf};

use crate::{NoMemory, Text};
use std::alloc::Global;

/// How a pattern reads its text: the flags `i`, `s`, `m` and `x` of a `pcre` option.
#[derive(Clone, Copy, Debug, PartialEq, Eq)]
pub struct PatternFlags {
    pub nocase: bool,
    pub dot_all: bool,
    pub multi_line: bool,
    pub extended: bool,
}

/// A match: the bytes from place `start` up to place `end`.
#[derive(Clone, Copy, Debug, PartialEq, Eq)]
pub struct Span {
    pub start: usize,
    pub end: usize,
}

/// A text that a maker refused, with its flags.
#[derive(Debug, Drop)]
pub struct Refusal {
    pub text: Text,
    pub flags: PatternFlags,
}

/// Why no pattern was made.
#[derive(Clone, Copy, Debug, PartialEq, Eq)]
pub enum MakeFault {
    /// The maker refuses the text with these flags.
    Refused,
    /// Memory ran out.
    NoMemory,
}

/// A pattern that was made: what it finds in bytes, its meaning `finds`.
pub trait Pattern: Drop + Send + Sync {
    ghost use Rattle.edge_io.specs.declared.pattern.Span.{Span};

    ghost finds: { Self → List ℕ → Option Span };

    /// The leftmost match in the bytes.
    fn find(&self, bytes: &[u8]) -> Result<Option<Span>, NoMemory>
        ensures found { IfOk result (λ span. span ≡ finds self.now bytes.now) }
        ensures in_order { IfOk result (λ found. IfSome found (λ span. span.start ≤ span.end)) }
        ensures within { IfOk result (λ found. IfSome found (λ span. span.end ≤ length bytes.now)) };
}

/// Makes patterns of texts with flags.
///
/// The meanings: `means`, the leftmost match of a text with flags in bytes, which no call changes;
/// `refusals`, what was refused so far, in order, which the maker keeps.
pub trait PatternMaker {
    type Made: Pattern;

    ghost use Rattle.edge_io.specs.declared.pattern.Span.{Span};
    ghost use Rattle.edge_io.specs.declared.pattern.PatternFlags.{PatternFlags};
    ghost use Rattle.edge_io.specs.declared.pattern.Refusal.{Refusal};

    ghost means: { Self → List ℕ → PatternFlags → List ℕ → Option Span };

    ghost refusals: { Self → List Refusal };

    /// Makes a pattern whose `finds` is this maker's `means` of the text and the flags.
    fn make(
        &mut self,
        alloc: Global,
        text: &str,
        flags: PatternFlags,
    ) -> Result<Self::Made, MakeFault>
        ensures made { IfOk result (λ pattern. (bytes : List ℕ) →
            Self.Made.finds pattern bytes ≡ means self.old text.now flags bytes) }
        ensures refused { IsErrOf result MakeFault.Refused →
            refusals self.new ≡ refusals self.old ++ record { text = text.now; flags = flags } ∷ [] }
        ensures made_unrefused { OnOk result (refusals self.new ≡ refusals self.old) }
        ensures no_memory { IsErrOf result MakeFault.NoMemory → refusals self.new ≡ refusals self.old }
        ensures same_meaning { (words : List ℕ) (how : PatternFlags) (bytes : List ℕ) →
            means self.new words how bytes ≡ means self.old words how bytes };
}

impl From<NoMemory> for MakeFault {
    ghost use Rattle.edge_io.specs.declared.pattern.MakeFault.TheVariants.{NoMemory as out_of_memory};

    ghost from_gives = { λ _ fault. fault ≡ out_of_memory };

    fn from(_error: NoMemory) -> MakeFault {
        MakeFault::NoMemory
    }
}
