//! A maker of patterns that makes nothing of them: for a configuration of which only texts are wanted.
ghost use Rattle.std.specs.Prelude.{[], None, refl};

use edge_io::{MakeFault, NoMemory, Pattern, PatternFlags, PatternMaker, Span};
use std::alloc::Global;

/// A pattern that finds nothing.
#[derive(Clone, Copy, Debug)]
pub(crate) struct Unused;

impl Pattern for Unused {
    ghost finds = { λ _ _. None };

    fn find(&self, _bytes: &[u8]) -> Result<Option<Span>, NoMemory> {
        Ok(None)
    }
}

/// The maker, which refuses no pattern.
#[derive(Clone, Copy, Debug)]
pub(crate) struct NoPatterns;

impl PatternMaker for NoPatterns {
    type Made = Unused;

    ghost means = { λ _ _ _ _. None };

    ghost refusals = { λ _. [] };

    fn make(
        &mut self,
        _alloc: Global,
        _text: &str,
        _flags: PatternFlags,
    ) -> Result<Unused, MakeFault> {
        Ok(Unused)
    }
}
