//! Patterns that find their text as plain bytes, and count their searches.

use edge_io::{
    Literal, LiteralMaker, MakeFault, NoMemory, Pattern, PatternFlags, PatternMaker, Span,
};
use std::alloc::Global;
use std::sync::atomic::{AtomicU64, Ordering};

/// A pattern whose searches are counted.
#[derive(Drop)]
pub(crate) struct CountedPattern<'a> {
    literal: Literal,
    searches: &'a AtomicU64,
}

impl<'a> Pattern for CountedPattern<'a> {
    ghost use Rattle.edge_io.specs.Matching.{literal_span};

    ghost finds = { λ counted bytes. literal_span counted.literal.nocase counted.literal.text bytes };

    fn find(&self, bytes: &[u8]) -> Result<Option<Span>, NoMemory> {
        self.searches.fetch_add(1, Ordering::SeqCst);
        self.literal.find(bytes)
    }
}

/// A maker of patterns that are counted together, which refuses none.
#[derive(Drop)]
pub(crate) struct CountingMaker<'a> {
    maker: LiteralMaker,
    searches: &'a AtomicU64,
}

impl<'a> CountingMaker<'a> {
    /// A maker that has refused nothing yet, whose patterns are counted here.
    pub fn new(alloc: Global, searches: &'a AtomicU64) -> CountingMaker<'a> {
        CountingMaker {
            maker: LiteralMaker::new(alloc),
            searches,
        }
    }
}

impl<'a> PatternMaker for CountingMaker<'a> {
    type Made = CountedPattern<'a>;

    ghost use Rattle.edge_io.specs.Matching.{literal_span};

    ghost means = { λ _ text flags bytes. literal_span flags.nocase text bytes };

    ghost refusals = { λ counting. counting.maker.refusals };

    fn make(
        &mut self,
        alloc: Global,
        text: &str,
        flags: PatternFlags,
    ) -> Result<CountedPattern<'a>, MakeFault> {
        let literal = self.maker.make(alloc, text, flags)?;
        Ok(CountedPattern {
            literal,
            searches: self.searches,
        })
    }
}
