//! Patterns that find their text as plain bytes, and tell a watcher of each search.

use edge_io::{
    Literal, LiteralMaker, MakeFault, NoMemory, Pattern, PatternFlags, PatternMaker, Span,
};
use std::alloc::Global;

/// Who is told of searches.
pub(crate) trait Watcher: Sync {
    /// A search of these bytes begins.
    fn begin(&self, bytes: &[u8]);
}

/// A pattern that is watched.
#[derive(Drop)]
pub(crate) struct Watched<'a, W> {
    literal: Literal,
    watcher: &'a W,
}

impl<'a, W: Watcher> Pattern for Watched<'a, W> {
    ghost use Rattle.edge_io.specs.Matching.{literal_span};

    ghost finds = { λ watched bytes. literal_span watched.literal.nocase watched.literal.text bytes };

    fn find(&self, bytes: &[u8]) -> Result<Option<Span>, NoMemory> {
        self.watcher.begin(bytes);
        self.literal.find(bytes)
    }
}

/// A maker of patterns that are watched, which refuses none.
#[derive(Drop)]
pub(crate) struct WatchedMaker<'a, W> {
    maker: LiteralMaker,
    watcher: &'a W,
}

impl<'a, W: Watcher> WatchedMaker<'a, W> {
    /// A maker that has refused nothing yet, whose patterns tell this watcher of each search.
    pub fn new(alloc: Global, watcher: &'a W) -> WatchedMaker<'a, W> {
        WatchedMaker {
            maker: LiteralMaker::new(alloc),
            watcher,
        }
    }
}

impl<'a, W: Watcher> PatternMaker for WatchedMaker<'a, W> {
    type Made = Watched<'a, W>;

    ghost use Rattle.edge_io.specs.Matching.{literal_span};

    ghost means = { λ _ text flags bytes. literal_span flags.nocase text bytes };

    ghost refusals = { λ watched. watched.maker.refusals };

    fn make(
        &mut self,
        alloc: Global,
        text: &str,
        flags: PatternFlags,
    ) -> Result<Watched<'a, W>, MakeFault> {
        let literal = self.maker.make(alloc, text, flags)?;
        Ok(Watched {
            literal,
            watcher: self.watcher,
        })
    }
}
