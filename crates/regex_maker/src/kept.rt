//! For tests of how much the patterns of a maker keep.

use crate::{RegexMaker, RegexPattern};
use std::alloc::Global;

/// A maker whose patterns keep at most this many bytes of working memory together.
pub fn with_most(alloc: Global, most: u64) -> RegexMaker {
    RegexMaker::with_most(alloc, most)
}

/// The bytes that the maker's patterns are counted for. There are none before the first pattern.
pub fn counted(maker: &RegexMaker) -> Option<u64> {
    maker.tally.as_ref().map(|tally| tally.counted())
}

/// Takes from the shelves of the patterns all that lies there. How many memories, and their sizes.
pub fn emptied(patterns: &[RegexPattern]) -> (usize, u64) {
    let mut all = (0usize, 0u64);
    for pattern in patterns {
        for _ in 0..16u32 {
            if let Some(memory) = pattern.shelf.take() {
                let size = memory.size(&pattern.program.dfa);
                all = (all.0.saturating_add(1), all.1.saturating_add(size));
            }
        }
    }
    all
}
