//! The trie of all patterns, grown a letter at a time, so that its states are in the order of their depth.

ghost use Rattle.std.specs.Prelude.{◌≡◌, ℕ, ◌+◌, ◌<◌, ◌≤◌, length, take, slice_index, All, IfOk, OnOk};
ghost use Rattle.pattern_search.specs.Words.{IsTrie, words_of};

use crate::letters::Letters;
use crate::numbers::{read, write};
use crate::trie::Trie;
use edge_io::{NoMemory, Text};
use std::alloc::Global;

/// The trie of all patterns, and the state in which each of them ends.
#[derive(Drop)]
pub struct Grown {
    pub trie: Trie,
    pub ends: Vec<u32>,
}

impl Grown {
    ghost use Rattle.pattern_search.specs.Growing.{EndsAt, AreAt, Advances, AreGrown};

    /// The state in which a pattern ends that is one letter deeper than this.
    fn next_end(
        trie: &mut Trie,
        letters: &[u16; 256],
        pattern: &[u8],
        depth: usize,
        end: u32,
    ) -> Result<u32, NoMemory>
        requires trie { IsTrie trie.old (depth + 1) }
        requires letters { (byte : ℕ) → slice_index letters.now byte < trie.old.width }
        requires end { EndsAt (words_of trie.old.steps.items) letters.now (take depth pattern.now) end }
        ensures { IfOk result (λ next. Advances trie.old letters.now pattern.now depth next trie.new) }
    {
        if pattern.len() <= depth {
            return Ok(end);
        }
        let letter = letters[pattern[depth] as usize];
        let next = trie.child(end, letter)?;
        Ok(next)
    }

    /// Grows the trie by one letter of each pattern that is longer than `depth`.
    fn deepen(
        trie: &mut Trie,
        letters: &[u16; 256],
        patterns: &[Text],
        depth: usize,
        ends: &mut [u32],
    ) -> Result<(), NoMemory>
        requires trie { IsTrie trie.old (depth + 1) }
        requires letters { (byte : ℕ) → slice_index letters.now byte < trie.old.width }
        requires ends { AreAt (words_of trie.old.steps.items) letters.now patterns.now ends.old depth }
        ensures trie { OnOk result (IsTrie trie.new (depth + 1)) }
        ensures width { OnOk result (trie.new.width ≡ trie.old.width) }
        ensures ends { OnOk result (AreAt (words_of trie.new.steps.items) letters.now patterns.now ends.new (depth + 1)) }
    {
        for (place, pattern) in patterns.iter().enumerate() {
            let end = read(ends, place);
            let next = Grown::next_end(trie, letters, pattern.bytes(), depth, end)?;
            write(ends, place, next);
        }
        Ok(())
    }

    /// The trie of the patterns.
    pub fn of(alloc: Global, letters: &Letters, patterns: &[Text]) -> Result<Grown, NoMemory>
        requires { (byte : ℕ) → slice_index letters.now.of byte < letters.now.count }
        ensures grown { IfOk result (λ grown. AreGrown letters.now.of patterns.now grown) }
        ensures width { IfOk result (λ grown. grown.trie.width ≡ letters.now.count) }
    {
        let mut trie = Trie::new(alloc, letters.count)?;
        let mut ends = vec![in alloc; 0; patterns.len()]?;
        for depth in 0..longest(patterns) {
            Grown::deepen(&mut trie, &letters.of, patterns, depth, &mut ends)?;
        }
        Ok(Grown { trie, ends })
    }
}

/// How many bytes the longest pattern has.
fn longest(patterns: &[Text]) -> usize
    ensures { All (λ pattern. length pattern ≤ result) patterns.now }
{
    let mut most = 0usize;
    for pattern in patterns {
        most = most.max(pattern.bytes().len());
    }
    most
}
