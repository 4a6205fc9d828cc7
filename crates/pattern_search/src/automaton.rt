//! Finds all patterns of a list that occur in a text: walks from where the sieve lets one begin, or one walk over it all.

ghost use Rattle.std.specs.Prelude.{◌≡◌, ℕ, ◌≤◌, ◌<◌, ◌==◌, ◌&&◌, ◌||◌, not, length, nat_lt, IfOk, OnOk};
ghost use Rattle.pattern_search.specs.Finding.{Follows};
ghost use Rattle.pattern_search.specs.Marking.{is_marked};
ghost use Rattle.pattern_search.specs.Rows.{state_of};

use crate::effort::Effort;
use crate::ends::Grown;
use crate::letters::letters_of;
use crate::links::{Links, nexts};
use crate::moves::reach;
use crate::numbers::read;
use crate::owned::Owned;
use crate::rows::{FEW_LETTERS, Rows, SPARSE, shallow_bound};
use crate::seen::MarkSet;
use crate::sieve::Sieve;
use crate::trie::{Trie, place};
use edge_io::{NoMemory, Text};
use std::alloc::{AllocError, Global};

/// The automaton of Aho and Corasick. Its first states have a row of moves each; from the others a walk goes back
/// along the fails.
#[derive(Drop)]
pub struct Automaton {
    /// The letter of each byte.
    letters: [u16; 256],
    /// The states.
    trie: Trie,
    /// How many of them have a row.
    dense: u32,
    /// The rows, a column a letter: the moves from these states.
    table: Vec<u32>,
    /// The move to each state: its place, doubled, and one more where a pattern ends there.
    entries: Vec<u32>,
    /// The state that each one fails to.
    fails: Vec<u32>,
    /// The first pattern of each state's chain: its place, plus one.
    heads: Vec<u32>,
    /// The pattern after each one in the chains: its place, plus one.
    nexts: Vec<u32>,
    /// A state whose place is below this has a word of at most `FEW_LETTERS` letters.
    shallow: u64,
    /// Where a pattern may begin; none where too many places would pass.
    sieve: Option<Sieve>,
}

/// Marks a place below a count, and answers whether it is one that wasn't marked before.
fn mark(seen: &mut MarkSet, count: usize, at: u32) -> Result<bool, AllocError>
    ensures answer { IfOk result (λ fresh. fresh ≡ (nat_lt at count && not (is_marked seen.old at))) }
    ensures marked { IfOk result (λ fresh. (place : ℕ)
        → is_marked seen.new place ≡ (is_marked seen.old place || (fresh && (place == at)))) }
{
    if count <= at as usize {
        return Ok(false);
    }
    let fresh = seen.mark(at)?;
    Ok(fresh)
}

/// Marks the patterns of a chain, up to one that is marked: those after it are marked too. Lists those that
/// weren't marked.
fn follow(
    nexts: &[u32],
    head: u32,
    seen: &mut MarkSet,
    hits: &mut Vec<u32>,
) -> Result<(), AllocError>
    ensures { OnOk result (Follows nexts.now head seen.old hits.old.items seen.new hits.new.items) }
{
    let mut at = head;
    while at != 0 {
        let fresh = mark(seen, nexts.len(), at - 1)?;
        if !fresh {
            return Ok(());
        }
        hits.push(at - 1)?;
        at = read(nexts, at as usize - 1);
    }
    Ok(())
}

/// How far the first walk goes at least, and each one after a long skip: a walk gives back the last `FEW_LETTERS` bytes.
const SHORT_REACH: usize = FEW_LETTERS + 1;

/// How far a walk goes at least after many short skips, which cost more than they spare.
const LONG_REACH: usize = 256;

/// A skip over fewer bytes is short: beginning a walk anew takes longer than it spares.
const SHORT_SKIP: usize = 16;

/// How far the next walk goes at least: twice as far after a short skip.
fn next_reach(reach: usize, skipped: usize) -> usize {
    if skipped < SHORT_SKIP {
        reach.saturating_mul(2).min(LONG_REACH)
    } else {
        SHORT_REACH
    }
}

impl Automaton {
    ghost use Rattle.pattern_search.specs.Finding.{Finds, Steps, StepsBack, CoversOn, Marks, Notes, AreFound, AreHits, so_far};

    /// The automaton of these patterns; an empty one is none.
    pub fn of(alloc: Global, patterns: &[Text]) -> Result<Automaton, NoMemory>
        requires { length patterns.now < 4294967295 }
        ensures { IfOk result (λ automaton. Finds automaton patterns.now) }
    {
        let letters = letters_of(patterns);
        let sieve = Sieve::of(alloc, patterns)?;
        let grown = Grown::of(alloc, &letters, patterns)?;
        let Grown { trie, ends } = grown;
        let owned = Owned::of(alloc, trie.steps.len() + 1, &ends)?;
        let links = Links::of(alloc, &trie, &owned.firsts)?;
        let nexts = nexts(alloc, &ends, &owned.sames, &links)?;
        let Links { fails, heads } = links;
        let rows = Rows::of(alloc, &trie, &fails, &heads)?;
        let Rows {
            dense,
            table,
            entries,
        } = rows;
        let shallow = shallow_bound(&trie, dense);
        Ok(Automaton {
            letters: letters.of,
            trie,
            dense,
            table,
            entries,
            fails,
            heads,
            nexts,
            shallow,
            sieve,
        })
    }

    /// The state with a place.
    #[tactic(auto, unfolding(crate::specs::Rows::state_of))]
    fn state_at(&self, at: u32) -> u32
        ensures { 0 < self.now.trie.width → result ≡ state_of self.now.trie.width at }
    {
        if at < SPARSE {
            return at.checked_div(u32::from(self.trie.width)).unwrap_or(0);
        }
        at - SPARSE
    }

    /// The move by a letter from a state that has no row.
    // Kept out of the walk's loop, which takes a quarter less time for it.
    #[inline(never)]
    fn step_back(&self, state: u32, letter: u16) -> u32
        ensures { StepsBack self.now state letter result }
    {
        let reached = reach(&self.trie, &self.fails, self.dense, state, letter);
        if reached.child != 0 {
            return read(&self.entries, reached.child as usize);
        }
        read(&self.table, place(self.trie.width, reached.state, letter))
    }

    /// The move by a letter from the state with a place.
    #[inline(always)]
    fn step(&self, at: u32, letter: u16) -> u32
        ensures { Steps self.now at letter result }
    {
        let place = at as usize + letter as usize;
        if place < self.table.len() {
            return self.table[place];
        }
        self.step_back(at.saturating_sub(SPARSE), letter)
    }

    /// Marks and lists the patterns that end at the state with this place.
    #[inline(never)]
    fn mark_ended(&self, at: u32, seen: &mut MarkSet, hits: &mut Vec<u32>) -> Result<(), NoMemory>
        ensures { OnOk result (Marks self.now at seen.old hits.old.items seen.new hits.new.items) }
    {
        let head = read(&self.heads, self.state_at(at) as usize);
        follow(&self.nexts, head, seen, hits)?;
        Ok(())
    }

    /// Marks and lists the patterns that end where the move goes to, if it says that some do.
    #[inline(always)]
    fn note(&self, entry: u32, seen: &mut MarkSet, hits: &mut Vec<u32>) -> Result<(), NoMemory>
        ensures { OnOk result (Notes self.now entry seen.old hits.old.items seen.new hits.new.items) }
    {
        if entry % 2 == 0 {
            return Ok(());
        }
        self.mark_ended(entry / 2, seen, hits)?;
        Ok(())
    }

    /// Walks from the root over the bytes from one place on, up to their end or, past another place, to a state
    /// of few letters, and gives back as many bytes. What begins before the answer is marked then.
    fn walk(
        &self,
        bytes: &[u8],
        from: usize,
        reach: usize,
        seen: &mut MarkSet,
        hits: &mut Vec<u32>,
    ) -> Result<usize, NoMemory>
        requires { from < length bytes.now }
        ensures covers { IfOk result (λ to. CoversOn self.now bytes.now from (so_far seen.old hits.old.items)
            to (so_far seen.new hits.new.items)) }
        ensures on { IfOk result (λ to. from < to) }
        ensures within { IfOk result (λ to. to ≤ length bytes.now) }
    {
        let reach = reach.max(from.saturating_add(SHORT_REACH));
        let mut at = 0;
        let mut done = from;
        while done < bytes.len() {
            let letter = self.letters[bytes[done] as usize];
            let entry = self.step(at, letter);
            at = entry / 2;
            done += 1;
            self.note(entry, seen, hits)?;
            if reach <= done && u64::from(at) < self.shallow {
                return Ok(done - FEW_LETTERS);
            }
        }
        Ok(done)
    }

    /// Marks and lists the patterns that occur in the bytes, by one walk over all of them.
    fn mark_in_one_walk(
        &self,
        bytes: &[u8],
        seen: &mut MarkSet,
        hits: &mut Vec<u32>,
    ) -> Result<(), NoMemory>
        ensures { OnOk result (CoversOn self.now bytes.now 0 (so_far seen.old hits.old.items)
            (length bytes.now) (so_far seen.new hits.new.items)) }
    {
        let mut at = 0;
        for byte in bytes {
            let letter = self.letters[*byte as usize];
            let entry = self.step(at, letter);
            at = entry / 2;
            self.note(entry, seen, hits)?;
        }
        Ok(())
    }

    /// Marks and lists the patterns that occur in the bytes, and counts what that took.
    fn mark_all(
        &self,
        bytes: &[u8],
        seen: &mut MarkSet,
        hits: &mut Vec<u32>,
        effort: &mut Effort,
    ) -> Result<(), NoMemory>
        ensures { OnOk result (CoversOn self.now bytes.now 0 (so_far seen.old hits.old.items)
            (length bytes.now) (so_far seen.new hits.new.items)) }
    {
        let Some(sieve) = &self.sieve else {
            effort.add_walk(0, bytes.len());
            self.mark_in_one_walk(bytes, seen, hits)?;
            return Ok(());
        };
        effort.add_sieved(bytes.len());
        let mut done = 0;
        let mut reach = SHORT_REACH;
        while done < bytes.len() {
            let from = sieve.next_start(bytes, done);
            if bytes.len() <= from {
                return Ok(());
            }
            reach = next_reach(reach, from - done);
            done = self.walk(bytes, from, from.saturating_add(reach), seen, hits)?;
            effort.add_walk(from, done);
        }
        Ok(())
    }

    /// The places of the patterns that occur in the text, each once, in no order, as `find` gives them. What finding them
    /// took is counted.
    pub fn find_unordered(
        &self,
        alloc: Global,
        text: &[u8],
        effort: &mut Effort,
    ) -> Result<Vec<u32>, NoMemory>
        ensures { IfOk result (λ found. AreHits self.now text.now found.items) }
    {
        let mut seen = MarkSet::new(alloc);
        let mut hits = Vec::new(alloc);
        self.mark_all(text, &mut seen, &mut hits, effort)?;
        Ok(hits)
    }

    /// The places of the patterns that occur in the text, ASCII letters in either case, among those that the automaton
    /// was made of: ascending, each once. An empty pattern never occurs.
    pub fn find(&self, alloc: Global, text: &[u8]) -> Result<Vec<u32>, NoMemory>
        ensures { IfOk result (λ found. AreFound self.now text.now found.items) }
    {
        let mut effort = Effort::NONE;
        let mut found = self.find_unordered(alloc, text, &mut effort)?;
        found.sort_unstable();
        Ok(found)
    }
}
