//! The words that patterns begin with, each one letter longer than an earlier one.

ghost use Rattle.std.specs.Prelude.{◌≡◌, ◌+◌, ◌*◌, ◌<◌, ◌∷◌, [], ◌++◌, length, slice_index, slice_set, IfOk, OnOk};
ghost use Rattle.pattern_search.specs.Words.{step_at};

use crate::numbers::{read, write};
use edge_io::NoMemory;
use std::alloc::Global;

/// A state: the word of an earlier state, with a letter after it. Before it the last state that is that state's
/// word with another letter after it; 0 where there is none.
#[derive(Clone, Copy)]
pub struct TrieState {
    pub up: u32,
    pub by: u16,
    pub same: u32,
}

/// There are at most this many steps, so that a move to each state has 32 bits.
const MOST_STEPS: usize = 1_073_741_823;

/// The states. The state 0 is the empty word, and has no step.
#[derive(Drop)]
pub struct Trie {
    pub steps: Vec<TrieState>,
    /// The last state that is each state's word with a letter after it; 0 where there is none.
    pub firsts: Vec<u32>,
    pub width: u16,
}

/// The place of a row and a column of a table.
pub fn place(width: u16, row: u32, column: u16) -> usize
    ensures { result ≡ row * width + column }
{
    row as usize * width as usize + column as usize
}

/// The step at a place.
pub fn step_at(steps: &[TrieState], at: usize) -> TrieState
    ensures { result ≡ step_at steps.now at }
{
    if steps.len() <= at {
        return TrieState {
            up: 0,
            by: 0,
            same: 0,
        };
    }
    steps[at]
}

impl Trie {
    ghost use Rattle.pattern_search.specs.Words.{IsTrie, words_of, word_at, HasChild, FindsChild, AreChildren};

    /// The empty word alone.
    pub fn new(alloc: Global, width: u16) -> Result<Trie, NoMemory>
        ensures trie { IfOk result (λ trie. IsTrie trie 0) }
        ensures width { IfOk result (λ trie. trie.width ≡ width) }
        ensures steps { IfOk result (λ trie. trie.steps.items ≡ []) }
    {
        let mut firsts = Vec::new(alloc);
        firsts.push(0)?;
        Ok(Trie {
            steps: Vec::new(alloc),
            firsts,
            width,
        })
    }

    /// The state whose word is this state's with the letter after it; 0 where there is none.
    pub fn found(&self, state: u32, letter: u16) -> u32
        ensures { FindsChild self.now state letter result }
    {
        let mut at = read(&self.firsts, state as usize);
        while at != 0 {
            let step = step_at(&self.steps, at as usize - 1);
            if step.by == letter {
                return at;
            }
            at = step.same.min(at - 1);
        }
        0
    }

    /// Writes, for each letter, the state whose word is this state's with the letter after it; 0 where there is none.
    pub fn put_children(&self, state: u32, children: &mut [u32])
        requires { length children.old ≡ self.now.width }
        ensures { AreChildren self.now state children.new }
    {
        children.fill(0);
        let mut at = read(&self.firsts, state as usize);
        while at != 0 {
            let step = step_at(&self.steps, at as usize - 1);
            write(children, step.by as usize, at);
            at = step.same.min(at - 1);
        }
    }

    /// Adds the state whose word is that of `up` with the letter after it.
    fn grow(&mut self, up: u32, by: u16) -> Result<u32, NoMemory>
        ensures state { IfOk result (λ state. state ≡ length self.old.steps.items + 1) }
        ensures steps { OnOk result (self.new.steps.items
            ≡ self.old.steps.items ++ record { up = up; by = by; same = slice_index self.old.firsts.items up } ∷ []) }
        ensures firsts { IfOk result (λ state. self.new.firsts.items ≡ slice_set (self.old.firsts.items ++ 0 ∷ []) up state) }
        ensures width { OnOk result (self.new.width ≡ self.old.width) }
        ensures few { OnOk result (length self.new.steps.items < 1073741824) }
    {
        let earlier = self.steps.len();
        if earlier >= MOST_STEPS {
            return Err(NoMemory);
        }
        let state = earlier as u32 + 1;
        let same = read(&self.firsts, up as usize);
        self.firsts.push(0)?;
        self.steps.push(TrieState { up, by, same })?;
        write(&mut self.firsts, up as usize, state);
        Ok(state)
    }

    /// The state whose word is this state's with the letter after it, which is added where it lacks. The
    /// state's word is one of the longest but one.
    pub fn child(&mut self, state: u32, letter: u16) -> Result<u32, NoMemory>
        requires trie { IsTrie self.old (length (word_at (words_of self.old.steps.items) state) + 1) }
        requires state { state < length (words_of self.old.steps.items) }
        requires letter { letter < self.old.width }
        ensures { IfOk result (λ child. HasChild self.old state letter child self.new) }
    {
        let child = self.found(state, letter);
        if child != 0 {
            return Ok(child);
        }
        let child = self.grow(state, letter)?;
        Ok(child)
    }
}
