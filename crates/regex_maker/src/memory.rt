//! The working memory of searches, and how much of it is kept.
ghost use Rattle.std.specs.Prelude.{◌≡◌, ◌≤◌, length, true, option_map, IfOk};
ghost use Rattle.regex_vm.specs.Found.{span};
ghost use Rattle.regex_extract.specs.Bounds.{IsAnchored};
ghost use Rattle.regex_meta.specs.Programs.{pattern_of, leftmost};
ghost use Rattle.regex_maker.specs.Searching.{IsMemoryFor};

use crate::tally::{MemoryCount, MemoryTally};
use edge_io::NoMemory;
use regex_dfa::{Dfa, End, Forward, Reverse, Start, Work};
use regex_meta::Program;
use std::alloc::Global;
use std::sync::Arc;

/// How many bytes of states each of the two automata keeps at most.
const BUDGET: usize = 1 << 20;

/// How many bytes an automaton takes at most, about: a list that grew has room for twice its words.
const ROOM: u64 = 9 << 18;

/// What a memory takes before any search, and for each state of the expression: about.
const BARE: u64 = 4096;

const STATE: u64 = 48;

/// About how many bytes the states take that an automaton has built, by the time that the library
/// counts for it, in eighths of a nanosecond: more than narrow rows take, and down to a sixth of what
/// rows take that were widened and met but once.
fn states_size(work: Work) -> u64 {
    (work.built / 4).min(ROOM)
}

/// What a search writes to: the states that searches of an expression have met so far.
#[derive(Drop)]
pub(crate) struct Memory {
    forward: Forward,
    reverse: Reverse,
    /// What this memory counts for among the memories of the maker's patterns.
    part: MemoryCount,
}

/// The automata met too many states: another way has to search.
pub(crate) struct GaveUp;

impl Memory {
    pub(crate) fn new(
        alloc: Global,
        dfa: &Dfa,
        tally: &Arc<MemoryTally>,
    ) -> Result<Memory, NoMemory>
        ensures { IfOk result (λ memory. IsMemoryFor memory dfa.now) }
    {
        let forward = Forward::with_budget(alloc, dfa, false, BUDGET)?;
        let reverse = Reverse::with_budget(alloc, dfa, BUDGET)?;
        let part = MemoryCount::new(tally)?;
        Ok(Memory {
            forward,
            reverse,
            part,
        })
    }

    /// About how many bytes it takes. Of the reverse automaton the cells are known, of four bytes and
    /// with room for as many more.
    pub(crate) fn size(&self, dfa: &Dfa) -> u64 {
        let states = (dfa.nfa.states.len() as u64).saturating_mul(STATE);
        let cells = (self.reverse.size() as u64).saturating_mul(8);
        let forward = states_size(self.forward.work());
        let reverse = states_size(self.reverse.work()).max(cells);
        BARE.saturating_add(states)
            .saturating_add(forward)
            .saturating_add(reverse)
    }

    /// Counts what it takes by now. Whether it may be kept.
    pub(crate) fn count(&mut self, dfa: &Dfa) -> bool
        requires own { IsMemoryFor self.old dfa.now }
        ensures own { IsMemoryFor self.new dfa.now }
    {
        let size = self.size(dfa);
        self.part.grow(size)
    }

    /// The ends of the leftmost match that starts at `start` or later.
    pub(crate) fn find_from(
        &mut self,
        program: &Program,
        bytes: &[u8],
        start: usize,
    ) -> Result<Option<(usize, usize)>, GaveUp>
        requires own { IsMemoryFor self.old program.now.dfa }
        requires start { start ≤ length bytes.now }
        ensures found { IfOk result (λ ends. ends ≡ option_map span (leftmost program.now bytes.now start)) }
        ensures own { IsMemoryFor self.new program.now.dfa }
    {
        let end = match self
            .forward
            .find_end(&program.dfa, bytes, start, bytes.len(), false, false)
        {
            End::At(end) => end,
            End::NoMatch => return Ok(None),
            End::Idle(_) | End::GaveUp => return Err(GaveUp),
        };
        match self.reverse.find_start(&program.dfa, bytes, start, end) {
            Start::At(from) => Ok(Some((from, end))),
            Start::NoMatch | Start::GaveUp => Err(GaveUp),
        }
    }

    /// The ends of the match of an expression all of whose matches start where the bytes start.
    pub(crate) fn find_at_start(
        &mut self,
        program: &Program,
        bytes: &[u8],
    ) -> Result<Option<(usize, usize)>, GaveUp>
        requires own { IsMemoryFor self.old program.now.dfa }
        requires anchored { IsAnchored true (pattern_of program.now) }
        ensures found { IfOk result (λ ends. ends ≡ option_map span (leftmost program.now bytes.now 0)) }
        ensures own { IsMemoryFor self.new program.now.dfa }
    {
        match self
            .forward
            .find_end(&program.dfa, bytes, 0, bytes.len(), true, false)
        {
            End::At(end) => Ok(Some((0, end))),
            End::NoMatch => Ok(None),
            End::Idle(_) | End::GaveUp => Err(GaveUp),
        }
    }
}
