//! A pattern that was made, and its search.
ghost use Rattle.std.specs.Prelude.{◌≡◌, option_map, IfOk};
ghost use Rattle.regex_vm.specs.Found.{span};
ghost use Rattle.regex_meta.specs.Programs.{leftmost};
ghost use Rattle.regex_maker.specs.Searching.{IsSieveFor, IsShelfFor, IsMemoryFor};

use crate::memory::{GaveUp, Memory};
use crate::shelf::Shelf;
use crate::sieve::MatchTests;
use crate::tally::MemoryTally;
use edge_io::{NoMemory, Pattern, Span};
use regex_meta::{Program, Searcher};
use std::alloc::Global;
use std::sync::Arc;

/// A regular expression over bytes.
#[derive(Drop)]
pub struct RegexPattern {
    alloc: Global,
    /// Boxed, as the sieve is, since every option of a rule has room for a pattern.
    pub(crate) program: Box<Program>,
    sieve: Box<MatchTests>,
    /// The working memory of searches that have ended.
    pub(crate) shelf: Shelf,
    /// What the maker's patterns keep together.
    tally: Arc<MemoryTally>,
    ghost sifted: { IsSieveFor sieve.value program.value },
    ghost shelved: { IsShelfFor shelf program.value.dfa },
}

impl RegexPattern {
    /// The pattern of an expression, with nothing searched yet.
    pub(crate) fn new(
        alloc: Global,
        program: Program,
        tally: Arc<MemoryTally>,
    ) -> Result<RegexPattern, NoMemory>
        ensures { IfOk result (λ pattern. pattern.program.value ≡ program) }
    {
        let sieve = MatchTests::new(alloc, &program)?;
        let shelf = Shelf::new(alloc, &program.dfa)?;
        Ok(RegexPattern {
            alloc,
            program: Box::new(alloc, program)?,
            sieve: Box::new(alloc, sieve)?,
            shelf,
            tally,
        })
    }

    /// Memory that a search before left, or new memory.
    fn memory(&self) -> Result<Box<Memory>, NoMemory>
        ensures { IfOk result (λ memory. IsMemoryFor memory.value self.now.program.value.dfa) }
    {
        match self.shelf.take() {
            Some(memory) => Ok(memory),
            None => {
                let memory = Memory::new(self.alloc, &self.program.dfa, &self.tally)?;
                Ok(Box::new(self.alloc, memory)?)
            }
        }
    }

    /// The ends of the leftmost match, by the library's own choice of engines. Its working memory is
    /// made for this search and dropped after it.
    #[inline(never)]
    fn find_slowly(&self, bytes: &[u8]) -> Result<Option<(usize, usize)>, NoMemory>
        ensures { IfOk result (λ ends. ends ≡ option_map span (leftmost self.now.program.value bytes.now 0)) }
    {
        let mut searcher = Searcher::new(self.alloc, &self.program)?;
        Ok(searcher.find(bytes, 0))
    }

    /// The ends of the leftmost match.
    fn ends(&self, bytes: &[u8]) -> Result<Option<(usize, usize)>, NoMemory>
        ensures { IfOk result (λ ends. ends ≡ option_map span (leftmost self.now.program.value bytes.now 0)) }
    {
        let Some(start) = self.sieve.first_place(&self.program, bytes) else {
            return Ok(None);
        };
        let mut memory = self.memory()?;
        let found = if self.sieve.anchored {
            memory.find_at_start(&self.program, bytes)
        } else {
            memory.find_from(&self.program, bytes, start)
        };
        self.shelf.lay(&self.program.dfa, memory);
        match found {
            Ok(ends) => Ok(ends),
            Err(GaveUp) => self.find_slowly(bytes),
        }
    }
}

impl Pattern for RegexPattern {
    ghost use Rattle.regex_maker.specs.Finding.{found_by};

    ghost finds = { found_by };

    /// The leftmost match. Bytes that lack a literal of every match are not searched. Otherwise the
    /// search goes on with the memory of one that has ended, and takes new memory where there is none.
    fn find(&self, bytes: &[u8]) -> Result<Option<Span>, NoMemory> {
        match self.ends(bytes)? {
            None => Ok(None),
            Some((start, end)) => Ok(Some(Span { start, end })),
        }
    }
}
