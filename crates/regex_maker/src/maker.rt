//! Making patterns by the library `regex`, within limits of memory.
ghost use Rattle.std.specs.Prelude.{◌≡◌, ℕ, List, [], ◌∷◌, ◌++◌, IfOk, IsErrOf, OnOk, OnErr, string_bytes};
ghost use Rattle.edge_io.specs.declared.pattern.PatternFlags.{PatternFlags};
ghost use Rattle.regex_maker.specs.Finding.{found_by};
ghost use Rattle.regex_maker.specs.Spelled.{IsSpelled};
ghost use Rattle.regex_maker.specs.Meaning.{IsPattern, pattern_text, options_of, regex_span};

use crate::made::RegexPattern;
use crate::tally::MemoryTally;
use edge_io::{MakeFault, NoMemory, PatternFlags, PatternMaker, Refusal, Text};
use regex_compile::Error;
use regex_meta::Program;
use regex_syntax::{Config, ErrorKind, Parsed};
use std::alloc::Global;
use std::marker::Model;
use std::sync::Arc;

/// How many bytes the states of one compiled expression may take.
const SIZE_LIMIT: usize = 10 << 20;

/// How many bytes of working memory the patterns of one maker keep at most, by their own account of
/// it, which is an estimate. Of what traffic usually leaves, some tens of kilobytes a pattern, it
/// holds that of thousands of patterns; of the most that one can be driven to, that of fifty.
const KEPT: u64 = 256 << 20;

/// Makes patterns by the library `regex`. Contracts see what it refused so far.
#[derive(Debug, Drop)]
pub struct RegexMaker {
    refused: Vec<Refusal>,
    /// How many bytes of working memory its patterns keep at most.
    most: u64,
    /// The memory that its patterns keep, counted. There is none before the first pattern.
    pub(crate) tally: Option<Arc<MemoryTally>>,
}

impl Model for RegexMaker {
    ghost use Rattle.std.specs.Prelude.{List};
    ghost use Rattle.edge_io.specs.declared.pattern.Refusal.{Refusal};

    ghost Value = { List Refusal };

    ghost view = { λ maker. maker.refused.items };
}

/// The text of the expression: after `(?-u)` a character is a byte.
fn pattern_text(alloc: Global, text: &str) -> Result<String, NoMemory>
    ensures { IfOk result (λ source. string_bytes source ≡ pattern_text text.now) }
{
    let mut source = String::from_str(alloc, "(?-u)")?;
    source.push_str(text)?;
    Ok(source)
}

/// How the library reads an expression with the flags.
fn config_of(flags: PatternFlags) -> Config
    ensures { result ≡ options_of flags }
{
    let mut config = Config::default();
    config.utf8 = false;
    config.flags.case_insensitive = flags.nocase;
    config.flags.dot_matches_new_line = flags.dot_all;
    config.flags.multi_line = flags.multi_line;
    config.flags.ignore_whitespace = flags.extended;
    config
}

/// The expression that the text with the flags spells, and what is worked out from it before any
/// search. It is refused where it is none, nests too deep or would take more memory than one may.
fn program_of(alloc: Global, text: &str, flags: PatternFlags) -> Result<Program, MakeFault>
    ensures { IfOk result (λ program. IsSpelled text.now flags program.hir) }
{
    let source = pattern_text(alloc, text)?;
    let Parsed { hir, names } = match regex_syntax::parse(alloc, &source, &config_of(flags)) {
        Ok(parsed) => parsed,
        Err(error) if error.kind == ErrorKind::OutOfMemory => return Err(MakeFault::NoMemory),
        Err(_) => return Err(MakeFault::Refused),
    };
    let Ok(groups) = u32::try_from(names.len()) else {
        return Err(MakeFault::Refused);
    };
    match Program::new(alloc, hir, groups, SIZE_LIMIT) {
        Ok(program) => Ok(program),
        Err(Error::OutOfMemory) => Err(MakeFault::NoMemory),
        Err(Error::TooBig | Error::Malformed) => Err(MakeFault::Refused),
    }
}

impl RegexMaker {
    /// A maker that refused nothing. Takes no memory.
    pub fn new(alloc: Global) -> RegexMaker
        ensures { result ≡ [] }
    {
        RegexMaker::with_most(alloc, KEPT)
    }

    /// A maker whose patterns keep at most this many bytes of working memory together.
    pub(crate) fn with_most(alloc: Global, most: u64) -> RegexMaker
        ensures { result ≡ [] }
    {
        RegexMaker {
            refused: Vec::new(alloc),
            most,
            tally: None,
        }
    }

    /// What its patterns count their memory on.
    fn tally(&mut self, alloc: Global) -> Result<Arc<MemoryTally>, NoMemory>
        ensures { self.new ≡ self.old }
    {
        if let Some(tally) = &self.tally {
            return Ok(Arc::try_clone(tally)?);
        }
        let tally = Arc::new(alloc, MemoryTally::new(self.most))?;
        let shared = Arc::try_clone(&tally)?;
        self.tally = Some(tally);
        Ok(shared)
    }

    /// Keeps a text that is refused.
    fn refuse(&mut self, alloc: Global, text: &str, flags: PatternFlags) -> Result<(), NoMemory>
        ensures kept { OnOk result (self.new ≡ self.old ++ record { text = text.now; flags = flags } ∷ []) }
        ensures unchanged { OnErr result (self.new ≡ self.old) }
    {
        let text = Text::copy(alloc, text.as_bytes())?;
        self.refused.push(Refusal { text, flags })?;
        Ok(())
    }
}

impl PatternMaker for RegexMaker {
    type Made = RegexPattern;

    ghost means = { λ _ text flags bytes. regex_span text flags bytes };

    ghost refusals = { λ maker. maker };

    fn make(
        &mut self,
        alloc: Global,
        text: &str,
        flags: PatternFlags,
    ) -> Result<RegexPattern, MakeFault>
        ensures made { IfOk result (λ pattern. (bytes : List ℕ) →
            found_by pattern bytes ≡ regex_span text.now flags bytes) }
        // A text that is no pattern is never made.
        ensures spelled { OnOk result (IsPattern text.now flags) }
        ensures refused { IsErrOf result MakeFault.Refused →
            self.new ≡ self.old ++ record { text = text.now; flags = flags } ∷ [] }
        ensures made_unrefused { OnOk result (self.new ≡ self.old) }
        ensures no_memory { IsErrOf result MakeFault.NoMemory → self.new ≡ self.old }
    {
        match program_of(alloc, text, flags) {
            Ok(program) => {
                let tally = self.tally(alloc)?;
                Ok(RegexPattern::new(alloc, program, tally)?)
            }
            Err(MakeFault::NoMemory) => Err(MakeFault::NoMemory),
            Err(MakeFault::Refused) => {
                self.refuse(alloc, text, flags)?;
                Err(MakeFault::Refused)
            }
        }
    }
}
