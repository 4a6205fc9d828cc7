//! Patterns that find their text as plain bytes, and their maker.

ghost use Rattle.std.specs.Prelude.{◌≡◌, ℕ, ◌+◌, ◌≤◌, List, [], ◌∷◌, ◌++◌, length, IfOk, IfSome, IsErr, IsErrOf, IsTrue, OnOk, OnErr};
ghost use Rattle.edge_io.specs.declared.pattern.PatternFlags.{PatternFlags};
ghost use Rattle.edge_io.specs.Calls.{fails, calls_after};
ghost use Rattle.edge_io.specs.Matching.{begins, first_place, literal_span};

use crate::calls::CallPlan;
use crate::{MakeFault, NoMemory, Pattern, PatternFlags, PatternMaker, Refusal, Span, Text};
use std::alloc::Global;
use std::marker::Model;

/// A pattern that finds its text as plain bytes.
#[derive(Debug, Drop)]
pub struct Literal {
    text: Text,
    nocase: bool,
}

impl Model for Literal {
    ghost use Rattle.edge_io.specs.Matching.{LiteralText};

    ghost Value = { LiteralText };

    ghost view = { λ literal. record { text = literal.text; nocase = literal.nocase } };
}

impl Pattern for Literal {
    ghost finds = { λ literal bytes. literal_span literal.nocase literal.text bytes };

    #[tactic(auto, unfolding(crate::specs::Matching::literal_span))]
    fn find(&self, bytes: &[u8]) -> Result<Option<Span>, NoMemory> {
        let text = self.text.bytes();
        match first_begin(bytes, text, self.nocase) {
            None => Ok(None),
            Some(start) => {
                let end = start + text.len();
                Ok(Some(Span { start, end }))
            }
        }
    }
}

/// The first place from which the bytes begin with the text.
fn first_begin(bytes: &[u8], text: &[u8], nocase: bool) -> Option<usize>
    ensures first { result ≡ first_place nocase text.now bytes.now }
    ensures within { IfSome result (λ start. start + length text.now ≤ length bytes.now) }
{
    for start in 0..=bytes.len() {
        if begins_with(&bytes[start..], text, nocase) {
            return Some(start);
        }
    }
    None
}

/// Whether the bytes begin with the text.
fn begins_with(bytes: &[u8], text: &[u8], nocase: bool) -> bool
    ensures test { result ≡ begins nocase text.now bytes.now }
    ensures within { IsTrue result → length text.now ≤ length bytes.now }
{
    match bytes.get(..text.len()) {
        None => false,
        Some(front) if nocase => text.eq_ignore_ascii_case(front),
        Some(front) => text == front,
    }
}

/// A maker of literal patterns, which refuses by the number of the call.
///
/// Contracts see what it refused so far, and the calls. Of the flags it reads `nocase` alone.
#[derive(Debug, Drop)]
pub struct LiteralMaker {
    refused: Vec<Refusal>,
    calls: CallPlan,
}

impl Model for LiteralMaker {
    ghost use Rattle.edge_io.specs.Literals.{LiteralCalls};

    ghost Value = { LiteralCalls };

    ghost view = { λ maker. record { refusals = maker.refused.items; calls = maker.calls } };
}

impl LiteralMaker {
    /// A maker that refused nothing. Takes no memory.
    pub fn new(alloc: Global) -> LiteralMaker
        ensures { result ≡ record { refusals = []; calls = record { made = 0; failing = [] } } }
    {
        LiteralMaker {
            refused: Vec::new(alloc),
            calls: CallPlan::new(alloc),
        }
    }

    /// Names the calls of `make` that are refused, in place of those named before: counted from 0.
    pub fn fail_calls(&mut self, calls: &[u32]) -> Result<(), NoMemory>
        ensures named { OnOk result (self.new ≡ record self.old { calls = record self.old.calls { failing = calls.now } }) }
        ensures unchanged { OnErr result (self.new ≡ self.old) }
    {
        self.calls.fail_calls(calls)
    }

    /// Keeps a text that is refused.
    fn refuse(&mut self, alloc: Global, text: &str, flags: PatternFlags) -> Result<(), NoMemory>
        ensures kept { OnOk result (self.new ≡ record self.old {
          refusals = self.old.refusals
              ++ record { text = text.now; flags = flags } ∷ [];
        }) }
        ensures unchanged { OnErr result (self.new ≡ self.old) }
    {
        let text = Text::copy(alloc, text.as_bytes())?;
        self.refused.push(Refusal { text, flags })?;
        Ok(())
    }
}

impl PatternMaker for LiteralMaker {
    type Made = Literal;

    ghost means = { λ _ text flags bytes. literal_span flags.nocase text bytes };

    ghost refusals = { λ maker. maker.refusals };

    fn make(&mut self, alloc: Global, text: &str, flags: PatternFlags) -> Result<Literal, MakeFault>
        ensures made { IfOk result (λ literal. literal ≡ record { text = text.now; nocase = flags.nocase }) }
        ensures refused { IsErrOf result MakeFault.Refused →
            self.new.refusals ≡ self.old.refusals ++ record { text = text.now; flags = flags } ∷ [] }
        ensures made_unrefused { OnOk result (self.new.refusals ≡ self.old.refusals) }
        ensures no_memory { IsErrOf result MakeFault.NoMemory → self.new.refusals ≡ self.old.refusals }
        ensures refused_by_number { IsErrOf result MakeFault.Refused → IsTrue (fails self.old.calls) }
        ensures refuses { IsTrue (fails self.old.calls) → IsErr result }
        ensures counted { self.new.calls ≡ calls_after self.old.calls }
    {
        if self.calls.next_fails() {
            self.refuse(alloc, text, flags)?;
            return Err(MakeFault::Refused);
        }
        Ok(Literal {
            text: Text::copy(alloc, text.as_bytes())?,
            nocase: flags.nocase,
        })
    }
}
