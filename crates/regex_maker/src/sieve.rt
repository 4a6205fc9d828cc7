//! What tells without an automaton that bytes have no match, or where the first can start.

ghost use Rattle.std.specs.Prelude.{◌≡◌, ◌≤◌, length, IfOk, IfSome, IsSomeAnd, IsTrue, MatchOption, None, true};
ghost use Rattle.std.specs.Option.{ForSome};
ghost use Rattle.regex_extract.specs.Needles.{ContainsNeedle, needles_of};
ghost use Rattle.regex_hir.specs.Find.{find};
ghost use Rattle.regex_hir.specs.Re.{Re};
ghost use Rattle.regex_meta.specs.Plans.{IsAdmitted};
ghost use Rattle.regex_meta.specs.Programs.{leftmost, pattern_of};
ghost use Rattle.regex_maker.specs.Searching.{IsSieveFor};

use edge_io::NoMemory;
use regex_extract::Needles;
use regex_literal::{Bounded, Ladder, Prefilter};
use regex_meta::Program;
use std::alloc::Global;

/// How long matches may be that the automaton looks for at once, where all of them start at the first byte: it reads
/// no more bytes than these, and a search for literals would go over all.
const SHORT: usize = 128;

/// Tests that every match of an expression passes.
#[derive(Drop)]
pub(crate) struct MatchTests {
    /// Literals of which every match has one, those that are expected least often.
    required: Option<Prefilter>,
    /// Literals with one of which every match ends. A payload made to be slow often has the first
    /// letters of a match everywhere, and its last ones nowhere.
    ending: Option<Prefilter>,
    /// The bytes with which a match can begin.
    ladder: Option<Ladder>,
    /// Every match starts where the bytes start.
    pub(crate) anchored: bool,
}

/// The search for literals, if there is one.
fn prefilter(alloc: Global, needles: Option<Needles>) -> Result<Option<Prefilter>, NoMemory>
    ensures { IfOk result (λ found. IfSome found (λ search. IsSomeAnd needles (λ those. search ≡ needles_of those))) }
{
    match needles {
        Some(needles) => Ok(Prefilter::new(alloc, needles)?),
        None => Ok(None),
    }
}

/// Whether none of the literals is in the bytes.
fn lacks(needles: &Option<Prefilter>, bytes: &[u8]) -> bool
    ensures { (re : Re) → ∥ ForSome needles.now (ContainsNeedle re) ∥₁ → IsTrue result → find re bytes.now 0 ≡ None }
{
    match needles {
        Some(needles) => matches!(needles.find_bounded(bytes, 0), Bounded::Missing),
        None => false,
    }
}

/// Whether no match is longer than `SHORT`.
fn are_short(most: Option<usize>) -> bool {
    most.is_some_and(|len| len <= SHORT)
}

/// The search for literals of which every match has one.
fn required(alloc: Global, program: &Program) -> Result<Option<Prefilter>, NoMemory>
    ensures { IfOk result (λ found. ∥ ForSome found (ContainsNeedle (pattern_of program.now)) ∥₁) }
{
    prefilter(alloc, regex_extract::required(alloc, &program.hir)?)
}

/// Whether the literals are those that a search looks for.
fn are_sought(search: &Option<Prefilter>, needles: &Option<Needles>) -> bool {
    match (search, needles) {
        (Some(search), Some(needles)) => search.is_for(needles),
        _ => false,
    }
}

/// The search for literals with one of which every match ends, unless `required` looks for the same.
fn ending(
    alloc: Global,
    program: &Program,
    required: &Option<Prefilter>,
) -> Result<Option<Prefilter>, NoMemory>
    ensures { IfOk result (λ found. ∥ ForSome found (ContainsNeedle (pattern_of program.now)) ∥₁) }
{
    let needles = regex_extract::suffixes(alloc, &program.hir)?;
    if are_sought(required, &needles) {
        return Ok(None);
    }
    prefilter(alloc, needles)
}

/// The bytes with which a match can begin, unless all matches start at the first byte.
fn ladder(alloc: Global, program: &Program, anchored: bool) -> Result<Option<Ladder>, NoMemory>
    ensures { IfOk result (λ found. ∥ ForSome found (IsAdmitted (pattern_of program.now)) ∥₁) }
{
    if anchored {
        return Ok(None);
    }
    Ok(regex_levels::ladder(alloc, &program.dfa.nfa)?)
}

impl MatchTests {
    /// No literals are looked for where all matches start at the first byte and are short.
    pub(crate) fn new(alloc: Global, program: &Program) -> Result<MatchTests, NoMemory>
        ensures { IfOk result (λ sieve. IsSieveFor sieve program.now) }
    {
        let anchored = regex_extract::is_anchored_start(&program.hir);
        if anchored && are_short(program.max_len) {
            return Ok(MatchTests {
                required: None,
                ending: None,
                ladder: None,
                anchored,
            });
        }
        let required = required(alloc, program)?;
        let ending = ending(alloc, program, &required)?;
        let ladder = ladder(alloc, program, anchored)?;
        Ok(MatchTests {
            required,
            ending,
            ladder,
            anchored,
        })
    }

    /// Whether the bytes are shown to have no match.
    fn dismisses(&self, program: &Program, bytes: &[u8]) -> bool
        requires { IsSieveFor self.now program.now }
        ensures { IsTrue result → leftmost program.now bytes.now 0 ≡ None }
    {
        if bytes.len() < program.min_len {
            return true;
        }
        if lacks(&self.required, bytes) {
            return true;
        }
        lacks(&self.ending, bytes)
    }

    /// Whether no match begins with the first byte, where all matches start at it.
    fn is_ruled_out_at_start(&self, program: &Program, bytes: &[u8]) -> bool
        requires sieve { IsSieveFor self.now program.now }
        requires anchored { self.now.anchored ≡ true }
        ensures { IsTrue result → leftmost program.now bytes.now 0 ≡ None }
    {
        let Some(first) = &program.first else {
            return false;
        };
        if bytes.is_empty() {
            return false;
        }
        match first.find(bytes, 0, 1) {
            Some(_) => false,
            None => true,
        }
    }

    /// A place before which no match starts, if there can be a match at all.
    pub(crate) fn first_place(&self, program: &Program, bytes: &[u8]) -> Option<usize>
        requires { IsSieveFor self.now program.now }
        ensures { MatchOption result (leftmost program.now bytes.now 0 ≡ None) (λ at. (at ≤ length bytes.now)
            × (leftmost program.now bytes.now 0 ≡ leftmost program.now bytes.now at)) }
    {
        if self.anchored {
            if self.is_ruled_out_at_start(program, bytes) {
                return None;
            }
        }
        if self.dismisses(program, bytes) {
            return None;
        }
        if self.anchored {
            return Some(0);
        }
        match &self.ladder {
            Some(ladder) => ladder.find(bytes, 0),
            None => program.first_place(bytes, 0),
        }
    }
}
