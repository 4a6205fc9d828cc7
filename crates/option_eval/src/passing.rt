//! The way through all options of a rule.
//!
//! Up to the first extraction there is one state: no value, and the places to which the options so far lead.
//! An extraction has a state for each of the value lists after it. Each of them is gone on from alone, up to
//! the next extraction, and the states after that one are then gone on from together. Where they become many, the
//! rest of the options is tried from those that there are, and they are forgotten before there are more. So
//! memory is bounded; states of two such parts may be the same, and are then gone on from twice.

ghost use Rattle.std.specs.Prelude.{◌≡◌, ℕ, ◌+◌, ◌*◌, ◌<◌, ◌≤◌, ◌↔◌, ◌⊎◌, [], ◌∷◌, List, Option, Some, None, length, map, IsTrue, IfOk, IfSome, IfNone};
ghost use Rattle.std.specs.List.{AllZip};
ghost use Rattle.edge_io.specs.declared.pattern.Span.{Span};
ghost use Rattle.option_eval.specs.Known.{known_at};
ghost use Rattle.option_eval.specs.Places.{Means};
ghost use Rattle.option_eval.specs.Ready.{IsReady, pattern_of};
ghost use Rattle.option_eval.specs.RuleSet.{IsMade};
ghost use Rattle.option_eval.specs.States.{places_at, AreAmong, AreWithin, HaveValues, MatchesFromSome};
ghost use Rattle.option_eval.specs.Trying.{OfMade, OfFewValues, OfAllValues, IsPartPassed};
ghost use Rattle.option_eval.specs.Walks.{MatchesFromOne, ExtractsNothing, HasEachValueList, visits_of, visits_apart, part_points, after_extraction};

use crate::Steps;
use crate::asked::AskedPlaces;
use crate::kind::is_extract;
use crate::known::{Known, has_free};
use crate::made::MadeOption;
use crate::part::taken_part;
use crate::states::States;
use crate::walk::{AfterExtraction, is_state_walked, is_walked};
use edge_io::{NoMemory, Pattern};
use rule_types::Opt;
use std::alloc::Global;
use std::sync::ledger::Ledger;

/// Whether a way leads through the options from the payload's start.
pub(crate) fn is_passed<P: Pattern, L: Ledger>(
    alloc: Global,
    options: &[Opt],
    made: &[MadeOption<P>],
    payload: &[u8],
    visits: &mut Steps<L>,
) -> Result<bool, NoMemory>
    requires ready { AllZip IsReady options.now made.now }
    ensures right { OfMade P.finds options.now made.now (λ means. IfOk result (λ passed. IsTrue passed
        ↔ MatchesFromOne means payload.now options.now (0 ∷ 0 ∷ []) (0 ∷ []))) }
    ensures bounded { ExtractsNothing options.now → visits.new ≤ visits.old + visits_of options.now (length payload.now) }
    ensures bounded_by_values { OfMade P.finds options.now made.now (λ means.
        OfFewValues (HasEachValueList means payload.now options.now)
        (λ lists. visits.new ≤ visits.old + lists * visits_of options.now (length payload.now))) }
    ensures bounded_in_parts { OfMade P.finds options.now made.now (λ means.
        OfAllValues (HasEachValueList means payload.now options.now)
        (λ lists. visits.new ≤ visits.old + visits_apart lists options.now (length payload.now))) }
{
    let mut after = AfterExtraction {
        states: States::new(alloc),
        known: Known::nothing(alloc),
    };
    let at = AskedPlaces {
        alloc,
        payload,
        places: &[0],
        values: &[0, 0],
    };
    if is_walked(options, made, &at, &mut after, visits)? {
        return Ok(true);
    }
    is_passed_after(alloc, options, made, payload, after.states, visits)
}

/// Whether a way leads through the options after the first extraction, from some of the states there.
#[cycle(parts)]
fn is_passed_after<P: Pattern, L: Ledger>(
    alloc: Global,
    options: &[Opt],
    made: &[MadeOption<P>],
    payload: &[u8],
    states: States,
    visits: &mut Steps<L>,
) -> Result<bool, NoMemory>
    requires ready { AllZip IsReady options.now made.now }
    requires inside { AreWithin (length payload.now) states }
    requires nowhere { ExtractsNothing options.now → (values : List ℕ) → places_at states values ≡ None }
    ensures right { OfMade P.finds options.now made.now (λ means. IfOk result (λ passed. IsTrue passed
        ↔ MatchesFromSome means payload.now (after_extraction options.now) states)) }
    ensures unvisited { ExtractsNothing options.now → visits.new ≡ visits.old }
    ensures bounded { OfMade P.finds options.now made.now (λ means.
        OfFewValues (λ lists listed. HaveValues means payload.now lists listed (after_extraction options.now) states)
        (λ lists. visits.new ≤ visits.old + lists * visits_of (after_extraction options.now) (length payload.now))) }
    ensures bounded_in_parts { OfMade P.finds options.now made.now (λ means.
        OfAllValues (λ lists listed. HaveValues means payload.now lists listed (after_extraction options.now) states)
        (λ lists. visits.new ≤ visits.old + lists * visits_apart lists (after_extraction options.now) (length payload.now))) }
{
    let Some((later, made_later)) = after_extraction(options, made) else {
        return Ok(false);
    };
    is_passed_from(alloc, later, made_later, payload, states, visits)
}

/// Whether a way leads through the options from some of the states.
#[cycle(parts)]
fn is_passed_from<P: Pattern, L: Ledger>(
    alloc: Global,
    options: &[Opt],
    made: &[MadeOption<P>],
    payload: &[u8],
    states: States,
    visits: &mut Steps<L>,
) -> Result<bool, NoMemory>
    requires ready { AllZip IsReady options.now made.now }
    requires inside { AreWithin (length payload.now) states }
    ensures right { OfMade P.finds options.now made.now (λ means. IfOk result (λ passed. IsTrue passed
        ↔ MatchesFromSome means payload.now options.now states)) }
    ensures bounded { OfMade P.finds options.now made.now (λ means.
        OfFewValues (λ lists listed. HaveValues means payload.now lists listed options.now states)
        (λ lists. visits.new ≤ visits.old + lists * visits_of options.now (length payload.now))) }
    ensures bounded_in_parts { OfMade P.finds options.now made.now (λ means.
        OfAllValues (λ lists listed. HaveValues means payload.now lists listed options.now states)
        (λ lists. visits.new ≤ visits.old + lists * visits_apart lists options.now (length payload.now))) }
{
    let known = nothing_known(alloc, &states, options)?;
    let mut after = AfterExtraction {
        states: States::new(alloc),
        known,
    };
    let mut left = states;
    while let Some(state) = left.take_first() {
        let walked = is_state_walked(alloc, options, made, payload, state, &mut after, visits)?;
        if walked {
            return Ok(true);
        }
        let passed = is_part_passed(alloc, options, made, payload, &mut after.states, visits)?;
        if passed {
            return Ok(true);
        }
    }
    is_passed_after(alloc, options, made, payload, after.states, visits)
}

/// Whether a way leads through the options after the first extraction from the states there, if they are a
/// part. Then they are forgotten.
#[cycle(parts)]
fn is_part_passed<P: Pattern, L: Ledger>(
    alloc: Global,
    options: &[Opt],
    made: &[MadeOption<P>],
    payload: &[u8],
    states: &mut States,
    visits: &mut Steps<L>,
) -> Result<bool, NoMemory>
    requires ready { AllZip IsReady options.now made.now }
    requires inside { AreWithin (length payload.now) states.old }
    requires nowhere { ExtractsNothing options.now → (values : List ℕ) → places_at states.old values ≡ None }
    ensures right { OfMade P.finds options.now made.now (λ means.
        IfOk result (IsPartPassed means payload.now (after_extraction options.now) states.old states.new)) }
    ensures among { IfOk result (λ passed. AreAmong states.new states.old) }
    ensures few { IfOk result (λ passed. states.new.place_count ≤ 2 * part_points) }
    ensures bounded { (means : Means)
        → OfFewValues (λ lists listed. HaveValues means payload.now lists listed (after_extraction options.now) states.old)
        (λ lists. visits.new ≡ visits.old) }
    ensures bounded_in_parts { OfMade P.finds options.now made.now (λ means.
        OfAllValues (λ lists listed. HaveValues means payload.now lists listed (after_extraction options.now) states.old)
        (λ lists. visits.new ≤ visits.old + lists * visits_apart lists (after_extraction options.now) (length payload.now))) }
    ensures forgotten { IfOk result (λ passed. (visits.new ≡ visits.old)
        ⊎ ((values : List ℕ) → places_at states.new values ≡ None)) }
{
    let part = taken_part(alloc, states)?;
    match part {
        None => Ok(false),
        Some(taken) => is_passed_after(alloc, options, made, payload, taken, visits),
    }
}

/// Nothing is known yet of options. It is kept only where there are several states, and an option that leads
/// alike from each.
fn nothing_known(alloc: Global, states: &States, options: &[Opt]) -> Result<Known, NoMemory>
    ensures { IfOk result (λ known. (left : ℕ) → known_at known left ≡ None) }
{
    if states.are_many() && has_free(options) {
        Known::of(alloc, options.len())
    } else {
        Ok(Known::nothing(alloc))
    }
}

/// The options after the first that extracts a value, and what was made of them.
fn after_extraction<'a, 'b, P>(
    options: &'a [Opt],
    made: &'b [MadeOption<P>],
) -> Option<(&'a [Opt], &'b [MadeOption<P>])>
    requires ready { AllZip IsReady options.now made.now }
    ensures none { IfNone result (ExtractsNothing options.now) }
    ensures some { IfSome result (λ after. ¬ ExtractsNothing options.now) }
    ensures options { IfSome result (λ after. after.0.now ≡ after_extraction options.now) }
    ensures fewer { IfSome result (λ after. length after.0.now < length options.now) }
    ensures ready { IfSome result (λ after. AllZip IsReady after.0.now after.1.now) }
    ensures made { (finds : P → List ℕ → Option Span) → (means : Means)
        → AllZip (IsMade finds means) options.now (map pattern_of made.now)
        → IfSome result (λ after. AllZip (IsMade finds means) after.0.now (map pattern_of after.1.now)) }
{
    let [option, later @ ..] = options else {
        return None;
    };
    let [_, made_later @ ..] = made else {
        return None;
    };
    if is_extract(option) {
        Some((later, made_later))
    } else {
        after_extraction(later, made_later)
    }
}
