//! The way through the options up to the first extraction, from one value list.
//!
//! An extraction leaves states after it, and a walk adds its own to those that are there. So a value list and
//! a place are gone on from once, whichever ways lead there.

ghost use Rattle.std.specs.Prelude.{◌≡◌, ℕ, ◌+◌, ◌≤◌, Contains, length, IfOk};
ghost use Rattle.std.specs.List.{AllZip};
ghost use Rattle.option_eval.specs.Known.{AreKnown, AreRising, KeepsKnown};
ghost use Rattle.option_eval.specs.Next.{next_set, RisesTo};
ghost use Rattle.option_eval.specs.Ready.{IsReady};
ghost use Rattle.option_eval.specs.States.{AreWithin};
ghost use Rattle.option_eval.specs.Trying.{OfMade, IsWalked, beginning};
ghost use Rattle.option_eval.specs.Walks.{ExtractsNothing, visits_of, upto_extraction};

use crate::Steps;
use crate::asked::AskedPlaces;
use crate::extract::Extraction;
use crate::kept::names_read;
use crate::known::{Known, next_known};
use crate::made::MadeOption;
use crate::next::{NextPlaces, rising, sorted};
use crate::states::{EvalState, States};
use edge_io::{NoMemory, Pattern};
use rule_types::Opt;
use std::alloc::Global;
use std::sync::ledger::Ledger;

/// What a walk up to the first extraction leaves: the states after it, and where options led that lead alike
/// from each state.
#[derive(Drop)]
pub(crate) struct AfterExtraction {
    pub states: States,
    pub known: Known,
}

/// Whether a way leads through the options from a state. Where they extract a value, none leads through yet,
/// and the states after the first extraction are added.
pub(crate) fn is_state_walked<P: Pattern, L: Ledger>(
    alloc: Global,
    options: &[Opt],
    made: &[MadeOption<P>],
    payload: &[u8],
    state: EvalState,
    after: &mut AfterExtraction,
    visits: &mut Steps<L>,
) -> Result<bool, NoMemory>
    requires ready { AllZip IsReady options.now made.now }
    requires inside { (p : ℕ) → Contains state.places.items p → p ≤ length payload.now }
    requires known_rising { AreRising (length payload.now + 1) after.old.known }
    ensures right { OfMade P.finds options.now made.now (λ means.
        AreKnown means payload.now options.now after.old.known
        → IfOk result (IsWalked means options.now (beginning payload.now state.values state.places.items)
        after.old.states after.new.states)) }
    ensures inside { AreWithin (length payload.now) after.old.states
        → IfOk result (λ walked. AreWithin (length payload.now) after.new.states) }
    ensures nowhere { ExtractsNothing options.now → after.new.states ≡ after.old.states }
    ensures bounded { visits.new ≤ visits.old + visits_of (upto_extraction options.now) (length payload.now) }
    ensures known { OfMade P.finds options.now made.now (λ means.
        AreKnown means payload.now options.now after.old.known
        → IfOk result (λ walked. AreKnown means payload.now options.now after.new.known)) }
    ensures known_rising { IfOk result (λ walked. AreRising (length payload.now + 1) after.new.known) }
{
    let places = rising(alloc, sorted(state.places).as_slice())?;
    if places.is_empty() {
        return Ok(false);
    }
    let at = AskedPlaces {
        alloc,
        payload,
        places: places.as_slice(),
        values: &state.values,
    };
    is_walked(options, made, &at, after, visits)
}

/// Whether a way leads through the options from a set of places with these values.
#[cycle(walk)]
pub(crate) fn is_walked<P: Pattern, L: Ledger>(
    options: &[Opt],
    made: &[MadeOption<P>],
    at: &AskedPlaces,
    after: &mut AfterExtraction,
    visits: &mut Steps<L>,
) -> Result<bool, NoMemory>
    requires ready { AllZip IsReady options.now made.now }
    requires known_rising { AreRising (length at.now.payload.now + 1) after.old.known }
    ensures right { OfMade P.finds options.now made.now (λ means.
        AreKnown means at.now.payload.now options.now after.old.known
        → IfOk result (IsWalked means options.now (beginning at.now.payload.now at.now.values.now at.now.places.now)
        after.old.states after.new.states)) }
    ensures inside { AreWithin (length at.now.payload.now) after.old.states
        → IfOk result (λ walked. AreWithin (length at.now.payload.now) after.new.states) }
    ensures nowhere { ExtractsNothing options.now → after.new.states ≡ after.old.states }
    ensures bounded { visits.new ≤ visits.old + visits_of (upto_extraction options.now) (length at.now.payload.now) }
    ensures known { OfMade P.finds options.now made.now (λ means.
        AreKnown means at.now.payload.now options.now after.old.known
        → IfOk result (λ walked. AreKnown means at.now.payload.now options.now after.new.known)) }
    ensures kept { IfOk result (λ walked. KeepsKnown (length options.now) (length at.now.payload.now + 1)
        after.old.known after.new.known) }
{
    let [option, later @ ..] = options else {
        return Ok(true);
    };
    let [kept, made_later @ ..] = made else {
        return Ok(true);
    };
    if let Opt::ByteExtract {
        fetch,
        name,
        times,
        align,
    } = option
    {
        let extraction = Extraction {
            fetch: *fetch,
            name: *name,
            times: *times,
            align: *align,
            read: names_read(later),
        };
        extraction.extract(at, &mut after.states, visits)?;
        return Ok(false);
    }
    let next = next_known(option, kept, later, at, &mut after.known, visits)?;
    let walked = is_walked_from(&next, later, made_later, at, after, visits)?;
    after.known.keep(option, later.len(), next);
    Ok(walked)
}

/// Whether a way leads through the options that follow from the places after an option.
#[cycle(walk)]
fn is_walked_from<P: Pattern, L: Ledger>(
    next: &NextPlaces,
    options: &[Opt],
    made: &[MadeOption<P>],
    at: &AskedPlaces,
    after: &mut AfterExtraction,
    visits: &mut Steps<L>,
) -> Result<bool, NoMemory>
    requires ready { AllZip IsReady options.now made.now }
    requires rising { RisesTo (length at.now.payload.now + 1) next.now }
    requires known_rising { AreRising (length at.now.payload.now + 1) after.old.known }
    ensures right { OfMade P.finds options.now made.now (λ means.
        AreKnown means at.now.payload.now options.now after.old.known
        → IfOk result (IsWalked means options.now
        (beginning at.now.payload.now at.now.values.now (next_set next.now at.now.places.now))
        after.old.states after.new.states)) }
    ensures inside { AreWithin (length at.now.payload.now) after.old.states
        → IfOk result (λ walked. AreWithin (length at.now.payload.now) after.new.states) }
    ensures nowhere { ExtractsNothing options.now → after.new.states ≡ after.old.states }
    ensures bounded { visits.new ≤ visits.old + visits_of (upto_extraction options.now) (length at.now.payload.now) }
    ensures known { OfMade P.finds options.now made.now (λ means.
        AreKnown means at.now.payload.now options.now after.old.known
        → IfOk result (λ walked. AreKnown means at.now.payload.now options.now after.new.known)) }
    ensures kept { IfOk result (λ walked. KeepsKnown (length options.now) (length at.now.payload.now + 1)
        after.old.known after.new.known) }
{
    match next {
        NextPlaces::Same => is_walked(options, made, at, after, visits),
        NextPlaces::To(next) => {
            if next.is_empty() {
                return Ok(false);
            }
            let there = AskedPlaces {
                alloc: at.alloc,
                payload: at.payload,
                places: next.as_slice(),
                values: at.values,
            };
            is_walked(options, made, &there, after, visits)
        }
    }
}
