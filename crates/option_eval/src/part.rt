//! A part of the states after an extraction: the rest of the options is tried from it before more are made.

ghost use Rattle.std.specs.Prelude.{◌≡◌, ℕ, ◌*◌, ◌^◌, ◌<◌, ◌≤◌, ◌↔◌, ⊤, List, None, Contains, length, IfOk, IfSome, IfNone};
ghost use Rattle.option_eval.specs.Numbers.{Point};
ghost use Rattle.option_eval.specs.Sets.{IsRising, point};
ghost use Rattle.option_eval.specs.States.{places_at, AreSame, EachState};
ghost use Rattle.option_eval.specs.Walks.{part_points};

use crate::next::{rising, sorted};
use crate::states::{EvalState, States};
use edge_io::NoMemory;
use std::alloc::Global;

/// States of more points than these are a part. Where no other value is read after an extraction there are
/// no more than half as many, for each place has one value.
const PART_STANDINGS: usize = 131_072;

/// The state with each of its places once.
fn merged(alloc: Global, state: EvalState) -> Result<EvalState, NoMemory>
    requires small { (p : ℕ) → Contains state.places.items p → p < 2 ^ 63 }
    ensures values { IfOk result (λ merged. merged.values ≡ state.values) }
    ensures same { IfOk result (λ merged. (p : ℕ) → Contains merged.places.items p ↔ Contains state.places.items p) }
    ensures rising { IfOk result (λ merged. IsRising 0 merged.places.items (2 ^ 63)) }
{
    let values = state.values;
    let places = rising(alloc, sorted(state.places).as_slice())?;
    Ok(EvalState { values, places })
}

/// The states with each of their places once.
fn merged_states(alloc: Global, states: States) -> Result<States, NoMemory>
    requires small { EachState (λ values. ⊤) (λ values p. p < 2 ^ 63) states }
    ensures same { IfOk result (AreSame states) }
    ensures few { (listed : List Point) → EachState (λ values. ⊤) (λ values p. Contains listed (point values p)) states
        → IfOk result (λ merged. merged.place_count ≤ length listed) }
{
    let mut done = States::new(alloc);
    let mut left = states;
    while let Some(state) = left.take_first() {
        let once = merged(alloc, state)?;
        done.put(once)?;
    }
    Ok(done)
}

/// Takes all states out if they are a part, with each place once. They are looked at only once twice as many
/// places were added, which then costs no more than the adding did.
pub(crate) fn taken_part(alloc: Global, states: &mut States) -> Result<Option<States>, NoMemory>
    requires small { EachState (λ values. ⊤) (λ values p. p < 2 ^ 63) states.old }
    ensures part { IfOk result (λ part. IfSome part (AreSame states.old)) }
    ensures nowhere { IfOk result (λ part. IfSome part (λ taken. (values : List ℕ) → places_at states.new values ≡ None)) }
    ensures same { IfOk result (λ part. IfNone part (AreSame states.old states.new)) }
    ensures few { IfOk result (λ part. states.new.place_count ≤ 2 * part_points) }
    ensures many { (listed : List Point) → EachState (λ values. ⊤) (λ values p. Contains listed (point values p)) states.old
        → IfOk result (λ part. IfSome part (λ taken. part_points < length listed)) }
{
    let added = states.place_count();
    if added <= 2 * PART_STANDINGS {
        return Ok(None);
    }
    let taken = std::mem::replace(states, States::new(alloc));
    let part = merged_states(alloc, taken)?;
    let held = part.place_count();
    if held <= PART_STANDINGS {
        *states = part;
        return Ok(None);
    }
    Ok(Some(part))
}
