//! The states of a rule that extracts values: the values so far, with the places that go with them.

ghost use Rattle.std.specs.Prelude.{◌≡◌, ℕ, ◌+◌, ◌≤◌, ◌++◌, [], ◌∷◌, List, None, Some, length, IfOk, OnOk, IfSome, IfNone, bytes_eq, unwrap_or, if◌then◌else◌};
ghost use Rattle.option_eval.specs.States.{held_at, places_at, state_count};

use crate::fetch::Values;
use crate::state_map::StateMap;
use crate::sweep::Places;
use edge_io::NoMemory;
use smallvec::SmallVec;
use std::alloc::Global;

/// Extracted values, and the places where ways through the options so far end with them.
#[derive(Drop)]
pub(crate) struct EvalState {
    pub values: Values,
    /// The places, in any order, and perhaps more than once.
    pub places: Places,
}

/// States of different values.
#[derive(Drop)]
pub(crate) struct States {
    alloc: Global,
    held: HeldStates,
    /// How many places were added; one that was added again counts again.
    place_count: usize,
}

/// A state alone needs no map: most extractions give one value list.
#[derive(Drop)]
enum HeldStates {
    Nothing,
    One(EvalState),
    Many(StateMap),
}

/// The state of one place.
fn state_of(alloc: Global, values: Values, place: usize) -> Result<EvalState, NoMemory>
    ensures values { IfOk result (λ state. state.values ≡ values) }
    ensures places { IfOk result (λ state. state.places.items ≡ place ∷ []) }
{
    let mut places = SmallVec::new(alloc);
    places.push(place)?;
    Ok(EvalState { values, places })
}

/// The states, with a place more in that of these values.
fn with_place(
    alloc: Global,
    held: HeldStates,
    values: Values,
    place: usize,
) -> Result<HeldStates, NoMemory>
    ensures { IfOk result (λ new. (other : List ℕ) → held_at new other
        ≡ (if bytes_eq values other then Some (unwrap_or (held_at held values) [] ++ place ∷ []) else held_at held other)) }
{
    let mut map = match held {
        HeldStates::Nothing => return Ok(HeldStates::One(state_of(alloc, values, place)?)),
        HeldStates::One(state) => StateMap::of(alloc, state)?,
        HeldStates::Many(map) => map,
    };
    map.add(values, place)?;
    Ok(HeldStates::Many(map))
}

/// The states, and another one in place of any of the same values.
fn with_state(alloc: Global, held: HeldStates, state: EvalState) -> Result<HeldStates, NoMemory>
    ensures { IfOk result (λ new. (other : List ℕ) → held_at new other
        ≡ (if bytes_eq state.values other then Some state.places.items else held_at held other)) }
{
    let mut map = match held {
        HeldStates::Nothing => return Ok(HeldStates::One(state)),
        HeldStates::One(first) => StateMap::of(alloc, first)?,
        HeldStates::Many(map) => map,
    };
    map.put(state)?;
    Ok(HeldStates::Many(map))
}

impl States {
    /// No state. Takes no memory.
    #[tactic(auto, unfolding(crate::specs::States::places_at))]
    pub fn new(alloc: Global) -> States
        ensures nowhere { (values : List ℕ) → places_at result values ≡ None }
        ensures uncounted { result.place_count ≡ 0 }
    {
        States {
            alloc,
            held: HeldStates::Nothing,
            place_count: 0,
        }
    }

    /// How many places were added.
    pub fn place_count(&self) -> usize
        ensures { result ≡ self.now.place_count }
    {
        self.place_count
    }

    /// Whether there is more than one state.
    pub fn are_many(&self) -> bool {
        matches!(&self.held, HeldStates::Many(_))
    }

    /// Adds a place to the state of these values.
    #[tactic(auto, unfolding(crate::specs::States::places_at))]
    pub fn add(&mut self, values: Values, place: usize) -> Result<(), NoMemory>
        ensures { OnOk result ((other : List ℕ) → places_at self.new other
            ≡ (if bytes_eq values other then Some (unwrap_or (places_at self.old values) [] ++ place ∷ [])
            else places_at self.old other)) }
    {
        self.place_count = self.place_count.saturating_add(1);
        if let HeldStates::Many(map) = &mut self.held {
            return map.add(values, place);
        }
        if let HeldStates::One(state) = &mut self.held {
            if state.values == values {
                state.places.push(place)?;
                return Ok(());
            }
        }
        self.add_apart(values, place)
    }

    /// Adds a place to the state with these values, whatever is held.
    #[tactic(auto, unfolding(crate::specs::States::places_at))]
    fn add_apart(&mut self, values: Values, place: usize) -> Result<(), NoMemory>
        ensures { OnOk result ((other : List ℕ) → places_at self.new other
            ≡ (if bytes_eq values other then Some (unwrap_or (places_at self.old values) [] ++ place ∷ [])
            else places_at self.old other)) }
    {
        let held = std::mem::replace(&mut self.held, HeldStates::Nothing);
        self.held = with_place(self.alloc, held, values, place)?;
        Ok(())
    }

    /// Adds a state, in place of any of the same values.
    #[tactic(auto, unfolding(crate::specs::States::places_at))]
    pub fn put(&mut self, state: EvalState) -> Result<(), NoMemory>
        ensures put { OnOk result ((other : List ℕ) → places_at self.new other
            ≡ (if bytes_eq state.values other then Some state.places.items else places_at self.old other)) }
        ensures counted { OnOk result (self.new.place_count ≤ self.old.place_count + length state.places.items) }
    {
        self.place_count = self.place_count.saturating_add(state.places.len());
        let held = std::mem::replace(&mut self.held, HeldStates::Nothing);
        self.held = with_state(self.alloc, held, state)?;
        Ok(())
    }

    /// Takes a state out.
    #[tactic(auto, unfolding(crate::specs::States::places_at, crate::specs::States::state_count))]
    pub fn take_first(&mut self) -> Option<EvalState>
        ensures taken { IfSome result (λ state. places_at self.old state.values ≡ Some state.places.items) }
        ensures left { IfSome result (λ state. (other : List ℕ) → places_at self.new other
            ≡ (if bytes_eq state.values other then None else places_at self.old other)) }
        ensures fewer { IfSome result (λ state. state_count self.new + 1 ≡ state_count self.old) }
        ensures empty { IfNone result ((values : List ℕ) → places_at self.old values ≡ None) }
    {
        match std::mem::replace(&mut self.held, HeldStates::Nothing) {
            HeldStates::Nothing => None,
            HeldStates::One(state) => Some(state),
            HeldStates::Many(mut map) => {
                let state = map.take_first()?;
                self.held = HeldStates::Many(map);
                Some(state)
            }
        }
    }
}
