//! States of several value lists, by their values.

ghost use Rattle.std.specs.Prelude.{◌≡◌, ℕ, ◌+◌, ◌++◌, [], ◌∷◌, List, None, Some, false, length, IfOk, OnOk, IfSome, IfNone, bytes_eq, unwrap_or, if◌then◌else◌};
ghost use Rattle.option_eval.specs.States.{map_at};

use crate::fetch::Values;
use crate::states::EvalState;
use crate::sweep::Places;
use edge_io::NoMemory;
use smallvec::SmallVec;
use std::alloc::Global;
use std::collections::BTreeMap;

/// States of different values, the least first.
#[derive(Drop)]
pub(crate) struct StateMap {
    alloc: Global,
    places: BTreeMap<Values, Places>,
}

impl StateMap {
    /// One state.
    #[tactic(auto, unfolding(crate::specs::States::map_at))]
    pub fn of(alloc: Global, state: EvalState) -> Result<StateMap, NoMemory>
        ensures { IfOk result (λ map. (other : List ℕ) → map_at map other
            ≡ (if bytes_eq state.values other then Some state.places.items else None)) }
    {
        let mut places = BTreeMap::new(alloc);
        places.insert(state.values, state.places)?;
        Ok(StateMap { alloc, places })
    }

    /// Takes the places of these values out; none if there is no state of them.
    #[tactic(auto, unfolding(crate::specs::States::map_at))]
    fn taken(&mut self, values: &Values) -> Places
        ensures places { result.items ≡ unwrap_or (map_at self.old values.now) [] }
        ensures others { (other : List ℕ) → bytes_eq values.now other ≡ false → map_at self.new other ≡ map_at self.old other }
    {
        match self.places.remove(values) {
            Some(places) => places,
            None => SmallVec::new(self.alloc),
        }
    }

    /// Adds a place to the state of these values.
    #[tactic(auto, unfolding(crate::specs::States::map_at))]
    pub fn add(&mut self, values: Values, place: usize) -> Result<(), NoMemory>
        ensures { OnOk result ((other : List ℕ) → map_at self.new other
            ≡ (if bytes_eq values other then Some (unwrap_or (map_at self.old values) [] ++ place ∷ [])
            else map_at self.old other)) }
    {
        let mut places = self.taken(&values);
        places.push(place)?;
        self.places.insert(values, places)?;
        Ok(())
    }

    /// Adds a state, in place of any of the same values.
    #[tactic(auto, unfolding(crate::specs::States::map_at))]
    pub fn put(&mut self, state: EvalState) -> Result<(), NoMemory>
        ensures { OnOk result ((other : List ℕ) → map_at self.new other
            ≡ (if bytes_eq state.values other then Some state.places.items else map_at self.old other)) }
    {
        self.places.insert(state.values, state.places)?;
        Ok(())
    }

    /// Takes the state with the least values out.
    #[tactic(auto, unfolding(crate::specs::States::map_at))]
    pub fn take_first(&mut self) -> Option<EvalState>
        ensures taken { IfSome result (λ state. map_at self.old state.values ≡ Some state.places.items) }
        ensures left { IfSome result (λ state. (other : List ℕ) → map_at self.new other
            ≡ (if bytes_eq state.values other then None else map_at self.old other)) }
        ensures fewer { IfSome result (λ state. length self.new.places.entries + 1 ≡ length self.old.places.entries) }
        ensures empty { IfNone result ((values : List ℕ) → map_at self.old values ≡ None) }
    {
        let (values, places) = self.places.pop_first()?;
        Some(EvalState { values, places })
    }
}
