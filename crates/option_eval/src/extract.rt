//! `byte_extract`: the states after an extraction.

ghost use Rattle.std.specs.Prelude.{◌≡◌, ℕ, ◌+◌, ◌<◌, ◌≤◌, [], ◌∷◌, List, Contains, length, slice_set, IfOk, OnOk, bytes_eq};
ghost use Rattle.rule_types.specs.declared.option.Opt.{Opt};
ghost use Rattle.option_eval.specs.Extractions.{extract_option};
ghost use Rattle.option_eval.specs.Kept.{names_read};
ghost use Rattle.option_eval.specs.Places.{Means};
ghost use Rattle.option_eval.specs.Ready.{IsInRange};
ghost use Rattle.option_eval.specs.States.{AreWithin, Leaves};

use crate::Steps;
use crate::asked::AskedPlaces;
use crate::fetch::{Values, fetched_number, rounded_up};
use crate::kept::{NamesRead, kept_values};
use crate::next::asked_of;
use crate::states::States;
use edge_io::NoMemory;
use rule_types::Fetch;
use std::sync::ledger::Ledger;

/// A `byte_extract`, and which values the options after it still read.
#[derive(Clone, Copy)]
pub(crate) struct Extraction {
    pub fetch: Fetch,
    pub name: u8,
    pub times: u32,
    pub align: u8,
    /// Asked once, and not at each place.
    pub read: NamesRead,
}

impl Extraction {
    /// Adds the states after the extraction from the places of a set, each asked: from the first alone,
    /// unless the extraction is relative. Of the values after it those are kept that the later options read.
    pub fn extract<L: Ledger>(
        &self,
        at: &AskedPlaces,
        states: &mut States,
        visits: &mut Steps<L>,
    ) -> Result<(), NoMemory>
        requires in_range { IsInRange (extract_option self.now) }
        ensures right { (means : Means) → (later : List Opt) → self.now.read ≡ names_read later → OnOk result
            (Leaves means at.now.payload.now (extract_option self.now ∷ later) at.now.values.now at.now.places.now
            states.old states.new) }
        ensures inside { AreWithin (length at.now.payload.now) states.old
            → OnOk result (AreWithin (length at.now.payload.now) states.new) }
        ensures bounded { visits.new ≤ visits.old + (length at.now.payload.now + 1) }
    {
        self.extract_each(
            at.payload,
            asked_of(self.fetch.relative, at.places),
            at.values,
            states,
            visits,
        )
    }

    /// Adds the states after the extraction from each of these places.
    fn extract_each<L: Ledger>(
        &self,
        payload: &[u8],
        places: &[usize],
        values: &Values,
        states: &mut States,
        visits: &mut Steps<L>,
    ) -> Result<(), NoMemory>
        requires in_range { IsInRange (extract_option self.now) }
        ensures right { (means : Means) → (later : List Opt) → self.now.read ≡ names_read later → OnOk result
            (Leaves means payload.now (extract_option self.now ∷ later) values.now places.now states.old states.new) }
        ensures inside { AreWithin (length payload.now) states.old → OnOk result (AreWithin (length payload.now) states.new) }
        ensures bounded { visits.new ≤ visits.old + length places.now }
        ensures counted { OnOk result (visits.new ≡ visits.old + length places.now) }
    {
        visits.tick_by(places.len() as u64);
        let mut rest = places;
        while let [place, next @ ..] = rest {
            self.extract_at(payload, *place, values, states)?;
            rest = next;
        }
        Ok(())
    }

    /// Adds the state after the extraction from one place, if a number is there.
    fn extract_at(
        &self,
        payload: &[u8],
        place: usize,
        values: &Values,
        states: &mut States,
    ) -> Result<(), NoMemory>
        requires in_range { IsInRange (extract_option self.now) }
        ensures right { (means : Means) → (later : List Opt) → self.now.read ≡ names_read later → OnOk result
            (Leaves means payload.now (extract_option self.now ∷ later) values.now (place ∷ []) states.old states.new) }
        ensures inside { AreWithin (length payload.now) states.old → OnOk result (AreWithin (length payload.now) states.new) }
    {
        match fetched_number(&self.fetch, payload, place, values) {
            None => Ok(()),
            Some(read) => {
                let number = rounded_up(u64::from(self.align), read.number * u64::from(self.times));
                let after = kept_values(&self.read, &with_value(values, self.name, number));
                states.add(after, read.stop)
            }
        }
    }
}

/// The values, with another for one name.
fn with_value(values: &Values, name: u8, value: u64) -> Values
    requires { name < 2 }
    ensures { result ≡ slice_set values.now name value }
{
    let mut after = *values;
    after[usize::from(name)] = value;
    after
}
