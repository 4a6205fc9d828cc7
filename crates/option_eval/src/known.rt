//! Where options led that lead alike from each state.
//!
//! An option that counts from the payload's start and reads no value leads from each state to the same places.
//! Where there are several states, what was asked from one of them is kept for those that come.

ghost use Rattle.std.specs.Prelude.{◌≡◌, ℕ, ◌+◌, ◌≤◌, ◌==◌, ◌⊎◌, true, false, Some, None, length, IfOk, if◌then◌else◌};
ghost use Rattle.option_eval.specs.Kinds.{needs_place};
ghost use Rattle.option_eval.specs.Known.{known_at, is_free, IsKnown, LeadsAlike, AreRising};
ghost use Rattle.option_eval.specs.Next.{RisesTo};
ghost use Rattle.option_eval.specs.Places.{is_payload_option, is_extract};
ghost use Rattle.option_eval.specs.Ready.{IsReady};
ghost use Rattle.option_eval.specs.Trying.{OfMadeOne, LeadsTo};

use crate::Steps;
use crate::asked::AskedPlaces;
use crate::kept::reads;
use crate::kind::{is_extract, is_payload_option, is_relative, needs_place};
use crate::made::MadeOption;
use crate::next::{NextPlaces, next_places};
use edge_io::{NoMemory, Pattern};
use rule_types::Opt;
use std::alloc::Global;
use std::sync::ledger::Ledger;

/// Where options led that lead alike from each state.
#[derive(Drop)]
pub(crate) struct Known {
    /// By the number of options that follow; empty where nothing is kept.
    led: Vec<Option<NextPlaces>>,
}

/// Whether an option leads alike from each state: it counts from the payload's start, and reads no value.
fn is_free(option: &Opt) -> bool
    ensures { result ≡ is_free option.now }
{
    !is_relative(option) && !reads(0, option) && !reads(1, option)
}

/// Whether an option before the first extraction is free, and asks something of the payload.
pub(crate) fn has_free(options: &[Opt]) -> bool {
    for option in options {
        if is_extract(option) {
            return false;
        }
        if is_payload_option(option) && is_free(option) {
            return true;
        }
    }
    false
}

impl Known {
    /// Nothing is known, and nothing is kept. Takes no memory.
    #[tactic(auto, unfolding(crate::specs::Known::known_at))]
    pub fn nothing(alloc: Global) -> Known
        ensures { (left : ℕ) → known_at result left ≡ None }
    {
        Known {
            led: Vec::new(alloc),
        }
    }

    /// Nothing is known yet of `count` options.
    #[tactic(auto, unfolding(crate::specs::Known::known_at))]
    pub fn of(alloc: Global, count: usize) -> Result<Known, NoMemory>
        ensures { IfOk result (λ known. (left : ℕ) → known_at known left ≡ None) }
    {
        let mut led = Vec::new(alloc);
        for _ in 0..count {
            led.push(None)?;
        }
        Ok(Known { led })
    }

    /// Takes out where the option led that `left` others follow.
    #[tactic(auto, unfolding(crate::specs::Known::known_at))]
    fn take(&mut self, left: usize) -> Option<NextPlaces>
        ensures value { result ≡ known_at self.old left }
        ensures after { (other : ℕ) → known_at self.new other ≡ (if other == left then None else known_at self.old other) }
    {
        if left < self.led.len() {
            std::mem::replace(&mut self.led[left], None)
        } else {
            None
        }
    }

    /// Keeps where an option led that `left` others follow, if it leads alike from each state.
    #[tactic(auto, unfolding(crate::specs::Known::known_at))]
    pub fn keep(&mut self, option: &Opt, left: usize, next: NextPlaces)
        ensures others { (other : ℕ) → (other == left) ≡ false → known_at self.new other ≡ known_at self.old other }
        ensures own { (known_at self.new left ≡ known_at self.old left)
            ⊎ ((is_free option.now ≡ true) × (known_at self.new left ≡ Some next)) }
    {
        if left < self.led.len() && is_free(option) {
            self.led[left] = Some(next);
        }
    }
}

/// Where an option other than an extraction leads from a set of places: asked, unless that is known.
pub(crate) fn next_known<P: Pattern, L: Ledger>(
    option: &Opt,
    made: &MadeOption<P>,
    later: &[Opt],
    at: &AskedPlaces,
    known: &mut Known,
    visits: &mut Steps<L>,
) -> Result<NextPlaces, NoMemory>
    requires ready { IsReady option.now made.now }
    requires plain { is_extract option.now ≡ false }
    requires known_rising { AreRising (length at.now.payload.now + 1) known.old }
    ensures found { OfMadeOne P.finds option.now made.now (λ means.
        IsKnown means at.now.payload.now option.now (needs_place later.now) (known_at known.old (length later.now))
        → IfOk result (LeadsTo means option.now (needs_place later.now) at.now)) }
    ensures alike { OfMadeOne P.finds option.now made.now (λ means.
        IsKnown means at.now.payload.now option.now (needs_place later.now) (known_at known.old (length later.now))
        → is_free option.now ≡ true → IfOk result (LeadsAlike means at.now.payload.now option.now (needs_place later.now))) }
    ensures rising { IfOk result (RisesTo (length at.now.payload.now + 1)) }
    ensures taken { (left : ℕ) → known_at known.new left ≡ (if left == length later.now then None else known_at known.old left) }
    ensures bounded { visits.new ≤ visits.old + (if is_payload_option option.now then length at.now.payload.now + 1 else 0) }
{
    if let Some(next) = known.take(later.len()) {
        return Ok(next);
    }
    let next = next_places(option, made, at, needs_place(later), visits)?;
    Ok(next)
}
