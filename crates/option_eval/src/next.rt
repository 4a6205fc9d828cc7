//! Where an option leads from a set of places.

ghost use Rattle.std.specs.Prelude.{◌≡◌, ℕ, ◌+◌, ◌<◌, ◌≤◌, ◌++◌, ◌∷◌, [], Bool, true, false, ◌↔◌, ◌^◌, Contains, take, length, IfOk, if◌then◌else◌};
ghost use Rattle.std.specs.List.Sorted.{IsPermutation, IsNonDecreasing};
ghost use Rattle.option_eval.specs.Kinds.{is_relative, is_test, IsJump};
ghost use Rattle.option_eval.specs.Places.{is_payload_option, is_extract};
ghost use Rattle.option_eval.specs.Ready.{IsReady};
ghost use Rattle.option_eval.specs.Sets.{IsRising, Gathers, IsLedTo, LeadsFrom, with_if};
ghost use Rattle.option_eval.specs.Trying.{OfMadeOne, IsNext};
ghost use Rattle.option_eval.specs.declared.next.NextPlaces.TheVariants as next;

use crate::Steps;
use crate::asked::AskedPlaces;
use crate::content::{places_after_content, places_after_negated_content};
use crate::kind::{is_payload_option, is_relative, is_test};
use crate::leads::{place_after_jump, test_holds};
use crate::made::MadeOption;
use crate::sweep::Places;
use edge_io::{NoMemory, Pattern};
use rule_types::Opt;
use smallvec::SmallVec;
use std::alloc::Global;
use std::sync::ledger::Ledger;

/// The places after an option.
#[derive(Drop)]
pub(crate) enum NextPlaces {
    /// The places before the option.
    Same,
    /// Places of its own.
    To(Places),
}

/// Where an option other than an extraction leads from a set of places. Every place is given if every
/// one is wanted, else one at least where there is one.
pub(crate) fn next_places<P: Pattern, L: Ledger>(
    option: &Opt,
    made: &MadeOption<P>,
    at: &AskedPlaces,
    every: bool,
    visits: &mut Steps<L>,
) -> Result<NextPlaces, NoMemory>
    requires ready { IsReady option.now made.now }
    requires plain { is_extract option.now ≡ false }
    ensures after { IfOk result (IsNext P.finds option.now made.now at.now every) }
    ensures bounded { visits.new ≤ visits.old + (if is_payload_option option.now then length at.now.payload.now + 1 else 0) }
{
    if !is_payload_option(option) {
        return Ok(NextPlaces::Same);
    }
    if is_test(option) {
        return places_after_test(option, made, at, visits);
    }
    places_after_move(option, made, at, every, visits)
}

/// How many visits a test of the first place is: where a content isn't negated, the places where it is
/// compared.
fn cost(option: &Opt, payload: &[u8]) -> u64
    ensures { result ≤ length payload.now + 1 }
{
    match option {
        Opt::Content(content) if !content.negated => payload.len() as u64,
        _ => 1,
    }
}

// ---- content:!, fast_pattern:only, isdataat, pcre:!, byte_test

/// The places at which a test holds: an option that leads nowhere but to the place before it.
fn places_after_test<P: Pattern, L: Ledger>(
    option: &Opt,
    made: &MadeOption<P>,
    at: &AskedPlaces,
    visits: &mut Steps<L>,
) -> Result<NextPlaces, NoMemory>
    requires ready { IsReady option.now made.now }
    requires test { is_test option.now ≡ true }
    ensures after { (every : Bool) → IfOk result (IsNext P.finds option.now made.now at.now every) }
    ensures bounded { visits.new ≤ visits.old + (length at.now.payload.now + 1) }
{
    if is_relative(option) {
        return Ok(NextPlaces::To(places_after_relative_test(option, made, at, visits)?));
    }
    visits.tick_by(cost(option, at.payload));
    if test_holds(option, made, at.payload, at.places[0], at.values)? {
        Ok(NextPlaces::Same)
    } else {
        Ok(NextPlaces::To(SmallVec::new(at.alloc)))
    }
}

/// The places at which a relative test holds. A content is asked from all of them together.
fn places_after_relative_test<P: Pattern, L: Ledger>(
    option: &Opt,
    made: &MadeOption<P>,
    at: &AskedPlaces,
    visits: &mut Steps<L>,
) -> Result<Places, NoMemory>
    requires ready { IsReady option.now made.now }
    requires test { is_test option.now ≡ true }
    requires relative { is_relative option.now ≡ true }
    ensures after { (every : Bool) → IfOk result (λ places. IsNext P.finds option.now made.now at.now every (next.To places)) }
    ensures bounded { visits.new ≤ visits.old + length at.now.places.now }
{
    match (option, made) {
        (Opt::Content(content), MadeOption::Needle(finder))
            if content.bytes.bytes().len() <= at.payload.len() => {
            places_after_negated_content(content, finder, at, visits)
        }
        _ => places_where_test_holds(option, made, at, visits),
    }
}

/// The places at which a relative test holds, each asked.
fn places_where_test_holds<P: Pattern, L: Ledger>(
    option: &Opt,
    made: &MadeOption<P>,
    at: &AskedPlaces,
    visits: &mut Steps<L>,
) -> Result<Places, NoMemory>
    requires ready { IsReady option.now made.now }
    requires test { is_test option.now ≡ true }
    requires relative { is_relative option.now ≡ true }
    ensures after { (every : Bool) → IfOk result (λ places. IsNext P.finds option.now made.now at.now every (next.To places)) }
    ensures bounded { visits.new ≤ visits.old + length at.now.places.now }
{
    let mut next = SmallVec::new(at.alloc);
    let mut done = 0;
    let mut rest = at.places;
    while let [place, later @ ..] = rest {
        visits.tick();
        let holds = test_holds(option, made, at.payload, *place, at.values)?;
        next = with_place(next, holds, *place)?;
        done = *place + 1;
        rest = later;
    }
    Ok(next)
}

// ---- content, pcre, byte_jump

/// Where a `content`, a `pcre` or a `byte_jump` leads: to other places.
fn places_after_move<P: Pattern, L: Ledger>(
    option: &Opt,
    made: &MadeOption<P>,
    at: &AskedPlaces,
    every: bool,
    visits: &mut Steps<L>,
) -> Result<NextPlaces, NoMemory>
    requires ready { IsReady option.now made.now }
    requires plain { is_extract option.now ≡ false }
    requires moves { is_test option.now ≡ false }
    ensures after { IfOk result (IsNext P.finds option.now made.now at.now every) }
    ensures bounded { visits.new ≤ visits.old + (length at.now.payload.now + 1) }
{
    match (option, made) {
        (Opt::Content(content), MadeOption::Needle(finder)) => {
            Ok(NextPlaces::To(places_after_content(content, finder, at, every, visits)?))
        }
        (Opt::Content(_), _) => Ok(NextPlaces::Same),
        _ => Ok(NextPlaces::To(places_after_jump(option, made, at, visits)?)),
    }
}

/// Where a `pcre` or a `byte_jump` leads, each place asked.
fn places_after_jump<P: Pattern, L: Ledger>(
    option: &Opt,
    made: &MadeOption<P>,
    at: &AskedPlaces,
    visits: &mut Steps<L>,
) -> Result<Places, NoMemory>
    requires ready { IsReady option.now made.now }
    requires jumps { IsJump option.now }
    ensures after { (every : Bool) → IfOk result (λ places. IsNext P.finds option.now made.now at.now every (next.To places)) }
    ensures bounded { visits.new ≤ visits.old + (length at.now.payload.now + 1) }
{
    let led = jump_places(option, made, at, visits)?;
    rising(at.alloc, sorted(led).as_slice())
}

/// Where a `pcre` or a `byte_jump` leads from each place, in their order; from the first alone, unless it is
/// relative.
fn jump_places<P: Pattern, L: Ledger>(
    option: &Opt,
    made: &MadeOption<P>,
    at: &AskedPlaces,
    visits: &mut Steps<L>,
) -> Result<Places, NoMemory>
    requires ready { IsReady option.now made.now }
    requires jumps { IsJump option.now }
    ensures found { OfMadeOne P.finds option.now made.now (λ means. IfOk result (λ led.
        Gathers true (IsLedTo (LeadsFrom means at.now.payload.now at.now.values.now option.now) at.now.places.now) led.items)) }
    ensures inside { IfOk result (λ led. (q : ℕ) → Contains led.items q → q ≤ length at.now.payload.now) }
    ensures bounded { visits.new ≤ visits.old + (length at.now.payload.now + 1) }
{
    let mut led = SmallVec::new(at.alloc);
    let mut rest = asked_of(is_relative(option), at.places);
    while let [place, later @ ..] = rest {
        visits.tick();
        let next = place_after_jump(option, made, at.payload, *place, at.values)?;
        led = with_if(led, next)?;
        rest = later;
    }
    Ok(led)
}

// ---- sets of places

/// The places that are asked: the first alone, unless the option is relative.
pub(crate) fn asked_of(relative: bool, places: &[usize]) -> &[usize]
    ensures { result.now ≡ (if relative then places.now else take 1 places.now) }
{
    if relative {
        places
    } else {
        &places[..places.len().min(1)]
    }
}

/// The places, and one more if it is wanted.
pub(crate) fn with_place(mut places: Places, wanted: bool, place: usize) -> Result<Places, NoMemory>
    ensures { IfOk result (λ next. next.items ≡ (if wanted then places.items ++ place ∷ [] else places.items)) }
{
    if wanted {
        places.push(place)?;
    }
    Ok(places)
}

/// The places, and one more if there is one.
fn with_if(mut places: Places, led: Option<usize>) -> Result<Places, NoMemory>
    ensures { IfOk result (λ next. next.items ≡ with_if places.items led) }
{
    if let Some(place) = led {
        places.push(place)?;
    }
    Ok(places)
}

/// The places in order.
pub(crate) fn sorted(mut places: Places) -> Places
    ensures same { IsPermutation places.items result.items }
    ensures order { IsNonDecreasing result.items }
{
    places.as_mut_slice().sort_unstable();
    places
}

/// Sorted places, each once.
pub(crate) fn rising(alloc: Global, sorted: &[usize]) -> Result<Places, NoMemory>
    requires order { IsNonDecreasing sorted.now }
    requires small { (q : ℕ) → Contains sorted.now q → q < 2 ^ 63 }
    ensures same { IfOk result (λ next. (q : ℕ) → Contains next.items q ↔ Contains sorted.now q) }
    ensures rising { (high : ℕ) → ((q : ℕ) → Contains sorted.now q → q < high)
        → IfOk result (λ next. IsRising 0 next.items high) }
{
    let mut next = SmallVec::new(alloc);
    let mut low = 0;
    let mut rest = sorted;
    while let [place, later @ ..] = rest {
        next = with_place(next, low <= *place, *place)?;
        low = *place + 1;
        rest = later;
    }
    Ok(next)
}
