//! All rules on one item, of which only the candidates are tried.

ghost use Rattle.std.specs.Prelude.{◌≡◌, ◌+◌, ◌<◌, ◌≤◌, Option, fold, length, All, IfOk, OnOk};
ghost use Rattle.std.specs.FinSet.{empty};
ghost use Rattle.fast_pattern.specs.Candidates.{candidates};
ghost use Rattle.option_eval.specs.Places.{Means};
ghost use Rattle.option_eval.specs.RuleSet.{FindWhatIsMeant};
ghost use Rattle.rule_eval.specs.Hits.{AreHits, Tells, Test, bits_after, bits_after_option, bits_seen};
ghost use Rattle.rule_eval.specs.Picking.{ChangesKnownBits, IsKnownChange, Picks, PicksAll, bits_after_all, come_to};
ghost use Rattle.rule_eval.specs.Work.{visits_among, visits_at};

use crate::matching::rule_matches;
use edge_io::{Items, NoMemory, Pattern};
use flowbit_state::Bits;
use option_eval::{RuleSet, Steps};
use packet_decode::ItemHead;
use rule_types::{Opt, Rule};
use std::alloc::Global;
use std::sync::ledger::Ledger;

/// The change that an option makes of a session's bits, if it makes one.
fn change_bit(alloc: Global, bits: &mut Bits, opt: &Opt) -> Result<(), NoMemory>
    requires { IsKnownChange opt.now }
    ensures { OnOk result (bits.new ≡ bits_after_option bits.old opt.now) }
{
    match opt {
        Opt::BitDo { change, bit } => bits.apply(alloc, *change, *bit),
        _ => Ok(()),
    }
}

/// The changes of all options, in their order.
fn change_bits(alloc: Global, bits: &mut Bits, opts: &[Opt]) -> Result<(), NoMemory>
    requires { All IsKnownChange opts.now }
    ensures { OnOk result (bits.new ≡ fold bits_after_option bits.old opts.now) }
{
    for opt in opts {
        change_bit(alloc, bits, opt)?;
    }
    Ok(())
}

/// The changes of a rule that matches; without a session there are no bits to change.
fn change_session(alloc: Global, bits: &mut Option<Bits>, rule: &Rule) -> Result<(), NoMemory>
    requires { ChangesKnownBits rule.now }
    ensures { OnOk result (bits.new ≡ bits_after bits.old rule.now) }
{
    match bits {
        None => Ok(()),
        Some(bits) => change_bits(alloc, bits, rule.opts.as_slice()),
    }
}

/// The bits that an item has; without a session none are set.
fn bits_seen<'a>(bits: &'a Option<Bits>, none: &'a Bits) -> &'a Bits
    requires { none.now ≡ empty }
    ensures { result.now ≡ bits_seen bits.now }
{
    match bits {
        None => none,
        Some(bits) => bits,
    }
}

/// What rules are tried on: an item, its payload lent.
#[derive(Drop)]
struct Tried<'a> {
    head: &'a ItemHead,
    payload: &'a [u8],
}

/// Tries the rule at a place. Where it matches it is found, and its changes are made.
fn pick<P: Pattern, L: Ledger>(
    alloc: Global,
    set: &RuleSet<P>,
    place: u32,
    item: &Tried<'_>,
    bits: &mut Option<Bits>,
    found: &mut Vec<u32>,
    visits: &mut Steps<L>,
) -> Result<(), NoMemory>
    requires within { place < length set.now.rules }
    requires known { All ChangesKnownBits set.now.rules }
    ensures picks { (means : Means) → (test : Test) → FindWhatIsMeant P.finds means set.now → Tells means test
        → OnOk result (Picks test set.now.rules (record { head = item.now.head.now; payload = item.now.payload.now }) place
        (come_to bits.old found.old.items) (come_to bits.new found.new.items)) }
    ensures visits { (means : Means) → FindWhatIsMeant P.finds means set.now
        → visits.new ≤ visits.old + visits_at set.now.rules (length item.now.payload.now) place }
{
    let none = Bits::new();
    let matches = rule_matches(
        alloc,
        set,
        place,
        item.head,
        item.payload,
        bits_seen(bits, &none),
        visits,
    )?;
    if matches {
        change_session(alloc, bits, &set.rules()[place as usize])?;
        found.push(place)?;
    }
    Ok(())
}

/// Tries the rules at these places, one after another.
fn pick_all<P: Pattern, L: Ledger>(
    alloc: Global,
    set: &RuleSet<P>,
    places: &[u32],
    item: &Tried<'_>,
    bits: &mut Option<Bits>,
    visits: &mut Steps<L>,
) -> Result<Vec<u32>, NoMemory>
    requires within { All (λ place. place < length set.now.rules) places.now }
    requires known { All ChangesKnownBits set.now.rules }
    ensures picks { (means : Means) → (test : Test) → FindWhatIsMeant P.finds means set.now → Tells means test
        → IfOk result (λ found. PicksAll test set.now.rules
        (record { head = item.now.head.now; payload = item.now.payload.now }) places.now bits.old bits.new found.items) }
    ensures visits { (means : Means) → FindWhatIsMeant P.finds means set.now
        → visits.new ≤ visits.old + visits_among set.now.rules (length item.now.payload.now) places.now }
{
    let mut found = Vec::new(alloc);
    for place in places {
        pick(alloc, set, *place, item, bits, &mut found, visits)?;
    }
    Ok(found)
}

/// All rules of the set that match an item, and the bits of its session after them: each rule sees the
/// bits that the rules before it left (specs/Hits). `places` are the item's candidates, so that no other
/// rule is tried. An item without a session has no bits, None. The visits that all of them take are counted, and are
/// at most the sum of those of each (specs/Work), also where memory is lacking.
///
/// Where memory is lacking, some of the changes may have been made.
pub fn matching_among<P: Pattern, L: Ledger>(
    alloc: Global,
    set: &RuleSet<P>,
    places: &[u32],
    head: &ItemHead,
    payload: &[u8],
    bits: &mut Option<Bits>,
    visits: &mut Steps<L>,
) -> Result<Items<u32>, NoMemory>
    requires candidates { places.now ≡ candidates set.now.rules head.now.body payload.now }
    requires known { All ChangesKnownBits set.now.rules }
    ensures hits { (means : Means) → FindWhatIsMeant P.finds means set.now
        → IfOk result (λ rules. AreHits means set.now.rules (record { head = head.now; payload = payload.now })
        bits.old rules) }
    ensures bits { (means : Means) → FindWhatIsMeant P.finds means set.now
        → IfOk result (λ rules. bits.new ≡ bits_after_all set.now.rules bits.old rules) }
    ensures visits { (means : Means) → FindWhatIsMeant P.finds means set.now
        → visits.new ≤ visits.old + visits_among set.now.rules (length payload.now) places.now }
{
    let item = Tried { head, payload };
    let found = pick_all(alloc, set, places, &item, bits, visits)?;
    Ok(Items::from_vec(found))
}
