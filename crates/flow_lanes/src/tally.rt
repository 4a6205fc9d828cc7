//! The items of a job with all rules that match them (specs/ItemHits, specs/Flows).

ghost use Rattle.std.specs.Prelude.{◌≡◌, ◌+◌, ◌≤◌, ◌++◌, [], ◌∷◌, length, IfOk, OnOk};
ghost use Rattle.fast_pattern.specs.Candidates.{candidates};
ghost use Rattle.flow_lanes.specs.Given.{inspection_of, packet_of};
ghost use Rattle.flow_lanes.specs.ItemHits.{told};
ghost use Rattle.flow_lanes.specs.Tried.{Tries, so_far};
ghost use Rattle.flow_lanes.specs.Working.{item_with, own_item};

use crate::answer::Hits;
use crate::arrival::Arrival;
use crate::inspector::Inspector;
use crate::worth::{effort_cost, item_cost, options_cost};
use edge_io::{Items, NoMemory, Pattern};
use flowbit_state::Bits;
use option_eval::{RuleSet, Steps};
use packet_decode::{ItemHead, SessionFacts};
use rule_eval::{Item, matching_among};
use std::alloc::Global;
use std::sync::ledger::Ledger;

/// What was found of the items of a job so far.
#[derive(Drop)]
pub(crate) struct JobTally<L: Ledger> {
    /// The items that are told, with all rules that match them.
    pub hits: Vec<Hits>,
    /// How many items there were.
    pub items: u64,
    /// How many candidates they had.
    pub tries: u64,
    /// About what they cost, in nanoseconds.
    pub cost: u64,
    /// How many visits of their payloads the candidates took. It takes no bytes.
    pub visits: Steps<L>,
}

impl<L: Ledger> JobTally<L> {
    /// Nothing was found, and no visit made. Takes no memory.
    pub fn new(alloc: Global, visits: Steps<L>) -> JobTally<L>
        requires { visits ≡ 0 }
        ensures hits { result.hits.items ≡ [] }
        ensures items { result.items ≡ 0 }
        ensures tries { result.tries ≡ 0 }
        ensures visits { result.visits ≡ 0 }
    {
        JobTally {
            hits: Vec::new(alloc),
            items: 0,
            tries: 0,
            cost: 0,
            visits,
        }
    }

    /// One item more, of `tries` candidates, whose options cost about `cost`. A job of which the items or the
    /// candidates cannot be counted has more items than memory holds.
    fn count(&mut self, tries: usize, cost: u64) -> Result<(), NoMemory>
        ensures counts { OnOk result ((self.new.items ≡ self.old.items + 1) × (self.new.tries ≡ self.old.tries + tries)) }
        ensures hits { self.new.hits.items ≡ self.old.hits.items }
        ensures visits { self.new.visits ≡ self.old.visits }
    {
        self.cost = self.cost.saturating_add(item_cost(tries, cost));
        self.items = self.items.checked_add(1).ok_or(NoMemory)?;
        self.tries = self.tries.checked_add(tries as u64).ok_or(NoMemory)?;
        Ok(())
    }

    /// Tells an item with the rules that match it: where none does, only if all items are told.
    fn tell(&mut self, all: bool, head: &ItemHead, rules: Items<u32>) -> Result<(), NoMemory>
        ensures hits { OnOk result (self.new.hits.items
            ≡ self.old.hits.items ++ told all (record { head = head.now; rules = rules } ∷ [])) }
        ensures items { self.new.items ≡ self.old.items }
        ensures tries { self.new.tries ≡ self.old.tries }
        ensures visits { self.new.visits ≡ self.old.visits }
        ensures more { OnOk result (length self.old.hits.items ≤ length self.new.hits.items) }
    {
        if all || !rules.as_slice().is_empty() {
            self.hits.push(Hits { head: *head, rules })?;
        }
        Ok(())
    }
}

/// The places of the rules that are worth being tried on an item. About what finding them cost is counted.
#[inline(always)]
fn item_candidates<P: Pattern>(
    inspector: &Inspector<'_, P>,
    head: &ItemHead,
    payload: &[u8],
    cost: &mut u64,
) -> Result<Vec<u32>, NoMemory>
    ensures { IfOk result (λ places. places.items
        ≡ candidates inspector.now.set.now.rules head.now.body payload.now) }
{
    let mut places = Vec::new(inspector.alloc);
    let effort = inspector
        .groups
        .find_candidates(inspector.alloc, head, payload, &mut places)?;
    *cost = cost.saturating_add(effort_cost(&effort));
    Ok(places)
}

/// About what the options of the rules at these places cost on this many bytes.
fn cost_of_options<P: Pattern>(set: &RuleSet<P>, places: &[u32], bytes: usize) -> u64 {
    let mut cost = 0u64;
    for place in places {
        if let Some(rule) = set.rules().get(*place as usize) {
            cost = cost.saturating_add(options_cost(rule.opts.as_slice(), bytes));
        }
    }
    cost
}

/// Tries the candidates of an item.
#[inline(never)]
fn try_candidates<P: Pattern, L: Ledger>(
    inspector: &Inspector<'_, P>,
    places: &[u32],
    head: &ItemHead,
    payload: &[u8],
    bits: &mut Option<Bits>,
    tally: &mut JobTally<L>,
) -> Result<(), NoMemory>
    requires { places.now ≡ candidates inspector.now.set.now.rules head.now.body payload.now }
    ensures { OnOk result (Tries (inspection_of P.finds inspector.now) (record { head = head.now; payload = payload.now } ∷ [])
        bits.old bits.new (so_far tally.old) (so_far tally.new)) }
{
    let rules = matching_among(
        inspector.alloc,
        inspector.set,
        places,
        head,
        payload,
        bits,
        &mut tally.visits,
    )?;
    let cost = cost_of_options(inspector.set, places, payload.len());
    tally.count(places.len(), cost)?;
    tally.tell(inspector.all, head, rules)?;
    Ok(())
}

/// Tries the rules on an item.
pub(crate) fn try_item<P: Pattern, L: Ledger>(
    inspector: &Inspector<'_, P>,
    head: &ItemHead,
    payload: &[u8],
    bits: &mut Option<Bits>,
    tally: &mut JobTally<L>,
) -> Result<(), NoMemory>
    ensures { OnOk result (Tries (inspection_of P.finds inspector.now) (record { head = head.now; payload = payload.now } ∷ [])
        bits.old bits.new (so_far tally.old) (so_far tally.new)) }
{
    let places = item_candidates(inspector, head, payload, &mut tally.cost)?;
    try_candidates(inspector, &places, head, payload, bits, tally)
}

/// Tries the candidates of a packet with these facts of its session.
// Kept out of the line of packets without a candidate, which otherwise pay for the head.
#[inline(never)]
fn try_with_facts<P: Pattern, L: Ledger>(
    inspector: &Inspector<'_, P>,
    places: &[u32],
    facts: SessionFacts,
    p: &Arrival,
    bits: &mut Option<Bits>,
    tally: &mut JobTally<L>,
) -> Result<(), NoMemory>
    requires { places.now ≡ candidates inspector.now.set.now.rules p.now.head.now.body p.now.payload.now }
    ensures { OnOk result (Tries (inspection_of P.finds inspector.now) (item_with (packet_of p.now) facts ∷ [])
        bits.old bits.new (so_far tally.old) (so_far tally.new)) }
{
    let head = ItemHead {
        session: facts,
        ..*p.head
    };
    try_candidates(inspector, places, &head, p.payload, bits, tally)
}

/// Tries the rules on a packet with these facts of its session. Its candidates go by its payload and by what its
/// head says of the packet alone: where there is none and such an item is not told, no head is made with the
/// facts.
#[inline(always)]
fn try_packet<P: Pattern, L: Ledger>(
    inspector: &Inspector<'_, P>,
    facts: SessionFacts,
    p: &Arrival,
    bits: &mut Option<Bits>,
    tally: &mut JobTally<L>,
) -> Result<(), NoMemory>
    ensures { OnOk result (Tries (inspection_of P.finds inspector.now) (item_with (packet_of p.now) facts ∷ [])
        bits.old bits.new (so_far tally.old) (so_far tally.new)) }
{
    let places = item_candidates(inspector, p.head, p.payload, &mut tally.cost)?;
    if places.is_empty() && !inspector.all {
        return tally.count(0, 0);
    }
    try_with_facts(inspector, &places, facts, p, bits, tally)
}

/// Tries the rules on the packet's own item, if it is one.
#[inline(always)]
pub(crate) fn try_own<P: Pattern, L: Ledger>(
    inspector: &Inspector<'_, P>,
    own: &Option<SessionFacts>,
    p: &Arrival,
    bits: &mut Option<Bits>,
    tally: &mut JobTally<L>,
) -> Result<(), NoMemory>
    ensures { OnOk result (Tries (inspection_of P.finds inspector.now) (own_item (packet_of p.now) own.now)
        bits.old bits.new (so_far tally.old) (so_far tally.new)) }
{
    match own {
        None => Ok(()),
        Some(facts) => try_packet(inspector, *facts, p, bits, tally),
    }
}

/// Tries the rules on items of one session, in order.
pub(crate) fn try_items<P: Pattern, L: Ledger>(
    inspector: &Inspector<'_, P>,
    items: &[Item],
    bits: &mut Option<Bits>,
    tally: &mut JobTally<L>,
) -> Result<(), NoMemory>
    ensures { OnOk result (Tries (inspection_of P.finds inspector.now) items.now
        bits.old bits.new (so_far tally.old) (so_far tally.new)) }
{
    for item in items {
        try_item(inspector, &item.head, item.payload.bytes(), bits, tally)?;
    }
    Ok(())
}
