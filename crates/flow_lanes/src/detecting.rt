//! All rules that match the items of a job, and what the flow's next job finds, in its place.

ghost use Rattle.std.specs.Prelude.{◌≡◌, ◌≤◌, ◌++◌, drop, length, None, OnOk, option_map, Some, unwrap_or, if◌then◌else◌};
ghost use Rattle.std.specs.FinSet.{empty};
ghost use Rattle.flow_lanes.specs.Detecting.{Settles, bits_now};
ghost use Rattle.flow_lanes.specs.Flows.{bits_at_hand, session_at_hand, steered};
ghost use Rattle.flow_lanes.specs.Given.{inspection_of, packet_of};
ghost use Rattle.flow_lanes.specs.Kept.{KeepsFound};
ghost use Rattle.flow_lanes.specs.Tried.{ByTest, Tallies, Tries, of_session, so_far};
ghost use Rattle.flow_lanes.specs.Working.{own_item};

use crate::answer::Hits;
use crate::arrival::Arrival;
use crate::entering::leave;
use crate::inspector::Inspector;
use crate::keeping::FlowState;
use crate::steering::steer;
use crate::tally::{JobTally, try_items, try_own};
use edge_io::{NoMemory, Pattern};
use flowbit_state::Bits;
use packet_decode::SessionFacts;
use rule_eval::Item;
use rule_types::Rule;
use std::sync::ledger::Ledger;
use stream5_sessions::Step;

/// Takes the bits of the session at hand, which has none then.
fn take_bits(kept: &mut FlowState) -> Bits
    ensures bits { result ≡ kept.old.bits }
    ensures session { kept.new.session ≡ kept.old.session }
{
    std::mem::replace(&mut kept.bits, Bits::new())
}

/// Takes them where a session is at hand.
fn take_bits_at_hand(found: &mut Option<FlowState>) -> Option<Bits>
    ensures bits { result ≡ bits_at_hand found.old }
    ensures session { session_at_hand found.new ≡ session_at_hand found.old }
{
    match found {
        None => None,
        Some(kept) => Some(take_bits(kept)),
    }
}

/// The bits of the session at hand, or none set; None where the items have no session.
#[inline(always)]
fn bits_found(tracked: bool, found: &mut Option<FlowState>) -> Option<Bits>
    ensures bits { result ≡ (if tracked then Some (unwrap_or (bits_at_hand found.old) empty) else None) }
    ensures session { session_at_hand found.new ≡ session_at_hand found.old }
{
    if !tracked {
        return None;
    }
    Some(bits_or_none(take_bits_at_hand(found)))
}

/// Tries the rules on the streams of the packet's session and then on the packet.
#[inline(always)]
fn try_current<P: Pattern, L: Ledger>(
    inspector: &Inspector<'_, P>,
    streams: &[Item],
    own: &Option<SessionFacts>,
    p: &Arrival,
    bits: &mut Option<Bits>,
    tally: &mut JobTally<L>,
) -> Result<(), NoMemory>
    ensures { OnOk result (Tries (inspection_of P.finds inspector.now) (streams.now ++ own_item (packet_of p.now) own.now)
        bits.old bits.new (so_far tally.old) (so_far tally.new)) }
{
    try_items(inspector, streams, bits, tally)?;
    try_own(inspector, own, p, bits, tally)?;
    Ok(())
}

/// The bits, or none set.
fn bits_or_none(bits: Option<Bits>) -> Bits
    ensures { result ≡ unwrap_or bits empty }
{
    match bits {
        Some(bits) => bits,
        None => Bits::new(),
    }
}

/// The session after its items, if there is one: as its rules ask, and with its bits. The hits of its items
/// begin at a place.
#[inline(always)]
fn settle(
    rules: &[Rule],
    hits: &[Hits],
    first: usize,
    bits: Option<Bits>,
    found: &mut Option<FlowState>,
)
    requires { first ≤ length hits.now }
    ensures state { found.new ≡ option_map
        (λ session. record { session = steered rules.now (drop first hits.now) session; bits = unwrap_or bits empty })
        (session_at_hand found.old) }
    ensures keeps { KeepsFound found.old found.new }
{
    if let Some(kept) = found {
        let (_, own) = hits.split_at(first);
        steer(rules, own, &mut kept.session);
        kept.bits = bits_or_none(bits);
    }
}

/// Leaves no session where it ends.
#[inline(always)]
fn end_if(ends: bool, found: &mut Option<FlowState>)
    ensures session { session_at_hand found.new ≡ (if ends then None else session_at_hand found.old) }
    ensures keeps { KeepsFound found.old found.new }
{
    if ends {
        leave(found);
    }
}

/// Tries the rules on the items of a session that has ended, with its bits: there is no session then.
pub(crate) fn try_at_end<P: Pattern, L: Ledger>(
    inspector: &Inspector<'_, P>,
    items: &[Item],
    found: &mut Option<FlowState>,
    tally: &mut JobTally<L>,
) -> Result<(), NoMemory>
    ensures tallies { OnOk result (Tallies (inspection_of P.finds inspector.now)
        (of_session (bits_at_hand found.old) items.now) (so_far tally.old) (so_far tally.new)) }
    ensures found { found.new ≡ None }
{
    let mut bits = take_bits_at_hand(found);
    leave(found);
    try_items(inspector, items, &mut bits, tally)?;
    Ok(())
}

/// Tries the rules on the items of the packet's session, streams and then the packet: the session is then
/// as its rules ask, unless it ends.
// In the line of each packet, so that nothing is passed through memory.
#[inline(always)]
pub(crate) fn try_and_settle<P: Pattern, L: Ledger>(
    inspector: &Inspector<'_, P>,
    streams: &[Item],
    own: &Option<SessionFacts>,
    p: &Arrival,
    step: &Step,
    found: &mut Option<FlowState>,
    tally: &mut JobTally<L>,
) -> Result<(), NoMemory>
    ensures tallies { OnOk result (Tallies (inspection_of P.finds inspector.now)
        (of_session (bits_now step.now.tracked found.old) (streams.now ++ own_item (packet_of p.now) own.now))
        (so_far tally.old) (so_far tally.new)) }
    ensures settles { OnOk result (ByTest (inspection_of P.finds inspector.now) (λ trying. Settles trying
        (streams.now ++ own_item (packet_of p.now) own.now) step.now found.old found.new)) }
    ensures keeps { KeepsFound found.old found.new }
{
    let first = tally.hits.len();
    let mut bits = bits_found(step.tracked, found);
    try_current(inspector, streams, own, p, &mut bits, tally)?;
    end_if(step.ends, found);
    settle(inspector.set.rules(), &tally.hits, first, bits, found);
    Ok(())
}
