//! One rule on one item.

ghost use Rattle.std.specs.Prelude.{◌≡◌, ◌+◌, ◌<◌, ◌≤◌, ◌↔◌, length, All, IsTrue, IfOk};
ghost use Rattle.rule_types.specs.declared.rule.Rule.{Rule};
ghost use Rattle.header_eval.specs.Fields.{field_holds};
ghost use Rattle.option_eval.specs.Places.{Means};
ghost use Rattle.option_eval.specs.RuleSet.{FindWhatIsMeant, IsRuleAt};
ghost use Rattle.rule_eval.specs.Hits.{RuleMatches, flowbit_holds};
ghost use Rattle.rule_eval.specs.Work.{visits_at};

use edge_io::{NoMemory, Pattern};
use flowbit_state::Bits;
use header_eval::{field_matches, header_matches};
use option_eval::{RuleSet, Steps, payload_matches};
use packet_decode::ItemHead;
use rule_types::Opt;
use std::alloc::Global;
use std::sync::ledger::Ledger;

/// Whether every option that tests a field holds of an item with `len` bytes of payload.
fn fields_hold(opts: &[Opt], head: &ItemHead, len: usize) -> bool
    ensures { IsTrue result ↔ All (λ option. IsTrue (field_holds option head.now len)) opts.now }
{
    opts.iter().all(|opt| field_matches(opt, head, len))
}

/// Whether an `isset` or an `isnotset` holds; any other option does so always.
fn flowbit_holds(opt: &Opt, bits: &Bits) -> bool
    ensures { result ≡ flowbit_holds bits.now opt.now }
{
    match opt {
        Opt::BitTest { bit, want } => bits.test(*bit) == *want,
        _ => true,
    }
}

/// Whether every test of a bit holds.
fn flowbits_hold(opts: &[Opt], bits: &Bits) -> bool
    ensures { IsTrue result ↔ All (λ option. IsTrue (flowbit_holds bits.now option)) opts.now }
{
    opts.iter().all(|opt| flowbit_holds(opt, bits))
}

/// Whether the rule at a place of the set matches an item: its header, its tests of fields and of the
/// session's bits hold, and its payload options lead through the payload (specs/Hits). An item without a
/// session has no bits, `Bits::new()`. The payload is looked at last; the visits that this takes are counted, and are
/// at most those of specs/Work.
pub fn rule_matches<P: Pattern, L: Ledger>(
    alloc: Global,
    set: &RuleSet<P>,
    rule: u32,
    head: &ItemHead,
    payload: &[u8],
    bits: &Bits,
    visits: &mut Steps<L>,
) -> Result<bool, NoMemory>
    requires { rule < length set.now.rules }
    ensures right { (means : Means) → (chosen : Rule) → FindWhatIsMeant P.finds means set.now → IsRuleAt set.now rule chosen
        → IfOk result (λ matches. IsTrue matches
        ↔ RuleMatches means chosen (record { head = head.now; payload = payload.now }) bits.now) }
    ensures visits { (means : Means) → FindWhatIsMeant P.finds means set.now
        → visits.new ≤ visits.old + visits_at set.now.rules (length payload.now) rule }
{
    let tried = &set.rules()[rule as usize];
    if header_matches(tried, head)
        && fields_hold(tried.opts.as_slice(), head, payload.len())
        && flowbits_hold(tried.opts.as_slice(), bits)
    {
        return payload_matches(alloc, set, rule, payload, visits);
    }
    Ok(false)
}
