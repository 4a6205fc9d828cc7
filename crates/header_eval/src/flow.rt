//! What a rule asks of the item's session, and of how the item came to be.
ghost use Rattle.std.specs.Prelude.{◌≡◌};
ghost use Rattle.header_eval.specs.Fields.{agrees, agrees_known, flow_holds};

use crate::kind::{is_rebuilt, is_stream};
use packet_decode::ItemHead;
use rule_types::FlowOpt;

/// What is asked of a fact, if anything is.
fn agrees(asked: Option<bool>, fact: bool) -> bool
    ensures { result ≡ agrees asked fact }
{
    match asked {
        None => true,
        Some(wanted) => wanted == fact,
    }
}

/// What is asked of a fact that may not be known, if anything is.
fn agrees_known(asked: Option<bool>, fact: Option<bool>) -> bool
    ensures { result ≡ agrees_known asked fact }
{
    match (asked, fact) {
        (None, _) => true,
        (Some(_), None) => false,
        (Some(_), Some(fact)) => agrees(asked, fact),
    }
}

/// Whether the session and the item are as the option asks. `stateless` asks nothing.
#[tactic(auto, unfolding(crate::specs::Fields::flow_holds))]
pub(crate) fn flow_holds(flow: &FlowOpt, head: &ItemHead) -> bool
    ensures { result ≡ flow_holds flow.now head.now }
{
    agrees(flow.established, head.session.established)
        && agrees_known(flow.from_client, head.session.from_client)
        && agrees(flow.stream, is_stream(head.kind))
        && agrees(flow.frag, is_rebuilt(head.kind))
}
