//! The head of an item, as rules see it.
ghost use Rattle.std.specs.Prelude.{◌≡◌};
ghost use Rattle.record_jobs.specs.Packets.{untracked};

use edge_io::Moment;
use flow_lanes::Payload;
use packet_decode::{Body, IpHead, ItemHead, ItemKind, SessionFacts};

/// What rules see of what was read at this moment; nothing is known of its session.
// Called, it would have its head moved.
#[inline(always)]
pub(crate) fn head_of(kind: ItemKind, moment: Moment, ip: IpHead, body: Body) -> ItemHead
    ensures { result ≡ record { kind = kind; moment = moment; ip = ip; body = body; session = untracked } }
{
    ItemHead {
        kind,
        moment,
        ip,
        body,
        session: SessionFacts::UNTRACKED,
    }
}

/// What is inspected: what rules see of it beside its payload, and the payload.
#[derive(Debug, Drop)]
pub(crate) struct RecordItem<'a> {
    pub head: ItemHead,
    pub payload: Payload<'a>,
}
