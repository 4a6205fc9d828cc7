//! Stream items.

ghost use Rattle.std.specs.Prelude.{◌≡◌, ◌++◌, map, OnOk};
ghost use Rattle.flow_lanes.specs.Items.{head_between};
ghost use Rattle.flow_lanes.specs.Streams.{item_size, parts_of, payloads_of};
ghost use Rattle.flow_lanes.specs.Working.{maybe_items, stretch_items, stretches_items};

use crate::cutting::{Stretch, cut, is_one_part};
use crate::session::{Leftover, Stretches};
use edge_io::{Items, Moment, NoMemory, Text};
use overlap_core::Run;
use packet_decode::{Body, IpHead, ItemHead, ItemKind, SessionFacts};
use rule_eval::Item;
use std::alloc::Global;
use stream5_sessions::End;

/// What rules see of a stretch of the data that one end sends to another.
pub(crate) fn head_between(
    from: End,
    to: End,
    of_client: bool,
    moment: Moment,
    sizes: (u64, u64),
) -> ItemHead
    ensures { result ≡ head_between from to of_client moment sizes }
{
    ItemHead {
        kind: ItemKind::Stream,
        moment,
        ip: IpHead {
            src: from.addr,
            dst: to.addr,
            protocol: 6,
            ttl: 0,
            tos: 0,
            id: 0,
            reserved: false,
            dont: false,
            more: false,
            offset: 0,
        },
        body: Body::Stream {
            sport: from.port,
            dport: to.port,
        },
        session: SessionFacts {
            tracked: true,
            established: true,
            from_client: Some(of_client),
            sizes: Some(sizes),
        },
    }
}

/// Appends the stream items of a stretch.
fn push_stretch(
    out: &mut Vec<Item>,
    of_client: bool,
    moment: Moment,
    sizes: (u64, u64),
    stretch: Stretch,
) -> Result<(), NoMemory>
    ensures { OnOk result (out.new.items ≡ out.old.items ++ stretch_items of_client moment sizes stretch) }
{
    let Stretch { from, to, payloads } = stretch;
    let head = head_between(from, to, of_client, moment, sizes);
    push_payloads(head, payloads, out)
}

/// Appends the items of runs, which have one head.
pub(crate) fn push_runs(
    alloc: Global,
    head: ItemHead,
    runs: Vec<Run>,
    out: &mut Vec<Item>,
) -> Result<(), NoMemory>
    ensures { OnOk result (out.new.items
        ≡ out.old.items ++ map (λ payload. record { head = head; payload = payload }) (payloads_of runs.items)) }
{
    for run in runs {
        push_run(alloc, &head, run.bytes, out)?;
    }
    Ok(())
}

/// Appends the items of a run: one with the run's own bytes, where they are one part.
fn push_run(alloc: Global, head: &ItemHead, run: Text, out: &mut Vec<Item>) -> Result<(), NoMemory>
    ensures { OnOk result (out.new.items
        ≡ out.old.items ++ map (λ payload. record { head = head.now; payload = payload }) (parts_of item_size run)) }
{
    if is_one_part(run.bytes()) {
        out.push(Item {
            head: *head,
            payload: run,
        })?;
        return Ok(());
    }
    let mut parts = Vec::new(alloc);
    cut(alloc, run.bytes(), &mut parts)?;
    push_payloads(*head, Items::from_vec(parts), out)
}

/// Appends items of one head.
fn push_payloads(head: ItemHead, payloads: Items<Text>, out: &mut Vec<Item>) -> Result<(), NoMemory>
    ensures { OnOk result (out.new.items
        ≡ out.old.items ++ map (λ payload. record { head = head; payload = payload }) payloads) }
{
    for payload in payloads.into_vec() {
        out.push(Item { head, payload })?;
    }
    Ok(())
}

/// Appends those of both sides, the client's first.
// Kept out of the line of most packets, before which nothing is left.
#[inline(never)]
fn push_stretches(
    out: &mut Vec<Item>,
    moment: Moment,
    sizes: (u64, u64),
    both: Stretches,
) -> Result<(), NoMemory>
    ensures { OnOk result (out.new.items ≡ out.old.items ++ stretches_items moment sizes both) }
{
    let Stretches { client, server } = both;
    push_stretch(out, true, moment, sizes, client)?;
    push_stretch(out, false, moment, sizes, server)
}

/// Appends those that there may be.
#[inline(always)]
pub(crate) fn push_maybe(
    out: &mut Vec<Item>,
    moment: Moment,
    sizes: (u64, u64),
    left: Leftover,
) -> Result<(), NoMemory>
    ensures { OnOk result (out.new.items ≡ out.old.items ++ maybe_items moment sizes left) }
{
    match left.both {
        None => Ok(()),
        Some(both) => push_stretches(out, moment, sizes, Box::into_inner(both)),
    }
}
