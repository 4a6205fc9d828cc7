//! What is done for a record, as jobs that are added to a list.
ghost use Rattle.std.specs.Prelude.{◌≡◌, ◌+◌, ◌≤◌, ◌<◌, ◌^◌, [], ◌∷◌, ◌++◌, Some, None, length, map, take, IfOk, OnOk, OnErr};
ghost use Rattle.std.specs.Option.{option_map, option_to_list};
ghost use Rattle.flow_lanes.specs.Sessions.{is_tcp};
ghost use Rattle.record_jobs.specs.Jobs.{alone, evicted_by, flow_packet, numbered, packet_work, works_by};
ghost use Rattle.record_jobs.specs.Steps.{read_item, Adds};
ghost use Rattle.record_jobs.specs.Way.{way_of};

use crate::config::FrontConfig;
use crate::content::RecordContent;
use crate::engines::towards;
use crate::item::{RecordItem, head_of};
use crate::time::Time;
use edge_io::{Moment, NoMemory};
use flow_lanes::{Job, Payload, Work};
use packet_decode::{Body, ItemKind, Placed};
use std::mem;
use stream5_sessions::Touch;

/// The payload of an item, which has none then.
fn payload_of<'a>(item: &mut RecordItem<'a>) -> Payload<'a>
    ensures { result ≡ item.old.payload }
{
    mem::replace(&mut item.payload, Payload::lent(&[]))
}

/// An item by itself. Its payload goes with it.
fn alone<'a>(item: &mut RecordItem<'a>) -> Work<'a>
    ensures { result ≡ alone item.old }
{
    Work::Alone {
        head: item.head,
        payload: payload_of(item),
    }
}

/// A packet of a flow. Its payload goes with it.
#[tactic(auto, unfolding(crate::specs::Jobs::flow_packet))]
fn flow_packet<'a>(
    by: &FrontConfig<'_>,
    time: Time,
    item: &mut RecordItem<'a>,
    flow: u64,
) -> Work<'a>
    requires { length by.now.config.now.stream.engines ≤ 1024 }
    ensures { result ≡ flow_packet (way_of by.now) time item.old flow }
{
    let (to_dst, to_src) = towards(by, is_tcp(item.head.body), time, &item.head.ip);
    Work::Packet {
        flow,
        head: item.head,
        payload: payload_of(item),
        to_dst,
        to_src,
    }
}

/// Whether a packet is of TCP.
fn is_tcp(body: Body) -> bool
    ensures { result ≡ is_tcp body }
{
    match body {
        Body::Tcp(_) => true,
        _ => false,
    }
}

/// What is done for a packet that found this of its flow, if it has one.
fn packet_work<'a>(
    by: &FrontConfig<'_>,
    time: Time,
    touch: Option<Touch>,
    item: &mut RecordItem<'a>,
) -> Work<'a>
    requires { length by.now.config.now.stream.engines ≤ 1024 }
    ensures { result ≡ packet_work (way_of by.now) time touch item.old }
{
    match touch {
        Some(touch) => flow_packet(by, time, item, touch.flow),
        None => alone(item),
    }
}

/// The flow that a touch ends.
fn evicted(touch: Option<Touch>) -> Option<u64>
    ensures { result ≡ evicted_by touch }
{
    touch?.evicted
}

/// How many jobs there is room for at least, once there is room for any: mostly a record has two, the end of a flow and
/// its packet. Growing from one on would move the jobs of a batch of 256 records again and again.
const FIRST_ROOM: usize = 512;

/// Makes room for one more job.
#[inline(always)]
fn make_room(out: &mut Vec<Job<'_>>) -> Result<(), NoMemory>
    ensures { out.new.items ≡ out.old.items }
{
    if out.len() == out.capacity() {
        out.reserve(FIRST_ROOM)?;
    }
    Ok(())
}

/// Adds a job, and gives the number of the next.
// Called, it would have its job moved twice more.
#[inline(always)]
fn add<'a>(
    out: &mut Vec<Job<'a>>,
    number: u64,
    moment: Moment,
    work: Work<'a>,
) -> Result<u64, NoMemory>
    requires { number + 1 < 2 ^ 64 }
    ensures next { IfOk result (λ next. next ≡ number + 1) }
    ensures added { OnOk result (out.new.items ≡ out.old.items ++ numbered number moment (work.entry ∷ [])) }
    ensures err { OnErr result (out.new.items ≡ out.old.items) }
{
    make_room(out)?;
    out.push(Job {
        number,
        moment,
        work,
    })?;
    Ok(number + 1)
}

/// Adds the end of a flow, and gives the number of the next job.
// Few records end a flow: kept out of the line of the others, which otherwise pay for its moves.
#[inline(never)]
fn add_finish(
    out: &mut Vec<Job<'_>>,
    number: u64,
    moment: Moment,
    flow: u64,
) -> Result<u64, NoMemory>
    requires { number + 1 < 2 ^ 64 }
    ensures next { IfOk result (λ next. next ≡ number + 1) }
    ensures added { OnOk result (out.new.items ≡ out.old.items ++ numbered number moment (Work.Finish flow ∷ [])) }
    ensures err { OnErr result (out.new.items ≡ out.old.items) }
{
    add(out, number, moment, Work::Finish { flow })
}

/// Adds the end of a flow, if one ends, and gives the number of the next job.
fn add_evicted(
    out: &mut Vec<Job<'_>>,
    number: u64,
    moment: Moment,
    flow: Option<u64>,
) -> Result<u64, NoMemory>
    requires { number + 1 < 2 ^ 64 }
    ensures next { IfOk result
        (λ next. next ≡ number + length (option_to_list (option_map (λ flow. Work.Finish flow) flow))) }
    ensures added { OnOk result (out.new.items
        ≡ out.old.items ++ numbered number moment (option_to_list (option_map (λ flow. Work.Finish flow) flow))) }
    ensures err { OnErr result (out.new.items ≡ out.old.items) }
{
    match flow {
        None => Ok(number),
        Some(flow) => add_finish(out, number, moment, flow),
    }
}

/// Adds a fragment by itself, if there is one, and gives the number of the next job.
fn add_fragment<'a>(
    out: &mut Vec<Job<'a>>,
    number: u64,
    moment: Moment,
    fragment: &mut Option<RecordItem<'a>>,
) -> Result<u64, NoMemory>
    requires { number + 1 < 2 ^ 64 }
    ensures next { IfOk result (λ next. next ≡ number + length (option_to_list (option_map alone fragment.old))) }
    ensures added { OnOk result (out.new.items
        ≡ out.old.items ++ numbered number moment (option_to_list (option_map alone fragment.old))) }
    ensures err { OnErr result (out.new.items ≡ out.old.items) }
{
    match fragment {
        None => Ok(number),
        Some(item) => add(out, number, moment, alone(item)),
    }
}

/// Adds a packet, if there is one, and gives the number of the next job.
fn add_item<'a>(
    out: &mut Vec<Job<'a>>,
    by: &FrontConfig<'_>,
    time: Time,
    touch: Option<Touch>,
    packet: &mut Option<RecordItem<'a>>,
    number: u64,
) -> Result<u64, NoMemory>
    requires engines { length by.now.config.now.stream.engines ≤ 1024 }
    requires room { number + 1 < 2 ^ 64 }
    ensures next { IfOk result
        (λ next. next ≡ number + length (option_to_list (option_map (packet_work (way_of by.now) time touch) packet.old))) }
    ensures added { OnOk result (out.new.items ≡ out.old.items
        ++ numbered number time.now (option_to_list (option_map (packet_work (way_of by.now) time touch) packet.old))) }
    ensures err { OnErr result (out.new.items ≡ out.old.items) }
{
    match packet {
        None => Ok(number),
        Some(item) => add(out, number, time.now, packet_work(by, time, touch, item)),
    }
}

/// Adds what is done for a record, where its touch found this, and gives the number of the next job. The jobs take the
/// payloads of what the record brought.
pub(crate) fn add_works<'a>(
    out: &mut Vec<Job<'a>>,
    by: &FrontConfig<'_>,
    time: Time,
    touch: Option<Touch>,
    content: &mut RecordContent<'a>,
    number: u64,
) -> Result<u64, NoMemory>
    requires engines { length by.now.config.now.stream.engines ≤ 1024 }
    requires room { number + 3 < 2 ^ 64 }
    ensures added { IfOk result (λ next. Adds number time.now
        (works_by (way_of by.now) time touch content.old.fragment content.old.packet) out.old.items next out.new.items) }
    ensures few { IfOk result (λ next. next ≤ number + 3) }
    ensures err { OnErr result (take (length out.old.items) out.new.items ≡ out.old.items) }
{
    let number = add_evicted(out, number, time.now, evicted(touch))?;
    let number = add_fragment(out, number, time.now, &mut content.fragment)?;
    let next = add_item(out, by, time, touch, &mut content.packet, number)?;
    Ok(next)
}

/// Adds a packet that has no flow, by itself, and gives the number of the next job.
// Kept out of the line of packets that have one, which otherwise pay for its moves.
#[inline(never)]
fn add_alone<'a>(
    out: &mut Vec<Job<'a>>,
    number: u64,
    moment: Moment,
    read: &Placed,
    payload: Payload<'a>,
) -> Result<u64, NoMemory>
    requires { number + 1 < 2 ^ 64 }
    ensures next { IfOk result (λ next. next ≡ number + 1) }
    ensures added { OnOk result
        (out.new.items ≡ out.old.items ++ numbered number moment (alone (read_item moment read.now payload.entry) ∷ [])) }
    ensures err { OnErr result (out.new.items ≡ out.old.items) }
{
    let head = head_of(ItemKind::Packet, moment, read.ip, read.body);
    add(out, number, moment, Work::Alone { head, payload })
}

/// Adds a packet of the flow that its touch found, and gives the number of the next job.
// Called, it would have its job moved twice more.
#[inline(always)]
#[tactic(auto, unfolding(crate::specs::Jobs::flow_packet))]
fn add_flow_packet<'a>(
    out: &mut Vec<Job<'a>>,
    by: &FrontConfig<'_>,
    time: Time,
    flow: u64,
    read: &Placed,
    payload: Payload<'a>,
    number: u64,
) -> Result<u64, NoMemory>
    requires engines { length by.now.config.now.stream.engines ≤ 1024 }
    requires room { number + 1 < 2 ^ 64 }
    ensures next { IfOk result (λ next. next ≡ number + 1) }
    ensures added { OnOk result (out.new.items ≡ out.old.items
        ++ numbered number time.now (flow_packet (way_of by.now) time (read_item time.now read.now payload.entry) flow ∷ [])) }
    ensures err { OnErr result (out.new.items ≡ out.old.items) }
{
    let (to_dst, to_src) = towards(by, is_tcp(read.body), time, &read.ip);
    add(
        out,
        number,
        time.now,
        Work::Packet {
            flow,
            head: head_of(ItemKind::Packet, time.now, read.ip, read.body),
            payload,
            to_dst,
            to_src,
        },
    )
}

/// Adds what is done for a packet that is no fragment, where its touch found this, and gives the number of the next job.
/// The job is made of the fields where they were read.
pub(crate) fn add_packet<'a>(
    out: &mut Vec<Job<'a>>,
    by: &FrontConfig<'_>,
    time: Time,
    touch: Option<Touch>,
    read: &Placed,
    payload: Payload<'a>,
    number: u64,
) -> Result<u64, NoMemory>
    requires engines { length by.now.config.now.stream.engines ≤ 1024 }
    requires room { number + 2 < 2 ^ 64 }
    ensures added { IfOk result (λ next. Adds number time.now
        (works_by (way_of by.now) time touch None (Some (read_item time.now read.now payload.entry)))
        out.old.items next out.new.items) }
    ensures few { IfOk result (λ next. next ≤ number + 2) }
    ensures err { OnErr result (take (length out.old.items) out.new.items ≡ out.old.items) }
{
    let Some(touch) = touch else {
        let next = add_alone(out, number, time.now, read, payload)?;
        return Ok(next);
    };
    let number = add_evicted(out, number, time.now, touch.evicted)?;
    let next = add_flow_packet(out, by, time, touch.flow, read, payload, number)?;
    Ok(next)
}

/// Adds the ends of these flows.
pub(crate) fn add_finishes(
    out: &mut Vec<Job<'_>>,
    number: u64,
    moment: Moment,
    flows: &[u64],
) -> Result<(), NoMemory>
    requires { number ≤ 2 ^ 34 }
    ensures ok { OnOk result (out.new.items ≡ out.old.items
        ++ numbered number moment (map (λ flow. Work.Finish flow) flows.now)) }
    ensures err { OnErr result (take (length out.old.items) out.new.items ≡ out.old.items) }
{
    let mut number = number;
    for flow in flows {
        number = add_finish(out, number, moment, *flow)?;
    }
    Ok(())
}
