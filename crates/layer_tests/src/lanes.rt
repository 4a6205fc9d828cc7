//! Lanes that lacked memory answer `Failed` to any batch, whatever its jobs are. With ample memory none lacks it, and the
//! one batch that is made then is answered; `rt try --test --fail-alloc N` refuses the Nth allocation, and tools/measure/faults
//! each of the built test in turn.
ghost use Rattle.std.specs.Prelude.{◌≡◌, ◌≤◌, length, All, IfSome};
ghost use Rattle.conf_types.specs.Sound.{IsStreamConfig};
ghost use Rattle.fast_pattern.specs.Grouping.{AreFor};
ghost use Rattle.rule_types.specs.Sound.{IsTriable};
ghost use Rattle.flow_lanes.specs.Course.{AreFrom, IsCourse, IsPlain};
ghost use Rattle.flow_lanes.specs.LanesAfter.{HasFailed};

use conf_types::StreamConfig;
use edge_io::{Addr, Items, Literal, Moment, OpenGate, Preference, Text};
use fast_pattern::Groups;
use flow_lanes::{BatchFault, Job, Lanes, Payload, Toward, Work};
use option_eval::RuleSet;
use packet_decode::{Body, IpHead, ItemHead, ItemKind, SessionFacts};
use std::alloc::Global;
use std::process::Abort;
use std::test::Fail;
use std::thread::Threads;

/// By what jobs are answered.
#[derive(Clone, Copy)]
struct LaneRules<'a> {
    stream: &'a StreamConfig,
    set: &'a RuleSet<Literal>,
    groups: &'a Groups,
}

/// A configuration without engines.
fn stream_of(alloc: Global) -> StreamConfig
    ensures config { IsStreamConfig result }
    ensures engines { length result.engines ≡ 0 }
{
    StreamConfig {
        tcp: true,
        udp: true,
        max_tcp: 8,
        max_udp: 8,
        udp_timeout: 30,
        engines: Items::new(alloc),
    }
}

/// The end of a flow, which is sound whatever comes before it.
fn end_of_flow() -> Job<'static>
    ensures plain { IsPlain result }
    ensures number { result.number ≡ 0 }
{
    Job {
        number: 0,
        moment: Moment { nanos: 0 },
        work: Work::Finish { flow: 7 },
    }
}

/// A packet of a flow, of a protocol that has no sessions, which is sound after no job. All have one number.
fn unsound_packet(alloc: Global) -> Job<'static> {
    let toward = Toward {
        engine: 9,
        preference: Preference::First,
        needed: false,
    };
    Job {
        number: 0,
        moment: Moment { nanos: 0 },
        work: Work::Packet {
            flow: 7,
            head: ItemHead {
                kind: ItemKind::Packet,
                moment: Moment { nanos: 0 },
                ip: IpHead {
                    id: 7,
                    ..IpHead::between(Addr::V4(1), Addr::V4(2), 253)
                },
                body: Body::Other,
                session: SessionFacts::UNTRACKED,
            },
            payload: Payload::own(Text::from_vec(Vec::new(alloc))),
            to_dst: toward,
            to_src: toward,
        },
    }
}

/// The fault of the first batch of new lanes, if it has one.
fn first_fault<R: Threads + Sync>(
    rt: &R,
    alloc: Global,
    lanes: &mut Lanes,
    jobs: &[Job],
    course: LaneRules<'_>,
) -> Option<BatchFault>
    requires course { IsCourse lanes.old 0 }
    requires jobs { AreFrom 0 jobs.now }
    requires few { length jobs.now ≤ 1000 }
    requires engines { length course.stream.now.engines ≡ 0 }
    requires config { IsStreamConfig course.stream.now }
    requires groups { AreFor course.groups.now course.set.now.rules }
    requires triable { All IsTriable course.set.now.rules }
    ensures { IfSome result (λ fault. HasFailed lanes.new) }
{
    match lanes.batch(
        rt,
        alloc,
        jobs,
        course.stream,
        course.set,
        course.groups,
        &OpenGate,
    ) {
        Ok(_) => None,
        Err(fault) => Some(fault),
    }
}

/// The fault of a batch of lanes that have failed.
fn next_fault<R: Threads + Sync>(
    rt: &R,
    alloc: Global,
    lanes: &mut Lanes,
    jobs: &[Job],
    course: LaneRules<'_>,
) -> Option<BatchFault>
    requires failed { HasFailed lanes.old }
    requires config { IsStreamConfig course.stream.now }
    requires groups { AreFor course.groups.now course.set.now.rules }
    requires triable { All IsTriable course.set.now.rules }
    ensures { HasFailed lanes.new }
{
    lanes
        .batch(
            rt,
            alloc,
            jobs,
            course.stream,
            course.set,
            course.groups,
            &OpenGate,
        )
        .err()
}

/// Lanes that have failed answer `Failed` to a batch without jobs, and to one of jobs that are sound after no job and
/// have one number.
fn refuse_any<R: Abort + Threads + Sync>(
    rt: &R,
    alloc: Global,
    lanes: &mut Lanes,
    course: LaneRules<'_>,
)
    requires failed { HasFailed lanes.old }
    requires config { IsStreamConfig course.stream.now }
    requires groups { AreFor course.groups.now course.set.now.rules }
    requires triable { All IsTriable course.set.now.rules }
    ensures { HasFailed lanes.new }
{
    let none = next_fault(rt, alloc, lanes, &[], course);
    assert!(rt; none == Some(BatchFault::Failed));
    let packets = [unsound_packet(alloc), unsound_packet(alloc)];
    let full = next_fault(rt, alloc, lanes, &packets, course);
    assert!(rt; full == Some(BatchFault::Failed));
}

/// New lanes are given a sound batch. Where they lack memory for it, they answer `Failed` to any from then on.
#[tactic(auto, using(flow_lanes::proofs::Course::course_begins))]
fn compare_lanes<R: Abort + Threads + Sync>(
    rt: &R,
    alloc: Global,
    count: u32,
    course: LaneRules<'_>,
) -> Result<(), Fail>
    requires some { 1 ≤ count }
    requires few { count ≤ 64 }
    requires engines { length course.stream.now.engines ≡ 0 }
    requires config { IsStreamConfig course.stream.now }
    requires groups { AreFor course.groups.now course.set.now.rules }
    requires triable { All IsTriable course.set.now.rules }
{
    let mut lanes = Lanes::new(alloc, count, 4, false)?;
    let jobs = [end_of_flow()];
    if let Some(fault) = first_fault(rt, alloc, &mut lanes, &jobs, course) {
        assert!(rt; fault == BatchFault::NoMemory);
        refuse_any(rt, alloc, &mut lanes, course);
        refuse_any(rt, alloc, &mut lanes, course);
    }
    Ok(())
}

#[test]
fn failed_lanes_answer_failed(rt: HostRuntime) -> Result<(), Fail> {
    let alloc = rt.alloc();
    let stream = stream_of(alloc);
    let set: RuleSet<Literal> = RuleSet::new(alloc);
    let groups = Groups::build(alloc, set.rules())?;
    let course = LaneRules {
        stream: &stream,
        set: &set,
        groups: &groups,
    };
    compare_lanes(&rt, alloc, 1, course)?;
    compare_lanes(&rt, alloc, 2, course)?;
    Ok(())
}
