//! Jobs in batches, in any number of lanes: the call of lanes.
//!
//! The jobs are packets of UDP. Their payloads are long, so that a batch of several is worth threads.

ghost use Rattle.std.specs.Prelude.{◌≡◌, ◌+◌, ◌<◌, ◌≤◌, ◌^◌, All, IfSome, length};
ghost use Rattle.conf_types.specs.Sound.{IsStreamConfig};
ghost use Rattle.fast_pattern.specs.Grouping.{AreFor};
ghost use Rattle.rule_types.specs.Sound.{IsTriable};
ghost use Rattle.flow_lanes.specs.Course.{AreFrom, IsCourse, IsPlain};

use crate::course::{JobRules, show_places, stream_of};
use crate::page::Page;
use edge_io::{Addr, Literal, Moment, NoMemory, OpenGate, Preference, Text};
use fast_pattern::Groups;
use flow_lanes::{BatchOut, Job, Lanes, Payload, Toward, Work};
use option_eval::RuleSet;
use packet_decode::{Body, IpHead, ItemHead, ItemKind, SessionFacts};
use row_files::TextParts;
use std::thread::Threads;

/// Bytes that no rule looks for, before the letters of a packet.
const LEAD: &str = "20000";

/// A packet of a flow from 0.0.0.1 to 0.0.0.2.
fn packet(number: u64, flow: u64, payload: Payload<'_>) -> Job<'_>
    requires { length payload ≤ 65535 }
    ensures plain { IsPlain result }
    ensures number { result.number ≡ number }
{
    let toward = Toward {
        engine: 0,
        preference: Preference::First,
        needed: false,
    };
    Job {
        number,
        moment: Moment { nanos: 0 },
        work: Work::Packet {
            flow,
            head: ItemHead {
                kind: ItemKind::Packet,
                moment: Moment { nanos: 0 },
                ip: IpHead {
                    id: 7,
                    ..IpHead::between(Addr::V4(1), Addr::V4(2), 17)
                },
                body: Body::Udp {
                    sport: 1000,
                    dport: 2000,
                },
                session: SessionFacts::UNTRACKED,
            },
            payload,
            to_dst: toward,
            to_src: toward,
        },
    }
}

/// The bytes of a packet: many that no rule looks for, and then these letters.
fn payload_of(page: &mut Page, letters: &str) -> Text {
    let mut bytes = page.repeated("x", LEAD);
    page.note(bytes.push_str(letters));
    Text::from_vec(bytes.into_bytes())
}

/// Adds the job of a word, a flow and its letters, to those that are numbered from here on; false where there is none.
fn add_job(page: &mut Page, first: u64, word: &str, jobs: &mut Vec<Job<'_>>) -> bool
    requires { first < 2 ^ 20 }
    ensures { AreFrom first jobs.old.items → AreFrom first jobs.new.items }
{
    let mut parts = TextParts::of(word, ':');
    let flow = parts.long();
    let payload = payload_of(page, parts.left());
    if parts.is_wrong() || payload.bytes().len() > 65_535 || jobs.len() >= 1000 {
        return false;
    }
    let number = first + jobs.len() as u64;
    let job = packet(number, flow, Payload::own(payload));
    match jobs.push(job) {
        Ok(()) => true,
        Err(_) => false,
    }
}

/// The jobs of a batch, numbered from here on.
fn batch_of<'a>(page: &mut Page, first: u64, words: &str) -> Vec<Job<'a>>
    requires { first < 2 ^ 20 }
    ensures { AreFrom first result.items }
{
    let mut jobs = Vec::new(page.alloc);
    for word in words.split_whitespace() {
        if !add_job(page, first, word, &mut jobs) {
            page.put("(no job) ");
        }
    }
    jobs
}

/// Shows the answers of a batch.
fn show_batch(page: &mut Page, out: &BatchOut) {
    for entry in out.hits.as_slice() {
        page.show(entry.number);
        for hits in entry.items.as_slice() {
            show_places(page, hits);
        }
        page.put(" ");
    }
}

/// How far a course has come: how many jobs, and how many candidates they had.
#[derive(Clone, Copy)]
struct BatchProgress {
    jobs: u64,
    tries: u128,
}

/// Runs a batch after what was run before, and shows its answers; none where memory is lacking.
fn run_batch<R: Threads + Sync>(
    rt: &R,
    page: &mut Page,
    lanes: &mut Lanes,
    progress: BatchProgress,
    jobs: &[Job],
    course: JobRules<'_>,
) -> Option<BatchProgress>
    requires course { IsCourse lanes.old progress.jobs }
    requires jobs { AreFrom progress.jobs jobs.now }
    requires begun { progress.jobs < 1000 }
    requires engines { length course.stream.now.engines ≡ 0 }
    requires config { IsStreamConfig course.stream.now }
    requires groups { AreFor course.groups.now course.set.now.rules }
    requires triable { All IsTriable course.set.now.rules }
    ensures { IfSome result (λ progress. IsCourse lanes.new progress.jobs) }
{
    if jobs.len() > 1000 {
        return None;
    }
    match lanes.batch(
        rt,
        page.alloc,
        jobs,
        course.stream,
        course.set,
        course.groups,
        &OpenGate,
    ) {
        Ok(out) => {
            show_batch(page, &out);
            Some(BatchProgress {
                jobs: progress.jobs + jobs.len() as u64,
                tries: progress.tries.saturating_add(out.tries),
            })
        }
        Err(_) => None,
    }
}

/// Runs the jobs of some words as a batch.
fn run_words<R: Threads + Sync>(
    rt: &R,
    page: &mut Page,
    lanes: &mut Lanes,
    progress: BatchProgress,
    words: &str,
    course: JobRules<'_>,
) -> Option<BatchProgress>
    requires course { IsCourse lanes.old progress.jobs }
    requires engines { length course.stream.now.engines ≡ 0 }
    requires config { IsStreamConfig course.stream.now }
    requires groups { AreFor course.groups.now course.set.now.rules }
    requires triable { All IsTriable course.set.now.rules }
    ensures { IfSome result (λ progress. IsCourse lanes.new progress.jobs) }
{
    if progress.jobs >= 1000 {
        return None;
    }
    let jobs = batch_of(page, progress.jobs, words);
    run_batch(rt, page, lanes, progress, jobs.as_slice(), course)
}

/// Runs batches with `|` between them, and shows how many candidates there were.
fn run_batches<R: Threads + Sync>(
    rt: &R,
    page: &mut Page,
    lanes: &mut Lanes,
    batches: &str,
    course: JobRules<'_>,
)
    requires course { IsCourse lanes.old 0 }
    requires engines { length course.stream.now.engines ≡ 0 }
    requires config { IsStreamConfig course.stream.now }
    requires groups { AreFor course.groups.now course.set.now.rules }
    requires triable { All IsTriable course.set.now.rules }
{
    let mut progress = BatchProgress { jobs: 0, tries: 0 };
    for words in batches.split('|') {
        let Some(after) = run_words(rt, page, lanes, progress, words, course) else {
            return page.put("broken off");
        };
        progress = after;
    }
    page.show(format_args!("tries {}", progress.tries));
}

/// Shows the answers to batches, in this many new lanes.
#[tactic(auto, using(flow_lanes::proofs::Course::course_begins))]
fn run_in_lanes<R: Threads + Sync>(
    rt: &R,
    page: &mut Page,
    count: u32,
    batches: &str,
    course: JobRules<'_>,
)
    requires some { 1 ≤ count }
    requires few { count ≤ 64 }
    requires engines { length course.stream.now.engines ≡ 0 }
    requires config { IsStreamConfig course.stream.now }
    requires groups { AreFor course.groups.now course.set.now.rules }
    requires triable { All IsTriable course.set.now.rules }
{
    match Lanes::new(page.alloc, count, 4, false) {
        Ok(mut lanes) => run_batches(rt, page, &mut lanes, batches, course),
        Err(NoMemory) => page.lacks_memory = true,
    }
}

/// Shows the answers to batches with these rules in groups.
fn run_grouped<R: Threads + Sync>(
    rt: &R,
    page: &mut Page,
    set: &RuleSet<Literal>,
    groups: &Groups,
    count: u32,
    batches: &str,
)
    requires some { 1 ≤ count }
    requires few { count ≤ 64 }
    requires groups { AreFor groups.now set.now.rules }
    requires triable { All IsTriable set.now.rules }
{
    let stream = stream_of(page.alloc, false);
    let course = JobRules {
        stream: &stream,
        set,
        groups,
    };
    run_in_lanes(rt, page, count, batches, course);
}

/// Shows the answers to batches with these rules, in this many new lanes.
fn show_batches<R: Threads + Sync>(
    rt: &R,
    page: &mut Page,
    set: &RuleSet<Literal>,
    count: u32,
    batches: &str,
)
    requires { All IsTriable set.now.rules }
{
    if set.rules().len() > 65_536 || count == 0 || count > 64 {
        return page.put("out of bounds");
    }
    match Groups::build(page.alloc, set.rules()) {
        Ok(groups) => run_grouped(rt, page, set, &groups, count, batches),
        Err(NoMemory) => page.lacks_memory = true,
    }
}

/// `batches LANES BATCHES`: of each job its number and the places of the rules that match its items, and how many
/// candidates there were.
pub(crate) fn batches<R: Threads + Sync>(
    rt: &R,
    page: &mut Page,
    set: &RuleSet<Literal>,
    given: &str,
)
    requires { All IsTriable set.now.rules }
{
    let mut given = TextParts::of(given, ' ');
    let count = given.number();
    show_batches(rt, page, set, count, given.left());
}
