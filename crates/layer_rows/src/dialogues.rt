//! Dialogues of one flow, job by job: the call of a lane.

ghost use Rattle.std.specs.Prelude.{◌≡◌, ◌+◌, ◌<◌, ◌≤◌, ◌^◌, All, IfSome, IsTrue, length};
ghost use Rattle.conf_types.specs.Sound.{IsStreamConfig};
ghost use Rattle.fast_pattern.specs.Grouping.{AreFor};
ghost use Rattle.rule_types.specs.Sound.{IsTriable};
ghost use Rattle.layer_rows.specs.Dialogue.{IsDialogue, IsTurnHead, IsTurnJob, tcp_head};

use crate::course::{JobRules, show_items, stream_of};
use crate::flags::flags_of;
use crate::page::Page;
use edge_io::{Addr, Literal, Moment, NoMemory, Preference};
use fast_pattern::Groups;
use flow_lanes::{Job, Lane, Payload, Toward, Work};
use option_eval::RuleSet;
use packet_decode::{Body, IpHead, ItemHead, ItemKind, SessionFacts, TcpHead};
use row_files::TextParts;

/// How a dialogue goes on.
#[derive(Clone, Copy)]
struct Manner {
    flush: u32,
    /// Whether queued packets are items.
    inserts: bool,
    /// Which of two segments an end keeps.
    preference: Preference,
    /// Whether a handshake is needed.
    needed: bool,
}

/// Which of two segments an end keeps.
fn preference_of(word: &str) -> Preference {
    if word == "last" {
        Preference::Last
    } else {
        Preference::First
    }
}

/// What `FLUSH INSERTS PREFERENCE NEEDED` says.
fn manner_of(text: &str) -> Option<Manner> {
    let mut words = TextParts::of(text, ' ');
    let manner = Manner {
        flush: words.number(),
        inserts: words.word() == "inserts",
        preference: preference_of(words.word()),
        needed: words.word() == "handshake",
    };
    if words.is_read() { Some(manner) } else { None }
}

/// What a packet of TCP has between its ends.
#[derive(Clone, Copy)]
struct Numbers {
    flags: u8,
    seq: u32,
    ack: u32,
}

/// The head of a packet of TCP from one end to another.
fn tcp_head(src: u32, sport: u16, dst: u32, dport: u16, numbers: Numbers) -> ItemHead
    ensures { result ≡ tcp_head src sport dst dport numbers.flags numbers.seq numbers.ack }
{
    ItemHead {
        kind: ItemKind::Packet,
        moment: Moment { nanos: 0 },
        ip: IpHead {
            id: 7,
            ..IpHead::between(Addr::V4(src), Addr::V4(dst), 6)
        },
        body: Body::Tcp(TcpHead {
            sport,
            dport,
            seq: numbers.seq,
            ack: numbers.ack,
            flags: numbers.flags,
            window: 0,
        }),
        session: SessionFacts::UNTRACKED,
    }
}

/// The head of a packet of the client, or of the server.
fn turn_head(of_client: bool, numbers: Numbers) -> ItemHead
    ensures { IsTurnHead result }
{
    if of_client {
        tcp_head(1, 1000, 2, 80, numbers)
    } else {
        tcp_head(2, 80, 1, 1000, numbers)
    }
}

/// A packet of the dialogue.
fn turn(head: ItemHead, payload: Payload<'_>, manner: Manner) -> Job<'_>
    requires head { IsTurnHead head }
    requires size { length payload ≤ 1000 }
    ensures { IsTurnJob manner.preference result }
{
    let toward = Toward {
        engine: 0,
        preference: manner.preference,
        needed: manner.needed,
    };
    Job {
        number: 0,
        moment: Moment { nanos: 0 },
        work: Work::Packet {
            flow: 0,
            head,
            payload,
            to_dst: toward,
            to_src: toward,
        },
    }
}

/// What `SENDER:FLAGS:SEQ:ACK:DATA` says: whether the client sends it, its numbers and its data.
fn spoken(step: &str) -> Option<(bool, Numbers, &str)> {
    let mut parts = TextParts::of(step, ':');
    let is_of_client = parts.word() == "C";
    let numbers = Numbers {
        flags: flags_of(parts.word()),
        seq: parts.number(),
        ack: parts.number(),
    };
    if parts.is_wrong() {
        None
    } else {
        Some((is_of_client, numbers, parts.left()))
    }
}

/// The job of a step: a packet, or `end` for the end of the flow.
fn job_of(step: &str, manner: Manner) -> Option<Job<'_>>
    ensures { IfSome result (IsTurnJob manner.preference) }
{
    if step == "end" {
        return Some(Job {
            number: 0,
            moment: Moment { nanos: 0 },
            work: Work::Finish { flow: 0 },
        });
    }
    let (of_client, numbers, data) = spoken(step)?;
    if data.len() > 1000 {
        return None;
    }
    let payload = Payload::lent(data.as_bytes());
    Some(turn(turn_head(of_client, numbers), payload, manner))
}

/// Runs a job of a dialogue, and shows its items; whether it goes on.
fn run_job(
    page: &mut Page,
    lane: &mut Lane,
    manner: Manner,
    done: u64,
    job: &Job,
    course: JobRules<'_>,
) -> bool
    requires dialogue { IsDialogue manner.preference lane.old done }
    requires turn { IsTurnJob manner.preference job.now }
    requires room { done < 2 ^ 32 }
    requires config { IsStreamConfig course.stream.now }
    requires groups { AreFor course.groups.now course.set.now.rules }
    requires triable { All IsTriable course.set.now.rules }
    ensures { IsTrue result → IsDialogue manner.preference lane.new (done + 1) }
{
    match lane.job(page.alloc, job, course.stream, course.set, course.groups) {
        Ok(out) => {
            show_items(page, out.hits.items.as_slice());
            true
        }
        Err(NoMemory) => false,
    }
}

/// Runs the job of a step; whether the dialogue goes on.
fn run_step(
    page: &mut Page,
    lane: &mut Lane,
    manner: Manner,
    done: u64,
    step: &str,
    course: JobRules<'_>,
) -> bool
    requires dialogue { IsDialogue manner.preference lane.old done }
    requires room { done < 2 ^ 32 }
    requires config { IsStreamConfig course.stream.now }
    requires groups { AreFor course.groups.now course.set.now.rules }
    requires triable { All IsTriable course.set.now.rules }
    ensures { IsTrue result → IsDialogue manner.preference lane.new (done + 1) }
{
    match job_of(step, manner) {
        Some(job) => run_job(page, lane, manner, done, &job, course),
        None => false,
    }
}

/// Runs the steps, at most a thousand.
fn run_steps(page: &mut Page, lane: &mut Lane, manner: Manner, steps: &str, course: JobRules<'_>)
    requires dialogue { IsDialogue manner.preference lane.old 0 }
    requires config { IsStreamConfig course.stream.now }
    requires groups { AreFor course.groups.now course.set.now.rules }
    requires triable { All IsTriable course.set.now.rules }
{
    let mut done = 0u64;
    for step in steps.lines() {
        if done >= 1000 || !run_step(page, lane, manner, done, step, course) {
            return page.put("broken off\n");
        }
        done += 1;
    }
}

/// Shows the items of the steps, in a new lane.
fn run_in_lane(page: &mut Page, manner: Manner, steps: &str, course: JobRules<'_>)
    requires flush { 1 ≤ manner.flush }
    requires flush_most { manner.flush ≤ 65536 }
    requires config { IsStreamConfig course.stream.now }
    requires groups { AreFor course.groups.now course.set.now.rules }
    requires triable { All IsTriable course.set.now.rules }
{
    let mut lane = Lane::new(page.alloc, manner.flush, manner.inserts);
    run_steps(page, &mut lane, manner, steps, course);
}

/// Shows the items of the steps, with these rules in groups.
fn run_grouped(
    page: &mut Page,
    set: &RuleSet<Literal>,
    groups: &Groups,
    manner: Manner,
    steps: &str,
)
    requires flush { 1 ≤ manner.flush }
    requires flush_most { manner.flush ≤ 65536 }
    requires groups { AreFor groups.now set.now.rules }
    requires triable { All IsTriable set.now.rules }
{
    let stream = stream_of(page.alloc, true);
    let course = JobRules {
        stream: &stream,
        set,
        groups,
    };
    run_in_lane(page, manner, steps, course);
}

/// Shows the items of the steps, with these rules.
fn show_dialogue(page: &mut Page, set: &RuleSet<Literal>, manner: Manner, steps: &str)
    requires { All IsTriable set.now.rules }
{
    if set.rules().len() > 65_536 || manner.flush == 0 || manner.flush > 65_536 {
        return page.put("out of bounds");
    }
    match Groups::build(page.alloc, set.rules()) {
        Ok(groups) => run_grouped(page, set, &groups, manner, steps),
        Err(NoMemory) => page.lacks_memory = true,
    }
}

/// `dialogue FLUSH INSERTS PREFERENCE NEEDED`: of each step, a packet or the end of the flow, the items, with the places
/// of the rules that match them.
pub(crate) fn dialogue(page: &mut Page, set: &RuleSet<Literal>, steps: &str, given: &str)
    requires { All IsTriable set.now.rules }
{
    match manner_of(given) {
        Some(manner) => show_dialogue(page, set, manner, steps),
        None => page.put("not a manner"),
    }
}
