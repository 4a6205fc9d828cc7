//! Directions and extents worked out by hand. The rows are text, so that another one costs nothing to prove.
ghost use Rattle.std.specs.Prelude.{◌≤◌, ◌+◌, ◌*◌, ◌^◌};
ghost use Rattle.stream5_reassembly.specs.Segments.{passed};

use crate::overlaps::{preference_of, push_runs};
use edge_io::NoMemory;
use overlap_core::Run;
use row_files::{TextParts, cut};
use std::alloc::Global;
use std::process::Abort;
use std::test::Fail;
use stream5_reassembly::{Added, Direction, Extent, Limits};

/// Bytes of the window, segments, the flush point and preferences; calls, and after `=` what each gives. Runs are
/// their starts, counted from the base before, and their bytes. In order:
///
/// - a window of 1024 bytes and two segments
/// - acknowledgements that come early, far ahead and late
/// - a pattern over the wrap, with the limits of a snort.conf without settings, but the flush point 4
/// - that flush point
/// - what was flushed is compared: the first is kept, the last is kept
/// - the ends of the window round the wrap, and half of the numbers
/// - overlaps round the wrap. From the base 4294967290 on: "aaaa" at places 4 to 7, "bbbb" at 2 to 5, "cccc" at 6 to
///   9, where the number at place 6 is 0; then what begins ten places before the base, a gap at place 6, and a flush
///   up to place 8
const ROWS: &str = "\
1024 2 1024 first: ack 5=no, start 0=, add 0 a=Queued, add 1024 b=PastWindow, add 1023 c=Queued, add 5 d=TooManySegs, ack 4294967295=no, ack 5000=yes 0a 1023c, add 0 a=Old
1024 2 1 bsd: start 0=, ack 5=no, add 0 a=Queued, ack 9=yes 0a, ack 0=no, add 0 b=Old, add 1 c=Queued
1048576 2621 4 bsd: start 4294967294=, add 4294967294 at=Queued, add 0 tk=Queued, ack 2=yes 0attk
1048576 2621 4 bsd: start 1=, add 1 abc=Queued, ack 4=no, add 4 d=Queued, ack 5=yes 0abcd, ack 5=no, flush=, add 7 ef=Queued, add 5 g=Queued, stop=0g 2ef, stop=, flush=, ack 100=no
1048576 2621 4 first: start 1=, add 1 abcd=Queued, ack 5=yes 0abcd, add 3 XYZW=Queued, add 5 efgh=Queued, ack 9=yes 0ZWgh
1048576 2621 4 last: start 1=, add 1 abcd=Queued, ack 5=yes 0abcd, add 3 XYZW=Queued, add 5 efgh=Queued, ack 9=yes 0efgh
1024 9 1024 first: start 4294967290=, add 1017 ab=PastWindow, add 1017 a=Queued, add 4294967289 b=Old, add 4294967289 bc=Queued, add 2147483642 d=Old, add 2147483641 d=PastWindow, ack 2147483642=no, ack 2147483641=yes 0c 1023a, add 1017 a=Old, start 5=, flush=
1048576 2621 4 first windows solaris: start 4294967290=, add 4294967294 aaaa=Queued, add 4294967292 bbbb=Queued, add 0 cccc=Queued, flush=2bbaaaacc
1048576 2621 4 last: start 4294967290=, add 4294967294 aaaa=Queued, add 4294967292 bbbb=Queued, add 0 cccc=Queued, flush=2bbbbcccc
1048576 2621 4 bsd linux: start 4294967290=, add 4294967294 aaaa=Queued, add 4294967292 bbbb=Queued, add 0 cccc=Queued, flush=2bbbbaacc
1048576 2621 4 bsd-right: start 4294967290=, add 4294967294 aaaa=Queued, add 4294967292 bbbb=Queued, add 0 cccc=Queued, flush=2bbaacccc
1048576 2621 4 first windows solaris bsd linux: start 4294967290=, add 4294967280 0123456789=Old, add 4294967280 0123456789ab=Queued, add 4294967290 xyz=Queued, flush=0abz
1048576 2621 4 last bsd-right: start 4294967290=, add 4294967280 0123456789=Old, add 4294967280 0123456789ab=Queued, add 4294967290 xyz=Queued, flush=0xyz
1048576 2621 4 first last bsd bsd-right linux windows solaris: start 4294967290=, add 1 cd=Queued, add 4294967294 ab=Queued, ack 2=yes 4ab 7c, stop=0d
";

/// What a row has beside its direction: the text of an answer, and the runs that a call gives.
#[derive(Drop)]
struct RowAnswer {
    text: String,
    runs: Vec<Run>,
}

/// What the rows call what becomes of a segment.
fn added_word(added: Added) -> &'static str {
    match added {
        Added::Queued => "Queued",
        Added::Old => "Old",
        Added::PastWindow => "PastWindow",
        Added::TooManySegs => "TooManySegs",
    }
}

/// Begins at a number.
fn start(direction: &mut Direction, seq: u32) -> Result<(), NoMemory>
    ensures { passed direction.new ≤ passed direction.old }
{
    direction.start(seq);
    Ok(())
}

/// Adds a segment, `SEQ BYTES`: what becomes of it.
fn add(
    direction: &mut Direction,
    parts: &mut TextParts<'_>,
    text: &mut String,
) -> Result<(), NoMemory>
    requires { passed direction.old ≤ 2 ^ 62 }
    ensures { passed direction.new ≤ passed direction.old }
{
    let seq = parts.number();
    let bytes = parts.left().as_bytes();
    if !direction.started() || bytes.is_empty() {
        parts.refuse();
        return Ok(());
    }
    let added = direction.add(seq, bytes)?;
    text.push_str(added_word(added))?;
    Ok(())
}

/// Acknowledges bytes: whether they are flushed, and the runs.
fn ack(
    alloc: Global,
    direction: &mut Direction,
    acked: u32,
    given: &mut RowAnswer,
) -> Result<(), NoMemory>
    requires { passed direction.old ≤ 2 ^ 62 }
    ensures { passed direction.new ≤ passed direction.old + 2 ^ 30 }
{
    let flushed = direction.ack(alloc, acked, &mut given.runs)?;
    given.text.push_str(if flushed { "yes " } else { "no" })?;
    Ok(())
}

/// What a call gives.
fn answer(
    alloc: Global,
    direction: &mut Direction,
    name: &str,
    parts: &mut TextParts<'_>,
    given: &mut RowAnswer,
) -> Result<(), NoMemory>
    requires { passed direction.old ≤ 2 ^ 62 }
    ensures { passed direction.new ≤ passed direction.old + 2 ^ 30 }
{
    match name {
        "start" => start(direction, parts.number()),
        "add" => add(direction, parts, &mut given.text),
        "ack" => ack(alloc, direction, parts.number(), given),
        "flush" => direction.flush_all(alloc, &mut given.runs),
        "stop" => direction.stop(alloc, &mut given.runs),
        _ => {
            parts.refuse();
            Ok(())
        }
    }
}

/// Makes a call, and compares its answer.
fn check_call(
    rt: &impl Abort,
    alloc: Global,
    direction: &mut Direction,
    step: &str,
    given: &mut RowAnswer,
) -> Result<(), NoMemory>
    requires { passed direction.old ≤ 2 ^ 62 }
    ensures { passed direction.new ≤ passed direction.old + 2 ^ 30 }
{
    let (call, want) = cut(step, '=');
    let (name, parts) = cut(call, ' ');
    let mut parts = TextParts::of(parts, ' ');
    given.text.clear();
    given.runs.clear();
    answer(alloc, direction, name, &mut parts, given)?;
    push_runs(&mut given.text, &given.runs)?;
    assert!(rt;
        !parts.is_wrong() && given.text.trim_end() == want,
        "{step}"
    );
    Ok(())
}

/// Makes the calls of a row, at most a hundred.
fn check_calls(
    rt: &impl Abort,
    alloc: Global,
    direction: &mut Direction,
    calls: &str,
    given: &mut RowAnswer,
) -> Result<(), NoMemory>
    requires { passed direction.old ≤ 0 }
{
    let mut done = 0u64;
    for step in calls.split(", ") {
        assert!(rt; done < 100);
        check_call(rt, alloc, direction, step, given)?;
        done += 1;
    }
    Ok(())
}

/// Makes the calls of a row with a new direction of this preference.
fn check_with(
    rt: &impl Abort,
    alloc: Global,
    limits: Limits,
    name: &str,
    calls: &str,
) -> Result<(), NoMemory>
    requires bytes { 1024 ≤ limits.bytes }
    requires most { limits.bytes ≤ 2 ^ 30 }
    requires segs { 2 ≤ limits.segs }
    requires flush { 1 ≤ limits.flush }
{
    let mut given = RowAnswer {
        text: String::new(alloc),
        runs: Vec::new(alloc),
    };
    let mut direction = Direction::new(alloc, limits, preference_of(name));
    check_calls(rt, alloc, &mut direction, calls, &mut given)
}

/// Makes the calls of a row with each of its preferences.
fn check_row(rt: &impl Abort, alloc: Global, row: &str) -> Result<(), NoMemory> {
    let (head, calls) = row.split_once(": ").unwrap_or((row, ""));
    let mut head = TextParts::of(head, ' ');
    let limits = Limits {
        bytes: head.number(),
        segs: head.number(),
        flush: head.number(),
    };
    assert!(rt; 1024 <= limits.bytes && limits.bytes <= 1 << 30);
    assert!(rt; 2 <= limits.segs && 1 <= limits.flush && !head.is_wrong());
    for name in head.left().split(' ') {
        check_with(rt, alloc, limits, name, calls)?;
    }
    Ok(())
}

#[test]
fn directions_by_rows(rt: HostRuntime) -> Result<(), Fail> {
    for row in ROWS.lines() {
        check_row(&rt, rt.alloc(), row)?;
    }
    Ok(())
}

/// The start of an extent or `-`, the number and the length of what is noted, and the size after it.
const EXTENTS: &str = "- 7 3 3
1 1 3 3
4 1 3 0
1 10 2 11
4294967290 4294967290 10 10
4294967290 4294967280 10 0
0 2147483646 1 2147483647
0 2147483647 1 0
";

/// Compares the size of an extent after a note.
fn check_extent(rt: &impl Abort, row: &str) {
    let (begin, numbers) = cut(row, ' ');
    let mut extent = Extent::new();
    if begin != "-" {
        extent.start(TextParts::of(begin, ' ').number());
    }
    let mut numbers = TextParts::of(numbers, ' ');
    let (seq, len) = (numbers.number(), numbers.number());
    assert!(rt; 1 <= len && len <= 65535 && extent.size() == 0);
    extent.note(seq, len);
    assert!(rt;
        extent.size() == numbers.long() && numbers.is_read(),
        "{row}"
    );
}

#[test]
fn extents_by_rows(rt: HostRuntime) {
    for row in EXTENTS.lines() {
        check_extent(&rt, row);
    }
}
