//! The overlap table worked out by hand, and each call once. The rows are text, so that another one costs nothing
//! to prove.
ghost use Rattle.std.specs.Prelude.{◌≤◌, ◌^◌};

use edge_io::{NoMemory, Preference, Text};
use overlap_core::{Bounds, Piece, Queue, Run, wins};
use std::alloc::Global;
use std::process::Abort;
use std::test::Fail;

/// Preferences, segments in their order, each as the place of its first byte and its bytes, and the bytes that
/// they leave from place 0 on, a dot for a place without a byte.
const ROWS: &str = "last bsd linux: 4aaaa 2bbbb: ..bbbbaa..
first bsd-right windows solaris: 4aaaa 2bbbb: ..bbaaaa..
last bsd linux solaris: 4aaaa 2bbbbbb: ..bbbbbb..
first bsd-right windows: 4aaaa 2bbbbbb: ..bbaaaa..
last bsd linux windows solaris: 4aaaa 2bbbbbbbb: ..bbbbbbbb
first bsd-right: 4aaaa 2bbbbbbbb: ..bbaaaabb
last bsd-right linux: 4aaaa 4bbbb: ....bbbb..
first bsd windows solaris: 4aaaa 4bbbb: ....aaaa..
last bsd-right linux: 4aaaa 4bbbbbb: ....bbbbbb
first bsd windows solaris: 4aaaa 4bbbbbb: ....aaaabb
last bsd-right linux: 4aaaa 4bb: ....bbaa..
first bsd windows solaris: 4aaaa 4bb: ....aaaa..
last bsd-right: 4aaaa 5bb: ....abba..
first bsd linux windows solaris: 4aaaa 5bb: ....aaaa..
last bsd-right: 4aaaa 5bbb: ....abbb..
first bsd linux windows solaris: 4aaaa 5bbb: ....aaaa..
last bsd-right: 4aaaa 6bbbb: ....aabbbb
first bsd linux windows solaris: 4aaaa 6bbbb: ....aaaabb
first: 2aaaa 4bbbb 3ccccccc: ..aaaabbcc
last: 2aaaa 4bbbb 3ccccccc: ..accccccc
bsd linux windows solaris: 2aaaa 4bbbb 3ccccccc: ..aaaacccc
bsd-right: 2aaaa 4bbbb 3ccccccc: ..acbbbbcc
first bsd-right windows: 4aaaa 2bbbbbb 0cccccc: ccbbaaaa
last bsd linux: 4aaaa 2bbbbbb 0cccccc: ccccccbb
solaris: 4aaaa 2bbbbbb 0cccccc: ccbbbbbb
first bsd windows solaris: 0aaaa 2bbbb 0cccc: aaaabb
last linux: 0aaaa 2bbbb 0cccc: ccccbb
bsd-right: 0aaaa 2bbbb 0cccc: ccbbbb
first bsd windows solaris: 0WWWWWWWW 8XXXXXXXX 8YYYYYYYYYYYYYYYYYYYYYYYY 8ZZZZZZZZZZZZZZZZZZZZZZZZ: WWWWWWWWXXXXXXXXYYYYYYYYYYYYYYYY
last bsd-right linux: 0WWWWWWWW 8XXXXXXXX 8YYYYYYYYYYYYYYYYYYYYYYYY 8ZZZZZZZZZZZZZZZZZZZZZZZZ: WWWWWWWWZZZZZZZZZZZZZZZZZZZZZZZZ
";

/// The preference of a name; `first` is that of any other.
pub(crate) fn preference_of(name: &str) -> Preference {
    match name {
        "last" => Preference::Last,
        "bsd" => Preference::Bsd,
        "bsd-right" => Preference::BsdRight,
        "linux" => Preference::Linux,
        "windows" => Preference::Windows,
        "solaris" => Preference::Solaris,
        _ => Preference::First,
    }
}

/// Adds a segment: the place of its first byte, a digit, and its bytes.
fn insert(rt: &impl Abort, queue: &mut Queue, word: &str) -> Result<(), NoMemory> {
    let bytes = word.as_bytes();
    assert!(rt; 1 < bytes.len() && b'0' <= bytes[0] && bytes[0] <= b'9');
    queue.insert(u64::from(bytes[0] - b'0'), &bytes[1..])
}

/// Adds segments.
fn insert_all(rt: &impl Abort, queue: &mut Queue, segments: &str) -> Result<(), NoMemory> {
    for word in segments.split(' ') {
        insert(rt, queue, word)?;
    }
    Ok(())
}

/// Writes `count` bytes of the queue, from place 0 on, a dot for a place without a byte.
fn push_kept(queue: &Queue, count: u64, kept: &mut Vec<u8>) -> Result<(), NoMemory> {
    for place in 0..count {
        kept.push(queue.byte(place).unwrap_or(b'.'))?;
    }
    Ok(())
}

/// Compares what a queue has from place 0 on.
fn check_bytes(rt: &impl Abort, alloc: Global, queue: &Queue, want: &str) -> Result<(), NoMemory> {
    let mut kept = Vec::new(alloc);
    push_kept(queue, want.len() as u64, &mut kept)?;
    assert!(rt; kept.as_slice() == want.as_bytes(), "{want}");
    Ok(())
}

/// Compares what the segments of a row leave under a preference.
fn check_kept(
    rt: &impl Abort,
    alloc: Global,
    name: &str,
    segments: &str,
    want: &str,
) -> Result<(), NoMemory> {
    let mut queue = Queue::new(alloc, preference_of(name), 0);
    insert_all(rt, &mut queue, segments)?;
    check_bytes(rt, alloc, &queue, want)
}

/// Compares what the segments of a row leave under each of its preferences.
fn check_row(rt: &impl Abort, alloc: Global, row: &str) -> Result<(), NoMemory> {
    let (names, rest) = row.split_once(": ").unwrap_or((row, ""));
    let (segments, want) = rest.split_once(": ").unwrap_or((rest, ""));
    for name in names.split(' ') {
        check_kept(rt, alloc, name, segments, want)?;
    }
    Ok(())
}

#[test]
fn segments_by_the_table(rt: HostRuntime) -> Result<(), Fail> {
    for row in ROWS.lines() {
        check_row(&rt, rt.alloc(), row)?;
    }
    Ok(())
}

/// Adds three segments to a queue with the floor 1.
fn fill_small(queue: &mut Queue) -> Result<(), NoMemory> {
    queue.reserve(0, 2)?;
    queue.insert_reserved(0, b"ab");
    queue.insert(5, b"e")?;
    queue.insert(2, b"cd")
}

/// The bytes as text.
fn shown(bytes: &[u8]) -> &str {
    str::from_utf8(bytes).unwrap_or("no text")
}

/// Whether a queue is filled from its floor on with just these bytes.
fn is_filled(rt: &impl Abort, queue: &Queue, want: &[u8; 6]) -> bool {
    let mut bytes = [0; 6];
    assert!(rt; queue.floor() < 100);
    queue.fill(&mut bytes) && bytes == *want
}

/// Compares what a small queue gives: three bytes from its floor on can be had, and four can't.
fn check_small(rt: &impl Abort, queue: &Queue) {
    let (mut three, mut four) = ([0; 3], [0; 4]);
    assert!(rt; queue.floor() == 1 && queue.covered_end() == 6);
    assert!(rt; queue.fill(&mut three) && three == *b"bcd" && !queue.fill(&mut four));
}

#[test]
fn queues_give_bytes(rt: HostRuntime) -> Result<(), Fail> {
    let (old, new) = (Bounds { start: 4, end: 8 }, Bounds { start: 2, end: 8 });
    assert!(rt; wins(Preference::Solaris, old, new) && !wins(Preference::Windows, old, new));
    let mut queue = Queue::new(rt.alloc(), Preference::Last, 1);
    fill_small(&mut queue)?;
    check_small(&rt, &queue);
    check_bytes(&rt, rt.alloc(), &queue, ".bcd.e")?;
    Ok(())
}

/// Writes a number.
fn push_place(text: &mut String, place: u64) -> Result<(), NoMemory> {
    if write!(text, "{place}").is_err() {
        return Err(NoMemory);
    }
    Ok(())
}

/// Writes the first places and the bytes of runs.
pub(crate) fn push_runs(text: &mut String, runs: &[Run]) -> Result<(), NoMemory> {
    for run in runs {
        push_place(text, run.start)?;
        text.push_str(shown(run.bytes.bytes()))?;
        text.push_str(" ")?;
    }
    Ok(())
}

/// Takes the runs below a place, and compares what is kept after them of the first six places.
fn check_after(
    rt: &impl Abort,
    alloc: Global,
    queue: &mut Queue,
    below: u64,
    runs: &mut Vec<Run>,
    want: &str,
) -> Result<(), NoMemory> {
    assert!(rt; queue.floor() <= below);
    queue.take_runs(alloc, below, runs)?;
    check_bytes(rt, alloc, queue, want)
}

/// Takes all of a small queue in two steps, after a run that was there before.
fn check_taken(
    rt: &impl Abort,
    alloc: Global,
    queue: &mut Queue,
    runs: &mut Vec<Run>,
    text: &mut String,
) -> Result<(), NoMemory> {
    fill_small(queue)?;
    runs.push(Run {
        start: 9,
        bytes: Text::copy(alloc, b"z")?,
    })?;
    check_after(rt, alloc, queue, 3, runs, "...d.e")?;
    check_after(rt, alloc, queue, 9, runs, "......")?;
    assert!(rt; queue.floor() == 9 && queue.covered_end() == 9);
    push_runs(text, runs.as_slice())?;
    assert!(rt; text.as_str() == "9z 1bc 3d 5e ");
    Ok(())
}

#[test]
fn queues_give_runs(rt: HostRuntime) -> Result<(), Fail> {
    let alloc = rt.alloc();
    let mut queue = Queue::new(alloc, Preference::Last, 1);
    let mut runs = Vec::new(alloc);
    let mut text = String::new(alloc);
    check_taken(&rt, alloc, &mut queue, &mut runs, &mut text)?;
    Ok(())
}

/// Writes each place of a piece, with the whole bounds of the segment that its byte came in.
fn push_whole(text: &mut String, piece: &Piece) -> Result<(), NoMemory> {
    let Bounds { start, end } = piece.whole();
    for (place, _byte) in piece.bytes().iter().enumerate() {
        let place = piece.start().saturating_add(place as u64);
        if write!(text, "{place}:{start}-{end} ").is_err() {
            return Err(NoMemory);
        }
    }
    Ok(())
}

/// Compares the whole bounds of all pieces.
fn check_whole(rt: &impl Abort, queue: &Queue, text: &mut String) -> Result<(), NoMemory> {
    for piece in queue.pieces().iter() {
        push_whole(text, piece)?;
    }
    assert!(rt; text.as_str() == "0:0-4 1:0-4 2:0-4 3:0-4 4:2-6 5:2-6 ");
    Ok(())
}

/// Compares what a queue of three segments is filled with under a preference, and the bounds of its pieces.
fn check_pieces(
    rt: &impl Abort,
    alloc: Global,
    preference: Preference,
    want: &[u8; 6],
) -> Result<(), NoMemory> {
    let mut queue = Queue::new(alloc, preference, 0);
    let mut text = String::new(alloc);
    insert_all(rt, &mut queue, "0aaaa 2bbbb 0cccc")?;
    assert!(rt; is_filled(rt, &queue, want));
    check_whole(rt, &queue, &mut text)
}

/// Pieces keep the whole bounds of the segment that is kept, under either preference.
#[test]
fn pieces_keep_whole_bounds(rt: HostRuntime) -> Result<(), Fail> {
    check_pieces(&rt, rt.alloc(), Preference::Linux, b"ccccbb")?;
    check_pieces(&rt, rt.alloc(), Preference::Bsd, b"aaaabb")?;
    Ok(())
}

/// Adds `count` segments of four bytes, in order.
fn insert_in_order(queue: &mut Queue, count: u64) -> Result<(), NoMemory>
    requires { count ≤ 2 ^ 32 }
{
    for number in 0..count {
        queue.insert(number * 4, b"abcd")?;
    }
    Ok(())
}

/// Takes the runs below ten places, in order.
fn take_in_order(alloc: Global, queue: &mut Queue, runs: &mut Vec<Run>) -> Result<(), NoMemory> {
    for number in 0..10u64 {
        let below = (number + 1) * 40_000;
        if queue.floor() <= below {
            queue.take_runs(alloc, below, runs)?;
        }
    }
    Ok(())
}

/// How many bytes runs have.
fn bytes_in(runs: &[Run]) -> usize {
    let mut total = 0usize;
    for run in runs {
        total = total.saturating_add(run.bytes.bytes().len());
    }
    total
}

/// Adds many segments, and takes their runs.
fn check_many(
    rt: &impl Abort,
    alloc: Global,
    queue: &mut Queue,
    runs: &mut Vec<Run>,
) -> Result<(), NoMemory> {
    insert_in_order(queue, 100_000)?;
    take_in_order(alloc, queue, runs)?;
    assert!(rt; runs.len() == 10 && bytes_in(runs.as_slice()) == 400_000);
    assert!(rt; queue.covered_end() == 400_000 && queue.pieces().iter().next().is_none());
    Ok(())
}

/// In order inserted and taken, in time linear in their number.
#[test]
fn many_segments_in_order(rt: HostRuntime) -> Result<(), Fail> {
    let alloc = rt.alloc();
    let mut queue = Queue::new(alloc, Preference::First, 0);
    let mut runs = Vec::new(alloc);
    check_many(&rt, alloc, &mut queue, &mut runs)?;
    Ok(())
}
