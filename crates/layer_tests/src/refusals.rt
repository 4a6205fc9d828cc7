//! What a value is after a refused allocation: as its contract says, and the call then succeeds when it is made
//! again. With ample memory nothing is refused, and then the calls are compared alone. `rt try --test --fail-alloc N`
//! refuses the Nth allocation, and tools/measure/faults each of the built test in turn.
ghost use Rattle.std.specs.Prelude.{◌≤◌, ◌<◌, ◌+◌, ◌^◌, OnOk};
ghost use Rattle.stream5_reassembly.specs.Segments.{passed};

use edge_io::{Addr, Moment, NoMemory, Preference};
use frag3_core::{Datagram, Frag3, FragRules, Taken};
use overlap_core::{Bounds, Queue, Run};
use packet_decode::IpHead;
use piece_list::PieceList;
use std::alloc::Global;
use std::process::Abort;
use std::test::Fail;
use stream5_reassembly::{Added, Direction, Limits};

/// Four fragments of one datagram, or segments of one stream: the place of the first byte, and the bytes. The last
/// three begin at one place, so under bsd none of them takes the stead of an earlier one, and under linux each does.
const PARTS: [(u16, &str); 4] = [
    (0, "WWWWWWWW"),
    (8, "XXXXXXXX"),
    (8, "YYYYYYYYYYYYYYYYYYYYYYYY"),
    (8, "ZZZZZZZZZZZZZZZZZZZZZZZZ"),
];

/// The preferences with the bytes that they leave.
const LEFT: [(Preference, &[u8; 32]); 2] = [
    (Preference::Bsd, b"WWWWWWWWXXXXXXXXYYYYYYYYYYYYYYYY"),
    (Preference::Linux, b"WWWWWWWWZZZZZZZZZZZZZZZZZZZZZZZZ"),
];

/// As many segments as there are fill a direction.
const LIMITS: Limits = Limits {
    bytes: 1024,
    segs: PARTS.len() as u32,
    flush: 4,
};

/// The call's value. Where it lacks memory, what it must leave is asserted, and it is made once more.
macro_rules! again {
    ($rt:expr, $call:expr, $left:expr) => {
        match $call {
            Ok(value) => value,
            Err(_) => {
                assert!($rt; $left);
                $call?
            }
        }
    };
}

/// Compares runs with what is left, cut at place 12, and with the places of their first bytes.
fn compare_runs(rt: &impl Abort, runs: &[Run], left: &[u8; 32], second: u64) {
    assert!(rt; runs.len() == 2);
    for (run, (start, bytes)) in runs.iter().zip([(0, &left[..12]), (second, &left[12..])]) {
        assert!(rt; run.start == start && run.bytes.bytes() == bytes);
    }
}

/// Whether the run up to place 12 was given, and nothing else.
fn is_first(runs: &[Run], left: &[u8; 32]) -> bool {
    match runs {
        [run] => run.start == 0 && run.bytes.bytes() == &left[..12],
        _ => false,
    }
}

/// What can be seen of a queue without memory: its floor, its greatest end, its bytes below place 40, and of its
/// pieces the place, the number of bytes and the whole bounds.
#[derive(Clone, Copy, PartialEq, Eq)]
struct View {
    floor: u64,
    end: u64,
    bytes: [Option<u8>; 40],
    pieces: [Option<(u64, usize, Bounds)>; 8],
}

fn view_of(queue: &Queue) -> View {
    let mut bytes = [None; 40];
    for (place, byte) in bytes.iter_mut().enumerate() {
        *byte = queue.byte(place as u64);
    }
    let mut pieces = [None; 8];
    for (shown, piece) in pieces.iter_mut().zip(queue.pieces().iter()) {
        *shown = Some((piece.start(), piece.bytes().len(), piece.whole()));
    }
    View {
        floor: queue.floor(),
        end: queue.covered_end(),
        bytes,
        pieces,
    }
}

fn insert(rt: &impl Abort, queue: &mut Queue, start: u16, bytes: &str) -> Result<(), NoMemory> {
    let (start, bytes) = (u64::from(start), bytes.as_bytes());
    assert!(rt; !bytes.is_empty() && bytes.len() < 100);
    let before = view_of(queue);
    again!(rt, queue.insert(start, bytes), view_of(queue) == before);
    Ok(())
}

fn take_runs(
    rt: &impl Abort,
    alloc: Global,
    queue: &mut Queue,
    below: u64,
    runs: &mut Vec<Run>,
) -> Result<(), NoMemory> {
    let (before, count) = (view_of(queue), runs.len());
    assert!(rt; queue.floor() <= below);
    again!(
        rt,
        queue.take_runs(alloc, below, runs),
        view_of(queue) == before && runs.len() == count
    );
    Ok(())
}

/// Segments are put in one after another.
fn insert_parts(rt: &impl Abort, queue: &mut Queue) -> Result<(), NoMemory> {
    for (start, bytes) in PARTS.iter() {
        insert(rt, queue, *start, bytes)?;
    }
    Ok(())
}

/// A queue's segments are put in, and its runs taken in two steps.
fn compare_parts(
    rt: &impl Abort,
    alloc: Global,
    queue: &mut Queue,
    runs: &mut Vec<Run>,
    left: &[u8; 32],
) -> Result<(), NoMemory> {
    insert_parts(rt, queue)?;
    take_runs(rt, alloc, queue, 12, runs)?;
    take_runs(rt, alloc, queue, 32, runs)?;
    compare_runs(rt, runs.as_slice(), left, 12);
    Ok(())
}

fn compare_queue(
    rt: &impl Abort,
    alloc: Global,
    preference: Preference,
    left: &[u8; 32],
) -> Result<(), NoMemory> {
    let mut queue = Queue::new(alloc, preference, 0);
    let mut runs = Vec::new(alloc);
    compare_parts(rt, alloc, &mut queue, &mut runs, left)
}

/// Makes nodes spare. What the list holds, and its place, stay.
fn reserve(rt: &impl Abort, list: &mut PieceList<u8>, nodes: usize) -> Result<(), NoMemory>
    ensures { OnOk result (nodes ≤ list.new.spare) }
{
    let (count, here) = (list.iter().count(), list.peek().copied());
    again!(
        rt,
        list.reserve(nodes),
        list.iter().count() == count && list.peek().copied() == here
    );
    Ok(())
}

/// Elements are added where nodes are spare.
fn compare_nodes(rt: &impl Abort, list: &mut PieceList<u8>) -> Result<(), NoMemory> {
    reserve(rt, list, 2)?;
    list.push_back(1);
    list.push_back(3);
    reserve(rt, list, 1)?;
    list.insert_here(2);
    assert!(rt; list.iter().copied().eq([1, 2, 3]));
    Ok(())
}

fn compare_list(rt: &impl Abort, alloc: Global) -> Result<(), NoMemory> {
    let mut list = PieceList::new(alloc);
    compare_nodes(rt, &mut list)
}

/// What becomes of a byte with this sequence number, where the direction is started. Where it isn't queued, nothing
/// changes, and no memory is taken.
fn fate_of(direction: &mut Direction, seq: u32) -> Option<Added>
    requires { passed direction.old ≤ 2 ^ 62 }
    ensures { passed direction.new ≤ passed direction.old }
{
    if !direction.started() {
        return None;
    }
    direction.add(seq, b"b").ok()
}

/// What can be seen of a direction that stays as it is: whether it is started with this base, since the byte before
/// it is old and the first one after the window is past it.
fn belongs_at(direction: &mut Direction, base: u32) -> bool
    requires { passed direction.old ≤ 2 ^ 62 }
    ensures { passed direction.new ≤ passed direction.old }
{
    fate_of(direction, base.wrapping_sub(1)) == Some(Added::Old)
        && fate_of(direction, base.wrapping_add(LIMITS.bytes)) == Some(Added::PastWindow)
}

/// Whether a direction is full besides: then a byte at the base is one too many.
fn is_full_at(direction: &mut Direction, base: u32) -> bool
    requires { passed direction.old ≤ 2 ^ 62 }
    ensures { passed direction.new ≤ passed direction.old }
{
    belongs_at(direction, base) && fate_of(direction, base) == Some(Added::TooManySegs)
}

/// A segment is added, where the base is 0: the answer is that of the call that had memory.
fn add(rt: &impl Abort, direction: &mut Direction, start: u16, bytes: &str) -> Result<(), NoMemory>
    requires { passed direction.old ≤ 2 ^ 62 }
    ensures { passed direction.new ≤ passed direction.old }
{
    let (seq, bytes) = (u32::from(start), bytes.as_bytes());
    assert!(rt; direction.started() && !bytes.is_empty());
    let added = again!(
        rt,
        direction.add(seq, bytes),
        belongs_at(direction, 0) && direction.started()
    );
    assert!(rt; added == Added::Queued);
    Ok(())
}

/// What is acknowledged of a full direction with the base 0 is given: the answer is that of the call that had memory.
fn ack(
    rt: &impl Abort,
    alloc: Global,
    direction: &mut Direction,
    acked: u32,
    runs: &mut Vec<Run>,
) -> Result<(), NoMemory>
    requires { passed direction.old ≤ 2 ^ 62 }
    ensures { passed direction.new ≤ passed direction.old + 2 ^ 31 }
{
    let count = runs.len();
    let flushed = again!(
        rt,
        direction.ack(alloc, acked, runs),
        is_full_at(direction, 0) && runs.len() == count
    );
    assert!(rt; flushed);
    Ok(())
}

/// All segments are added to a direction, and fill it.
fn add_parts(rt: &impl Abort, direction: &mut Direction) -> Result<(), NoMemory>
    requires { passed direction.old ≤ 2 ^ 62 }
    ensures { passed direction.new ≤ passed direction.old }
{
    let [(at, w), (x_at, x), (y_at, y), (z_at, z)] = PARTS;
    add(rt, direction, at, w)?;
    add(rt, direction, x_at, x)?;
    add(rt, direction, y_at, y)?;
    add(rt, direction, z_at, z)?;
    assert!(rt; is_full_at(direction, 0));
    Ok(())
}

/// What is left of a direction with the base 12 is given.
fn flush_rest(
    rt: &impl Abort,
    alloc: Global,
    direction: &mut Direction,
    runs: &mut Vec<Run>,
    left: &[u8; 32],
) -> Result<(), NoMemory>
    requires { passed direction.old ≤ 2 ^ 62 }
{
    again!(
        rt,
        direction.flush_all(alloc, runs),
        belongs_at(direction, 12) && is_first(runs.as_slice(), left)
    );
    Ok(())
}

/// A direction's segments are added, and given in two steps. The second step's place counts from the first.
fn compare_segments(
    rt: &impl Abort,
    alloc: Global,
    direction: &mut Direction,
    runs: &mut Vec<Run>,
    left: &[u8; 32],
) -> Result<(), NoMemory>
    requires { passed direction.old ≤ 2 ^ 32 }
{
    add_parts(rt, direction)?;
    ack(rt, alloc, direction, 12, runs)?;
    flush_rest(rt, alloc, direction, runs, left)?;
    compare_runs(rt, runs.as_slice(), left, 0);
    Ok(())
}

fn compare_direction(
    rt: &impl Abort,
    alloc: Global,
    preference: Preference,
    left: &[u8; 32],
) -> Result<(), NoMemory> {
    let mut direction = Direction::new(alloc, LIMITS, preference);
    let mut runs = Vec::new(alloc);
    direction.start(0);
    compare_segments(rt, alloc, &mut direction, &mut runs, left)
}

/// The header of a fragment from 10.0.0.1 to 10.0.0.2 with this place in bytes.
fn head(place: u16, more: bool) -> IpHead {
    IpHead {
        id: 7,
        more,
        offset: place / 8,
        ..IpHead::between(Addr::V4(0x0a00_0001), Addr::V4(0x0a00_0002), 253)
    }
}

/// Whether an answer is that of the fragment of this number: three are held, and the last makes the datagram whole.
fn is_answer(taken: &Taken, number: usize, left: &[u8; 32]) -> bool {
    match taken {
        Taken::Held => number < 3,
        Taken::Whole(Datagram { ip: _, bytes }) => number == 3 && bytes.bytes() == left.as_slice(),
        Taken::Ignored(_) => false,
    }
}

/// A fragment is taken.
fn accept(
    rt: &impl Abort,
    alloc: Global,
    frag3: &mut Frag3,
    number: usize,
    rules: FragRules,
    left: &[u8; 32],
) -> Result<(), NoMemory>
    requires { number < 4 }
{
    let (place, part) = PARTS[number];
    let (ip, part) = (head(place, number < 3), part.as_bytes());
    let moment = Moment { nanos: 0 };
    let taken = match frag3.accept(alloc, &ip, part, moment, rules) {
        Ok(taken) => taken,
        Err(NoMemory) => frag3.accept(alloc, &ip, part, moment, rules)?,
    };
    assert!(rt; is_answer(&taken, number, left));
    Ok(())
}

/// A datagram's fragments are taken.
///
/// What is held is seen by the answers alone. No more fragments are held than there are: if one stayed after a call
/// that lacked memory, the datagram would be dropped for room, and the last fragment wouldn't make it whole.
fn compare_datagram(
    rt: &impl Abort,
    alloc: Global,
    preference: Preference,
    left: &[u8; 32],
) -> Result<(), NoMemory> {
    let rules = FragRules {
        preference,
        timeout: 60,
        min_ttl: 1,
    };
    let mut frag3 = Frag3::new(alloc, PARTS.len() as u32);
    for number in 0..4 {
        accept(rt, alloc, &mut frag3, number, rules, left)?;
    }
    Ok(())
}

#[test]
fn values_stay_where_memory_is_refused(rt: HostRuntime) -> Result<(), Fail> {
    compare_list(&rt, rt.alloc())?;
    for (preference, left) in LEFT.iter() {
        compare_queue(&rt, rt.alloc(), *preference, left)?;
        compare_direction(&rt, rt.alloc(), *preference, left)?;
        compare_datagram(&rt, rt.alloc(), *preference, left)?;
    }
    Ok(())
}
