//! The fragments of one datagram.
ghost use Rattle.std.specs.Prelude.{◌≡◌, ◌^◌, ◌<◌, ◌≤◌, length, IfOk, OnOk, OnErr, option_and_then};
ghost use Rattle.frag3_core.specs.Trackers.{begun, datagram_of, end_of, is_timed_out, joined};
ghost use Rattle.frag3_core.specs.Parts.{IsRoomFor, first_bytes};

use crate::FragRules;
use edge_io::{Moment, NoMemory, Text};
use overlap_core::Queue;
use packet_decode::IpHead;
use std::alloc::Global;
use std::marker::Model;

/// The nanoseconds of a second.
const SECOND: u64 = 1_000_000_000;

/// The fragments of one datagram.
#[derive(Drop)]
pub(crate) struct Tracker {
    queue: Queue,
    timeout: u32,
    first: Moment,
    /// The place after the datagram's last byte, once it is known.
    end: Option<u64>,
    /// How many fragments the queue holds.
    frags: u64,
    /// How many bytes these have together.
    bytes: u64,
}

impl Model for Tracker {
    ghost use Rattle.frag3_core.specs.Trackers.{TrackerState};

    ghost Value = { TrackerState };

    ghost use Rattle.frag3_core.specs.Inside.{tracker_of, IsTracker};

    ghost view = { tracker_of };

    ghost invariant = { IsTracker };
}

impl Tracker {
    /// A tracker with no fragment. Takes no memory.
    pub fn new(alloc: Global, moment: Moment, rules: FragRules) -> Tracker
        ensures { result ≡ begun moment.nanos rules }
    {
        Tracker {
            queue: Queue::new(alloc, rules.preference, 0),
            timeout: rules.timeout,
            first: moment,
            end: None,
            frags: 0,
            bytes: 0,
        }
    }

    /// How many fragments it holds.
    pub fn frags(&self) -> u64
        ensures { result ≡ length self.now.segments }
    {
        self.frags
    }

    /// Whether a fragment at this moment comes too late.
    pub fn is_timed_out(&self, moment: Moment) -> bool
        ensures { result ≡ is_timed_out moment.nanos self.now }
    {
        let age = moment.nanos.saturating_sub(self.first.nanos);
        age > u64::from(self.timeout) * SECOND
    }

    /// Adds a fragment, and gives the bytes of the datagram where it is whole now. Without memory
    /// nothing changes.
    pub fn add(&mut self, alloc: Global, ip: &IpHead, part: &[u8]) -> Result<Option<Text>, NoMemory>
        requires some { 0 < length part.now }
        requires fits { end_of ip.now part.now ≤ 65535 }
        requires count { length self.old.segments < 2 ^ 32 }
        ensures tracker { OnOk result (self.new ≡ joined ip.now part.now self.old) }
        ensures bytes { IfOk result (λ bytes. bytes ≡ datagram_of self.new) }
        ensures err { OnErr result (self.new ≡ self.old) }
    {
        let start = 8 * u64::from(ip.offset);
        let len = part.len() as u64;
        let bytes = self.bytes.saturating_add(len);
        let last = if ip.more { None } else { Some(start + len) };
        let end = self.end.or(last);
        let room = room_for(alloc, end, bytes)?;
        self.queue.insert(start, part)?;
        self.end = end;
        self.frags += 1;
        self.bytes = bytes;
        Ok(whole_bytes(&self.queue, room))
    }
}

/// Memory for the bytes of a datagram. Contracts see how many these are.
#[derive(Drop)]
struct DatagramRoom {
    len: usize,
    bytes: Vec<u8>,
}

impl Model for DatagramRoom {
    ghost use Rattle.std.specs.Prelude.{◌≡◌, ℕ, ◌≤◌, [], vec_capacity};

    ghost Value = { ℕ };

    ghost view = { λ room. room.len };

    ghost invariant = { λ room. (room.bytes.items ≡ []) × (room.len ≤ vec_capacity room.bytes) };
}

impl DatagramRoom {
    /// Memory for `len` bytes.
    fn new(alloc: Global, len: usize) -> Result<DatagramRoom, NoMemory>
        ensures { IfOk result (λ room. room ≡ len) }
    {
        Ok(DatagramRoom {
            len,
            bytes: Vec::with_capacity(alloc, len)?,
        })
    }
}

/// Memory for the bytes of the whole datagram, where its length is known and the bytes held may
/// cover it.
fn room_for(alloc: Global, end: Option<u64>, held: u64) -> Result<Option<DatagramRoom>, NoMemory>
    ensures { IfOk result (λ room. IsRoomFor end held room) }
{
    match end {
        Some(end) if end <= held => Ok(Some(DatagramRoom::new(alloc, end as usize)?)),
        _ => Ok(None),
    }
}

/// The bytes from place 0 on, as many as there is room for, if each place has one. None without room.
fn whole_bytes(queue: &Queue, room: Option<DatagramRoom>) -> Option<Text>
    requires { queue.now.floor ≡ 0 }
    ensures { result ≡ option_and_then (first_bytes queue.now) room }
{
    filled(queue, room?)
}

/// The bytes from place 0 on, as many as there is room for, if each place has one.
fn filled(queue: &Queue, room: DatagramRoom) -> Option<Text>
    requires { queue.now.floor ≡ 0 }
    ensures { result ≡ first_bytes queue.now room }
{
    let DatagramRoom { len, mut bytes } = room;
    if queue.append_to(len, &mut bytes) {
        Some(Text::from_vec(bytes))
    } else {
        None
    }
}
