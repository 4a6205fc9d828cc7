//! What the lanes are given: jobs, one by one.

use crate::payload::Payload;
use edge_io::{Moment, Preference};
use packet_decode::ItemHead;

/// What the data sent to one end of a flow are put together by.
#[derive(Clone, Copy, Debug, PartialEq, Eq)]
pub struct Toward {
    /// The place of the end's engine among those of the configuration; their number where none has
    /// the end, and the defaults hold.
    pub engine: u32,
    /// Which of two segments that overlap the end keeps.
    pub preference: Preference,
    /// A session with this end must begin with a handshake, at the job's moment.
    pub needed: bool,
}

/// What is done in a job. What the head of a packet of a flow says of a session is not asked: the item
/// gets the facts of its session.
#[derive(Debug, Drop)]
pub enum Work<'a> {
    /// An item by itself: a fragment, or a packet of no flow.
    Alone {
        head: ItemHead,
        payload: Payload<'a>,
    },
    /// A packet of a flow, of TCP or UDP, with at most 65535 bytes of data.
    Packet {
        flow: u64,
        head: ItemHead,
        payload: Payload<'a>,
        /// Towards the packet's destination.
        to_dst: Toward,
        /// Towards its source.
        to_src: Toward,
    },
    /// The flow ends.
    Finish {
        flow: u64,
    },
}

/// A job, with its number in the one list of all jobs.
#[derive(Debug, Drop)]
pub struct Job<'a> {
    pub number: u64,
    /// The moment of the record that the job comes from.
    pub moment: Moment,
    pub work: Work<'a>,
}
