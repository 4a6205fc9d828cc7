//! Two lanes work at the same time.
//!
//! A batch has one packet of each of two flows, which are in two lanes. Each lane waits at its entry until
//! the other lane came there too, and the search of each packet waits until the search of the other packet
//! began. So lanes that run one after another miss one another in either order, and so do flows that
//! one lane works on. Each wait has its limit: then the run goes on, and the test fails.

use crate::captured::{no_packets, outcome_of, push_packet};
use crate::watched::Watcher;
use edge_io::Gate;
use snort_engine::Status;
use std::alloc::{AllocError, Global};
use std::rt::Clock;
use std::sync::atomic::{AtomicBool, Ordering};
use std::test::Fail;
use std::thread;
use std::time::Duration;

/// How often one that waits looks whether the other came.
const TURNS: u32 = 2_000;

/// How long it sleeps after each look.
const TURN_MILLIS: u64 = 2;

/// One of two that meet.
#[derive(Clone, Copy)]
enum Who {
    First,
    Second,
}

/// A place where two meet: the first that comes waits for the second.
#[derive(Drop)]
struct MeetingPlace {
    first: AtomicBool,
    second: AtomicBool,
    /// Whether one of the two waited in vain.
    missed: AtomicBool,
}

/// Whether the other comes, while one waits for it.
fn comes(clock: &impl Clock, other: &AtomicBool) -> bool {
    for _turn in 0..TURNS {
        if other.load(Ordering::SeqCst) {
            return true;
        }
        thread::sleep(clock, Duration::from_millis(TURN_MILLIS));
    }
    false
}

impl MeetingPlace {
    fn new() -> MeetingPlace {
        MeetingPlace {
            first: AtomicBool::new(false),
            second: AtomicBool::new(false),
            missed: AtomicBool::new(false),
        }
    }

    /// Comes to the place, and waits there for the other.
    fn meet(&self, clock: &impl Clock, who: Who) {
        let (own, other) = match who {
            Who::First => (&self.first, &self.second),
            Who::Second => (&self.second, &self.first),
        };
        own.store(true, Ordering::SeqCst);
        if !comes(clock, other) {
            self.missed.store(true, Ordering::SeqCst);
        }
    }

    /// Whether both came, and neither waited in vain.
    fn have_met(&self) -> bool {
        let both = self.first.load(Ordering::SeqCst) && self.second.load(Ordering::SeqCst);
        both && !self.missed.load(Ordering::SeqCst)
    }
}

/// Where two lanes meet: at their entry, and then in their searches.
#[derive(Drop)]
struct Meeting<'a, R> {
    clock: &'a R,
    entry: MeetingPlace,
    search: MeetingPlace,
}

impl<R: Clock + Sync> Gate for Meeting<'_, R> {
    fn pass(&self, lane: u32) {
        match lane {
            0 => self.entry.meet(self.clock, Who::First),
            1 => self.entry.meet(self.clock, Who::Second),
            _ => {}
        }
    }
}

/// The packets are an `A` and an `a`.
impl<R: Clock + Sync> Watcher for Meeting<'_, R> {
    fn begin(&self, bytes: &[u8]) {
        match bytes.first() {
            Some(b'A') => self.search.meet(self.clock, Who::First),
            Some(b'a') => self.search.meet(self.clock, Who::Second),
            _ => {}
        }
    }
}

/// A packet of each of two flows, of one letter: two lanes run beside each other however little they do.
fn capture_of(alloc: Global) -> Result<Vec<u8>, AllocError> {
    let mut capture = no_packets(alloc)?;
    push_packet(&mut capture, 1000, b"A")?;
    push_packet(&mut capture, 1001, b"a")?;
    Ok(capture)
}

const CONFIG: &str = r#"preprocessor stream5_udp
alert udp any any -> any any (msg:"meets"; pcre:"/a/i"; sid:1;)
"#;

/// Runs with two lanes, with one that has no flow, and with all lanes that there can be.
const COMMANDS: [&str; 3] = [
    "snort -c r -r p -k none --lanes 2",
    "snort -c r -r p -k none --lanes 3",
    "snort -c r -r p -k none --lanes 64",
];

#[test]
fn lanes_meet(rt: HostRuntime) -> Result<(), Fail> {
    let alloc = rt.alloc();
    let capture = capture_of(alloc)?;
    for command in COMMANDS {
        let meeting = Meeting {
            clock: &rt,
            entry: MeetingPlace::new(),
            search: MeetingPlace::new(),
        };
        let ran = outcome_of(&rt, alloc, command, CONFIG, &capture, &meeting, &meeting)?;
        assert!(rt;
            meeting.entry.have_met(),
            "the lanes at their entry: {command}"
        );
        assert!(rt;
            meeting.search.have_met(),
            "the searches of both flows: {command}"
        );
        assert!(rt;
            ran.status == Status::Done && ran.alerts == 2,
            "the answers: {command}"
        );
    }
    Ok(())
}
