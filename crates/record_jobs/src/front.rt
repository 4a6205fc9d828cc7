//! The records of a capture, one by one, and their jobs.
ghost use Rattle.std.specs.Prelude.{◌≡◌, ◌+◌, ◌^◌, ◌<◌, ◌≤◌, [], length, option_map, take, IfOk, IfSome, OnOk, OnErr};
ghost use Rattle.conf_types.specs.Sound.{IsFragConfig, IsSound};
ghost use Rattle.ipv6_decode.specs.Versions.{IsReadAsFour};
ghost use Rattle.record_jobs.specs.Fronts.{GivesFinishes, IsFrontAfter, TakesRecord, TellsCounts};
ghost use Rattle.record_jobs.specs.Steps.{Steps};
ghost use Rattle.record_jobs.specs.Way.{linked, way_of};

use crate::adding::{add_finishes, add_packet, add_works};
use crate::config::FrontConfig;
use crate::content::{is_fragment, no_content, read_record};
use crate::counts::{RecordCounts, is_fresh};
use crate::time::Time;
use crate::touches::{content_key, touch_key, tracked_key};
use conf_types::FragConfig;
use edge_io::{Link, Moment, NoMemory};
use flow_lanes::{Job, Payload};
use frag3_core::Frag3;
use packet_decode::{Placed, Skip, decode_at};
use pcap_input::Record;
use std::alloc::Global;
use std::marker::Model;
use stream5_sessions::Flows;

/// What makes a capture's records into jobs.
///
/// Contracts see what it keeps, and which records it stands for (`IsFrontAfter`).
#[derive(Drop)]
pub struct Front {
    /// Where fragments are put together.
    frag3: Option<Frag3>,
    flows: Flows,
    /// The moment of the first record.
    begin: Option<Moment>,
    /// The moment of the last one.
    last: Moment,
    /// The number of the next job.
    next: u64,
    counts: RecordCounts,
}

impl Model for Front {
    ghost use Rattle.record_jobs.specs.Fronts.{FrontState};

    ghost Value = { FrontState };

    ghost use Rattle.record_jobs.specs.Inside.{front_of, IsFront};

    ghost view = { front_of };

    ghost invariant = { IsFront };
}

impl Front {
    /// No record yet.
    pub fn new(alloc: Global, by: &FrontConfig<'_>) -> Result<Front, NoMemory>
        requires { IsSound by.now.config.now }
        ensures holds { IfOk result (λ front. IsFrontAfter (way_of by.now) front []) }
        ensures none { IfOk result (λ front. front.counts.records ≡ 0) }
    {
        let stream = &by.config.stream;
        let flows = Flows::new(alloc, stream.max_tcp, stream.max_udp)?;
        Ok(Front {
            frag3: frag3_of(alloc, &by.config.frag),
            flows,
            begin: None,
            last: Moment { nanos: 0 },
            next: 0,
            counts: RecordCounts::NONE,
        })
    }

    /// Takes the next record, whose bytes begin with this link layer, and adds its jobs to `out`: they are lent their
    /// payloads by the record, but for that of a datagram which was put together. Without memory `out` stays, and
    /// nothing is promised of the front any more.
    pub fn jobs<'a>(
        &mut self,
        alloc: Global,
        by: &FrontConfig<'_>,
        link: Link,
        captured: &'a Record,
        out: &mut Vec<Job<'a>>,
    ) -> Result<(), NoMemory>
        requires sound { IsSound by.now.config.now }
        requires room { self.old.counts.records < 2 ^ 32 }
        ensures takes { OnOk result
            (TakesRecord (way_of by.now) self.old (linked link captured.now) self.new out.old.items out.new.items) }
        ensures records { OnOk result (self.new.counts.records ≡ self.old.counts.records + 1) }
        ensures err { OnErr result (out.new.items ≡ out.old.items) }
    {
        let done = out.len();
        match self.step(alloc, by, link, captured, out) {
            Ok(()) => Ok(()),
            Err(fault) => {
                out.truncate(done);
                Err(fault)
            }
        }
    }

    /// Adds the jobs after all records to `out`: each flow that lives ends. Without memory `out` stays.
    pub fn finish(self, alloc: Global, out: &mut Vec<Job<'_>>) -> Result<(), NoMemory>
        ensures ok { OnOk result (GivesFinishes self out.old.items out.new.items) }
        ensures err { OnErr result (out.new.items ≡ out.old.items) }
    {
        let mut flows = Vec::new(alloc);
        self.flows.live(alloc, &mut flows)?;
        let done = out.len();
        match add_finishes(out, self.next, self.last, &flows) {
            Ok(()) => Ok(()),
            Err(fault) => {
                out.truncate(done);
                Err(fault)
            }
        }
    }

    /// Takes the next record. Without memory, jobs may be left at the end of `out`.
    ///
    /// A packet of version 4 that is no fragment is read in place, and goes from there into its job.
    fn step<'a>(
        &mut self,
        alloc: Global,
        by: &FrontConfig<'_>,
        link: Link,
        captured: &'a Record,
        out: &mut Vec<Job<'a>>,
    ) -> Result<(), NoMemory>
        requires engines { length by.now.config.now.stream.engines ≤ 1024 }
        requires room { self.old.counts.records < 2 ^ 32 }
        ensures steps { OnOk result
            (Steps (way_of by.now) self.old (linked link captured.now) self.new out.old.items out.new.items) }
        ensures records { OnOk result (self.new.counts.records ≡ self.old.counts.records + 1) }
        ensures err { OnErr result (take (length out.old.items) out.new.items ≡ out.old.items) }
    {
        let bytes = captured.bytes.bytes();
        let mut read = Placed::EMPTY;
        let skip = decode_at(link, bytes, by.checks, &mut read);
        if let Some(skip) = skip {
            return self.step_seldom(alloc, by, link, captured, Err(skip), out);
        }
        if is_fragment(read.body) {
            return self.step_seldom(alloc, by, link, captured, Ok(&read), out);
        }
        let time = Time::of(self.begin, captured.moment);
        self.begin = Some(time.first);
        self.last = time.now;
        // Ahead of what may fail: at each way out no more flows have begun than there were records (`IsFront`).
        self.counts.records += 1;
        let key = tracked_key(&by.config.stream, &read.ip, read.body);
        let touch = touch_key(&mut self.flows, key)?;
        self.counts.flows += u64::from(is_fresh(touch));
        let payload = Payload::lent(read.payload(bytes));
        self.next = add_packet(out, by, time, touch, &read, payload, self.next)?;
        Ok(())
    }

    /// Takes the next record as `step` does, where `four`, which was read of it as version 4, is no packet or a fragment.
    // Kept out of the line of the other records, which otherwise pay for its moves.
    #[inline(never)]
    fn step_seldom<'a>(
        &mut self,
        alloc: Global,
        by: &FrontConfig<'_>,
        link: Link,
        captured: &'a Record,
        four: Result<&Placed, Skip>,
        out: &mut Vec<Job<'a>>,
    ) -> Result<(), NoMemory>
        requires engines { length by.now.config.now.stream.engines ≤ 1024 }
        requires room { self.old.counts.records < 2 ^ 32 }
        requires four { IsReadAsFour link captured.now.bytes by.now.checks four }
        ensures steps { OnOk result
            (Steps (way_of by.now) self.old (linked link captured.now) self.new out.old.items out.new.items) }
        ensures records { OnOk result (self.new.counts.records ≡ self.old.counts.records + 1) }
        ensures err { OnErr result (take (length out.old.items) out.new.items ≡ out.old.items) }
    {
        let time = Time::of(self.begin, captured.moment);
        let counts = self.counts;
        // Ahead of what may fail, as in `step`.
        self.counts.records += 1;
        self.begin = Some(time.first);
        self.last = time.now;
        let mut content = no_content();
        read_record(
            alloc,
            by,
            &mut self.frag3,
            link,
            captured,
            four,
            &mut content,
        )?;
        let key = content_key(by, &content);
        let touch = touch_key(&mut self.flows, key)?;
        self.counts = counts.with_record(&content, touch);
        self.next = add_works(out, by, time, touch, &mut content, self.next)?;
        Ok(())
    }

    /// What the records so far are counted as. Takes no memory.
    pub fn counts(&self) -> RecordCounts
        ensures counts { TellsCounts self.now result }
        ensures same { result ≡ self.now.counts }
    {
        self.counts
    }
}

/// No fragment yet, where fragments are put together.
fn frag3_of(alloc: Global, config: &Option<FragConfig>) -> Option<Frag3>
    requires { IfSome config.now IsFragConfig }
    ensures { result ≡ option_map (λ config. record { max_frags = config.max_frags; trackers = [] }) config.now }
{
    match config {
        Some(config) => Some(Frag3::new(alloc, config.max_frags)),
        None => None,
    }
}
