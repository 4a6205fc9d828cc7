//! Laws about the jobs of a capture, for callers.

ghost use Rattle.std.specs.Prelude.{◌≡◌, ℕ, ◌<◌, ◌≤◌, All, Bool, true, Contains, List, [], ◌++◌, length, nat_eq, sum_by};
ghost use Rattle.std.specs.List.{IsDistinct};
ghost use Rattle.edge_io.specs.Along.{trail};
ghost use Rattle.stream5_sessions.specs.Liveness.{live_flows};
ghost use Rattle.flow_lanes.specs.declared.job.Job.{Job};
ghost use Rattle.flow_lanes.specs.Fits.{FitsJob};
ghost use Rattle.flow_lanes.specs.Flows.{Detection};
ghost use Rattle.flow_lanes.specs.Holding.{held_bytes, held_segments};
ghost use Rattle.flow_lanes.specs.Open.{is_open};
ghost use Rattle.flow_lanes.specs.LanesAfter.{AreNew, LanesState, LearnsBatch};
ghost use Rattle.record_jobs.specs.Addresses.{KeepEnds};
ghost use Rattle.record_jobs.specs.Counts.{counts, none_counted};
ghost use Rattle.record_jobs.specs.Fitting.{HoldsBytes};
ghost use Rattle.record_jobs.specs.Fronts.{FrontState, IsFrontAfter};
ghost use Rattle.record_jobs.specs.Holding.{KeepStreams, most_held};
ghost use Rattle.record_jobs.specs.Jobs.{finishes, jobs};
ghost use Rattle.record_jobs.specs.Ready.{AreInOrder, AreNumbered, AreReady, AreSound, HaveLearnt};
ghost use Rattle.record_jobs.specs.Touches.{most_flows, touches};
ghost use Rattle.record_jobs.specs.Way.{LinkedRecord, Way};

/// All jobs of a capture's records are numbered by their places, and where their data are short, as a front
/// says, each is sound after the earlier jobs of its flow.
pub fn jobs_are_in_order()
    ensures { (way : Way) (records : List LinkedRecord) → AreInOrder way records }
{}

/// After no records no flow ends, and nothing was counted.
pub fn no_records_no_jobs()
    ensures finishes { (way : Way) → finishes way [] ≡ [] }
    ensures counts { (way : Way) → counts way [] ≡ none_counted }
{}

/// A front counts the records that it stands for.
pub fn records_are_counted()
    ensures { (way : Way) (front : FrontState) (before : List LinkedRecord) → IsFrontAfter way front before
        → front.counts.records ≡ length before }
{}

/// New lanes know that there was no job; lanes that know the earlier jobs may run the next ones, and know these
/// too then.
pub fn lanes_may_run()
    ensures new { (count flush : ℕ) (inserts : Bool) (lanes : LanesState) → AreNew count flush inserts lanes
        → HaveLearnt lanes [] }
    ensures ready { (engines : ℕ) (lanes : LanesState) (earlier batch rest : List Job) → HaveLearnt lanes earlier
        → AreSound engines (earlier ++ (batch ++ rest)) → AreNumbered (earlier ++ (batch ++ rest))
        → AreReady engines lanes batch }
    ensures learn { (old new : LanesState) (earlier batch : List Job) → HaveLearnt old earlier
        → LearnsBatch old batch new → HaveLearnt new (earlier ++ batch) }
{}

/// A datagram that was put together is between the addresses of its fragments, both of one version.
pub fn datagrams_keep_addresses()
    ensures { (way : Way) (before : List LinkedRecord) (r : LinkedRecord) → KeepEnds way before r }
{}

/// A flow that is open after the jobs of a capture's records lives. So no more flows are open, and kept by lanes, than
/// may live: `max_tcp` and `max_udp` together.
pub fn open_flows_live()
    ensures { (way : Way) (records : List LinkedRecord) (flow : ℕ) → 0 < way.stream.max_tcp → 0 < way.stream.max_udp
        → is_open flow (trail (jobs way) records) ≡ true
        → Contains (live_flows (most_flows way.stream) (touches way records)) flow }
{}

/// All streams together hold few bytes, whatever records came and however many lanes there are. Of any flows, each named
/// once, the bytes that wait of both sides are no more than max_tcp * 2 * max_queued_bytes (`bytes`), and the segments
/// that were queued since a side's last flush no more than max_tcp * 2 * max_queued_segs (`segments`): each limit is the
/// greatest of the lines, and of the defaults where no line is for all hosts (`most_held`). No side exceeds its limit,
/// and a session of UDP holds nothing.
pub fn streams_hold_few_bytes()
    ensures bytes { (way : Way) (d : Detection) (records : List LinkedRecord) (lanes : LanesState) (flows : List ℕ)
        → KeepStreams way d records lanes → IsDistinct nat_eq flows
        → sum_by (held_bytes lanes) flows ≤ most_held (λ engine. engine.bytes_limit) way.stream }
    ensures segments { (way : Way) (d : Detection) (records : List LinkedRecord) (lanes : LanesState) (flows : List ℕ)
        → KeepStreams way d records lanes → IsDistinct nat_eq flows
        → sum_by (held_segments lanes) flows ≤ most_held (λ engine. engine.segs_limit) way.stream }
{}

/// Where records hold bytes, the packets of their jobs go between addresses of one version, and their numbers have no
/// more bytes than packets give them.
pub fn jobs_fit()
    ensures each { (way : Way) (before : List LinkedRecord) (r : LinkedRecord) → All HoldsBytes before → HoldsBytes r
        → All FitsJob (jobs way before r) }
    ensures last { (way : Way) (records : List LinkedRecord) → All FitsJob (finishes way records) }
{}
