//! Laws about the answers to jobs, for callers.

ghost use Rattle.std.specs.Prelude.{◌≡◌, ℕ, ◌*◌, ◌<◌, ◌≤◌, ◌==◌, ◌&&◌, All, List, Option, Some, filter, length, slice_get, if◌then◌else◌};
ghost use Rattle.std.specs.Option.{is_some};
ghost use Rattle.edge_io.specs.Along.{AscendsBy, along_from, within};
ghost use Rattle.flow_lanes.specs.declared.answer.JobHits.{JobHits};
ghost use Rattle.flow_lanes.specs.declared.job.Job.{Job};
ghost use Rattle.flow_lanes.specs.Fits.{FitsHits, FitsJob};
ghost use Rattle.flow_lanes.specs.Flows.{Detection, answer, items, same_flow};
ghost use Rattle.flow_lanes.specs.Holding.{IsLimitedJob, held_bytes, held_segments, is_seen};
ghost use Rattle.flow_lanes.specs.Open.{is_open};
ghost use Rattle.flow_lanes.specs.Sound.{FlowFacts, IsSoundFor};
ghost use Rattle.flow_lanes.specs.LanesAfter.{AreLaneAnswers, ArePutTogether, AreShort, LaneState, AreAfter, LanesState, answers_of_flow, is_of_flow, kept_of, lane_of};

/// The stream items of a sound job of a flow have at most 16384 bytes, whatever jobs come before it.
pub fn stream_items_are_short()
    ensures { (d : Detection) (engines : ℕ) (facts : Option FlowFacts) (before : List Job) (job : Job)
        → IsSoundFor engines facts job → AreShort job (within same_flow (items d) before job) }
{}

/// In every order of the jobs that keeps the order within a flow, the flow's jobs have the same answers.
pub fn other_flows_change_nothing()
    ensures { (d : Detection) (flow : ℕ) (xs ys : List Job) → filter (is_of_flow flow) xs ≡ filter (is_of_flow flow) ys
        → answers_of_flow d flow xs ≡ answers_of_flow d flow ys }
{}

/// The answers of any number of lanes, put in the order of the jobs, are those to the one list of jobs
/// taken one by one.
pub fn lanes_change_nothing()
    ensures { (d : Detection) (before jobs : List Job) (parts : List (List JobHits)) (merged : List JobHits)
        → 0 < length parts → AreLaneAnswers d before jobs parts → AscendsBy (λ job. job.number) jobs
        → ArePutTogether parts merged → merged ≡ along_from (answer d) before jobs }
{}

/// Lanes that stand for some jobs keep of these the flows that are open, each in its own lane, and nothing of any other
/// flow: what ended takes no place, however many flows there were.
pub fn lanes_keep_open_flows()
    ensures { (d : Detection) (lanes : LanesState) (before : List Job) (place flow : ℕ) (lane : LaneState)
        → AreAfter d lanes before → slice_get lanes.lanes place ≡ Some lane
        → is_some (kept_of lane flow) ≡ ((lane_of (length lanes.lanes) (Some flow) == place) && is_open flow before) }
{}

/// All lanes together hold of one flow no more than its two sides may, by the limits of the engines that its packets go
/// by; and nothing, unless a packet of TCP was seen of it since it began.
pub fn flows_hold_few_bytes()
    ensures bytes { (d : Detection) (lanes : LanesState) (before : List Job) (flow bytes segs : ℕ) → AreAfter d lanes before
        → All (IsLimitedJob d.making bytes segs) before
        → held_bytes lanes flow ≤ (if is_seen flow before then 2 * bytes else 0) }
    ensures segments { (d : Detection) (lanes : LanesState) (before : List Job) (flow bytes segs : ℕ) → AreAfter d lanes before
        → All (IsLimitedJob d.making bytes segs) before
        → held_segments lanes flow ≤ (if is_seen flow before then 2 * segs else 0) }
{}

/// The items of jobs go between addresses of one version, and their numbers have no more bytes than packets give
/// them, where this is so of the packets of all jobs until then.
pub fn items_fit()
    ensures { (d : Detection) (before : List Job) (job : Job) → All FitsJob before → FitsJob job
        → All FitsHits (answer d before job).items }
{}
