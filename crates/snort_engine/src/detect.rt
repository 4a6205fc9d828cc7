//! Records with what comes before them: their jobs, what these find, and the lines of it.
ghost use Rattle.std.specs.Prelude.{◌≡◌, ◌+◌, ◌≤◌, ◌^◌, [], length, OnOk, IfOk};
ghost use Rattle.conf_types.specs.Sound as conf;
ghost use Rattle.fast_pattern.specs.Grouping.{AreFor};
ghost use Rattle.rule_eval.specs.Hits.{Test};
ghost use Rattle.record_jobs.specs.Way as ways;
ghost use Rattle.record_jobs.specs.Ready.{AreReady};
ghost use Rattle.record_jobs.specs.Fronts.{GivesFinishes};
ghost use Rattle.alert_lines.specs.Beside.{by_place, source_in};
ghost use Rattle.snort_engine.specs.Steps.Sourcing.{PlacesJobs};
ghost use Rattle.alert_lines.specs.Gathering.{EmitsAny, sending};
ghost use Rattle.alert_lines.specs.Showing.{waiting_in};
ghost use Rattle.snort_engine.specs.Steps.Showing.{plan_of, OfTest};
ghost use Rattle.snort_engine.specs.Steps.Detecting.{IsSoundPlan, IsNewInspection, counted, MakesJobs, HasRun, jobs_stage};
ghost use Rattle.snort_engine.specs.Steps.Detecting.{Advances, Closes, IsDetectorAfter, Knows, records_stage};

use crate::context::Context;
use crate::counts::Counts;
use crate::plan::{Plan, front_config};
use crate::reader::no_record;
use crate::sources::{MadeJobs, keep_last};
use alert_lines::{AlertWriter, LinkedRecord, Shown, Sources, WriteFault, sum};
use edge_io::{Gate, NoMemory, Pattern, Sink};
use fast_pattern::Groups;
use flow_lanes::{Job, Lanes, Matches};
use record_jobs::{Front, FrontConfig, RecordCounts};
use std::alloc::Global;
use std::thread::Threads;

/// What jobs go through: the lanes that find the rules that match, and the writer of their alerts.
#[derive(Drop)]
pub(crate) struct Inspection {
    pub lanes: Lanes,
    pub groups: Groups,
    pub writer: AlertWriter,
    /// How many rules were worth being tried, over all items.
    pub tries: u128,
    /// The last record that was shown: the alerts of the flows that end with the capture are of it.
    pub last: LinkedRecord,
}

/// What records go through: they are made into jobs, and these are inspected.
#[derive(Drop)]
pub(crate) struct Detector {
    pub front: Front,
    pub inspection: Inspection,
}

impl Inspection {
    /// No job was given yet.
    fn new<P>(alloc: Global, plan: &Plan<'_, P>) -> Result<Inspection, NoMemory>
        requires { IsSoundPlan plan.now }
        ensures { IfOk result (λ inspection. IsNewInspection plan.now inspection) }
    {
        let rules = plan.setup.set.rules();
        Ok(Inspection {
            lanes: Lanes::new(alloc, plan.lanes, plan.flush, plan.setup.config.inserts)?,
            groups: Groups::build(alloc, rules)?,
            writer: AlertWriter::new(alloc, &plan.setup.config, rules)?,
            tries: 0,
            last: no_record(alloc),
        })
    }

    /// What was counted, with what the records were counted as.
    fn counts(&self, seen: RecordCounts) -> Counts
        ensures { result ≡ counted seen self.now }
    {
        let tally = self.writer.tally();
        Counts {
            seen,
            items: tally.items,
            hits: tally.hits,
            alerts: tally.alerts,
            tries: self.tries,
        }
    }
}

impl Detector {
    /// No record was given yet.
    pub fn new<P>(alloc: Global, plan: &Plan<'_, P>) -> Result<Detector, NoMemory>
        requires { IsSoundPlan plan.now }
        ensures holds { (matches : Test) → IfOk result (IsDetectorAfter (plan_of matches plan.now) []) }
        ensures known { IfOk result (Knows plan.now) }
        ensures none { IfOk result (λ detector. detector.front.counts.records ≡ 0) }
    {
        let front = Front::new(alloc, &front_config(plan))?;
        let inspection = Inspection::new(alloc, plan)?;
        Ok(Detector { front, inspection })
    }
}

/// The jobs of records, one after another, and the place of each one's record.
pub(crate) fn make_jobs<'a>(
    alloc: Global,
    by: &FrontConfig<'_>,
    records: &'a [LinkedRecord],
    front: &mut Front,
) -> Result<MadeJobs<'a>, NoMemory>
    requires sound { conf.IsSound by.now.config.now }
    requires few { front.old.counts.records + length records.now ≤ 2 ^ 32 }
    ensures makes { IfOk result (λ made. MakesJobs (ways.way_of by.now) records.now
        front.old front.new made.jobs.items) }
    ensures places { IfOk result (λ made. PlacesJobs (ways.way_of by.now) records.now
        front.old made.places.items) }
    ensures records { OnOk result (front.new.counts.records ≡ front.old.counts.records + length records.now) }
{
    let mut jobs = Vec::new(alloc);
    let mut places = Vec::new(alloc);
    let mut place = 0;
    for record in records {
        front.jobs(alloc, by, record.link(), record.captured(), &mut jobs)?;
        places.resize(jobs.len(), place)?;
        place += 1;
    }
    Ok(MadeJobs { jobs, places })
}

/// Runs a batch of jobs, which were made of these records, and writes the lines of what it finds, whole.
#[tactic(auto, using(crate::proofs::Prefixes::rising))]
fn run_jobs<P: Pattern, G: Gate, A: Sink, R: Threads + Sync>(
    context: &Context<'_, P, G, R>,
    jobs: &[Job],
    records: &[LinkedRecord],
    places: &[usize],
    inspection: &mut Inspection,
    alerts: &mut A,
) -> Result<(), WriteFault>
    requires plan { IsSoundPlan context.now.plan.now }
    requires ready { AreReady (length context.now.plan.now.setup.config.stream.engines) inspection.old.lanes jobs.now }
    requires groups { AreFor inspection.old.groups context.now.plan.now.setup.set.rules }
    requires none { waiting_in inspection.old.writer ≡ [] }
    ensures shown { OfTest P.finds context.now.plan.now (λ plan. Advances (jobs_stage plan)
        (by_place (source_in records.now inspection.old.last places.now) 0 jobs.now)
        inspection.old inspection.new (sending A.Sink [] alerts.old) (sending A.Sink [] alerts.new) result) }
    ensures ran { OnOk result (HasRun inspection.old jobs.now inspection.new) }
    ensures ends { EmitsAny (sending A.Sink [] alerts.old) (sending A.Sink [] alerts.new) result }
{
    let plan = context.plan;
    let mut found = Matches::new(context.alloc);
    inspection.lanes.search(
        context.rt,
        context.alloc,
        jobs,
        &plan.setup.config.stream,
        &plan.setup.set,
        &inspection.groups,
        context.gate,
        &mut found,
    )?;
    inspection.tries = sum(inspection.tries, found.tries)?;
    let by = Shown {
        config: &plan.setup.config,
        rules: plan.setup.set.rules(),
        form: plan.form,
    };
    let sources = Sources {
        records,
        places,
        last: &inspection.last,
    };
    inspection.writer.show(&by, sources, &found, alerts)?;
    inspection.writer.write_out(alerts)
}

/// Writes the lines of a batch of records, whole, and keeps its last record: what was kept before is in its
/// place.
#[tactic(auto, using(crate::proofs::Prefixes::rising))]
pub(crate) fn show_records<P: Pattern, G: Gate, A: Sink, R: Threads + Sync>(
    context: &Context<'_, P, G, R>,
    records: &mut Vec<LinkedRecord>,
    detector: &mut Detector,
    alerts: &mut A,
) -> Result<(), WriteFault>
    requires plan { IsSoundPlan context.now.plan.now }
    requires known { Knows context.now.plan.now detector.old }
    requires few { detector.old.front.counts.records + length records.old.items ≤ 2 ^ 32 }
    ensures shown { OfTest P.finds context.now.plan.now (λ plan. Advances (records_stage plan) records.old.items
        detector.old detector.new (sending A.Sink [] alerts.old) (sending A.Sink [] alerts.new) result) }
    ensures known { OnOk result (Knows context.now.plan.now detector.new) }
    ensures records { OnOk result (detector.new.front.counts.records
        ≡ detector.old.front.counts.records + length records.old.items) }
    ensures ends { EmitsAny (sending A.Sink [] alerts.old) (sending A.Sink [] alerts.new) result }
{
    let by = front_config(context.plan);
    let made = make_jobs(context.alloc, &by, records, &mut detector.front)?;
    let inspection = &mut detector.inspection;
    run_jobs(
        context,
        &made.jobs,
        records,
        &made.places,
        inspection,
        alerts,
    )?;
    drop(made);
    keep_last(records, &mut inspection.last);
    Ok(())
}

/// The jobs after all records.
fn last_jobs<'a>(alloc: Global, front: Front) -> Result<Vec<Job<'a>>, NoMemory>
    ensures { IfOk result (λ jobs. GivesFinishes front [] jobs.items) }
{
    let mut jobs = Vec::new(alloc);
    front.finish(alloc, &mut jobs)?;
    Ok(jobs)
}

/// Ends the flows that live after all records, and writes the lines of what they show then, whole. It
/// gives all that was counted.
#[tactic(auto, using(crate::proofs::Prefixes::rising))]
pub(crate) fn close<P: Pattern, G: Gate, A: Sink, R: Threads + Sync>(
    context: &Context<'_, P, G, R>,
    detector: Detector,
    alerts: &mut A,
) -> Result<Counts, WriteFault>
    requires plan { IsSoundPlan context.now.plan.now }
    requires known { Knows context.now.plan.now detector }
    requires few { detector.front.counts.records ≤ 2 ^ 32 }
    ensures closed { OfTest P.finds context.now.plan.now (λ plan. Closes plan detector
        (sending A.Sink [] alerts.old) (sending A.Sink [] alerts.new) result) }
    ensures ends { EmitsAny (sending A.Sink [] alerts.old) (sending A.Sink [] alerts.new) result }
{
    let Detector {
        front,
        mut inspection,
    } = detector;
    let seen = front.counts();
    let jobs = last_jobs(context.alloc, front)?;
    // All of them are of the last record.
    run_jobs(context, &jobs, &[], &[], &mut inspection, alerts)?;
    Ok(inspection.counts(seen))
}
