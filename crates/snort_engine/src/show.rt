//! Showing a capture: batches are read, searched, and their lines written.
ghost use Rattle.std.specs.Prelude.{◌≡◌, ◌+◌, ◌^◌, ◌≤◌, ◌⊎◌, true, [], length, OnOk};
ghost use Rattle.edge_io.specs.Files.{Lacks};
ghost use Rattle.snort_engine.specs.Course.{Goes};
ghost use Rattle.snort_engine.specs.Steps.Reader.{IsReadable, OpensSo};
ghost use Rattle.snort_engine.specs.Steps.Sources.{source_name};
ghost use Rattle.edge_io.specs.Frames.{OnlyRead};
ghost use Rattle.snort_engine.specs.Steps.Ended.{EndsOnWay, work_by};
ghost use Rattle.snort_engine.specs.Steps.Causes.{ClosesWith, HasCauses, faults_of};
ghost use Rattle.snort_engine.specs.Steps.Seen.{HostRose, OfSeen, OnlyOpened};
ghost use Rattle.snort_engine.specs.Steps.Stop.{outcome_status};
ghost use Rattle.snort_engine.specs.Steps.Reporting.{outcome_said};
ghost use Rattle.alert_lines.specs.Gathering.{sending};
ghost use Rattle.snort_engine.specs.Counts.{no_counts};
ghost use Rattle.snort_engine.specs.Steps.Detecting.{IsSoundPlan, Knows, IsDetectorAfter, ShowsRecordsPart};
ghost use Rattle.snort_engine.specs.Steps.Showing.{point, OfStreams, OfTest, ShowsCapture, ComesOver, IsCloseAfter};
ghost use Rattle.snort_engine.specs.Steps.Showing.{ShowsOn, MayGoFurther, MayGoOn, MayClose, ClosesShown};

use crate::batch::{give_back, lacks_memory, more, most_at, read_batch, room_after};
use crate::context::Context;
use crate::counts::Counts;
use crate::detect::{Detector, close, show_records};
use crate::reader::RecordReader;
use crate::stop::{RunStop, is_whole};
use alert_lines::LinkedRecord;
use edge_io::{Gate, Host, Pattern, Sink};
use std::thread::Threads;

/// Writes the lines of records after which memory was lacking, as far as that goes.
#[tactic(auto, using(crate::proofs::Prefixes::rising))]
fn show_some<P: Pattern, G: Gate, A: Sink, R: Threads + Sync>(
    context: &Context<'_, P, G, R>,
    records: &mut Vec<LinkedRecord>,
    detector: &mut Detector,
    alerts: &mut A,
)
    requires plan { IsSoundPlan context.now.plan.now }
    requires known { Knows context.now.plan.now detector.old }
    requires few { detector.old.front.counts.records + length records.old.items ≤ 2 ^ 32 }
    ensures part { OfTest P.finds context.now.plan.now (λ plan. ShowsRecordsPart plan records.old.items detector.old
        (A.written alerts.old) (A.written alerts.new)) }
    ensures later { A.faults alerts.old ≤ A.faults alerts.new }
{
    let _shown = show_records(context, records, detector, alerts);
}

/// Reads a batch of records and writes their lines. Ok(true) where more records may follow, Ok(false)
/// at the capture's end, and where no record may be read any more. `room` is how many may be. Want of memory for
/// reading goes before a fault of the sink.
#[tactic(auto, using(crate::proofs::Prefixes::reading))]
fn show_next_batch<H: Host, P: Pattern, G: Gate, A: Sink, R: Threads + Sync>(
    context: &Context<'_, P, G, R>,
    host: &mut H,
    reader: &mut RecordReader,
    room: &mut Option<u32>,
    records: &mut Vec<LinkedRecord>,
    detector: &mut Detector,
    alerts: &mut A,
) -> Result<bool, RunStop>
    requires plan { IsSoundPlan context.now.plan.now }
    requires ready { MayGoOn context.now.plan.now reader.old detector.old }
    requires no_records { records.old.items ≡ [] }
    ensures goes_on { OfTest P.finds context.now.plan.now (λ plan.
        OfStreams H.Host A.Sink host.old host.new alerts.old alerts.new (λ before after. ShowsOn plan
        (point reader.old room.old detector.old before) (point reader.new room.new detector.new after)
        (HostRose H.Host host.old host.new) result)) }
    ensures further { result ≡ Ok true → MayGoFurther context.now.plan.now reader.old reader.new detector.new }
    ensures shown { OnOk result (records.new.items ≡ []) }
    ensures closable { MayClose context.now.plan.now detector.new result }
    ensures causes { HasCauses (HostRose H.Host host.old host.new) (faults_of H.Host A.Sink host.old alerts.old)
        (faults_of H.Host A.Sink host.new alerts.new) (outcome_status result) }
    ensures host { OnlyRead H.Host host.old host.new }
{
    let most = most_at(*room);
    if most == 0 {
        return Ok(false);
    }
    let reached = read_batch(context.alloc, host, reader, most, records);
    *room = room_after(*room, records.len());
    if lacks_memory(reached) {
        show_some(context, records, detector, alerts);
        return Err(RunStop::NoMemory);
    }
    show_records(context, records, detector, alerts)?;
    give_back(context.alloc, reader, records);
    more(reached)
}

/// Reads one batch of records after another, and writes the lines of each before the next is read. What
/// it ends with is not closed yet.
#[tactic(auto, using(crate::proofs::Prefixes::reading))]
fn show_batches<H: Host, P: Pattern, G: Gate, A: Sink, R: Threads + Sync>(
    context: &Context<'_, P, G, R>,
    host: &mut H,
    reader: &mut RecordReader,
    detector: &mut Detector,
    alerts: &mut A,
) -> Result<(), RunStop>
    requires plan { IsSoundPlan context.now.plan.now }
    requires ready { MayGoOn context.now.plan.now reader.old detector.old }
    ensures comes { OfTest P.finds context.now.plan.now (λ plan.
        IsDetectorAfter plan [] detector.old
        → OfStreams H.Host A.Sink host.old host.new alerts.old alerts.new (λ before after.
        ComesOver plan reader.old before after (HostRose H.Host host.old host.new) detector.new result)) }
    ensures closable { MayClose context.now.plan.now detector.new result }
    ensures causes { HasCauses (HostRose H.Host host.old host.new) (faults_of H.Host A.Sink host.old alerts.old)
        (faults_of H.Host A.Sink host.new alerts.new) (outcome_status result) }
    ensures host { OnlyRead H.Host host.old host.new }
{
    let mut room = context.plan.limit;
    let mut records = Vec::new(context.alloc);
    'batches: while show_next_batch(
        context,
        host,
        reader,
        &mut room,
        &mut records,
        detector,
        alerts,
    )? {}
    Ok(())
}

/// Closes a capture whose batches ended so, where it is to be closed.
#[tactic(auto, using(crate::proofs::Prefixes::rising))]
fn close_shown<P: Pattern, G: Gate, A: Sink, R: Threads + Sync>(
    context: &Context<'_, P, G, R>,
    detector: Detector,
    shown: Result<(), RunStop>,
    alerts: &mut A,
    counts: &mut Counts,
) -> Result<(), RunStop>
    requires plan { IsSoundPlan context.now.plan.now }
    requires closable { MayClose context.now.plan.now detector shown }
    ensures closes { OfTest P.finds context.now.plan.now (λ plan. ClosesShown plan detector shown
        (sending A.Sink [] alerts.old) (sending A.Sink [] alerts.new) counts.new result) }
    ensures causes { ClosesWith (A.faults alerts.old) (A.faults alerts.new)
        (outcome_status shown) (outcome_status result) }
{
    if !is_whole(&shown) {
        return shown;
    }
    *counts = close(context, detector, alerts)?;
    shown
}

/// Reads all records of a capture that was opened, batch by batch, and writes their lines and those of the
/// flows that end with it; `counts` is then what was counted, where it was read to its end.
#[tactic(auto, using(crate::proofs::Prefixes::rising))]
pub(crate) fn show_opened<H: Host, P: Pattern, G: Gate, A: Sink, R: Threads + Sync>(
    context: &Context<'_, P, G, R>,
    host: &mut H,
    reader: &mut RecordReader,
    alerts: &mut A,
    counts: &mut Counts,
) -> Result<(), RunStop>
    requires plan { IsSoundPlan context.now.plan.now }
    requires readable { IsReadable reader.old }
    ensures shows { OfTest P.finds context.now.plan.now (λ plan.
        OfStreams H.Host A.Sink host.old host.new alerts.old alerts.new (λ before after.
        ShowsCapture plan reader.old before after counts.new result)) }
    ensures close { OfTest P.finds context.now.plan.now (λ plan.
        OfStreams H.Host A.Sink host.old host.new alerts.old alerts.new (λ before after.
        IsCloseAfter plan reader.old before after (HostRose H.Host host.old host.new) result)) }
    ensures causes { HasCauses (HostRose H.Host host.old host.new) (faults_of H.Host A.Sink host.old alerts.old)
        (faults_of H.Host A.Sink host.new alerts.new) (outcome_status result) }
    ensures host { OnlyRead H.Host host.old host.new }
{
    let mut detector = Detector::new(context.alloc, context.plan)?;
    let shown = show_batches(context, host, reader, &mut detector, alerts);
    close_shown(context, detector, shown, alerts, counts)
}

/// Opens the file of this name as the capture and writes the lines of its records; `counts` is then what
/// was counted, where it was read to its end, or is refused.
#[tactic(auto, using(crate::proofs::Prefixes::reading))]
pub(crate) fn show_file<H: Host, P: Pattern, G: Gate, A: Sink, R: Threads + Sync>(
    context: &Context<'_, P, G, R>,
    host: &mut H,
    name: &str,
    alerts: &mut A,
    counts: &mut Counts,
) -> Result<(), RunStop>
    requires plan { IsSoundPlan context.now.plan.now }
    requires named { source_name context.now.plan.now.source ≡ name.now }
    requires none { counts.old ≡ no_counts }
    ensures ends { OfTest P.finds context.now.plan.now (λ plan. EndsOnWay (H.agrees host.new) (Goes plan)
        (work_by H.Host A.Sink host.old alerts.old) (work_by H.Host A.Sink host.new alerts.new)
        result (outcome_said name.now context.now.plan.now.counted result counts.new)) }
    ensures causes { HasCauses (HostRose H.Host host.old host.new ⊎ Lacks (H.contents host.old) name.now)
        (faults_of H.Host A.Sink host.old alerts.old) (faults_of H.Host A.Sink host.new alerts.new) (outcome_status result) }
    ensures opened { OfSeen H.Host host.new (λ seen.
        OpensSo seen name.now (HostRose H.Host host.old host.new) (H.opens host.old) (H.opens host.new)) }
    ensures host { OnlyOpened H.Host host.old host.new }
{
    let mut reader = RecordReader::open(context.alloc, host, name)?;
    show_opened(context, host, &mut reader, alerts, counts)
}
