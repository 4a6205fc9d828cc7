//! The capture of a run: that of a file, or one that is made of a seed.
ghost use Rattle.std.specs.Prelude.{◌≡◌, ℕ, ◌⊎◌};
ghost use Rattle.edge_io.specs.Files.{Files};
ghost use Rattle.rule_eval.specs.Hits.{Test};
ghost use Rattle.snort_engine.specs.Course.{Makes};
ghost use Rattle.snort_engine.specs.Steps.Preparing.{way_for};
ghost use Rattle.snort_engine.specs.Steps.Sources.{IsMade, LacksSource, OpensOn, way_from};
ghost use Rattle.snort_engine.specs.Steps.Ended.{EndsOnWay, EndsUnseen, said_of, work_by};
ghost use Rattle.snort_engine.specs.Steps.Causes.{HasCauses, faults_of};
ghost use Rattle.snort_engine.specs.Steps.Seen.{HostRose, OfSeen, OnlyOpened};
ghost use Rattle.snort_engine.specs.Steps.Stop.{outcome_status};
ghost use Rattle.snort_engine.specs.Counts.{no_counts};
ghost use Rattle.snort_engine.specs.Steps.Detecting.{IsSoundPlan};
ghost use Rattle.snort_engine.specs.Steps.Showing.{OfTest};

use crate::context::Context;
use crate::counts::Counts;
use crate::made::{MadeCapture, made_reader};
use crate::plan::CaptureSource;
use crate::show::{show_file, show_opened};
use crate::stop::RunStop;
use edge_io::{Gate, Host, Pattern, Sink};
use pcap_input::make_capture;
use std::thread::Threads;

/// Makes a capture of a seed, with this many packets, and writes the lines of its records; `counts` is then
/// what was counted, where it was read to its end. The host isn't asked for anything.
#[tactic(auto, using(crate::proofs::Prefixes::rising))]
fn show_made<P: Pattern, G: Gate, A: Sink, R: Threads + Sync>(
    context: &Context<'_, P, G, R>,
    seed: u32,
    count: u32,
    alerts: &mut A,
    counts: &mut Counts,
) -> Result<(), RunStop>
    requires { IsSoundPlan context.now.plan.now }
    ensures ends { OfTest P.finds context.now.plan.now (λ plan. EndsUnseen (Makes plan seed count)
        (A.written alerts.old) (A.written alerts.new) result (said_of context.now.plan.now result counts.new)) }
    // The host has no part in it, whatever its count is.
    ensures causes { (host : ℕ) → HasCauses ⊥ (record { host = host; alerts = A.faults alerts.old })
        (record { host = host; alerts = A.faults alerts.new }) (outcome_status result) }
{
    let bytes = make_capture(context.alloc, seed, count)?;
    let mut made = MadeCapture::new(&bytes);
    let mut reader = made_reader();
    show_opened(context, &mut made, &mut reader, alerts, counts)
}

/// Writes the lines of the records of the plan's capture; `counts` is then what was counted, where it was
/// read to its end, or is refused.
#[tactic(auto, using(crate::proofs::Prefixes::rising))]
pub(crate) fn show_capture<H: Host, P: Pattern, G: Gate, A: Sink, R: Threads + Sync>(
    context: &Context<'_, P, G, R>,
    host: &mut H,
    alerts: &mut A,
    counts: &mut Counts,
) -> Result<(), RunStop>
    requires plan { IsSoundPlan context.now.plan.now }
    requires none { counts.old ≡ no_counts }
    ensures ends { OfTest P.finds context.now.plan.now (λ plan.
        EndsOnWay (H.agrees host.new) (way_from context.now.plan.now.source plan)
        (work_by H.Host A.Sink host.old alerts.old) (work_by H.Host A.Sink host.new alerts.new)
        result (said_of context.now.plan.now result counts.new)) }
    ensures causes { HasCauses
        (HostRose H.Host host.old host.new ⊎ LacksSource (H.contents host.old) context.now.plan.now.source)
        (faults_of H.Host A.Sink host.old alerts.old) (faults_of H.Host A.Sink host.new alerts.new) (outcome_status result) }
    ensures opened { (matches : Test) → OfSeen H.Host host.new (λ seen. OpensOn seen (way_for matches context.now.plan.now)
        (HostRose H.Host host.old host.new) (H.opens host.old) (H.opens host.new)) }
    ensures made_unopened { IsMade context.now.plan.now.source
        → (files : Files) → H.left_of host.new files ≡ H.left_of host.old files }
    ensures host { OnlyOpened H.Host host.old host.new }
{
    match context.plan.source {
        CaptureSource::File(name) => show_file(context, host, name, alerts, counts),
        CaptureSource::Made { seed, count } => show_made(context, seed, count, alerts, counts),
    }
}
