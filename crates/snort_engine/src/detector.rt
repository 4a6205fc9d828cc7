//! The public call: a run from its words to its status.
ghost use Rattle.std.specs.Prelude.{◌≡◌, Option, map, string_bytes};
ghost use Rattle.edge_io.specs.Files.{Files, MaySee};
ghost use Rattle.option_eval.specs.RuleSet.{SameMeaning};
ghost use Rattle.snort_setup.specs.Steps.{Grows};
ghost use Rattle.snort_engine.specs.Outside.{by, outside};
ghost use Rattle.snort_engine.specs.Headline.{Headline};

use crate::Status;
use crate::capture::show_capture;
use crate::context::Context;
use crate::counts::Counts;
use crate::listing::write_lines;
use crate::prepare::{Task, prepare};
use crate::report::{counts_due, report, tell_all};
use edge_io::{Gate, Host, Items, PatternMaker, Sink};
use flow_lanes::matching_is_decided;
use std::alloc::Global;
use std::thread::Threads;

/// Runs the detector: reads the words, and the configuration, the rules and the host table that they
/// name, and writes a line to `alerts` for each item and each rule that alerts on it, of the capture
/// that they name, or of the one that is made of the seed that they say, or for each record of the Unified2 file
/// that they name; to `errors` the warnings, and a message where the run ends otherwise than well.
///
/// The order is words, configuration, rules, host table, warnings, capture header, records; the lines of
/// a batch of records are written before the next is read. `maker` makes the patterns of rules. The flows
/// are dealt to as many lanes as the words say, which are spread over threads; each passes `gate` at the
/// start of its work on a batch. Each warning, and the message with the counts, is offered to `errors`
/// once, whole; after a fault of that sink nothing more is written to it, and the run ends as it would have.
pub fn run<H: Host, M: PatternMaker, A: Sink, E: Sink, G: Gate, R: Threads + Sync>(
    rt: &R,
    alloc: Global,
    words: &[String],
    host: &mut H,
    maker: &mut M,
    alerts: &mut A,
    errors: &mut E,
    gate: &G,
) -> Status
    // The theorem, by whatever may be seen of the host afterwards: what it tells, or files that give all that it
    // answered in this run.
    ensures headline { (seen : Option Files) → MaySee (H.contents host.new) (H.agrees host.new) seen
        → Headline (map string_bytes words.now) (M.means maker.old)
        (outside (by seen H.Host) A.Sink E.Sink host.old alerts.old errors.old (M.refusals maker.old))
        (outside (by seen H.Host) A.Sink E.Sink host.new alerts.new errors.new (M.refusals maker.new)) result }

    // The same by what the host tells.
    ensures told { Headline (map string_bytes words.now) (M.means maker.old)
        (outside H.Host A.Sink E.Sink host.old alerts.old errors.old (M.refusals maker.old))
        (outside H.Host A.Sink E.Sink host.new alerts.new errors.new (M.refusals maker.new)) result }

    // The maker means what it meant, and keeps what it refused.
    ensures same_meaning { SameMeaning (M.means maker.old) (M.means maker.new) }
    ensures grows { Grows (M.refusals maker.old) (M.refusals maker.new) }
{
    matching_is_decided();
    let mut warnings = Items::new(alloc);
    let prepared = prepare(alloc, words, host, maker, &mut warnings);
    let well = tell_all(errors, warnings.as_slice());
    match prepared {
        Ok(Task::Show(plan)) => {
            let context = Context {
                rt,
                alloc,
                plan: &plan,
                gate,
            };
            let mut counts = Counts::NONE;
            let outcome = show_capture(&context, host, alerts, &mut counts);
            let told = counts_due(plan.counted, &outcome, counts);
            report(alloc, errors, well, plan.source.name(), &outcome, told)
        }
        Ok(Task::Tell(lines)) => {
            let outcome = write_lines(&lines, alerts);
            report(alloc, errors, well, "", &outcome, None)
        }
        Err(stop) => report(alloc, errors, well, "", &Err(stop), None),
    }
}
