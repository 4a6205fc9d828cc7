//! One run over real files and the two streams.
ghost use Rattle.std.specs.Prelude.{map, string_bytes};
ghost use Rattle.edge_io.specs.Answers.{Agree};
ghost use Rattle.snort_engine.specs.Outside.{outside};
ghost use Rattle.snort_system.specs.Seen.{HeadlineByAgreeing, HeadlineByAnswers, seen_by};

use edge_io::{HeardHost, HeardSink, Host, OpenGate, PatternMaker, Sink};
use snort_engine::{Status, run};
use std::alloc::Global;
use std::io::{Stderr, Stdout};
use std::rt::Files;
use std::thread::Threads;

/// Runs the detector with an open gate: the theorem by all files that agree with what the host answered.
fn run_by_answers<H: Host, M: PatternMaker, A: Sink, E: Sink, R: Threads + Sync>(
    rt: &R,
    alloc: Global,
    words: &[String],
    host: &mut H,
    maker: &mut M,
    alerts: &mut A,
    errors: &mut E,
) -> Status
    ensures { HeadlineByAnswers H.Host host.new (map string_bytes words.now) (M.means maker.old)
        (λ h. outside h A.Sink E.Sink host.old alerts.old errors.old (M.refusals maker.old))
        (λ h. outside h A.Sink E.Sink host.new alerts.new errors.new (M.refusals maker.new)) result }
{
    run(rt, alloc, words, host, maker, alerts, errors, &OpenGate)
}

/// Runs the detector on the system's files and streams.
///
/// Whatever files give all that the host answered in this run, each load, opening and read: what the streams took, of
/// alerts and of errors, and the status are what the theorem says of a run over these files.
pub fn run_on_system<R: Files, M: PatternMaker, T: Threads + Sync>(
    rt: &T,
    alloc: Global,
    words: &[String],
    host: &mut HeardHost<R>,
    maker: &mut M,
    alerts: &mut HeardSink<Stdout>,
    errors: &mut HeardSink<Stderr>,
) -> Status
    ensures { HeadlineByAgreeing (map string_bytes words.now) (M.means maker.old) (Agree host.new.heard.answers)
        (λ files. seen_by files host.old alerts.old errors.old (M.refusals maker.old))
        (λ files. seen_by files host.new alerts.new errors.new (M.refusals maker.new)) result }
{
    run_by_answers(rt, alloc, words, host, maker, alerts, errors)
}
