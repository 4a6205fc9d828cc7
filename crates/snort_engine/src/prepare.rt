//! What comes before a capture: the words, the configuration, the rules and the host table.
ghost use Rattle.std.specs.Prelude.{◌≡◌, [], None, Some, Ok, map, string_bytes, IfOk, IfErr, IsSome};
ghost use Rattle.std.specs.Option.{option_map_or};
ghost use Rattle.edge_io.specs.Files.{Files};
ghost use Rattle.command_words.specs.CommandLine.{command_line, run};
ghost use Rattle.command_words.specs.Told.{run_of};
ghost use Rattle.rule_eval.specs.Hits.{Test};
ghost use Rattle.snort_setup.specs.Words.{words_of, HasName};
ghost use Rattle.snort_setup.specs.Answers as setup_specs;
ghost use Rattle.snort_setup.specs.Steps.{grown_by, OnlyMade};
ghost use Rattle.snort_setup.specs.Whole.{IsReadySetup, ready_of};
ghost use Rattle.snort_engine.specs.Course.{IsFileless, IsForMade, setup_words, checks_of, way_of};
ghost use Rattle.snort_engine.specs.Steps.Preparing.{IsPrepared, IsReadyPlan, IsSetUp, KeepsSetup, HasEarlyCauses};
ghost use Rattle.snort_engine.specs.Steps.Preparing.{IsForFaultyWords, OfShow, StopsFileless, task_way, way_for, told_of, way_by};
ghost use Rattle.snort_engine.specs.Steps.Seen.{HostRose};
ghost use Rattle.edge_io.specs.Frames.{OnlyLoaded};
ghost use Rattle.snort_engine.specs.Steps.Sources.{IsMade, IsSourceFor};
ghost use Rattle.snort_engine.specs.Steps.Detecting.{IsRanged};

use crate::listing::list_records;
use crate::plan::{CaptureSource, Plan};
use crate::stop::RunStop;
use command_words::{ChecksumMode, Command, Words, WordsFault, read_words};
use edge_io::{Host, Items, Pattern, PatternMaker, Text};
use packet_decode::Checks;
use snort_setup::{Setup, SetupStop, SetupWords, read_setup};
use std::alloc::Global;

/// What a run is to do.
#[derive(Drop)]
pub(crate) enum Task<'a, P> {
    /// To show a capture.
    Show(Plan<'a, P>),
    /// To tell the records of a Unified2 file, by these lines.
    Tell(Text),
}

/// The checksums of a mode.
fn checks_of(mode: ChecksumMode) -> Checks
    ensures { result ≡ checks_of mode }
{
    let all = Checks {
        ip: true,
        tcp: true,
        udp: true,
        icmp: true,
    };
    match mode {
        ChecksumMode::All => all,
        ChecksumMode::Nothing => Checks {
            ip: false,
            tcp: false,
            udp: false,
            icmp: false,
        },
        ChecksumMode::NoIp => Checks { ip: false, ..all },
        ChecksumMode::NoTcp => Checks { tcp: false, ..all },
        ChecksumMode::NoUdp => Checks { udp: false, ..all },
        ChecksumMode::NoIcmp => Checks { icmp: false, ..all },
    }
}

/// The checksums that are verified: `-k` takes the place of the configuration's.
fn checks_for(wanted: &Words<'_>, configured: Checks) -> Checks
    ensures { result ≡ option_map_or checks_of (run_of wanted.now).checks configured }
{
    match wanted.checks {
        Some(mode) => checks_of(mode),
        None => configured,
    }
}

/// What the words say of the setup.
fn setup_words<'a>(wanted: &Words<'a>) -> SetupWords<'a>
    ensures { words_of result ≡ setup_words (run_of wanted.now) }
{
    let defined = match wanted.defined {
        Some(defined) => Some((defined.name, defined.value)),
        None => None,
    };
    SetupWords {
        conf: wanted.conf,
        defined,
        host_table: wanted.host_table,
        skip_refused: wanted.skip_refused,
    }
}

/// The warnings that are told of those that a setup gave: none under `-q`, and none where memory was
/// lacking.
fn told_of<P>(
    alloc: Global,
    outcome: &Result<Setup<P>, SetupStop>,
    wanted: &Words<'_>,
    given: Items<Text>,
) -> Items<Text>
    ensures { result ≡ told_of outcome.now (run_of wanted.now) given }
{
    match outcome {
        Err(SetupStop::NoMemory) => Items::new(alloc),
        _ => {
            if wanted.quiet {
                Items::new(alloc)
            } else {
                given
            }
        }
    }
}

/// Sets the detector up, and gives the warnings that are told of it.
fn set_up<H: Host, M: PatternMaker>(
    alloc: Global,
    wanted: &Words<'_>,
    host: &mut H,
    maker: &mut M,
    warnings: &mut Items<Text>,
) -> Result<Setup<M::Made>, SetupStop>
    requires { HasName (setup_words (run_of wanted.now)).definition }
    ensures set_up { (files : Files) → H.agrees host.new files
        → IsSetUp ready_of (run_of wanted.now) files (HostRose H.Host host.old host.new)
        (grown_by (M.refusals maker.old) (M.refusals maker.new)) result warnings.new }
    ensures cause { IfErr result (setup_specs.HasCause (HostRose H.Host host.old host.new) (H.contents host.old)) }
    ensures ready { IfOk result (IsReadySetup M.Made.finds (M.means maker.old)) }
    ensures quiet { setup_specs.OnReadyOrRefused (H.faults host.new ≡ H.faults host.old) result }
    ensures host { OnlyLoaded H.Host host.old host.new }
    ensures maker { OnlyMade (M.means maker.old) (M.means maker.new) (M.refusals maker.old) (M.refusals maker.new) }
{
    let mut given = Items::new(alloc);
    let outcome = read_setup(alloc, &setup_words(wanted), host, maker, &mut given);
    *warnings = told_of(alloc, &outcome, wanted, given);
    outcome
}

/// Where the words have the capture from, if from anywhere. A seed says something only of a capture that
/// is made.
fn source_of<'a>(wanted: &Words<'a>) -> Option<CaptureSource<'a>>
    ensures { IsSourceFor (run_of wanted.now) result }
{
    match (wanted.generate, wanted.capture) {
        (Some(count), _) => Some(CaptureSource::Made {
            seed: wanted.seed,
            count,
        }),
        (None, Some(name)) => Some(CaptureSource::File(name)),
        (None, None) => None,
    }
}

/// What is left to do with a detector that is set up.
fn ready<'a, P: Pattern>(wanted: &Words<'a>, setup: Setup<P>) -> Result<Plan<'a, P>, RunStop>
    ensures way { (matches : Test) → way_by (way_for matches) result
        ≡ way_of matches (run_of wanted.now) (Ok (ready_of setup)) }
    ensures made { IfOk result (λ ready. IsSome wanted.now.generate → IsMade ready.source) }
    ensures kept { KeepsSetup setup result }
    ensures ranges { IfOk result (λ ready. (ready.lanes ≡ wanted.now.lanes) × (ready.flush ≡ wanted.now.flush_point)) }
{
    if wanted.test {
        return Err(RunStop::Accepted {
            rules: setup.set.rules().len() as u64,
        });
    }
    let Some(source) = source_of(wanted) else {
        return Err(RunStop::CommandLine);
    };
    Ok(Plan {
        source,
        limit: wanted.limit,
        checks: checks_for(wanted, setup.config.checks),
        lanes: wanted.lanes,
        flush: wanted.flush_point,
        form: wanted.form,
        counted: wanted.stats,
        setup,
    })
}

/// Prepares a run that the words ask for.
fn prepare_run<'a, H: Host, M: PatternMaker>(
    alloc: Global,
    wanted: &Words<'a>,
    host: &mut H,
    maker: &mut M,
    warnings: &mut Items<Text>,
) -> Result<Plan<'a, M::Made>, RunStop>
    requires named { HasName (setup_words (run_of wanted.now)).definition }
    requires ranged { IsRanged wanted.now.lanes wanted.now.flush_point }
    ensures prepared { (files : Files) → H.agrees host.new files
        → IsPrepared way_for (Some (run (run_of wanted.now))) files (HostRose H.Host host.old host.new)
        (grown_by (M.refusals maker.old) (M.refusals maker.new)) result warnings.new }
    ensures made { IfOk result (λ ready. IsSome wanted.now.generate → IsMade ready.source) }
    ensures ready { IfOk result (IsReadyPlan M.Made.finds (M.means maker.old)) }
    ensures causes { HasEarlyCauses (H.contents host.old) (H.faults host.old) (H.faults host.new) result }
    ensures host { OnlyLoaded H.Host host.old host.new }
    ensures maker { OnlyMade (M.means maker.old) (M.means maker.new) (M.refusals maker.old) (M.refusals maker.new) }
{
    let setup = set_up(alloc, wanted, host, maker, warnings)?;
    ready(wanted, setup)
}

/// Prepares what the words ask for: reads them, and the configuration, the rules and the host table
/// that they name, each pattern made by `maker`; or the Unified2 file that they name.
///
/// Ok is a detector that is ready for a capture, or the lines of that file; Err is why there is none: the words
/// ask for a text or for the test of a configuration, or are no command; a line or a file is refused; a file
/// couldn't be read; or memory is lacking. `warnings` are those that are told, each a line; none after want of memory.
pub(crate) fn prepare<'a, H: Host, M: PatternMaker>(
    alloc: Global,
    words: &'a [String],
    host: &mut H,
    maker: &mut M,
    warnings: &mut Items<Text>,
) -> Result<Task<'a, M::Made>, RunStop>
    requires { warnings.old ≡ [] }
    ensures prepared { (files : Files) → H.agrees host.new files
        → IsPrepared task_way (command_line (map string_bytes words.entry.now)) files
        (HostRose H.Host host.old host.new)
        (grown_by (M.refusals maker.old) (M.refusals maker.new)) result warnings.new }
    ensures fileless { IsFileless (command_line (map string_bytes words.entry.now))
        → StopsFileless (command_line (map string_bytes words.entry.now))
        (HostRose H.Host host.old host.new) result warnings.new }
    ensures faulty_words { command_line (map string_bytes words.entry.now) ≡ None → IsForFaultyWords result }
    ensures made { IfOk result (λ task. IsForMade (command_line (map string_bytes words.entry.now))
        → OfShow (λ ready. IsMade ready.source) task) }
    ensures ready { IfOk result (OfShow (IsReadyPlan M.Made.finds (M.means maker.old))) }

    // The host is as before, but for its count, where it failed at a file, and the maker but for what it refused.
    ensures causes { HasEarlyCauses (H.contents host.old) (H.faults host.old) (H.faults host.new) result }
    ensures host { OnlyLoaded H.Host host.old host.new }
    ensures maker { OnlyMade (M.means maker.old) (M.means maker.new) (M.refusals maker.old) (M.refusals maker.new) }
{
    match read_words(alloc, words) {
        Ok(Command::Help) => Err(RunStop::Usage),
        Ok(Command::Version) => Err(RunStop::Version),
        Ok(Command::ReadUnified2(file)) => Ok(Task::Tell(list_records(alloc, file, host)?)),
        Ok(Command::Run(wanted)) => Ok(Task::Show(prepare_run(
            alloc, &wanted, host, maker, warnings,
        )?)),
        Err(WordsFault::CommandLine) => Err(RunStop::CommandLine),
        Err(WordsFault::NoMemory) => Err(RunStop::NoMemory),
    }
}
