//! The setup: configuration, rule lines and host table, in this order.
ghost use Rattle.std.specs.Prelude.{◌≡◌, IfOk, IfErr, Some};
ghost use Rattle.edge_io.specs.Files.{Files};
ghost use Rattle.edge_io.specs.Frames.{OnlyLoaded};
ghost use Rattle.edge_io.specs.Told.{Rose};
ghost use Rattle.conf_types.specs.Sound as conf;
ghost use Rattle.conf_parser.specs.Reading.{Ended};
ghost use Rattle.snort_setup.specs.Words.{words_of, Words, HasName};
ghost use Rattle.snort_setup.specs.Answers.{SetsUp, HasCause, HasOneSetup, OnReadyOrRefused};
ghost use Rattle.snort_setup.specs.Stages.{IsConfigured};
ghost use Rattle.snort_setup.specs.Whole.{AreReady, IsReadySetup, RuledGives, IsRulesStop, ruled_of, ready_of};
ghost use Rattle.snort_setup.specs.Steps.{grown_by, OnlyMade};

use crate::conf::{Configured, read_conf};
use crate::rules::{Progress, first_progress, read_rules};
use crate::stop::SetupStop;
use crate::table::read_table;
use crate::words::SetupWords;
use conf_parser::{Config, Loaded};
use edge_io::{Host, Items, PatternMaker, Text};
use host_table::Hosts;
use option_eval::RuleSet;
use std::alloc::Global;
use std::mem;

/// A detector that is ready: its configuration, its rules with their patterns, and its hosts.
#[derive(Drop)]
pub struct Setup<P> {
    pub config: Config,
    pub set: RuleSet<P>,
    pub hosts: Hosts,
}

/// The configuration and its rules.
#[derive(Drop)]
pub(crate) struct Ruled<P> {
    pub config: Config,
    pub set: RuleSet<P>,
}

/// Reads the rule lines of a configuration, after its warnings.
fn read_ruled<M: PatternMaker>(
    alloc: Global,
    skips: bool,
    configured: Configured,
    maker: &mut M,
    warnings: &mut Items<Text>,
) -> Result<Ruled<M::Made>, SetupStop>
    requires { conf.IsSound configured.loaded.config }
    ensures gives { (words : Words) → words.skips ≡ skips → (ended : Ended) → IsConfigured configured warnings.old ended
        → RuledGives ruled_of words ended (grown_by (M.refusals maker.old) (M.refusals maker.new)) result warnings.new }
    ensures kind { IfErr result IsRulesStop }
    ensures ready { IfOk result (λ ruled. AreReady M.Made.finds (M.means maker.old) ruled.config ruled.set) }
    ensures only_made { OnlyMade (M.means maker.old) (M.means maker.new) (M.refusals maker.old) (M.refusals maker.new) }
{
    let Configured { vars, loaded } = configured;
    let before = mem::replace(warnings, Items::new(alloc));
    let mut progress = first_progress(alloc, before);
    let refusal = read_rules(alloc, &vars, &loaded, skips, &mut progress, maker)?;
    let Progress {
        accepted,
        names: _,
        warnings: told,
    } = progress;
    *warnings = told;
    let Loaded { config, .. } = loaded;
    match refusal {
        Some(message) => Err(SetupStop::Refused { message }),
        None => Ok(Ruled {
            config,
            set: accepted.into_set(),
        }),
    }
}

/// Sets a detector up: reads the configuration that the words name, from the variable that they define, its rule
/// lines, each pattern made by `maker`, and the host table, if they name one.
///
/// `Refused` is the first line that is refused, or a file that is too large, with its message. `CannotRead` comes
/// where the host failed at a file, or has none of this name. `warnings` is replaced by all warnings, each a line,
/// in their order; after `Refused` and `CannotRead` by those that come before. After `NoMemory` it is not to be
/// used. (Snort Users Manual 2.9, chapters 2 and 3; the host table is our own.)
pub fn read_setup<H: Host, M: PatternMaker>(
    alloc: Global,
    words: &SetupWords<'_>,
    host: &mut H,
    maker: &mut M,
    warnings: &mut Items<Text>,
) -> Result<Setup<M::Made>, SetupStop>
    requires { HasName (words_of words.now).definition }
    // By files that give all that the host answered, the answer is their setup, and words and files have one.
    ensures agreed { (files : Files) → H.agrees host.new files
        → SetsUp ready_of (words_of words.now) files (Rose (H.faults host.old) (H.faults host.new))
        (grown_by (M.refusals maker.old) (M.refusals maker.new)) result warnings.new }
    ensures setup { (files : Files) → H.contents host.old ≡ Some files
        → SetsUp ready_of (words_of words.now) files (Rose (H.faults host.old) (H.faults host.new))
        (grown_by (M.refusals maker.old) (M.refusals maker.new)) result warnings.new }
    ensures one { HasOneSetup }
    ensures cause { IfErr result (HasCause (Rose (H.faults host.old) (H.faults host.new)) (H.contents host.old)) }

    // What is ready is sound, with at most 65536 rules, and its patterns find what they mean.
    ensures ready { IfOk result (IsReadySetup M.Made.finds (M.means maker.old)) }

    // The host is as before, but for its count, and the maker but for what it refused.
    ensures only_loaded { OnlyLoaded H.Host host.old host.new }
    ensures quiet { OnReadyOrRefused (H.faults host.new ≡ H.faults host.old) result }
    ensures only_made { OnlyMade (M.means maker.old) (M.means maker.new) (M.refusals maker.old) (M.refusals maker.new) }
{
    let configured = read_conf(alloc, words, host, warnings)?;
    let ruled = read_ruled(alloc, words.skip_refused, configured, maker, warnings)?;
    let hosts = read_table(alloc, words.host_table, host)?;
    Ok(Setup {
        config: ruled.config,
        set: ruled.set,
        hosts,
    })
}
