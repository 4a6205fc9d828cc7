//! The configuration of a setup.
ghost use Rattle.std.specs.Prelude.{◌≡◌, IfOk, IfErr, Some};
ghost use Rattle.edge_io.specs.Files.{Files};
ghost use Rattle.edge_io.specs.Frames.{OnlyLoaded};
ghost use Rattle.edge_io.specs.Told.{Rose};
ghost use Rattle.conf_parser.specs.Reading.{told};
ghost use Rattle.conf_types.specs.Sound.{IsSound};
ghost use Rattle.snort_setup.specs.Words.{words_of, first_variables, HasName};
ghost use Rattle.snort_setup.specs.Setup.{conf_read, conf_warnings};
ghost use Rattle.snort_setup.specs.Answers.{HasCause, OnReadyOrRefused};
ghost use Rattle.snort_setup.specs.Stages.{ConfEnds, StopsAs};

use crate::message::{conf_error, conf_warning};
use crate::stop::SetupStop;
use crate::words::SetupWords;
use conf_parser::{LoadStop, Loaded, Warning, load};
use edge_io::{Host, Items, NoMemory, Text};
use net_lists::Vars;
use std::alloc::Global;

/// A configuration that was read, with the variables after all its lines.
#[derive(Drop)]
pub(crate) struct Configured {
    pub vars: Vars,
    pub loaded: Loaded,
}

/// The variables before the configuration is read.
fn first_variables(alloc: Global, words: &SetupWords<'_>) -> Result<Vars, NoMemory>
    requires { HasName (words_of words.now).definition }
    ensures { IfOk result (λ vars. vars ≡ first_variables (words_of words.now).definition) }
{
    let mut vars = Vars::new(alloc);
    if let Some((name, value)) = words.defined {
        vars.define(name, value, true)?;
    }
    Ok(vars)
}

/// The warnings of the lines that were skipped, in their order.
fn conf_warnings(
    alloc: Global,
    files: &[Text],
    skipped: &[Warning],
) -> Result<Items<Text>, NoMemory>
    ensures { IfOk result (λ warnings. warnings ≡ conf_warnings files.now skipped.now) }
{
    let mut warnings = Items::new(alloc);
    for warning in skipped {
        warnings.push(conf_warning(alloc, files, warning)?)?;
    }
    Ok(warnings)
}

/// How a loading that stopped ends the setup.
fn conf_stop(alloc: Global, files: &[Text], stop: LoadStop) -> SetupStop
    ensures { StopsAs files.now stop result }
{
    match stop {
        LoadStop::Conf(fault) => match conf_error(alloc, files, &fault) {
            Ok(message) => SetupStop::Refused { message },
            Err(NoMemory) => SetupStop::NoMemory,
        },
        LoadStop::HostFailed { name } => SetupStop::CannotRead { name },
        LoadStop::NoMemory => SetupStop::NoMemory,
    }
}

/// Reads the configuration that the words name, from the variable that they define. Its warnings are in
/// `warnings` whatever the answer is, but for want of memory.
pub(crate) fn read_conf<H: Host>(
    alloc: Global,
    words: &SetupWords<'_>,
    host: &mut H,
    warnings: &mut Items<Text>,
) -> Result<Configured, SetupStop>
    requires { HasName (words_of words.now).definition }
    ensures ends { (files : Files) → H.agrees host.new files
        → ConfEnds (words_of words.now) files (Rose (H.faults host.old) (H.faults host.new)) result warnings.new
        (conf_read (words_of words.now) (told files)) }
    ensures cause { IfErr result (HasCause (Rose (H.faults host.old) (H.faults host.new)) (H.contents host.old)) }
    ensures sound { IfOk result (λ configured. IsSound configured.loaded.config) }
    ensures quiet { OnReadyOrRefused (H.faults host.new ≡ H.faults host.old) result }
    ensures only_loaded { OnlyLoaded H.Host host.old host.new }
{
    let mut vars = first_variables(alloc, words)?;
    let mut loaded = Loaded::new(alloc);
    let outcome = load(alloc, host, words.conf, &mut vars, &mut loaded);
    *warnings = conf_warnings(alloc, loaded.files.as_slice(), loaded.warnings.as_slice())?;
    match outcome {
        Ok(()) => Ok(Configured { vars, loaded }),
        Err(stop) => Err(conf_stop(alloc, loaded.files.as_slice(), stop)),
    }
}
