//! The texts of the configuration that the words name.
ghost use Rattle.std.specs.Prelude.{◌≡◌, IfErr};
ghost use Rattle.edge_io.specs.Files.{Files};
ghost use Rattle.edge_io.specs.Told.{Rose};
ghost use Rattle.snort_setup.specs.Answers.{HasCause, OnReadyOrRefused};
ghost use Rattle.snort_setup.specs.Whole.{ready_of};
ghost use Rattle.snort_setup.specs.Words.{HasName, words_of};
ghost use Rattle.snort_eve.specs.Asking.{conf_facts};
ghost use Rattle.snort_eve.specs.Confs.{GiveTexts, Given, GivenTexts, halted};

use crate::maker::{NoPatterns, Unused};
use crate::outcome::Outcome;
use crate::texts::Texts;
use crate::words::Conf;
use edge_io::{Host, Items, NoMemory};
use snort_setup::{Setup, SetupStop, SetupWords, read_setup};
use std::alloc::Global;

/// What the words say of the setup.
fn setup_words<'a>(conf: &Conf<'a>) -> SetupWords<'a>
    ensures { words_of result ≡ conf_facts conf.now }
{
    let defined = match conf.defined {
        Some(defined) => Some((defined.name, defined.value)),
        None => None,
    };
    SetupWords {
        conf: conf.name,
        defined,
        host_table: None,
        skip_refused: true,
    }
}

/// Reads a configuration and its rules, none of whose patterns is made.
fn read_rules<H: Host>(
    alloc: Global,
    conf: &Conf<'_>,
    host: &mut H,
) -> Result<Setup<Unused>, SetupStop>
    requires { HasName (conf_facts conf.now).definition }
    ensures given { (files : Files) → H.agrees host.new files → Given ready_of (conf_facts conf.now) files result }
    ensures earlier { (files : Files) → H.agrees host.new files → H.agrees host.old files }
    ensures same_contents { H.contents host.new ≡ H.contents host.old }
    ensures cause { IfErr result (HasCause (Rose (H.faults host.old) (H.faults host.new)) (H.contents host.old)) }
    ensures quiet { OnReadyOrRefused (H.faults host.new ≡ H.faults host.old) result }
{
    let mut warnings = Items::new(alloc);
    read_setup(
        alloc,
        &setup_words(conf),
        host,
        &mut NoPatterns,
        &mut warnings,
    )
}

fn texts_of<P: Drop>(alloc: Global, setup: Setup<P>) -> Result<Texts, SetupStop>
    ensures { GiveTexts (ready_of setup) result }
{
    match Texts::of_setup(alloc, setup) {
        Ok(texts) => Ok(texts),
        Err(NoMemory) => Err(SetupStop::NoMemory),
    }
}

/// Reads a configuration, and gives the texts of its rules and classes.
pub(crate) fn read_texts<H: Host>(
    alloc: Global,
    conf: &Conf<'_>,
    host: &mut H,
) -> Result<Texts, SetupStop>
    requires { HasName (conf_facts conf.now).definition }
    ensures given { (files : Files) → H.agrees host.new files → GivenTexts (conf_facts conf.now) files result }
    ensures earlier { (files : Files) → H.agrees host.new files → H.agrees host.old files }
    ensures same_contents { H.contents host.new ≡ H.contents host.old }
    ensures cause { IfErr result (HasCause (Rose (H.faults host.old) (H.faults host.new)) (H.contents host.old)) }
    ensures quiet { OnReadyOrRefused (H.faults host.new ≡ H.faults host.old) result }
{
    match read_rules(alloc, conf, host) {
        Ok(setup) => texts_of(alloc, setup),
        Err(stop) => Err(stop),
    }
}

/// How a run ends whose configuration isn't ready.
pub(crate) fn halted<'a>(stop: SetupStop) -> Outcome<'a>
    ensures { result ≡ halted stop }
{
    match stop {
        SetupStop::Refused { message } => Outcome::Refused { message },
        SetupStop::CannotRead { name } => Outcome::NoConf { name },
        SetupStop::NoMemory => Outcome::NoMemory,
    }
}
