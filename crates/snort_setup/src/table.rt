//! The host table of a setup.
ghost use Rattle.std.specs.Prelude.{◌≡◌, ◌≤◌, IfErr, Some, length};
ghost use Rattle.std.specs.Option.{option_map};
ghost use Rattle.edge_io.specs.Files.{Files};
ghost use Rattle.edge_io.specs.Frames.{OnlyLoaded};
ghost use Rattle.edge_io.specs.Told.{Rose};
ghost use Rattle.snort_setup.specs.Setup.{table_of, table_in, table_read, most_bytes};
ghost use Rattle.host_table.specs.Hosts.{hosts_of};
ghost use Rattle.snort_setup.specs.Answers.{HasCause, OnReadyOrRefused};
ghost use Rattle.snort_setup.specs.Stages.{TableGives, GivesHosts, StopsAtTable, refusal_of};

use crate::message::{host_error, large_error};
use crate::stop::SetupStop;
use edge_io::{Host, LoadFault, NoMemory, Text};
use host_table::{HostFault, Hosts, LONGEST_TABLE, read_hosts};
use std::alloc::Global;

/// The message of a refusal, or want of memory.
fn refused(message: Result<Text, NoMemory>) -> SetupStop
    ensures { result ≡ refusal_of message }
{
    match message {
        Ok(message) => SetupStop::Refused { message },
        Err(NoMemory) => SetupStop::NoMemory,
    }
}

/// The hosts of a table of this name with these bytes.
fn table_in(alloc: Global, name: &[u8], bytes: &[u8]) -> Result<Hosts, SetupStop>
    requires { length bytes.now ≤ most_bytes }
    ensures { GivesHosts result (table_read name.now (hosts_of bytes.now)) }
{
    match read_hosts(alloc, bytes) {
        Ok(hosts) => Ok(hosts),
        Err(HostFault::NoMemory) => Err(SetupStop::NoMemory),
        Err(fault) => Err(refused(host_error(alloc, name, fault))),
    }
}

/// How a table of this name that was not loaded ends the setup.
fn table_stop(alloc: Global, name: &[u8], fault: LoadFault) -> SetupStop
    ensures { StopsAtTable name.now fault result }
{
    match fault {
        LoadFault::Failed => match Text::copy(alloc, name) {
            Ok(name) => SetupStop::CannotRead { name },
            Err(NoMemory) => SetupStop::NoMemory,
        },
        LoadFault::TooLarge => refused(large_error(alloc, name)),
        LoadFault::NoMemory => SetupStop::NoMemory,
    }
}

/// The hosts of the table of this name.
#[tactic(auto, unfolding(crate::specs::Setup::table_of))]
fn named_table<H: Host>(alloc: Global, name: &str, host: &mut H) -> Result<Hosts, SetupStop>
    ensures gives { (files : Files) → H.agrees host.new files
        → TableGives (Some name.now) files (Rose (H.faults host.old) (H.faults host.new)) result }
    ensures cause { IfErr result (HasCause (Rose (H.faults host.old) (H.faults host.new)) (H.contents host.old)) }
    ensures quiet { OnReadyOrRefused (H.faults host.new ≡ H.faults host.old) result }
    ensures only_loaded { OnlyLoaded H.Host host.old host.new }
{
    let mut bytes = Vec::new(alloc);
    match host.load(name, LONGEST_TABLE, &mut bytes) {
        Ok(()) => table_in(alloc, name.as_bytes(), &bytes),
        Err(fault) => Err(table_stop(alloc, name.as_bytes(), fault)),
    }
}

/// The hosts of the table that the words name; none where they name none.
#[tactic(auto, unfolding(crate::specs::Setup::table_of))]
pub(crate) fn read_table<H: Host>(
    alloc: Global,
    name: Option<&str>,
    host: &mut H,
) -> Result<Hosts, SetupStop>
    ensures gives { (files : Files) → H.agrees host.new files
        → TableGives (option_map (λ name. name.now) name.entry) files (Rose (H.faults host.old) (H.faults host.new)) result }
    ensures cause { IfErr result (HasCause (Rose (H.faults host.old) (H.faults host.new)) (H.contents host.old)) }
    ensures quiet { OnReadyOrRefused (H.faults host.new ≡ H.faults host.old) result }
    ensures only_loaded { OnlyLoaded H.Host host.old host.new }
{
    match name {
        None => Ok(Hosts::empty(alloc)),
        Some(name) => named_table(alloc, name, host),
    }
}
