//! Reading a host table.
ghost use Rattle.std.specs.Prelude.{◌≡◌, ◌≤◌, length, false, IfOk};
ghost use Rattle.net_lists.specs.Addresses.{IsNetwork};
ghost use Rattle.net_lists.specs.Lines.{numbered};
ghost use Rattle.host_table.specs.HostLine.{host_line, is_given};
ghost use Rattle.host_table.specs.Hosts.{hosts_of, Gives};

use crate::fault::HostFault;
use crate::host_line::HostLine;
use crate::hosts::Hosts;
use net_lists::{first_line, has_content, trimmed};
use std::alloc::Global;

/// The most bytes that a host table has.
pub const LONGEST_TABLE: usize = 16_777_216;

/// The most entries of a table.
const MOST_ENTRIES: usize = 65_536;

/// The entry that a line gives after those before it.
#[tactic(auto, unfolding(crate::specs::HostLine::host_line, crate::specs::HostLine::taken))]
fn entry_after(hosts: &Hosts, number: u32, line: &[u8]) -> Result<HostLine, HostFault>
    ensures entry { result ≡ host_line hosts.now (numbered number line.now) }
    ensures network { IfOk result (λ entry. IsNetwork entry.network) }
    ensures new { IfOk result (λ entry. is_given hosts.now entry.network ≡ false) }
{
    if hosts.entries().len() >= MOST_ENTRIES {
        return Err(HostFault::BadLine { line: number });
    }
    let Some(entry) = HostLine::read(line) else {
        return Err(HostFault::BadLine { line: number });
    };
    if hosts.is_given(entry.network) {
        return Err(HostFault::Twice { line: number });
    }
    Ok(entry)
}

/// The hosts of a host table: lines `address FRAG STREAM`, where the address may have a prefix length and each
/// policy is a name or `-`. It is refused at its first line that is another, or that gives a network twice.
pub fn read_hosts(alloc: Global, text: &[u8]) -> Result<Hosts, HostFault>
    requires { length text.now ≤ LONGEST_TABLE }
    ensures { Gives result (hosts_of text.now) }
{
    let mut hosts = Hosts::empty(alloc);
    let mut rest = text;
    let mut number: u32 = 0;
    while let Some((line, after)) = first_line(rest) {
        number += 1;
        rest = after;
        let line = trimmed(line);
        if has_content(line) {
            let entry = entry_after(&hosts, number, line)?;
            hosts = hosts.with(entry)?;
        }
    }
    Ok(hosts)
}
