//! Which ports rules ask for, so that of an item whose ports fit no rule the payload isn't looked at.
//!
//! Ports are kept in a table of bits, which has a part for each side of TCP and of UDP. A list of ports with a long
//! range is there as all ports: so the table may tell of a port that no rule asks for, and never hides one.

ghost use Rattle.std.specs.Prelude.{◌≡◌, ℕ, ◌+◌, ◌<◌, ◌≤◌, true, length, IfOk};
ghost use Rattle.pattern_search.specs.Slots.{table_words, KeepsSlots};
ghost use Rattle.fast_pattern.specs.Grouping.{Guards};
ghost use Rattle.fast_pattern.specs.Doors.{is_all, is_open, lets_in, LetsIn, Opens, OpensAll, OpensPart};

use crate::header::RuleHead;
use edge_io::NoMemory;
use net_lists::PortPart;
use packet_decode::Body;
use pattern_search::{TABLE_WORDS, set_slot, slot_bit};
use rule_types::Proto;
use std::alloc::Global;

/// The parts of the table: the sides of TCP and UDP, and items without ports, by their protocol.
const TCP_FROM: u32 = 0;

const TCP_TO: u32 = 1;

const UDP_FROM: u32 = 2;

const UDP_TO: u32 = 3;

const ICMP: u32 = 4;

const OTHER: u32 = 5;

/// A longer range of ports is in the table as all ports.
const LONGEST_RANGE: usize = 255;

/// Lets all ports of a part in.
fn open_all(table: &mut [u32], part: u32)
    requires table { length table.old ≡ table_words }
    requires part { part < 6 }
    ensures { OpensAll table.old part table.new }
{
    set_slot(table, 262_144 + part as usize);
}

/// Lets this many ports in, from one on.
fn open_ports(table: &mut [u32], part: u32, low: usize, count: usize)
    requires table { length table.old ≡ table_words }
    requires part { part < 4 }
    requires within { low + count ≤ 65536 }
    ensures keeps { KeepsSlots table.old table.new }
    ensures opens { (port : ℕ) → low ≤ port → port < low + count → is_open table.new part port ≡ true }
{
    let base = 65_536 * part as usize + low;
    for offset in 0..count {
        set_slot(table, base + offset);
    }
}

/// Lets the ports of a part of a list in; for a negated one and for a long one all ports.
fn open_part(table: &mut [u32], part: u32, ports: &PortPart)
    requires table { length table.old ≡ table_words }
    requires part { part < 4 }
    ensures keeps { KeepsSlots table.old table.new }
    ensures opens { OpensPart part table.new ports.now }
{
    let (low, high) = (
        usize::from(ports.bounds.low),
        usize::from(ports.bounds.high),
    );
    if ports.negated || low + LONGEST_RANGE < high {
        open_all(table, part);
        return;
    }
    open_ports(table, part, low, (high + 1).saturating_sub(low));
}

/// Lets the ports of a list in.
fn open_list(table: &mut [u32], part: u32, ports: &[PortPart])
    requires table { length table.old ≡ table_words }
    requires part { part < 4 }
    ensures keeps { KeepsSlots table.old table.new }
    ensures opens { Opens ports.now part table.new }
{
    if ports.is_empty() {
        open_all(table, part);
    }
    for range in ports {
        open_part(table, part, range);
    }
}

/// Lets the ports of both sides in.
fn open_sides(table: &mut [u32], from: u32, to: u32, asked: &RuleHead)
    requires table { length table.old ≡ table_words }
    requires from { from < 4 }
    requires to { to < 4 }
    ensures keeps { KeepsSlots table.old table.new }
    ensures sources { Opens asked.now.sports from table.new }
    ensures targets { Opens asked.now.dports to table.new }
    ensures back { asked.now.both ≡ true → Opens asked.now.dports from table.new × Opens asked.now.sports to table.new }
{
    open_list(table, from, asked.sports.parts());
    open_list(table, to, asked.dports.parts());
    if asked.both {
        open_list(table, from, asked.dports.parts());
        open_list(table, to, asked.sports.parts());
    }
}

/// Lets in what a rule's header fits.
fn open_rule(table: &mut [u32], asked: &RuleHead)
    requires table { length table.old ≡ table_words }
    ensures keeps { KeepsSlots table.old table.new }
    ensures opens { LetsIn asked.now table.new }
{
    match asked.proto {
        Proto::Tcp => open_sides(table, TCP_FROM, TCP_TO, asked),
        Proto::Udp => open_sides(table, UDP_FROM, UDP_TO, asked),
        Proto::Icmp => open_all(table, ICMP),
        Proto::Ip => {
            open_all(table, TCP_FROM);
            open_all(table, TCP_TO);
            open_all(table, UDP_FROM);
            open_all(table, UDP_TO);
            open_all(table, ICMP);
            open_all(table, OTHER);
        }
    }
}

/// Lets in what the headers of these rules fit.
fn open_rules(table: &mut [u32], rules: &[RuleHead])
    requires table { length table.old ≡ table_words }
    ensures keeps { KeepsSlots table.old table.new }
    ensures guards { Guards table.new rules.now }
{
    for asked in rules {
        open_rule(table, asked);
    }
}

/// Whether all ports of a part are let in.
#[inline(always)]
fn is_all(table: &[u32], part: u32) -> bool
    requires table { length table.now ≡ table_words }
    requires part { part < 6 }
    ensures { result ≡ is_all table.now part }
{
    slot_bit(table, 262_144 + part as usize) != 0
}

/// Whether a port is let in.
#[inline(always)]
fn is_open(table: &[u32], part: u32, port: u16) -> bool
    requires table { length table.now ≡ table_words }
    requires part { part < 4 }
    ensures { result ≡ is_open table.now part port }
{
    is_all(table, part) || slot_bit(table, 65_536 * part as usize + usize::from(port)) != 0
}

/// A table in which nothing is let in but what the headers of these rules fit.
pub fn door_table(alloc: Global, rules: &[RuleHead]) -> Result<Vec<u32>, NoMemory>
    ensures { IfOk result (λ table. Guards table.items rules.now) }
{
    let mut table = vec![in alloc; 0; TABLE_WORDS]?;
    open_rules(&mut table, rules);
    Ok(table)
}

/// Whether an item that carries this is let in.
#[tactic(auto, unfolding(crate::specs::Doors::lets_in))]
pub fn lets_in(table: &[u32], body: &Body) -> bool
    requires { length table.now ≡ table_words }
    ensures { result ≡ lets_in table.now body.now }
{
    match body {
        Body::Tcp(head) => is_open(table, TCP_FROM, head.sport)
            && is_open(table, TCP_TO, head.dport),
        Body::Stream { sport, dport } => is_open(table, TCP_FROM, *sport)
            && is_open(table, TCP_TO, *dport),
        Body::Udp { sport, dport } => is_open(table, UDP_FROM, *sport)
            && is_open(table, UDP_TO, *dport),
        Body::Icmp { .. } => is_all(table, ICMP),
        Body::Other | Body::Fragment => is_all(table, OTHER),
    }
}
