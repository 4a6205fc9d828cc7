//! The rules without a pattern, by the ports that they are asked for at.

ghost use Rattle.std.specs.Prelude.{◌≡◌, ◌<◌, ◌≤◌, length, IfOk, OnOk};
ghost use Rattle.fast_pattern.specs.Kinds.{is_plain};
ghost use Rattle.fast_pattern.specs.Sides.{is_ip, key_of, belongs_in, belongs_at, AreSoughtAt, AreFiled, IsSide};

use crate::blocks::push_blocks;
use crate::header::{RuleHead, Transport};
use crate::index::{IndexEntry, PortIndex, push_entries};
use edge_io::{NoMemory, Text};
use net_lists::PortPart;
use rule_types::Proto;
use std::alloc::{AllocError, Global};

/// The side of a packet whose port is looked at.
#[derive(Clone, Copy)]
pub enum PacketSide {
    Source,
    Destination,
}

/// The indexes of the two sides.
#[derive(Drop)]
pub struct Sides {
    pub source: PortIndex,
    pub destination: PortIndex,
}

fn is_ip(proto: Proto) -> bool
    ensures { result ≡ is_ip proto }
{
    matches!(proto, Proto::Ip)
}

/// The list of ports that tells.
#[tactic(auto, unfolding(crate::specs::Sides::key_of))]
fn key_of(asked: &RuleHead) -> &[PortPart]
    ensures { result.now ≡ key_of asked.now }
{
    if is_ip(asked.proto) {
        &[]
    } else if asked.dports.parts().is_empty() {
        asked.sports.parts()
    } else {
        asked.dports.parts()
    }
}

/// Whether the rule is in the index of a side.
#[tactic(auto, unfolding(crate::specs::Sides::belongs_in))]
fn belongs_in(side: PacketSide, asked: &RuleHead) -> bool
    ensures { result ≡ belongs_in side asked.now }
{
    let ip = is_ip(asked.proto);
    let from_any = asked.sports.parts().is_empty();
    let to_any = asked.dports.parts().is_empty();
    match side {
        PacketSide::Destination => ip || asked.both || !to_any || from_any,
        PacketSide::Source => !ip && if to_any { !from_any } else { asked.both },
    }
}

/// Whether the rule at a place has no pattern, and may fit the kind.
#[tactic(auto, unfolding(crate::specs::Kinds::is_plain))]
pub fn is_plain(rules: &[RuleHead], patterns: &[Text], kind: Transport, place: usize) -> bool
    requires { length rules.now ≡ length patterns.now }
    ensures { result ≡ is_plain rules.now patterns.now kind place }
{
    if rules.len() <= place {
        return false;
    }
    patterns[place].bytes().is_empty() && kind.has(rules[place].proto)
}

/// Whether the rule at a place has no pattern, may fit the kind, and is in the index of a side.
fn belongs_at(
    rules: &[RuleHead],
    patterns: &[Text],
    kind: Transport,
    side: PacketSide,
    place: usize,
) -> bool
    requires same { length rules.now ≡ length patterns.now }
    requires within { place < length rules.now }
    ensures { result ≡ belongs_at rules.now patterns.now kind side place }
{
    is_plain(rules, patterns, kind, place) && belongs_in(side, &rules[place])
}

/// The blocks at which a rule without a pattern is filed in the index of a side; none where it isn't.
fn blocks_at(
    alloc: Global,
    rules: &[RuleHead],
    patterns: &[Text],
    kind: Transport,
    side: PacketSide,
    place: usize,
) -> Result<Vec<u32>, AllocError>
    requires same { length rules.now ≡ length patterns.now }
    requires within { place < length rules.now }
    ensures { IfOk result (λ blocks. AreSoughtAt rules.now patterns.now kind side place blocks.items) }
{
    let mut blocks = Vec::new(alloc);
    if !belongs_at(rules, patterns, kind, side, place) {
        return Ok(blocks);
    }
    push_blocks(key_of(&rules[place]), 16, 0, &mut blocks)?;
    Ok(blocks)
}

/// The entries of the rules without a pattern that may fit the kind, for the index of a side.
fn entries_by(
    alloc: Global,
    rules: &[RuleHead],
    patterns: &[Text],
    kind: Transport,
    side: PacketSide,
) -> Result<Vec<IndexEntry>, AllocError>
    requires same { length rules.now ≡ length patterns.now }
    requires few { length rules.now ≤ 65536 }
    ensures { IfOk result (λ entries. AreFiled rules.now patterns.now kind side entries.items (length rules.now)) }
{
    let mut entries = Vec::new(alloc);
    for place in 0..rules.len() {
        let blocks = blocks_at(alloc, rules, patterns, kind, side, place)?;
        push_entries(&mut entries, &blocks, place as u32)?;
    }
    Ok(entries)
}

/// The index of a side.
fn index_by(
    alloc: Global,
    rules: &[RuleHead],
    patterns: &[Text],
    kind: Transport,
    side: PacketSide,
) -> Result<PortIndex, NoMemory>
    requires same { length rules.now ≡ length patterns.now }
    requires few { length rules.now ≤ 65536 }
    ensures { IfOk result (λ index. IsSide rules.now patterns.now kind side index) }
{
    let entries = entries_by(alloc, rules, patterns, kind, side)?;
    let index = PortIndex::of(alloc, entries)?;
    Ok(index)
}

impl Sides {
    ghost use Rattle.fast_pattern.specs.Sides.{AreSides, AddSought};

    /// The rules without a pattern that may fit the kind.
    pub fn of(
        alloc: Global,
        rules: &[RuleHead],
        patterns: &[Text],
        kind: Transport,
    ) -> Result<Sides, NoMemory>
        requires same { length rules.now ≡ length patterns.now }
        requires few { length rules.now ≤ 65536 }
        ensures { IfOk result (λ sides. AreSides rules.now patterns.now kind sides) }
    {
        Ok(Sides {
            source: index_by(alloc, rules, patterns, kind, PacketSide::Source)?,
            destination: index_by(alloc, rules, patterns, kind, PacketSide::Destination)?,
        })
    }

    /// Adds those that are asked for at the two ports; one that is asked for at both may come twice.
    pub fn push_places(
        &self,
        sport: u16,
        dport: u16,
        places: &mut Vec<u32>,
    ) -> Result<(), AllocError>
        ensures { OnOk result (AddSought self.now sport dport places.old.items places.new.items) }
    {
        self.source.push_places(sport, places)?;
        self.destination.push_places(dport, places)?;
        Ok(())
    }
}
