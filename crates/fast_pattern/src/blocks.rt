//! Blocks of ports: all of them, their halves, and so on down to single ports.
//!
//! A list of ports has the largest blocks that it has whole: at most 32 a part, and one for `any`.

ghost use Rattle.std.specs.Prelude.{◌≡◌, ◌+◌, ◌*◌, ◌^◌, ◌≤◌, OnOk};
ghost use Rattle.fast_pattern.specs.Blocks.{number, half_with, has_whole, meets, verdict, AddBlocks};

use net_lists::PortPart;
use std::alloc::AllocError;

/// How many ports a block with this many bits has.
fn size(bits: u32) -> u32
    requires { bits ≤ 16 }
    ensures { result ≡ 2 ^ bits }
{
    1 << bits
}

/// The number of a block, by where it begins.
pub fn number(bits: u32, low: u32) -> u32
    requires bits { bits ≤ 16 }
    requires within { low + 2 ^ bits ≤ 65536 }
    ensures { result ≡ number bits low }
{
    2 * low + size(bits)
}

/// Where the half of a block begins that has the port, by the bits of the halves.
pub fn half_with(bits: u32, low: u32, port: u16) -> u32
    requires bits { bits ≤ 15 }
    requires within { low + 2 * 2 ^ bits ≤ 65536 }
    ensures { result ≡ half_with bits low port }
{
    let middle = low + size(bits);
    if u32::from(port) < middle {
        low
    } else {
        middle
    }
}

/// How much of a block a list has, as far as its parts tell without being put together.
#[derive(Clone, Copy)]
struct Share {
    /// All ports.
    all: bool,
    /// Some ports, it may be.
    some: bool,
}

/// What the list has of the ports from one to another.
#[tactic(auto, unfolding(crate::specs::Blocks::verdict))]
fn share_of(parts: &[PortPart], low: u32, high: u32) -> Share
    ensures all { result.all ≡ verdict (has_whole low high) (meets low high) parts.now }
    ensures some { result.some ≡ verdict (meets low high) (has_whole low high) parts.now }
{
    let mut negated = true;
    let mut has_whole = false;
    let mut has_some = false;
    let mut lacks_whole = false;
    let mut lacks_some = false;
    for part in parts {
        let (first, last) = (u32::from(part.bounds.low), u32::from(part.bounds.high));
        let whole = (first <= low) & (high <= last);
        let meets = (first <= high) & (low <= last);
        negated = negated & part.negated;
        has_whole = has_whole | (!part.negated & whole);
        has_some = has_some | (!part.negated & meets);
        lacks_whole = lacks_whole | (part.negated & whole);
        lacks_some = lacks_some | (part.negated & meets);
    }
    Share {
        all: (has_whole | negated) & !lacks_some,
        some: (has_some | negated) & !lacks_whole,
    }
}

/// Adds the numbers of the largest blocks that the list has whole, of those within a block.
pub fn push_blocks(
    parts: &[PortPart],
    bits: u32,
    low: u32,
    blocks: &mut Vec<u32>,
) -> Result<(), AllocError>
    requires bits { bits ≤ 16 }
    requires within { low + 2 ^ bits ≤ 65536 }
    ensures { OnOk result (AddBlocks parts.now bits low blocks.old.items blocks.new.items) }
{
    let share = share_of(parts, low, low + size(bits) - 1);
    if share.all {
        blocks.push(number(bits, low))?;
        return Ok(());
    }
    if !share.some || bits == 0 {
        return Ok(());
    }
    push_blocks(parts, bits - 1, low, blocks)?;
    push_blocks(parts, bits - 1, low + size(bits - 1), blocks)?;
    Ok(())
}
