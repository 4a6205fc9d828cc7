//! An index of places by the ports that they are asked for at. A place is filed at each of the largest blocks
//! of ports that its list has whole, and a port looks at the 17 blocks that it lies in.
//!
//! It takes half a megabyte, and twelve bytes for each block of each place.

ghost use Rattle.std.specs.Prelude.{◌≡◌, ◌+◌, ◌^◌, ◌<◌, ◌≤◌, ◌==◌, ◌++◌, IfOk, OnOk};
ghost use Rattle.fast_pattern.specs.Blocks.{lies_in, AreBlocks, blocks_of, entry_at, entries_of};

use crate::blocks::{half_with, number};
use edge_io::NoMemory;
use pattern_search::{Owned, read};
use std::alloc::{AllocError, Global};

/// How many numbers blocks of ports have, 0 among them, which is none.
const BLOCKS: usize = 131072;

/// A place, at a block of the ports that it is asked for at.
#[derive(Clone, Copy)]
pub struct IndexEntry {
    pub block: u32,
    pub place: u32,
}

/// Which places are asked for at which ports: the entries, and a chain of them for each block, the last entry first.
#[derive(Drop)]
pub struct PortIndex {
    /// The places, each with a block; a place is there once for each of its blocks.
    pub entries: Vec<IndexEntry>,
    /// The last entry of each block: its place in the list, plus one.
    pub heads: Vec<u32>,
    /// The entry of the same block before each one: its place in the list, plus one.
    pub nexts: Vec<u32>,
}

/// The place of an entry; 0 where there is none.
fn place_at(entries: &[IndexEntry], at: usize) -> u32
    ensures { result ≡ (entry_at entries.now at).place }
{
    if entries.len() <= at {
        return 0;
    }
    entries[at].place
}

/// The blocks of the entries.
fn blocks_of(alloc: Global, entries: &[IndexEntry]) -> Result<Vec<u32>, AllocError>
    ensures { IfOk result (λ blocks. blocks.items ≡ blocks_of entries.now) }
{
    let mut blocks = Vec::new(alloc);
    for entry in entries {
        blocks.push(entry.block)?;
    }
    Ok(blocks)
}

/// Adds an entry of the place at each block.
pub fn push_entries(
    entries: &mut Vec<IndexEntry>,
    blocks: &[u32],
    place: u32,
) -> Result<(), AllocError>
    ensures { OnOk result (entries.new.items ≡ entries.old.items ++ entries_of place blocks.now) }
{
    for block in blocks {
        entries.push(IndexEntry {
            block: *block,
            place,
        })?;
    }
    Ok(())
}

impl PortIndex {
    ghost use Rattle.fast_pattern.specs.Blocks.{IsChained, AddFiled};

    /// The index of these entries.
    pub fn of(alloc: Global, entries: Vec<IndexEntry>) -> Result<PortIndex, NoMemory>
        requires { AreBlocks entries.items }
        ensures chained { IfOk result (λ index. IsChained index) }
        ensures entries { IfOk result (λ index. index.entries.items ≡ entries.items) }
    {
        let blocks = blocks_of(alloc, &entries)?;
        if blocks.len() >= u32::MAX as usize {
            return Err(NoMemory);
        }
        let owned = Owned::of(alloc, BLOCKS, &blocks)?;
        let Owned { firsts, sames } = owned;
        Ok(PortIndex {
            entries,
            heads: firsts,
            nexts: sames,
        })
    }

    /// Adds the places with an entry at the block.
    fn push_block(&self, block: u32, places: &mut Vec<u32>) -> Result<(), AllocError>
        requires some { 0 < block }
        requires short { block < 131072 }
        ensures { OnOk result (AddFiled self.now (λ other. other == block) places.old.items places.new.items) }
    {
        let mut at = read(&self.heads, block as usize);
        while at != 0 {
            places.push(place_at(&self.entries, at as usize - 1))?;
            at = read(&self.nexts, at as usize - 1).min(at - 1);
        }
        Ok(())
    }

    /// Adds the places with an entry at a block that the port lies in, of those within a block.
    fn push_within(
        &self,
        bits: u32,
        low: u32,
        port: u16,
        places: &mut Vec<u32>,
    ) -> Result<(), AllocError>
        requires bits { bits ≤ 16 }
        requires within { low + 2 ^ bits ≤ 65536 }
        ensures { OnOk result (AddFiled self.now (lies_in bits low port) places.old.items places.new.items) }
    {
        self.push_block(number(bits, low), places)?;
        if bits == 0 {
            return Ok(());
        }
        let half = half_with(bits - 1, low, port);
        self.push_within(bits - 1, half, port, places)?;
        Ok(())
    }

    /// Adds the places with an entry at a block that the port lies in.
    pub fn push_places(&self, port: u16, places: &mut Vec<u32>) -> Result<(), AllocError>
        ensures { OnOk result (AddFiled self.now (lies_in 16 0 port) places.old.items places.new.items) }
    {
        // Most protocols have no rule without a pattern: then no block is looked at.
        if self.entries.is_empty() {
            return Ok(());
        }
        self.push_within(16, 0, port, places)?;
        Ok(())
    }
}
