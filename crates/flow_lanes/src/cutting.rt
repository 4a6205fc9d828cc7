//! Runs of bytes, cut into the payloads of stream items.

ghost use Rattle.std.specs.Prelude.{◌≡◌, ◌+◌, ◌-◌, ◌*◌, ◌/◌, ◌++◌, ◌∷◌, [], ◌<◌, length, drop, take, map, IfOk, IsTrue, OnOk};
ghost use Rattle.std.specs.List.{range_with_len};
ghost use Rattle.flow_lanes.specs.Streams.{item_size, parts_of, payloads_of};

use edge_io::{Items, NoMemory, Text};
use overlap_core::Run;
use std::alloc::Global;
use stream5_sessions::End;

/// The most bytes of a stream item.
const ITEM_SIZE: usize = 16384;

/// Payloads of one side's data, in order, and the ends that send and receive them.
#[derive(Drop)]
pub(crate) struct Stretch {
    pub from: End,
    pub to: End,
    pub payloads: Items<Text>,
}

/// The part of this number, copied.
fn part_at(alloc: Global, bytes: &[u8], part: usize) -> Result<Text, NoMemory>
    requires { part * item_size < length bytes.now }
    ensures { IfOk result (λ text. text ≡ take item_size (drop (part * item_size) bytes.now)) }
{
    let (_, rest) = bytes.split_at(part * ITEM_SIZE);
    let (front, _) = rest.split_at(rest.len().min(ITEM_SIZE));
    let text = Text::copy(alloc, front)?;
    Ok(text)
}

/// Appends the first `count` parts.
fn cut_parts(alloc: Global, bytes: &[u8], count: usize, out: &mut Vec<Text>) -> Result<(), NoMemory>
    requires { count ≡ (length bytes.now + (item_size - 1)) / item_size }
    ensures { OnOk result (out.new.items ≡ out.old.items
        ++ map (λ part. take item_size (drop (part * item_size) bytes.now)) (range_with_len 0 count)) }
{
    for part in 0..count {
        let text = part_at(alloc, bytes, part)?;
        out.push(text)?;
    }
    Ok(())
}

/// Whether bytes are one part by themselves: there are some, and not too many.
pub(crate) fn is_one_part(bytes: &[u8]) -> bool
    ensures { IsTrue result → parts_of item_size bytes.now ≡ bytes.now ∷ [] }
{
    !bytes.is_empty() && bytes.len() <= ITEM_SIZE
}

/// Cuts bytes from their start into parts of `ITEM_SIZE` at most, and appends the parts.
#[tactic(auto, unfolding(crate::specs::Streams::parts_of))]
pub(crate) fn cut(alloc: Global, bytes: &[u8], out: &mut Vec<Text>) -> Result<(), NoMemory>
    ensures { OnOk result (out.new.items ≡ out.old.items ++ parts_of item_size bytes.now) }
{
    let count = (bytes.len() + (ITEM_SIZE - 1)) / ITEM_SIZE;
    cut_parts(alloc, bytes, count, out)?;
    Ok(())
}

/// The runs, each cut.
pub(crate) fn cut_runs(alloc: Global, runs: Vec<Run>) -> Result<Items<Text>, NoMemory>
    ensures { IfOk result (λ payloads. payloads ≡ payloads_of runs.items) }
{
    let mut out = Vec::new(alloc);
    for run in runs {
        cut_run(alloc, run.bytes, &mut out)?;
    }
    Ok(Items::from_vec(out))
}

/// Appends the parts of a run: the run itself, without a copy, where that is one.
fn cut_run(alloc: Global, run: Text, out: &mut Vec<Text>) -> Result<(), NoMemory>
    ensures { OnOk result (out.new.items ≡ out.old.items ++ parts_of item_size run) }
{
    if is_one_part(run.bytes()) {
        out.push(run)?;
        return Ok(());
    }
    cut(alloc, run.bytes(), out)
}
