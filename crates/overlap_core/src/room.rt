//! Memory for a segment before it comes, so that laying it over the pieces can't fail.
ghost use Rattle.std.specs.Prelude.{◌≡◌, ℕ, ◌+◌, ◌<◌, ◌≤◌, ◌++◌, ◌∷◌, [], List, IfOk, OnErr, OnOk, length, max};
ghost use Rattle.overlap_core.specs.Overlap.{bounds_of, end_of};
ghost use Rattle.overlap_core.specs.Segments.{Segment};
ghost use Rattle.overlap_core.specs.Pieces.{HoldChosen, IsRow};
ghost use Rattle.overlap_core.specs.Rows.{IsRecut, IsRoomAmong, IsRoomFor, part_of};

use crate::arriving::Arriving;
use crate::row::{buffers_for, cut, lay, seek};
use crate::{Bounds, Piece};
use edge_io::{NoMemory, Preference, Text};
use piece_list::PieceList;
use std::alloc::Global;
use std::collections::VecDeque;

/// Memory for the bytes of one segment.
#[derive(Drop)]
pub enum Buffers {
    /// The segment lies after all pieces: one buffer.
    AfterAll(Text),
    /// The segment may lie anywhere: a buffer for each gap that it fills.
    Among(VecDeque<Text>),
}

/// Makes room for a segment of these bounds over pieces that end at `top` at the latest. What the
/// pieces tell stays in either case.
pub fn room_for(
    alloc: Global,
    pieces: &mut PieceList<Piece>,
    floor: u64,
    top: u64,
    bounds: Bounds,
) -> Result<Buffers, NoMemory>
    requires { bounds.start ≤ bounds.end }
    ensures recut { (low high : ℕ) → IsRow low pieces.old.list high → IsRecut low high pieces.old.list pieces.new.list }
    ensures room { IfOk result (λ buffers. IsRow floor pieces.old.list top → IsRoomFor floor top bounds pieces.new buffers) }
{
    if top <= bounds.start {
        let buffer = room_after(alloc, pieces, bounds)?;
        return Ok(Buffers::AfterAll(buffer));
    }
    let buffers = room_among(alloc, pieces, floor, bounds)?;
    Ok(Buffers::Among(buffers))
}

/// Makes room for a segment of these bounds after all pieces: a node, and a buffer of its length.
fn room_after(
    alloc: Global,
    pieces: &mut PieceList<Piece>,
    bounds: Bounds,
) -> Result<Text, NoMemory>
    requires { bounds.start ≤ bounds.end }
    ensures list { pieces.new.list ≡ pieces.old.list }
    ensures size { IfOk result (λ buffer. bounds.start + length buffer ≡ bounds.end) }
    ensures node { OnOk result (0 < pieces.new.spare) }
{
    pieces.reserve(1)?;
    let buffer = Text::from_vec(vec![in alloc; 0; (bounds.end - bounds.start) as usize]?);
    Ok(buffer)
}

/// Makes room for a segment of these bounds: cuts the pieces where its places from the floor on begin
/// and end, and gives a buffer for each gap between them. What the pieces tell stays in either case.
fn room_among(
    alloc: Global,
    pieces: &mut PieceList<Piece>,
    floor: u64,
    bounds: Bounds,
) -> Result<VecDeque<Text>, NoMemory>
    ensures recut { (low high : ℕ) → IsRow low pieces.old.list high → IsRecut low high pieces.old.list pieces.new.list }
    ensures room { IfOk result (λ buffers. (top : ℕ) → IsRow floor pieces.old.list top
        → IsRoomAmong floor bounds pieces.new buffers.items) }
{
    let low = floor.max(bounds.start);
    cut(alloc, pieces, low)?;
    cut(alloc, pieces, bounds.end)?;
    seek(pieces, low);
    let buffers = buffers_for(alloc, pieces, low, bounds.end)?;
    pieces.reserve(buffers.len())?;
    Ok(buffers)
}

/// Lays a segment, for which there is room, over the pieces from the floor on. Takes no memory.
pub fn lay_over(
    pieces: &mut PieceList<Piece>,
    buffers: Buffers,
    preference: Preference,
    floor: u64,
    new: &Arriving<'_>,
)
    requires some { 0 < length new.now.bytes }
    requires room { (top : ℕ) × IsRow floor pieces.old.list top × IsRoomFor floor top (bounds_of new.now) pieces.old buffers }
    ensures row { (top : ℕ) → IsRow floor pieces.old.list top → IsRow floor pieces.new.list (max top (end_of new.now)) }
    ensures holds { (top : ℕ) (segments : List Segment) → IsRow floor pieces.old.list top
        → HoldChosen preference segments floor pieces.old.list
        → HoldChosen preference (segments ++ new.now ∷ []) floor pieces.new.list }
{
    match buffers {
        Buffers::AfterAll(buffer) => lay_after(pieces, buffer, new),
        Buffers::Among(buffers) => lay_among(pieces, buffers, preference, floor, new),
    }
}

/// Puts a segment after the last piece. Takes no memory.
fn lay_after(pieces: &mut PieceList<Piece>, buffer: Text, new: &Arriving<'_>)
    requires size { new.now.start + length buffer ≡ end_of new.now }
    requires node { 0 < pieces.old.spare }
    ensures { pieces.new.list ≡ pieces.old.list ++ part_of new.now new.now.start (end_of new.now) ∷ [] }
{
    let start = new.bounds().start;
    pieces.push_back(Piece::of(new, start, buffer));
}

/// Puts a segment after the last piece without room that was made before. Without memory the list stays.
pub fn add_after(
    alloc: Global,
    pieces: &mut PieceList<Piece>,
    new: &Arriving<'_>,
) -> Result<(), NoMemory>
    ensures ok { OnOk result (pieces.new.list ≡ pieces.old.list ++ part_of new.now new.now.start (end_of new.now) ∷ []) }
    ensures err { OnErr result (pieces.new.list ≡ pieces.old.list) }
{
    let piece = Piece::copy(alloc, new)?;
    pieces.reserve(1)?;
    pieces.push_back(piece);
    Ok(())
}

/// Lays a segment over the pieces from the floor on, wherever it lies. Takes no memory.
fn lay_among(
    pieces: &mut PieceList<Piece>,
    buffers: VecDeque<Text>,
    preference: Preference,
    floor: u64,
    new: &Arriving<'_>,
)
    requires row { (top : ℕ) × IsRow floor pieces.old.list top }
    requires room { IsRoomAmong floor (bounds_of new.now) pieces.old buffers.items }
    ensures row { (top : ℕ) → IsRow floor pieces.old.list top → IsRow floor pieces.new.list (max top (end_of new.now)) }
    ensures holds { (top : ℕ) (segments : List Segment) → IsRow floor pieces.old.list top
        → HoldChosen preference segments floor pieces.old.list
        → HoldChosen preference (segments ++ new.now ∷ []) floor pieces.new.list }
{
    let low = floor.max(new.bounds().start);
    seek(pieces, low);
    lay(pieces, buffers, preference, new, low);
}
