//! Pieces in order of place: cutting them, and laying a new segment over them.
ghost use Rattle.std.specs.Prelude.{◌≡◌, ℕ, ◌+◌, ◌-◌, ◌^◌, ◌<◌, ◌≤◌, ◌↔◌, ◌++◌, ◌∷◌, [], List, None, Some, IsTrue, IfOk, IfSome, MatchOption, OnOk, OnErr, OnSome, length, map, slice_get};
ghost use Rattle.overlap_core.specs.Overlap.{end_of};
ghost use Rattle.overlap_core.specs.Pieces.{IsRow, Piece as Kept, piece_end};
ghost use Rattle.overlap_core.specs.Rows.{BeginBelow, BeginFrom, cut_row, gap_piece, gap_size, gap_sizes, IsReady, IsRecut, laid, NextBelow, overlaid, parts, raised, Between};

use crate::arriving::Arriving;
use crate::{Bounds, Piece};
use edge_io::{NoMemory, Preference, Text};
use piece_list::PieceList;
use std::alloc::Global;
use std::collections::VecDeque;

/// Whether the list's place is at a piece that begins below `at`.
fn begins_below(pieces: &PieceList<Piece>, at: u64) -> bool
    ensures yes_at { IsTrue result → (piece : Kept) × (slice_get pieces.now.list pieces.now.place ≡ Some piece)
        × (piece.start < at) }
    ensures no_at { (piece : Kept) → slice_get pieces.now.list pieces.now.place ≡ Some piece → piece.start < at → IsTrue result }
{
    match pieces.peek() {
        Some(piece) => piece.start() < at,
        None => false,
    }
}

/// Moves back to a piece that begins below `at`, or to the first piece.
fn step_back(pieces: &mut PieceList<Piece>, at: u64)
    ensures list { pieces.new.list ≡ pieces.old.list }
    ensures spare { pieces.new.spare ≡ pieces.old.spare }
    ensures place { (front rest : List Kept) → pieces.old.list ≡ front ++ rest → BeginFrom at rest
        → pieces.new.place ≤ length front }
{
    while !begins_below(pieces, at) {
        if !pieces.prev() {
            return;
        }
    }
}

/// Moves on past the pieces that begin below `at`.
fn step_on(pieces: &mut PieceList<Piece>, at: u64)
    ensures list { pieces.new.list ≡ pieces.old.list }
    ensures spare { pieces.new.spare ≡ pieces.old.spare }
    ensures place { (front rest : List Kept) → pieces.old.list ≡ front ++ rest → BeginBelow at front → BeginFrom at rest
        → pieces.old.place ≤ length front → pieces.new.place ≡ length front }
{
    while begins_below(pieces, at) {
        pieces.next();
    }
}

/// Moves to the first piece that begins at `at` or after it, or to the end: from where the list
/// is, so that what is near is found in a few steps.
pub fn seek(pieces: &mut PieceList<Piece>, at: u64)
    ensures list { pieces.new.list ≡ pieces.old.list }
    ensures spare { pieces.new.spare ≡ pieces.old.spare }
    ensures place { (front rest : List Kept) → pieces.old.list ≡ front ++ rest → BeginBelow at front → BeginFrom at rest
        → pieces.new.place ≡ length front }
{
    step_back(pieces, at);
    step_on(pieces, at);
}

/// Cuts the piece before the place, if it has `at` inside. The place is then at that piece or its left part. At
/// an error only the place has changed.
fn cut_before(alloc: Global, pieces: &mut PieceList<Piece>, at: u64) -> Result<(), NoMemory>
    requires { 0 < pieces.old.spare }
    ensures ok { OnOk result ((front rest : List Kept) (last : Kept) → Between pieces.old (front ++ last ∷ []) rest
        → pieces.new.list ≡ front ++ (parts at last ++ rest)) }
    ensures first { OnOk result (pieces.old.place ≡ 0 → pieces.new.list ≡ pieces.old.list) }
    ensures err { OnErr result (pieces.new.list ≡ pieces.old.list) }
{
    if !pieces.prev() {
        return Ok(());
    }
    let (left, right) = match pieces.peek() {
        Some(piece) if piece.start() < at && at < piece.end() => {
            (piece.left(alloc, at)?, piece.right(alloc, at)?)
        }
        _ => return Ok(()),
    };
    drop(pieces.remove_here());
    pieces.insert_here(right);
    pieces.insert_here(left);
    Ok(())
}

/// Cuts the pieces at `at`. At an error only the place has changed.
pub fn cut(alloc: Global, pieces: &mut PieceList<Piece>, at: u64) -> Result<(), NoMemory>
    ensures ok { OnOk result ((low high : ℕ) → IsRow low pieces.old.list high → pieces.new.list ≡ cut_row at pieces.old.list) }
    ensures err { OnErr result (pieces.new.list ≡ pieces.old.list) }
    ensures recut { (low high : ℕ) → IsRow low pieces.old.list high → IsRecut low high pieces.old.list pieces.new.list }
{
    pieces.reserve(1)?;
    seek(pieces, at);
    cut_before(alloc, pieces, at)
}

/// The bounds of the piece at the place, if it begins below `high`.
fn next_below(pieces: &PieceList<Piece>, high: u64) -> Option<Bounds>
    ensures next { (front rest : List Kept) → Between pieces.now front rest → NextBelow rest high result }
    ensures here { OnSome result (pieces.now.place < length pieces.now.list) }
{
    match pieces.peek() {
        Some(piece) if piece.start() < high => Some(Bounds {
            start: piece.start(),
            end: piece.end(),
        }),
        _ => None,
    }
}

/// Adds a buffer for a gap, if there is one.
fn add_buffer(
    alloc: Global,
    buffers: &mut VecDeque<Text>,
    low: u64,
    high: u64,
) -> Result<(), NoMemory>
    ensures { OnOk result (map length buffers.new.items ≡ map length buffers.old.items ++ gap_size low high) }
{
    if low < high {
        let buffer = Text::from_vec(vec![in alloc; 0; (high - low) as usize]?);
        buffers.push_back(buffer)?;
    }
    Ok(())
}

/// A buffer for each gap between the pieces from the place on, from `low` on and below `high`.
pub fn buffers_for(
    alloc: Global,
    pieces: &mut PieceList<Piece>,
    low: u64,
    high: u64,
) -> Result<VecDeque<Text>, NoMemory>
    ensures list { pieces.new.list ≡ pieces.old.list }
    ensures sizes { IfOk result (λ buffers. (front rest : List Kept) (top : ℕ) → Between pieces.old front rest
        → IsRow low rest top → map length buffers.items ≡ gap_sizes low high rest) }
{
    let mut buffers = VecDeque::new(alloc);
    let mut low = low;
    while let Some(next) = next_below(pieces, high) {
        add_buffer(alloc, &mut buffers, low, next.start)?;
        low = next.end;
        pieces.next();
    }
    add_buffer(alloc, &mut buffers, low, high)?;
    Ok(buffers)
}

/// Fills the gap from `low` on and below `high`, if there is one, and is then after it.
fn fill_gap(
    pieces: &mut PieceList<Piece>,
    buffers: &mut VecDeque<Text>,
    new: &Arriving<'_>,
    low: u64,
    high: u64,
)
    requires from { new.now.start ≤ low }
    requires to { high ≤ end_of new.now }
    requires ready { (sizes : List ℕ) × (map length buffers.old.items ≡ gap_size low high ++ sizes) }
    requires nodes { length buffers.old.items ≤ pieces.old.spare }
    ensures list { (front rest : List Kept) → Between pieces.old front rest
        → Between pieces.new (front ++ gap_piece new.now low high) rest }
    ensures sizes { (sizes : List ℕ) → map length buffers.old.items ≡ gap_size low high ++ sizes
        → map length buffers.new.items ≡ sizes }
    ensures left { length buffers.new.items ≤ pieces.new.spare }
{
    if low < high
        && let Some(buffer) = buffers.pop_front()
    {
        pieces.insert_here(Piece::of(new, low, buffer));
        pieces.next();
    }
}

/// Lays the new segment over the piece at the place, and is then after it.
fn overlay(pieces: &mut PieceList<Piece>, preference: Preference, new: &Arriving<'_>)
    ensures list { (front rest : List Kept) (piece : Kept) → Between pieces.old front (piece ∷ rest)
        → Between pieces.new (front ++ overlaid preference new.now piece ∷ []) rest }
    ensures spare { pieces.old.spare ≤ pieces.new.spare }
{
    if let Some(piece) = pieces.remove_here() {
        pieces.insert_here(piece.overlaid(preference, new));
        pieces.next();
    }
}

/// Lays the new segment over the pieces from the place on, from `low` on.
pub fn lay(
    pieces: &mut PieceList<Piece>,
    buffers: VecDeque<Text>,
    preference: Preference,
    new: &Arriving<'_>,
    low: u64,
)
    requires from { new.now.start ≤ low }
    requires ready { IsReady pieces.old buffers.items low (end_of new.now) }
    ensures { (front rest : List Kept) → Between pieces.old front rest
        → pieces.new.list ≡ front ++ laid preference new.now low rest }
{
    let (mut buffers, mut low) = (buffers, low);
    let high = new.bounds().end;
    while let Some(next) = next_below(pieces, high) {
        fill_gap(pieces, &mut buffers, new, low, next.start);
        overlay(pieces, preference, new);
        low = next.end;
    }
    fill_gap(pieces, &mut buffers, new, low, high);
}

/// Gives up the pieces below a later floor, and is then at the last, near which the next segment mostly
/// lies.
pub fn raise(pieces: &mut PieceList<Piece>, below: u64)
    ensures { pieces.new.list ≡ raised below pieces.old.list }
{
    drop_below(pieces, below);
    pieces.back();
}

/// Gives up the pieces below a place.
fn drop_below(pieces: &mut PieceList<Piece>, below: u64)
    ensures { pieces.new.list ≡ raised below pieces.old.list }
{
    pieces.front();
    while let Some(piece) = pieces.remove_here() {
        if below < piece.end() {
            pieces.insert_here(piece.from_place(below));
            return;
        }
    }
}
