//! Bytes of many places: one byte, whole ranges, and the maximal runs of covered places.
ghost use Rattle.std.specs.Prelude.{◌≡◌, ℕ, ◌+◌, ◌-◌, ◌^◌, ◌<◌, ◌≤◌, ◌↔◌, ◌++◌, ◌∷◌, [], List, length, take, IfOk, IsTrue, IsSome, OnOk, OnErr, vec_len, vec_capacity};
ghost use Rattle.std.specs.Bool.{OnTrue};
ghost use Rattle.overlap_core.specs.Pieces.{bytes_held, IsRow, Piece as Kept, piece_end};
ghost use Rattle.overlap_core.specs.Joined.{byte_in, end_of_run, FirstFrom, run_of, with_run};
ghost use Rattle.overlap_core.specs.Rows.{raised};
ghost use Rattle.overlap_core.specs.Runs.{AppendsBytes, AppendsRuns, AreBytes, AreRuns};

use crate::row::raise;
use crate::{Piece, Run};
use edge_io::{NoMemory, Text};
use piece_list::{Iter, PieceList};
use std::alloc::Global;

/// The byte that a piece has at the place, if one does.
pub fn byte_of(pieces: &PieceList<Piece>, place: u64) -> Option<u8>
    ensures { result ≡ byte_in pieces.now.list place }
{
    let mut rest = pieces.iter();
    while let Some(piece) = rest.next() {
        if piece.start() <= place && place < piece.end() {
            return Some(piece.bytes()[(place - piece.start()) as usize]);
        }
    }
    None
}

/// Whether every place from the floor on has a byte, as many places as `out` is long; then `out`
/// holds these bytes.
pub fn filled(pieces: &PieceList<Piece>, floor: u64, out: &mut [u8]) -> bool
    requires fits { floor + length out.old < 2 ^ 64 }
    ensures whole { (top : ℕ) → IsRow floor pieces.now.list top → IsTrue result
        ↔ ((k : ℕ) → k < length out.old → IsSome (byte_in pieces.now.list (floor + k))) }
    ensures bytes { (top : ℕ) → IsRow floor pieces.now.list top
        → OnTrue result (AreBytes (byte_in pieces.now.list) floor out.new) }
{
    let mut rest = pieces.iter();
    let mut done = 0;
    while done < out.len() {
        let Some(piece) = rest.next() else {
            return false;
        };
        if piece.start() != floor + done as u64 {
            return false;
        }
        let bytes = piece.bytes();
        let count = bytes.len().min(out.len() - done);
        out[done..done + count].copy_from_slice(&bytes[..count]);
        done += count;
    }
    true
}

/// Whether every place from the floor on has a byte, `len` places; then `out`, which has room for them, ends
/// with these bytes. What was in `out` stays its front.
pub fn append_places(pieces: &PieceList<Piece>, floor: u64, len: usize, out: &mut Vec<u8>) -> bool
    requires fits { floor + len < 2 ^ 64 }
    requires room { vec_len out.old + len ≤ vec_capacity out.old }
    ensures whole { (top : ℕ) → IsRow floor pieces.now.list top → IsTrue result
        ↔ ((k : ℕ) → k < len → IsSome (byte_in pieces.now.list (floor + k))) }
    ensures bytes { (top : ℕ) → IsRow floor pieces.now.list top
        → OnTrue result (AppendsBytes (byte_in pieces.now.list) floor len out.old.items out.new.items) }
    ensures front { take (vec_len out.old) out.new.items ≡ out.old.items }
{
    let mut rest = pieces.iter();
    let mut done = 0;
    while done < len {
        let Some(piece) = rest.next() else {
            return false;
        };
        let place = floor + done as u64;
        if piece.start() != place {
            return false;
        }
        let bytes = piece.bytes();
        let count = bytes.len().min(len - done);
        append(out, &bytes[..count]);
        done += count;
    }
    true
}

/// Appends bytes for which there is room.
fn append(out: &mut Vec<u8>, bytes: &[u8])
    requires { vec_len out.old + length bytes.now ≤ vec_capacity out.old }
    ensures items { out.new.items ≡ out.old.items ++ bytes.now }
    ensures len { vec_len out.new ≡ vec_len out.old + length bytes.now }
    ensures room { vec_capacity out.old ≤ vec_capacity out.new }
{
    match out.extend_from_slice(bytes) {
        Ok(()) => {}
        // There is room, as the caller has to see to.
        Err(_) => unreachable!(),
    }
}

/// Appends the maximal runs of places that the pieces have below a place, in order, and gives up what
/// they have there. Where that is one whole piece its bytes are moved, otherwise they are copied. Without
/// memory the pieces and `out` stay.
pub fn take_below(
    alloc: Global,
    pieces: &mut PieceList<Piece>,
    below: u64,
    out: &mut Vec<Run>,
) -> Result<(), NoMemory>
    ensures runs { OnOk result ((floor top : ℕ) → IsRow floor pieces.old.list top → floor ≤ below
        → AppendsRuns (byte_in pieces.old.list) floor below out.old.items out.new.items) }
    ensures list { OnOk result (pieces.new.list ≡ raised below pieces.old.list) }
    ensures err { OnErr result (pieces.new ≡ pieces.old) }
    ensures unchanged { OnErr result (out.new.items ≡ out.old.items) }
{
    if is_one_piece(pieces, below) {
        take_first(pieces, below, out)?;
        return Ok(());
    }
    append_runs(alloc, pieces, below, out)?;
    raise(pieces, below);
    Ok(())
}

/// Whether the first piece, whole, is all that the pieces have below a place.
fn is_one_piece(pieces: &PieceList<Piece>, below: u64) -> bool
    ensures { IsTrue result → (first : Kept) × (rest : List Kept) × (pieces.now.list ≡ first ∷ rest)
        × (piece_end first ≤ below) × FirstFrom below rest }
{
    let mut rest = pieces.iter();
    let Some(first) = rest.next() else {
        return false;
    };
    if below < first.end() {
        return false;
    }
    match rest.next() {
        Some(piece) => below <= piece.start(),
        None => true,
    }
}

/// Moves the first piece out, as a run, and gives up what the others have below a place. Without memory
/// the pieces and `out` stay.
fn take_first(pieces: &mut PieceList<Piece>, below: u64, out: &mut Vec<Run>) -> Result<(), NoMemory>
    ensures ok { OnOk result ((first : Kept) (rest : List Kept) → pieces.old.list ≡ first ∷ rest
        → (pieces.new.list ≡ raised below rest) × (out.new.items ≡ out.old.items ++ run_of first ∷ [])) }
    ensures err { OnErr result (pieces.new ≡ pieces.old) }
    ensures unchanged { OnErr result (out.new.items ≡ out.old.items) }
{
    out.reserve(1)?;
    move_first(pieces, out);
    raise(pieces, below);
    Ok(())
}

/// Moves the first piece out, as a run, for which there is room.
fn move_first(pieces: &mut PieceList<Piece>, out: &mut Vec<Run>)
    requires { vec_len out.old < vec_capacity out.old }
    ensures { (first : Kept) (rest : List Kept) → pieces.old.list ≡ first ∷ rest
        → (pieces.new.list ≡ rest) × (out.new.items ≡ out.old.items ++ run_of first ∷ []) }
{
    pieces.front();
    if let Some(piece) = pieces.remove_here() {
        match out.push(piece.into_run()) {
            Ok(()) => {}
            // There is room, as the caller has to see to.
            Err(_) => unreachable!(),
        }
    }
}

/// Appends the maximal runs of places that the pieces have below a place, in order.
fn append_runs(
    alloc: Global,
    pieces: &PieceList<Piece>,
    below: u64,
    out: &mut Vec<Run>,
) -> Result<(), NoMemory>
    ensures ok { OnOk result ((floor top : ℕ) → IsRow floor pieces.now.list top → floor ≤ below
        → AppendsRuns (byte_in pieces.now.list) floor below out.old.items out.new.items) }
    ensures err { OnErr result (out.new.items ≡ out.old.items) }
{
    let mut runs = joined(alloc, pieces, below)?;
    if out.is_empty() {
        *out = runs;
        return Ok(());
    }
    out.append(&mut runs)?;
    Ok(())
}

/// The maximal runs of places that the pieces have below a place, in order. The first, mostly the only
/// one, has a buffer of its length.
fn joined(alloc: Global, pieces: &PieceList<Piece>, below: u64) -> Result<Vec<Run>, NoMemory>
    ensures { IfOk result (λ runs. (floor top : ℕ) → IsRow floor pieces.now.list top → floor ≤ below
        → AreRuns (byte_in pieces.now.list) floor below runs.items) }
{
    let room = first_run_len(pieces, below);
    let mut runs = Vec::new(alloc);
    let mut rest = pieces.iter();
    while let Some(piece) = rest.next() {
        if below <= piece.start() {
            return Ok(runs);
        }
        let bytes = bytes_below(piece, below);
        add_run(alloc, &mut runs, room, piece.start(), bytes)?;
    }
    Ok(runs)
}

/// How long the buffer of the first run below a place is to be: never longer than what the pieces have.
fn first_run_len(pieces: &PieceList<Piece>, below: u64) -> usize
    ensures { result ≤ bytes_held pieces.now.list }
{
    let mut rest = pieces.iter();
    let Some(first) = rest.next() else {
        return 0;
    };
    let end = run_end(first.end(), rest, below).min(below);
    end.saturating_sub(first.start()) as usize
}

/// Where a run ends that has come to `end`, with these pieces after it; only so far as `below` asks.
fn run_end(end: u64, rest: Iter<'_, Piece>, below: u64) -> u64
    ensures { result ≤ end + bytes_held rest.entry }
{
    let (mut end, mut rest) = (end, rest);
    while let Some(piece) = rest.next() {
        if below <= end || piece.start() != end {
            return end;
        }
        end = piece.end();
    }
    end
}

/// The piece's bytes below a place after its start.
fn bytes_below(piece: &Piece, below: u64) -> &[u8]
    requires { piece.now.start ≤ below }
    ensures { result.now ≡ take (below - piece.now.start) piece.now.bytes }
{
    let count = (below - piece.start()) as usize;
    let bytes = piece.bytes();
    &bytes[..count.min(bytes.len())]
}

/// Adds bytes after runs: to the last, where that ends at their start, or as a run of their own. The
/// first run gets a buffer with room for `room` bytes.
fn add_run(
    alloc: Global,
    runs: &mut Vec<Run>,
    room: usize,
    start: u64,
    bytes: &[u8],
) -> Result<(), NoMemory>
    ensures { OnOk result (runs.new.items ≡ with_run runs.old.items start bytes.now) }
{
    let Some(last) = runs.pop() else {
        return push_run(alloc, runs, room, start, bytes);
    };
    if ends_at(&last, start) {
        let Run {
            start,
            bytes: front,
        } = last;
        let mut whole = front.into_vec();
        whole.extend_from_slice(bytes)?;
        runs.push(Run {
            start,
            bytes: Text::from_vec(whole),
        })?;
        return Ok(());
    }
    runs.push(last)?;
    push_run(alloc, runs, bytes.len(), start, bytes)
}

/// Adds bytes after runs as a run of their own, in a buffer with room for `room` bytes.
fn push_run(
    alloc: Global,
    runs: &mut Vec<Run>,
    room: usize,
    start: u64,
    bytes: &[u8],
) -> Result<(), NoMemory>
    ensures { OnOk result (runs.new.items ≡ runs.old.items ++ record { start = start; bytes = bytes.now } ∷ []) }
{
    let mut buffer = Vec::with_capacity(alloc, room)?;
    buffer.extend_from_slice(bytes)?;
    runs.push(Run {
        start,
        bytes: Text::from_vec(buffer),
    })?;
    Ok(())
}

/// Whether the run ends at the place.
fn ends_at(run: &Run, place: u64) -> bool
    ensures { IsTrue result ↔ (end_of_run run.now ≡ place) }
{
    run.start <= place && place - run.start == run.bytes.bytes().len() as u64
}
