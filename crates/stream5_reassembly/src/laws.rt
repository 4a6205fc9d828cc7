//! Laws about what a direction holds, for callers: it is bounded by its limits alone.

ghost use Rattle.std.specs.Prelude.{◌≡◌, ℕ, ◌<◌, ◌≤◌, List, Some, length};
ghost use Rattle.overlap_core.specs.Pieces.{bytes_held, IsRow, Piece};
ghost use Rattle.stream5_reassembly.specs.Segments.{DirectionState, flushed_bytes, IsWithinLimits, top};

/// A direction holds few bytes. Where it is within its limits, as every call leaves it, a byte that waits lies fewer
/// than `bytes` places after the base (`places`). So pieces in a row from the base up to top, as its queue keeps them,
/// have at most `bytes` bytes together (`bytes`), and are no more than that (`pieces`).
pub fn held_bytes_are_few()
    ensures places { (direction : DirectionState) (place byte : ℕ) → IsWithinLimits direction
        → flushed_bytes direction place ≡ Some byte → place < direction.limits.bytes }
    ensures bytes { (direction : DirectionState) (pieces : List Piece) → IsWithinLimits direction
        → IsRow direction.place pieces (top direction) → bytes_held pieces ≤ direction.limits.bytes }
    ensures pieces { (direction : DirectionState) (pieces : List Piece) → IsWithinLimits direction
        → IsRow direction.place pieces (top direction) → length pieces ≤ direction.limits.bytes }
{}
