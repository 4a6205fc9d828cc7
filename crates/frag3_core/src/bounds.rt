//! Laws about what waits, for callers: it is bounded by the limit alone, whatever fragments come.

ghost use Rattle.std.specs.Prelude.{ℕ, ◌*◌, ◌<◌, ◌≤◌, All, List, length};
ghost use Rattle.std.specs.Map.{values_of};
ghost use Rattle.overlap_core.specs.Overlap.{covered_end};
ghost use Rattle.frag3_core.specs.Held.{held_bytes, longest};
ghost use Rattle.frag3_core.specs.Trackers.{Fragment, held_count, state_after, TrackerState};

/// Where at most `most` fragments may be held, at most `most` wait after whatever fragments came (`fragments`), of as
/// many datagrams at most (`datagrams`). None of a datagram ends after place 65535, so no more than 65,535 of its places
/// have a byte (`places`); and all fragments that wait have together at most `most` times 65,535 bytes (`bytes`).
pub fn held_fragments_are_few()
    ensures fragments { (most : ℕ) (fragments : List Fragment) → 0 < most
        → held_count (state_after most fragments).trackers ≤ most }
    ensures datagrams { (most : ℕ) (fragments : List Fragment) → 0 < most
        → length (state_after most fragments).trackers ≤ most }
    ensures places { (most : ℕ) (fragments : List Fragment) → 0 < most
        → All (λ (t : TrackerState). covered_end 0 t.segments ≤ longest) (values_of (state_after most fragments).trackers) }
    ensures bytes { (most : ℕ) (fragments : List Fragment) → 0 < most
        → held_bytes (state_after most fragments).trackers ≤ most * longest }
{}
