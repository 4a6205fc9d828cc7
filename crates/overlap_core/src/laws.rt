//! Laws about what is kept, for callers: they test the overlap table by what is known of it from outside.

ghost use Rattle.std.specs.Prelude.{◌≡◌, ℕ, ◌++◌, All, IsTrue, List, Option, Some, find, reverse};
ghost use Rattle.std.specs.List.{Contains};
ghost use Rattle.std.specs.List.Sorted.{IsPermutation};
ghost use Rattle.std.specs.Option.{option_map};
ghost use Rattle.edge_io.specs.declared.policy.Preference.{Preference};
ghost use Rattle.edge_io.specs.declared.policy.Preference.TheVariants.{First, Last};
ghost use Rattle.overlap_core.specs.Segments.{Segment};
ghost use Rattle.overlap_core.specs.Agreeing.{SegmentsAgree};
ghost use Rattle.overlap_core.specs.Overlap.{byte_at, chosen_byte, covers, is_covered};
ghost use Rattle.overlap_core.specs.Runs.{AreBytes};

/// Whatever is kept at a place came in a segment that covers it, at that place.
pub fn kept_bytes_came()
    ensures { (preference : Preference) (segments : List Segment) (place byte : ℕ)
        → chosen_byte preference segments place ≡ Some byte
        → (segment : Segment) × Contains segments segment × IsTrue (covers segment place) × (byte_at place segment ≡ byte) }
{}

/// Segments that agree are one stream. At each place the byte of any segment that covers it is kept, whatever the
/// preference (`kept`). So neither the preference nor the order of arrival changes a byte (`order`); and where all
/// segments were cut out of one stream, however they were cut and whichever came twice, its bytes are kept (`stream`).
/// A byte that is kept stays, whatever agreeing segments come later, so bytes that were read early are those of the
/// whole stream (`early`).
pub fn agreeing_segments_are_one_stream()
    ensures kept { (preference : Preference) (segments : List Segment) (segment : Segment) (place : ℕ) → SegmentsAgree segments
        → Contains segments segment → IsTrue (covers segment place)
        → chosen_byte preference segments place ≡ Some (byte_at place segment) }
    ensures order { (preference other : Preference) (xs ys : List Segment) (place : ℕ) → SegmentsAgree xs → IsPermutation xs ys
        → chosen_byte preference xs place ≡ chosen_byte other ys place }
    ensures stream { (preference : Preference) (segments : List Segment) (stream : ℕ → Option ℕ) (place : ℕ)
        → All (λ segment. AreBytes stream segment.start segment.bytes) segments → IsTrue (is_covered segments place)
        → chosen_byte preference segments place ≡ stream place }
    ensures early { (preference : Preference) (segments later : List Segment) (place byte : ℕ) → SegmentsAgree (segments ++ later)
        → chosen_byte preference segments place ≡ Some byte
        → chosen_byte preference (segments ++ later) place ≡ Some byte }
{}

/// `First` keeps at each place the byte of the earliest segment that covers it, `Last` that of the latest, wherever
/// the segments begin and end.
pub fn first_and_last_go_by_arrival()
    ensures first { (segments : List Segment) (place : ℕ) → chosen_byte First segments place
        ≡ option_map (byte_at place) (find (λ segment. covers segment place) segments) }
    ensures last { (segments : List Segment) (place : ℕ) → chosen_byte Last segments place
        ≡ option_map (byte_at place) (find (λ segment. covers segment place) (reverse segments)) }
{}
