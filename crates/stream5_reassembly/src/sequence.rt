//! Sequence numbers, which go round modulo 2^32, and their places, which don't.
ghost use Rattle.std.specs.Prelude.{◌≡◌, ◌+◌, ◌^◌, ◌≤◌};
ghost use Rattle.stream5_reassembly.specs.Segments.{first_place};
ghost use Rattle.stream5_reassembly.specs.Sequence.{IsNearest, place_of};

/// Half of the numbers: a number less than this ahead lies ahead, any other doesn't.
pub const HALF: u32 = 1 << 31;

/// The place of the base when a direction starts: a segment may begin as many places before it.
pub const FIRST_PLACE: u64 = 1 << 31;

/// How many sequence numbers there are.
const ROUND: u64 = 1 << 32;

/// The place of a sequence number, where the base is at `place`.
pub fn place_of(place: u64, base: u32, seq: u32) -> u64
    requires from { first_place ≤ place }
    requires fits { place ≤ 2 ^ 63 + 2 ^ 32 }
    ensures value { result ≡ place_of place base seq }
    ensures nearest { IsNearest place base seq result }
{
    let ahead = seq.wrapping_sub(base);
    if ahead < HALF {
        place + u64::from(ahead)
    } else {
        place - (ROUND - u64::from(ahead))
    }
}
