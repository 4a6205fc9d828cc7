//! The window of a content, as `offset` and `depth`, or `distance` and `within`, give it.

ghost use Rattle.std.specs.Prelude.{◌≡◌, ℕ, ◌+◌, ◌<◌, ◌≤◌, pos, ◌+ℤ◌, ◌≤ℤ◌, ◌↔◌, ◌^◌, IfSome};
ghost use Rattle.std.specs.Option.{ForSome};
ghost use Rattle.option_eval.specs.Ranges.{IsSmall, IsSpan};

/// How far from a place a content may be.
#[derive(Clone, Copy)]
pub(crate) struct Reach {
    /// `offset`, or `distance`: so far on at least.
    pub from: i128,
    /// `depth`, or `within`: in this many bytes from there.
    pub room: Option<i128>,
    ghost from_small: { IsSmall from },
    ghost room_small: { ForSome room IsSmall },
}

impl Reach {
    /// Where the reach of a place begins.
    fn start(&self, place: usize) -> i128
        ensures value { result ≡ pos place +ℤ self.now.from }
        ensures small { IsSpan result }
    {
        place as i128 + self.from
    }

    /// The first place within reach, or `bound`.
    pub fn low(&self, place: usize, bound: usize) -> usize
        ensures inside { result ≤ bound }
        ensures low { (i : ℕ) → i < bound → ((pos place +ℤ self.now.from) ≤ℤ pos i) ↔ (result ≤ i) }
    {
        first_from(self.start(place), bound)
    }

    /// The place after the last within reach of a content of this size, or `bound`.
    pub fn end(&self, place: usize, size: usize, bound: usize) -> usize
        ensures inside { result ≤ bound }
        ensures end { (i : ℕ) → i < bound
            → (IfSome self.now.room (λ room. pos (i + size) ≤ℤ ((pos place +ℤ self.now.from) +ℤ room))) ↔ (i < result) }
    {
        match self.room {
            None => bound,
            Some(room) => first_past(self.start(place), room, size, bound),
        }
    }
}

/// The first place from which bytes of this size end past the room, or `bound`.
fn first_past(start: i128, room: i128, size: usize, bound: usize) -> usize
    requires start { IsSpan start }
    requires room { IsSmall room }
    ensures inside { result ≤ bound }
    ensures end { (i : ℕ) → i < bound → (pos (i + size) ≤ℤ (start +ℤ room)) ↔ (i < result) }
{
    let last = start + room - size as i128;
    first_from(last + 1, bound)
}

/// The first place from a whole number on, or `bound`.
fn first_from(start: i128, bound: usize) -> usize
    ensures inside { result ≤ bound }
    ensures from { (i : ℕ) → i < bound → (start ≤ℤ pos i) ↔ (result ≤ i) }
{
    if start <= 0 {
        0
    } else if start >= bound as i128 {
        bound
    } else {
        start as usize
    }
}
