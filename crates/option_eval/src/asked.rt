//! Where an option is asked.

ghost use Rattle.std.specs.Prelude.{◌≡◌, ◌<◌, ◌+◌, length};
ghost use Rattle.option_eval.specs.Sets.{IsRising, IsRising-prop};

use crate::fetch::Values;
use std::alloc::Global;

/// The places of a payload from which an option is asked, and the values that go with them. The places are one
/// or more and ascend, none past the payload's end.
#[derive(Clone, Copy)]
pub(crate) struct AskedPlaces<'a> {
    pub alloc: Global,
    pub payload: &'a [u8],
    pub places: &'a [usize],
    pub values: &'a Values,
    ghost some: { 0 < length places.now },
    ghost rising: { IsRising 0 places.now (length payload.now + 1) } by { IsRising-prop 0 places.now (length payload.now + 1) },
    ghost two: { length values.now ≡ 2 },
}
