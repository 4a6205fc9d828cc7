//! Where the bytes of a content occur in a payload.

ghost use Rattle.std.specs.Prelude.{◌≡◌, ℕ, ◌+◌, ◌-◌, ◌<◌, ◌≤◌, length, take, drop, IsTrue, ◌↔◌, true};
ghost use Rattle.memchr.specs.Find.{IsFirst, OccursAt, Passes, is_byte2};
ghost use Rattle.edge_io.specs.Matching.{folded};
ghost use Rattle.option_eval.specs.Sets.{Occurs};

use memchr::memchr2;
use memchr::memmem::Finder;

/// The bytes of a content, as they are sought in a payload.
#[derive(Clone, Copy)]
pub(crate) struct Needle<'a> {
    pub bytes: &'a [u8],
    /// A search for these bytes, made once.
    pub finder: &'a Finder<'static>,
    pub nocase: bool,
}

impl<'a> Needle<'a> {
    /// The first place from `low` on and below `end` where the bytes occur, with case folded under
    /// `nocase`.
    pub fn first_in(&self, payload: &[u8], low: usize, end: usize) -> Option<usize>
        requires same { self.now.finder.now ≡ self.now.bytes.now }
        requires some { 1 ≤ length self.now.bytes.now }
        requires order { low ≤ end }
        requires fits { end + length self.now.bytes.now ≤ length payload.now + 1 }
        ensures { IsFirst (Occurs self.now.nocase payload.now self.now.bytes.now) low end result }
    {
        if self.nocase {
            first_folded(self.bytes, payload, low, end)
        } else {
            first_exact(self.finder, payload, low, end + self.bytes.len() - 1)
        }
    }
}

/// The first place from `low` on where the finder's bytes occur, and end by `stop`.
fn first_exact(finder: &Finder<'static>, payload: &[u8], low: usize, stop: usize) -> Option<usize>
    requires some { 1 ≤ length finder.now }
    requires order { low + length finder.now ≤ stop + 1 }
    requires fits { stop ≤ length payload.now }
    ensures { IsFirst (OccursAt payload.now finder.now) low (stop + 1 - length finder.now) result }
{
    match finder.find(&payload[low..stop]) {
        None => None,
        Some(skip) => Some(low + skip),
    }
}

/// The first place from `low` on and below `end` where the bytes occur with case folded.
fn first_folded(bytes: &[u8], payload: &[u8], low: usize, end: usize) -> Option<usize>
    requires some { 1 ≤ length bytes.now }
    requires order { low ≤ end }
    requires fits { end + length bytes.now ≤ length payload.now + 1 }
    ensures { IsFirst (Occurs true payload.now bytes.now) low end result }
{
    let first = bytes[0].to_ascii_lowercase();
    let upper = first.to_ascii_uppercase();
    let mut at = low;
    while let Some(next) = next_of(first, upper, payload, at, end) {
        if is_found_folded(bytes, payload, next) {
            return Some(next);
        }
        at = next + 1;
    }
    None
}

/// The first place from `low` on and below `end` that has a letter, in either case.
fn next_of(lower: u8, upper: u8, payload: &[u8], low: usize, end: usize) -> Option<usize>
    requires order { low ≤ end }
    requires fits { end ≤ length payload.now }
    ensures { IsFirst (Passes (is_byte2 lower upper) payload.now) low end result }
{
    match memchr2(lower, upper, &payload[low..end]) {
        None => None,
        Some(skip) => Some(low + skip),
    }
}

/// Whether the bytes are at a place with case folded.
fn is_found_folded(bytes: &[u8], payload: &[u8], at: usize) -> bool
    requires fits { at + length bytes.now ≤ length payload.now }
    ensures { IsTrue result ↔ Occurs true payload.now bytes.now at }
{
    bytes.eq_ignore_ascii_case(&payload[at..at + bytes.len()])
}
