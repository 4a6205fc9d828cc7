//! Where in a text a pattern may begin, told without a walk: a text is asked for the windows that patterns have at
//! their first places, at each place of it, or at every second, fourth or eighth one where no pattern is short.

ghost use Rattle.std.specs.Prelude.{◌≡◌, ℕ, ◌+◌, ◌<◌, ◌≤◌, length, IfOk, IfSome};
ghost use Rattle.pattern_search.specs.Words.{word_at};
ghost use Rattle.pattern_search.specs.Slots.{table_words, slot_bit};
ghost use Rattle.pattern_search.specs.Windows.{window_at, slot_of};

use crate::slots::{TABLE_WORDS, set_slots, slot_bit};
use crate::windows::{WINDOW, folding_mask, slot, window, window_table};
use edge_io::{NoMemory, Text};
use std::alloc::Global;

/// How many windows are asked for in a turn.
const TURN: usize = 4;

/// The longest stride: each pattern has a window in the table for each place of it.
const LONGEST_STRIDE: usize = 8;

/// A pattern of this many letters is long: a longer one would be sought no otherwise.
const LONG: usize = 16;

/// The table of the windows that patterns have, and how a text is asked for them.
#[derive(Drop)]
pub struct Sieve {
    /// Whether a window with this slot is at one of the first places of a pattern, as many as the stride.
    pub table: Vec<u32>,
    /// From each place that is asked to the next one.
    pub stride: usize,
    /// What leaves the letters of a window that all patterns have at these places.
    pub mask: u64,
    /// No pattern is shorter than this.
    pub shortest: usize,
}

/// The shorter of a length and another one that isn't 0.
fn shorter(length: usize, other: usize) -> usize
    requires { 0 < length }
    ensures some { 0 < result }
    ensures length { result ≤ length }
    ensures other { 0 < other → result ≤ other }
{
    if other == 0 {
        length
    } else {
        length.min(other)
    }
}

/// The length of the shortest pattern that isn't empty; `LONG` where all are longer, or where there is none.
fn shortest_length(patterns: &[Text]) -> usize
    ensures some { 0 < result }
    ensures all { (place : ℕ) → place < length patterns.now → 0 < length (word_at patterns.now place)
        → result ≤ length (word_at patterns.now place) }
{
    let mut shortest = LONG;
    for pattern in patterns {
        shortest = shorter(shortest, pattern.bytes().len());
    }
    shortest
}

/// The stride for a shortest length: the longest one where whole windows still fit after it, and else as long as
/// windows of four letters do.
fn stride_for(shortest: usize) -> usize
    requires { 0 < shortest }
    ensures some { 0 < result }
    ensures within { result ≤ shortest }
{
    if LONGEST_STRIDE + WINDOW - 1 <= shortest {
        return LONGEST_STRIDE;
    }
    if 7 <= shortest {
        return 4;
    }
    if 5 <= shortest { 2 } else { 1 }
}

/// Up to how many set slots a sieve pays, by the length of the shortest pattern: the last one is for 8 letters and
/// more. With more of them a text of the patterns' own syllables takes longer than by one walk over it.
const MOST_SLOTS: [u32; 9] = [0, 0, 0, 16, 128, 1024, 8192, 4096, 65_536];

/// Whether so few slots are set that skipping takes less time than it costs.
fn pays(shortest: usize, set: u32) -> bool {
    set <= MOST_SLOTS[shortest.min(MOST_SLOTS.len() - 1)]
}

impl Sieve {
    ghost use Rattle.pattern_search.specs.Sieving.{window_bit, Sifts, Skips};

    /// The sieve of these patterns; an empty one is none. None where it would let too much pass.
    pub fn of(alloc: Global, patterns: &[Text]) -> Result<Option<Sieve>, NoMemory>
        ensures { IfOk result (λ sieve. IfSome sieve (λ sieve. Sifts sieve patterns.now)) }
    {
        let shortest = shortest_length(patterns);
        let stride = stride_for(shortest);
        let letters = (shortest - stride + 1).min(WINDOW);
        let mask = folding_mask(letters);
        let table = window_table(alloc, mask, stride, patterns)?;
        if !pays(shortest, set_slots(&table)) {
            return Ok(None);
        }
        Ok(Some(Sieve {
            table,
            stride,
            mask,
            shortest,
        }))
    }

    /// Whether the window at a place of a text may be one of a pattern: 1 where its slot is set, else 0.
    #[inline(always)]
    #[tactic(auto, unfolding(crate::specs::Sieving::window_bit))]
    fn window_bit(&self, bytes: &[u8], at: usize) -> u32
        requires table { length self.now.table.items ≡ table_words }
        requires within { at + 8 ≤ length bytes.now }
        ensures is { result ≡ window_bit self.now bytes.now at }
        ensures low { result < 2 }
    {
        slot_bit(&self.table, slot(window(bytes, at), self.mask))
    }

    /// Goes on by a turn of windows at a time while the slot of none of them is set.
    fn skip_turns(&self, bytes: &[u8], from: usize) -> usize
        requires table { length self.now.table.items ≡ table_words }
        requires some { 0 < self.now.stride }
        requires few { self.now.stride ≤ 8 }
        requires within { from ≤ length bytes.now }
        ensures skips { Skips self.now bytes.now from result }
        ensures within { result ≤ length bytes.now }
        ensures on { from ≤ result }
    {
        let mut to = from;
        while to + TURN * self.stride + WINDOW - 1 <= bytes.len() {
            let at = to + self.stride - 1;
            let one = self.window_bit(bytes, at);
            let two = self.window_bit(bytes, at + self.stride);
            let three = self.window_bit(bytes, at + 2 * self.stride);
            let four = self.window_bit(bytes, at + 3 * self.stride);
            if one + two + three + four != 0 {
                return to;
            }
            to += TURN * self.stride;
        }
        to
    }

    /// Goes on by a window at a time while its slot isn't set.
    fn skip_windows(&self, bytes: &[u8], from: usize) -> usize
        requires table { length self.now.table.items ≡ table_words }
        requires some { 0 < self.now.stride }
        requires few { self.now.stride ≤ 8 }
        requires within { from ≤ length bytes.now }
        ensures skips { Skips self.now bytes.now from result }
        ensures within { result ≤ length bytes.now }
        ensures on { from ≤ result }
    {
        let mut to = from;
        while to + self.stride + WINDOW - 1 <= bytes.len() {
            if self.window_bit(bytes, to + self.stride - 1) != 0 {
                return to;
            }
            to += self.stride;
        }
        to
    }

    /// The first place from one on that a pattern may begin at; the text's end where none may.
    pub fn next_start(&self, bytes: &[u8], from: usize) -> usize
        requires { from ≤ length bytes.now }
        ensures skips { Skips self.now bytes.now from result }
        ensures within { result ≤ length bytes.now }
        ensures on { from ≤ result }
    {
        if self.table.len() != TABLE_WORDS || self.stride == 0 || LONGEST_STRIDE < self.stride {
            return from;
        }
        let near = self.skip_turns(bytes, from);
        let to = self.skip_windows(bytes, near);
        if bytes.len() - to < self.shortest {
            return bytes.len();
        }
        to
    }
}
