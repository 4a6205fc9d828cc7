//! Windows: a pattern's letters from one of its first places on, and a table of those that patterns have there.

ghost use Rattle.std.specs.Prelude.{◌≡◌, ℕ, ◌+◌, ◌<◌, ◌≤◌, length, slice_index, IfOk};
ghost use Rattle.pattern_search.specs.Words.{word_at};
ghost use Rattle.pattern_search.specs.Slots.{KeepsSlots, slot_count, table_words};
ghost use Rattle.pattern_search.specs.Windows.{window_at, folding_mask, slot_of, HasWindows, HaveWindows};

use crate::slots::{TABLE_WORDS, set_slot};
use byteorder::{ByteOrder, LittleEndian};
use edge_io::{NoMemory, Text};
use std::alloc::Global;

/// How many bytes a window has: those of a number that one read gives.
pub const WINDOW: usize = 8;

/// 2^64 divided by the golden ratio. In the product of a window with it, the highest bits depend on all the others.
const GOLDEN: u64 = 0x9E37_79B9_7F4A_7C15;

/// How many bits of the product are left out: the twenty highest ones are the slot.
const SLOT_SHIFT: u32 = 44;

/// For each number of letters the mask that leaves this many bytes of a window: 0xDF for each of them, which is a
/// byte without the bit that tells an upper from a lower case letter.
const FOLDING_MASKS: [u64; 9] = [
    0,
    0xDF,
    0xDFDF,
    0xDF_DFDF,
    0xDFDF_DFDF,
    0xDF_DFDF_DFDF,
    0xDFDF_DFDF_DFDF,
    0xDF_DFDF_DFDF_DFDF,
    0xDFDF_DFDF_DFDF_DFDF,
];

/// The mask that leaves this many letters of a window, whatever their case.
pub fn folding_mask(letters: usize) -> u64
    requires { letters ≤ 8 }
    ensures { result ≡ folding_mask letters }
{
    FOLDING_MASKS[letters]
}

/// The slot of a window, of which a mask leaves some letters.
#[inline(always)]
#[tactic(auto, unfolding(crate::specs::Windows::slot_of))]
pub fn slot(window: u64, mask: u64) -> usize
    ensures is { result ≡ slot_of window mask }
    ensures low { result < slot_count }
{
    ((window & mask).wrapping_mul(GOLDEN) >> SLOT_SHIFT) as usize
}

/// The window at a place of a text that has eight bytes from there on.
#[inline(always)]
#[tactic(auto, unfolding(crate::specs::Windows::window_at))]
pub fn window(bytes: &[u8], at: usize) -> u64
    requires { at + 8 ≤ length bytes.now }
    ensures { result ≡ window_at bytes.now at }
{
    LittleEndian::read_u64(&bytes[at..])
}

/// The byte at a place, 0 past the end.
fn byte(bytes: &[u8], at: usize) -> u8
    ensures { result ≡ slice_index bytes.now at }
{
    bytes.get(at).copied().unwrap_or(0)
}

/// The window at a place of a pattern, with zeros past the end.
#[tactic(auto, unfolding(crate::specs::Windows::window_at))]
fn pattern_window(pattern: &[u8], at: usize) -> u64
    requires { at ≤ length pattern.now }
    ensures { result ≡ window_at pattern.now at }
{
    let rest = &pattern[at..];
    LittleEndian::read_u64(&[
        byte(rest, 0),
        byte(rest, 1),
        byte(rest, 2),
        byte(rest, 3),
        byte(rest, 4),
        byte(rest, 5),
        byte(rest, 6),
        byte(rest, 7),
    ])
}

/// Sets the slots of a pattern's windows at its first places, as many as the stride.
fn add_windows(table: &mut [u32], mask: u64, stride: usize, pattern: &[u8])
    requires { length table.old ≡ table_words }
    ensures keeps { KeepsSlots table.old table.new }
    ensures has { HasWindows table.new mask stride pattern.now }
{
    for offset in 0..stride.min(pattern.len()) {
        set_slot(table, slot(pattern_window(pattern, offset), mask));
    }
}

/// Sets the slots of all patterns' windows.
fn add_all_windows(table: &mut [u32], mask: u64, stride: usize, patterns: &[Text])
    requires { length table.old ≡ table_words }
    ensures sized { length table.new ≡ length table.old }
    ensures has { HaveWindows table.new mask stride patterns.now }
{
    for pattern in patterns {
        add_windows(table, mask, stride, pattern.bytes());
    }
}

/// The table of the windows at the first places of these patterns, as many as the stride.
pub fn window_table(
    alloc: Global,
    mask: u64,
    stride: usize,
    patterns: &[Text],
) -> Result<Vec<u32>, NoMemory>
    ensures { IfOk result (λ table. HaveWindows table.items mask stride patterns.now) }
{
    let mut table = vec![in alloc; 0; TABLE_WORDS]?;
    add_all_windows(&mut table, mask, stride, patterns);
    Ok(table)
}
