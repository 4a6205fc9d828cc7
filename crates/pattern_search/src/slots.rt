//! A table of bits, asked by number: its slots.

ghost use Rattle.std.specs.Prelude.{◌≡◌, ◌<◌, length};
ghost use Rattle.std.specs.Int.{bit_at};
ghost use Rattle.pattern_search.specs.Slots.{AddsBit, SetsSlot, slot_bit, slot_count, table_words};

/// How many words the table has, with a bit for each slot: 128 KB, which stay within a processor's own cache.
pub const TABLE_WORDS: usize = 32_768;

/// How many slots a word of the table has.
const WORD_SLOTS: usize = 32;

/// A bit of a number.
#[inline(always)]
fn bit(number: u32, at: u32) -> u32
    requires { at < 32 }
    ensures is { result ≡ bit_at number at }
    ensures low { result < 2 }
{
    number >> at & 1
}

/// The bit of a slot: 1 where it is set.
#[inline(always)]
#[tactic(auto, unfolding(crate::specs::Slots::slot_bit))]
pub fn slot_bit(table: &[u32], slot: usize) -> u32
    requires table { length table.now ≡ table_words }
    requires slot { slot < slot_count }
    ensures is { result ≡ slot_bit table.now slot }
    ensures low { result < 2 }
{
    bit(table[slot / WORD_SLOTS], (slot % WORD_SLOTS) as u32)
}

/// A number with a bit more.
fn with_bit(number: u32, at: u32) -> u32
    requires { at < 32 }
    ensures { AddsBit number at result }
{
    number | 1 << at
}

/// Sets a slot.
pub fn set_slot(table: &mut [u32], slot: usize)
    requires table { length table.old ≡ table_words }
    requires slot { slot < slot_count }
    ensures { SetsSlot table.old slot table.new }
{
    table[slot / WORD_SLOTS] = with_bit(table[slot / WORD_SLOTS], (slot % WORD_SLOTS) as u32);
}

/// How many slots of a table are set.
pub fn set_slots(table: &[u32]) -> u32 {
    let mut count = 0u32;
    for word in table {
        count = count.saturating_add(word.count_ones());
    }
    count
}
