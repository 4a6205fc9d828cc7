//! The letters that the automaton tells apart.

ghost use Rattle.std.specs.Prelude.{◌≡◌, ℕ, ◌-◌, ◌<◌, slice_index};
ghost use Rattle.pattern_search.specs.Letters.{lower, AreMarked, AllMarked, KeepsMarks, AreNumbered, AreFolded, AllTold};

use edge_io::Text;

/// The letter of each byte, and a number that is above all letters.
#[derive(Clone, Copy)]
pub struct Letters {
    pub of: [u16; 256],
    pub count: u16,
}

/// The byte in lower case, if it is an ASCII letter.
#[tactic(auto, unfolding(crate::specs::Letters::lower))]
fn lower(byte: u8) -> u8
    ensures { result ≡ lower byte }
{
    byte.to_ascii_lowercase()
}

/// Marks the pattern's bytes.
fn mark(used: &mut [bool; 256], pattern: &[u8])
    ensures kept { KeepsMarks used.old used.new }
    ensures marked { AreMarked used.new pattern.now }
{
    for byte in pattern {
        used[lower(*byte) as usize] = true;
    }
}

/// The bytes of all patterns, marked.
fn used_bytes(patterns: &[Text]) -> [bool; 256]
    ensures { AllMarked result patterns.now }
{
    let mut used = [false; 256];
    for pattern in patterns {
        mark(&mut used, pattern.bytes());
    }
    used
}

/// Letters for the marked bytes, in their order.
fn numbered(used: &[bool; 256]) -> Letters
    ensures numbered { AreNumbered used.now result.of 256 (result.count - 1) }
    ensures some { 0 < result.count }
{
    let mut of = [0; 256];
    let mut last = 0u16;
    for byte in 0..256usize {
        if used[byte] {
            last += 1;
            of[byte] = last;
        }
    }
    Letters {
        of,
        count: last + 1,
    }
}

/// The letters of all bytes, by those of the bytes in lower case.
fn folded(lowered: &[u16; 256]) -> [u16; 256]
    ensures { AreFolded lowered.now result 256 }
{
    let mut of = [0; 256];
    for byte in 0..256usize {
        of[byte] = lowered[lower(byte as u8) as usize];
    }
    of
}

/// The letters that tell the patterns' bytes apart.
pub fn letters_of(patterns: &[Text]) -> Letters
    ensures told { AllTold result.of patterns.now }
    ensures below { (byte : ℕ) → slice_index result.of byte < result.count }
{
    let used = used_bytes(patterns);
    let numbered = numbered(&used);
    Letters {
        of: folded(&numbered.of),
        count: numbered.count,
    }
}
