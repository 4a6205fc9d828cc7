//! The control bits of TCP.

/// A bit, if its letter is there.
fn bit_of(letters: &str, letter: char, bit: u8) -> u8 {
    if letters.contains(letter) { bit } else { 0 }
}

/// The bits of these letters: `F`, `S`, `R` and `A`.
pub(crate) fn flags_of(letters: &str) -> u8 {
    bit_of(letters, 'F', 1)
        | bit_of(letters, 'S', 2)
        | bit_of(letters, 'R', 4)
        | bit_of(letters, 'A', 16)
}
