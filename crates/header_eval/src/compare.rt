//! Comparisons of numbers and of bits.
ghost use Rattle.std.specs.Prelude.{◌≡◌};
ghost use Rattle.header_eval.specs.Fields.{compares, bits_hold};

use rule_types::{Cmp, Mode};

/// A number against another, or against two ends which are inside.
pub(crate) fn compares(cmp: Cmp, number: u64, low: u32, high: u32) -> bool
    ensures { result ≡ compares cmp number low high }
{
    let low = u64::from(low);
    match cmp {
        Cmp::Eq => number == low,
        Cmp::Ne => number != low,
        Cmp::Lt => number < low,
        Cmp::Gt => number > low,
        Cmp::Le => number <= low,
        Cmp::Ge => number >= low,
        Cmp::And => number & low != 0,
        Cmp::Within => low <= number && number <= u64::from(high),
    }
}

/// Bits that are set, against the bits of an option.
pub(crate) fn bits_hold(mode: Mode, set: u8, bits: u8) -> bool
    ensures { result ≡ bits_hold mode set bits }
{
    match mode {
        Mode::Exact => set == bits,
        Mode::All => set & bits == bits,
        Mode::Any => set & bits != 0,
        Mode::NoneSet => set & bits == 0,
    }
}
