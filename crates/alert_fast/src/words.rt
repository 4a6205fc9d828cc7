//! Parts of a line, each up to a byte that ends it.
ghost use Rattle.std.specs.Prelude.{◌≡◌, ◌≢◌, ◌++◌, List, ℕ, MatchOption, decimal};
ghost use Rattle.alert_fast.specs.Fronts.{Lacks, IsWord, IsWhole, NoWhole, IsFront, NoFront, ended};
ghost use Rattle.alert_fast.specs.Pieces.{digits};
ghost use Rattle.alert_fast.specs.Words.{IsNumber, IsPort, IsTwo, IsMicros, IsNoDigit, read_value};

use crate::pieces::{six_digits, two_digits};
use itoa::Buffer;
use memchr::memchr;

/// The bytes before the first such byte, and those after it.
pub(crate) fn word(text: &[u8], end: u8) -> Option<(&[u8], &[u8])>
    ensures { MatchOption result (Lacks end text.now) (λ p. IsWord end text.now p.0.now p.1.now) }
{
    let place = memchr(end, text)?;
    Some((&text[..place], &text[place + 1..]))
}

/// What follows these bytes, where the text begins with them.
pub(crate) fn skip<'a>(text: &'a [u8], literal: &[u8]) -> Option<&'a [u8]>
    ensures { MatchOption result ((more : List ℕ) → text.now ≢ literal.now ++ more)
        (λ rest. text.now ≡ literal.now ++ rest.now) }
{
    text.strip_prefix(literal)
}

/// The number that decimal digits spell, modulo 2^32; of other bytes any number.
#[tactic(auto, unfolding(crate::specs::Words::read_value))]
pub(crate) fn read_value(word: &[u8]) -> u32
    ensures { result ≡ read_value word.now }
{
    let mut value = 0u64;
    for byte in word {
        value = (10 * value + byte.saturating_sub(48) as u64) % (1 << 32);
    }
    value as u32
}

/// The number that is written so.
pub(crate) fn number(word: &[u8]) -> Option<u32>
    ensures { MatchOption result (NoWhole IsNumber decimal word.now) (IsWhole IsNumber decimal word.now) }
{
    let value = read_value(word);
    if Buffer::new().format(value).as_bytes() == word {
        Some(value)
    } else {
        None
    }
}

/// The port that is written so.
pub(crate) fn port(word: &[u8]) -> Option<u16>
    ensures { MatchOption result (NoWhole IsPort decimal word.now) (IsWhole IsPort decimal word.now) }
{
    let value = (read_value(word) % 0x1_0000) as u16;
    if Buffer::new().format(value).as_bytes() == word {
        Some(value)
    } else {
        None
    }
}

// The number that is written so in two digits.
fn two(word: &[u8]) -> Option<u8>
    ensures { MatchOption result (NoWhole IsTwo (digits 2) word.now) (IsWhole IsTwo (digits 2) word.now) }
{
    let value = (read_value(word) % 100) as u8;
    if two_digits(value).as_slice() == word {
        Some(value)
    } else {
        None
    }
}

// The number that is written so in six digits.
fn six(word: &[u8]) -> Option<u32>
    ensures { MatchOption result (NoWhole IsMicros (digits 6) word.now) (IsWhole IsMicros (digits 6) word.now) }
{
    let value = read_value(word) % 1_000_000;
    if six_digits(value).as_slice() == word {
        Some(value)
    } else {
        None
    }
}

/// A number, and the byte that ends it.
pub(crate) fn number_to(text: &[u8], end: u8) -> Option<(u32, &[u8])>
    requires { IsNoDigit end }
    ensures { MatchOption result (NoFront IsNumber (ended decimal end) text.now)
        (λ p. IsFront IsNumber (ended decimal end) text.now p.0 p.1.now) }
{
    let (word, rest) = word(text, end)?;
    let value = number(word)?;
    Some((value, rest))
}

/// A number in two digits, and the byte that ends it.
pub(crate) fn two_to(text: &[u8], end: u8) -> Option<(u8, &[u8])>
    requires { IsNoDigit end }
    ensures { MatchOption result (NoFront IsTwo (ended (digits 2) end) text.now)
        (λ p. IsFront IsTwo (ended (digits 2) end) text.now p.0 p.1.now) }
{
    let (word, rest) = word(text, end)?;
    let value = two(word)?;
    Some((value, rest))
}

/// A number in six digits, and the byte that ends it.
pub(crate) fn six_to(text: &[u8], end: u8) -> Option<(u32, &[u8])>
    requires { IsNoDigit end }
    ensures { MatchOption result (NoFront IsMicros (ended (digits 6) end) text.now)
        (λ p. IsFront IsMicros (ended (digits 6) end) text.now p.0 p.1.now) }
{
    let (word, rest) = word(text, end)?;
    let value = six(word)?;
    Some((value, rest))
}
