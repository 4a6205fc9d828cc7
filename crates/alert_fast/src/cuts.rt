//! The end of a line, and its message.
ghost use Rattle.std.specs.Prelude.{◌≡◌, ◌≢◌, ◌++◌, List, ℕ, MatchOption, codes};
ghost use Rattle.alert_fast.specs.Fronts.{Lacks};
ghost use Rattle.alert_fast.specs.Splits.{IsBackWord, IsLastCut, IsSplit, NoSplit};
ghost use Rattle.alert_fast.specs.Told.{lent};

use memchr::{memmem, memrchr};

/// The bytes before the last such byte, and those after it.
pub(crate) fn back_word(text: &[u8], start: u8) -> Option<(&[u8], &[u8])>
    ensures { MatchOption result (Lacks start text.now) (λ p. IsBackWord start text.now p.0.now p.1.now) }
{
    let place = memrchr(start, text)?;
    Some((&text[..place], &text[place + 1..]))
}

// What comes before these bytes, where the text ends with them.
fn skip_back<'a>(text: &'a [u8], literal: &[u8]) -> Option<&'a [u8]>
    ensures { MatchOption result ((front : List ℕ) → text.now ≢ front ++ literal.now)
        (λ front. text.now ≡ front.now ++ literal.now) }
{
    text.strip_suffix(literal)
}

// The bytes before the last place of the needle, and those after it.
fn last_cut<'a>(text: &'a [u8], needle: &[u8]) -> Option<(&'a [u8], &'a [u8])>
    ensures { MatchOption result ((x y : List ℕ) → text.now ≢ x ++ (needle.now ++ y))
        (λ p. IsLastCut needle.now text.now p.0.now p.1.now) }
{
    let place = memmem::rfind(text, needle)?;
    Some((&text[..place], &text[place + needle.len()..]))
}

/// The longest message that may be there, and its class.
pub(crate) fn split_msg(text: &[u8]) -> Option<(&[u8], Option<&[u8]>)>
    ensures { MatchOption result (NoSplit text.now) (λ p. IsSplit text.now p.0.now (lent p.1)) }
{
    match skip_back(text, b" [**] ") {
        Some(msg) => Some((msg, None)),
        None => classed(text),
    }
}

// The same, where a class follows the message.
fn classed(text: &[u8]) -> Option<(&[u8], Option<&[u8]>)>
    requires { (front : List ℕ) → text.now ≢ front ++ codes " [**] " }
    ensures { MatchOption result (NoSplit text.now) (λ p. IsSplit text.now p.0.now (lent p.1)) }
{
    let named = skip_back(text, b"] ")?;
    let (msg, class) = last_cut(named, b" [**] [Classification: ")?;
    Some((msg, Some(class)))
}
