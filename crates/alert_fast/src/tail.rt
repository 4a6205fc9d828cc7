//! The end of a line: its priority, its protocol, and two words for its ends.
ghost use Rattle.std.specs.Prelude.{◌≡◌, ◌%◌, MatchOption, bytes_eq, drop};
ghost use Rattle.alert_fast.specs.Fronts.{IsFront, NoFront, IsWhole, NoWhole, ended};
ghost use Rattle.alert_fast.specs.Line.{protocol_text};
ghost use Rattle.alert_fast.specs.Words.{read_value};
ghost use Rattle.alert_fast.specs.Tails.{IsProtocol, protocol_value, IsRanked, ranked_text, IsArrow, NoArrow};

use crate::pieces::three_digits;
use crate::words::{number_to, read_value, skip, word};

// The number after `PROTO:`, modulo 256.
#[tactic(auto, unfolding(crate::specs::Words::read_value))]
fn numbered(word: &[u8]) -> u8
    ensures { result ≡ read_value (drop 6 word.now) % 256 }
{
    match word {
        [_, _, _, _, _, _, digits @ ..] => (read_value(digits) % 256) as u8,
        _ => 0,
    }
}

// The number of the protocol that a word may name.
#[tactic(auto, unfolding(crate::specs::Tails::protocol_value))]
fn protocol_value(word: &[u8]) -> u8
    ensures { result ≡ protocol_value word.now }
{
    if word == b"TCP".as_slice() {
        6
    } else if word == b"UDP".as_slice() {
        17
    } else if word == b"ICMP".as_slice() {
        1
    } else {
        numbered(word)
    }
}

#[tactic(auto, unfolding(crate::specs::Line::protocol_text))]
fn is_protocol(protocol: u8, word: &[u8]) -> bool
    ensures { result ≡ bytes_eq (protocol_text protocol) word.now }
{
    match protocol {
        6 => word == b"TCP".as_slice(),
        17 => word == b"UDP".as_slice(),
        1 => word == b"ICMP".as_slice(),
        other => {
            let [a, b, c] = three_digits(other as u16);
            word == [b'P', b'R', b'O', b'T', b'O', b':', a, b, c].as_slice()
        }
    }
}

fn protocol(word: &[u8]) -> Option<u8>
    ensures { MatchOption result (NoWhole IsProtocol protocol_text word.now) (IsWhole IsProtocol protocol_text word.now) }
{
    let value = protocol_value(word);
    if is_protocol(value, word) {
        Some(value)
    } else {
        None
    }
}

// A protocol and its brace.
fn protocol_to(text: &[u8]) -> Option<(u8, &[u8])>
    ensures { MatchOption result (NoFront IsProtocol (ended protocol_text 125) text.now)
        (λ p. IsFront IsProtocol (ended protocol_text 125) text.now p.0 p.1.now) }
{
    let (word, rest) = word(text, b'}')?;
    let value = protocol(word)?;
    Some((value, rest))
}

/// A priority, and a protocol in braces.
pub(crate) fn ranked(text: &[u8]) -> Option<((u32, u8), &[u8])>
    ensures { MatchOption result (NoFront IsRanked ranked_text text.now)
        (λ p. IsFront IsRanked ranked_text text.now p.0 p.1.now) }
{
    let (priority, following) = number_to(text, b']')?;
    let after = skip(following, b" {")?;
    let (named, later) = protocol_to(after)?;
    let rest = skip(later, b" ")?;
    Some(((priority, named), rest))
}

/// Two words, with an arrow between them, and a line feed.
pub(crate) fn arrow(text: &[u8]) -> Option<(&[u8], &[u8])>
    ensures { MatchOption result (NoArrow text.now) (λ p. IsArrow text.now p.0.now p.1.now) }
{
    let (from, following) = word(text, b' ')?;
    let back = skip(following, b"-> ")?;
    let (to, left) = word(back, b'\n')?;
    if left.is_empty() {
        Some((from, to))
    } else {
        None
    }
}
