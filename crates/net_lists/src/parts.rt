//! Cutting texts into words, settings and comma parts, which are lent.
ghost use Rattle.std.specs.Prelude.{◌≡◌, ◌<◌, ◌≤◌, ◌+◌, ◌^◌, [], ◌∷◌, length, MatchOption, if◌then◌else◌};
ghost use Rattle.std.specs.List.{prefix_len};
ghost use Rattle.std.specs.Iterator.{YieldsFirstBy, item_count};
ghost use Rattle.net_lists.specs.Cutting.{front_len, depth_after, words_between, words, settings, comma_parts, first_word, after_word, is_filled};
ghost use Rattle.net_lists.specs.Parted.{cuts, parts_left, Commas};

use crate::blank::{is_blank, trimmed, without_front_blanks};
use std::marker::Model;

/// What a text is cut into.
#[derive(Clone, Copy, Debug, PartialEq, Eq)]
pub enum Cut {
    /// Words between blanks.
    Words,
    /// Words between blanks and commas.
    Settings,
    /// All that is between commas, without blanks around it.
    Commas,
}

impl Cut {
    /// Whether a byte outside brackets cuts.
    fn cuts(self, byte: u8) -> bool
        ensures { result ≡ cuts self byte }
    {
        match self {
            Cut::Words => is_blank(byte),
            Cut::Settings => is_blank(byte) || byte == b',',
            Cut::Commas => byte == b',',
        }
    }
}

/// How many brackets are open after a byte.
fn depth_after(depth: usize, byte: u8) -> usize
    requires { depth + 1 < 2 ^ 64 }
    ensures depth { result ≡ depth_after depth byte }
    ensures within { result ≤ depth + 1 }
{
    match byte {
        b'[' => depth + 1,
        b']' => depth.saturating_sub(1),
        _ => depth,
    }
}

/// How many bytes come before the first that cuts.
#[tactic(auto, using(crate::proofs::Cuts::cut_steps))]
fn front_len(text: &[u8], cut: Cut) -> usize
    ensures len { result ≡ front_len (cuts cut) 0 text.now }
    ensures within { result ≤ length text.now }
{
    let mut depth: usize = 0;
    let mut len: usize = 0;
    for byte in text {
        if depth == 0 && cut.cuts(*byte) {
            return len;
        }
        depth = depth_after(depth, *byte);
        len += 1;
    }
    len
}

/// How many bytes in front cut.
#[tactic(auto, using(crate::proofs::Fronts::fronts))]
fn skipped_len(text: &[u8], cut: Cut) -> usize
    ensures len { result ≡ prefix_len (cuts cut) text.now }
    ensures within { result ≤ length text.now }
{
    text.iter()
        .position(|byte| !cut.cuts(*byte))
        .unwrap_or(text.len())
}

/// The first word and what comes after it, if there is a word.
fn next_word(text: &[u8], cut: Cut) -> Option<(&[u8], &[u8])>
    ensures { MatchOption result (words_between (cuts cut) text.now ≡ []) (λ found. words_between (cuts cut) text.now
        ≡ found.0.now ∷ words_between (cuts cut) found.1.now) }
{
    let text = &text[skipped_len(text, cut)..];
    if text.is_empty() {
        return None;
    }
    Some(text.split_at(front_len(text, cut)))
}

/// The first comma part and what comes after its comma, if there is a comma.
fn next_comma_part(text: &[u8]) -> (&[u8], Option<&[u8]>)
    ensures { comma_parts text.now ≡ result.0.now ∷ parts_left Commas result.1 }
{
    let len = front_len(text, Cut::Commas);
    if len == text.len() {
        return (trimmed(text), None);
    }
    (trimmed(&text[..len]), Some(&text[len + 1..]))
}

/// The parts of a text from the front on, each lent. Contracts see the list of those that are left.
#[derive(Debug, Drop)]
pub struct Parts<'a> {
    cut: Cut,
    rest: Option<&'a [u8]>,
}

impl<'a> Model for Parts<'a> {
    ghost use Rattle.std.specs.Prelude.{ℕ, List};
    ghost use Rattle.net_lists.specs.Parted.{parts_left};

    ghost Value = { List (List ℕ) };

    ghost view = { λ parts. parts_left parts.cut parts.rest };
}

impl<'a> Parts<'a> {
    /// The words of a text: what is between blanks outside brackets.
    pub fn words(text: &'a [u8]) -> Parts<'a>
        ensures { result ≡ words text.now }
    {
        Parts {
            cut: Cut::Words,
            rest: Some(text),
        }
    }

    /// The settings of a text: what is between blanks and commas outside brackets.
    pub fn settings(text: &'a [u8]) -> Parts<'a>
        ensures { result ≡ settings text.now }
    {
        Parts {
            cut: Cut::Settings,
            rest: Some(text),
        }
    }

    /// The comma parts of a text: all that is between commas outside brackets, without the blanks
    /// around it. An empty text has one, which is empty.
    pub fn commas(text: &'a [u8]) -> Parts<'a>
        ensures { result ≡ comma_parts text.now }
    {
        Parts {
            cut: Cut::Commas,
            rest: Some(text),
        }
    }
}

impl<'a> Iterator for Parts<'a> {
    type Item = &'a [u8];

    ghost next_gives = { YieldsFirstBy (λ part. part.now) (λ left. left) };

    ghost remaining = { item_count (λ left. left) };

    fn next(&mut self) -> Option<&'a [u8]> {
        let text = self.rest?;
        match self.cut {
            Cut::Commas => {
                let (part, rest) = next_comma_part(text);
                self.rest = rest;
                Some(part)
            }
            Cut::Words | Cut::Settings => {
                let Some((part, rest)) = next_word(text, self.cut) else {
                    self.rest = None;
                    return None;
                };
                self.rest = Some(rest);
                Some(part)
            }
        }
    }
}

/// The first word of a text, empty where there is none, and what comes after it and the blanks after
/// that. Blanks inside brackets belong to the word.
#[tactic(auto, unfolding(crate::specs::Cutting::first_word, crate::specs::Cutting::after_word))]
pub fn first_word(text: &[u8]) -> (&[u8], &[u8])
    ensures word { result.0.now ≡ first_word text.now }
    ensures rest { result.1.now ≡ after_word text.now }
    ensures words { words text.now ≡ (if is_filled result.0.now then result.0.now ∷ words result.1.now else []) }
    ensures shorter { 0 < length text.now → length result.1.now < length text.now }
{
    let text = without_front_blanks(text);
    let (word, rest) = text.split_at(front_len(text, Cut::Words));
    (word, without_front_blanks(rest))
}
