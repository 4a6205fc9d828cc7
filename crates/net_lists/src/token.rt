//! The tokens of a list.
ghost use Rattle.std.specs.Prelude.{◌≡◌, ◌<◌, ◌≤◌, [], ◌∷◌, length, true, false, MatchOption, IfSome};
ghost use Rattle.std.specs.List.{prefix_len};
ghost use Rattle.net_lists.specs.Tokens.{symbols, is_word_byte, begins_word, begins_blank};
ghost use Rattle.net_lists.specs.Tokenized.{symbol_of};

use crate::blank::{is_blank, without_front_blanks};

/// What comes next inside the brackets of a list.
#[derive(Clone, Copy, Debug)]
pub enum Token<'a> {
    Open,
    Close,
    Comma,
    Not,
    Word(&'a [u8]),
}

/// The first token of a text and the bytes after it, or None where only blanks are left.
pub fn next_token(text: &[u8]) -> Option<(Token<'_>, &[u8])>
    ensures token { MatchOption result (symbols text.now ≡ []) (λ found. symbols text.now
        ≡ symbol_of found.0 ∷ symbols found.1.now) }
    ensures after { IfSome result (λ found. length found.1.now < length text.now) }
{
    let text = skip_blanks(text);
    let (first, rest) = text.split_first()?;
    match first {
        b'[' => Some((Token::Open, rest)),
        b']' => Some((Token::Close, rest)),
        b',' => Some((Token::Comma, rest)),
        b'!' => Some((Token::Not, rest)),
        _ => Some(first_word(text)),
    }
}

/// The text from its first byte on that is no blank.
#[tactic(auto, using(crate::proofs::Lists::Words::words))]
fn skip_blanks(text: &[u8]) -> &[u8]
    ensures same { symbols result.now ≡ symbols text.now }
    ensures short { length result.now ≤ length text.now }
    ensures blankless { begins_blank result.now ≡ false }
{
    without_front_blanks(text)
}

/// The word in front and the bytes after it.
#[tactic(auto, using(crate::proofs::Lists::Words::words))]
fn first_word(text: &[u8]) -> (Token<'_>, &[u8])
    requires { begins_word text.now ≡ true }
    ensures token { symbols text.now ≡ symbol_of result.0 ∷ symbols result.1.now }
    ensures after { length result.1.now < length text.now }
{
    let (word, after) = text.split_at(word_len(text));
    (Token::Word(word), after)
}

/// How many bytes of a word are in front.
#[tactic(auto, using(crate::proofs::Fronts::fronts))]
fn word_len(text: &[u8]) -> usize
    ensures len { result ≡ prefix_len is_word_byte text.now }
    ensures within { result ≤ length text.now }
{
    text.iter()
        .position(|byte| !is_word_byte(*byte))
        .unwrap_or(text.len())
}

/// Neither a blank nor a mark.
fn is_word_byte(byte: u8) -> bool
    ensures { result ≡ is_word_byte byte }
{
    !is_blank(byte) && !matches!(byte, b'[' | b']' | b',' | b'!')
}
