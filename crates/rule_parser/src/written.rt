//! Cutting the options of a rule.
ghost use Rattle.std.specs.Prelude.{◌≡◌, ◌<◌, [], ◌∷◌, length, IfSome, MatchOption};
ghost use Rattle.std.specs.List.{list_all};
ghost use Rattle.edge_io.specs.Bytes.{is_blank};
ghost use Rattle.rule_parser.specs.Written.{outside, after_byte, ends_option, option_len, option_texts, IsFirstOption, written, seen_option};

use crate::byte_options::blanks_len;
use crate::fields::place_of;
use net_lists::trimmed;

/// How the next byte is quoted.
#[derive(Clone, Copy)]
pub(crate) struct Quoting {
    /// Between double quotes.
    pub quoted: bool,
    /// After a backslash that takes it along.
    pub escaped: bool,
}

impl Quoting {
    fn outside() -> Quoting
        ensures { result ≡ outside }
    {
        Quoting {
            quoted: false,
            escaped: false,
        }
    }

    /// How the byte after this one is quoted.
    #[tactic(auto, unfolding(crate::specs::Written::after_byte))]
    fn after(self, byte: u8) -> Quoting
        ensures { result ≡ after_byte self byte }
    {
        if self.escaped {
            Quoting {
                escaped: false,
                ..self
            }
        } else if byte == b'\\' {
            Quoting {
                escaped: true,
                ..self
            }
        } else if byte == b'"' {
            Quoting {
                quoted: !self.quoted,
                ..self
            }
        } else {
            self
        }
    }

    /// Whether the byte ends an option.
    #[tactic(auto, unfolding(crate::specs::Written::ends_option))]
    fn ends_option(self, byte: u8) -> bool
        ensures { result ≡ ends_option self byte }
    {
        !self.quoted && !self.escaped && byte == b';'
    }
}

/// How many bytes come before the `;` that ends the first option.
#[tactic(auto, using(crate::proofs::Lines::Cutting::option_lens))]
fn option_len(text: &[u8]) -> Option<usize>
    ensures len { result ≡ option_len outside text.now }
    ensures within { IfSome result (λ len. len < length text.now) }
{
    let mut len: usize = 0;
    let mut at = Quoting::outside();
    for byte in text {
        if at.ends_option(*byte) {
            return Some(len);
        }
        at = at.after(*byte);
        len += 1;
    }
    None
}

/// The first option of a text and what comes after its `;`, if one ends in the text.
#[tactic(auto, using(crate::proofs::Lines::Parting::first_options))]
pub(crate) fn first_option(text: &[u8]) -> Option<(&[u8], &[u8])>
    ensures { MatchOption result (option_texts outside text.now ≡ text.now ∷ [])
        (λ parts. IsFirstOption text.now parts.0.now parts.1.now) }
{
    let len = option_len(text)?;
    Some((&text[..len], &text[len + 1..]))
}

/// Whether there are only blanks here.
pub(crate) fn are_blank(text: &[u8]) -> bool
    ensures { result ≡ list_all is_blank text.now }
{
    text.iter().all(|byte| *byte == b' ' || *byte == b'\t')
}

/// An option as it is written.
#[derive(Clone, Copy)]
pub(crate) struct LentOption<'a> {
    pub name: &'a [u8],
    pub value: Option<&'a [u8]>,
    /// How many bytes of the line are left where the value begins.
    pub left: usize,
}

/// What an option's text says, which begins where `left` bytes of the line are left.
#[tactic(auto, unfolding(crate::specs::Written::written))]
pub(crate) fn written(left: usize, text: &[u8]) -> LentOption<'_>
    ensures { seen_option result ≡ written left text.now }
{
    let Some(place) = place_of(b':', text) else {
        return LentOption {
            name: trimmed(text),
            value: None,
            left,
        };
    };
    let value = &text[place + 1..];
    LentOption {
        name: trimmed(&text[..place]),
        value: Some(trimmed(value)),
        left: left
            .saturating_sub(place + 1)
            .saturating_sub(blanks_len(value)),
    }
}
