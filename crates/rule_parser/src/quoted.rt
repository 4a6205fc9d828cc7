//! Texts in double quotes: messages, contents and patterns.
ghost use Rattle.std.specs.Prelude.{◌≡◌, ◌<◌, ◌==◌, ◌&&◌, ◌++◌, false, not, length, option_map, IfSome, OnOk};
ghost use Rattle.net_lists.specs.Stops.{Gives, or_kind};
ghost use Rattle.rule_parser.specs.Quotes.{closing_len, quoted, hex_value, has_bars, frees, silent, giving, bytes_of, plain_step, escaped_step, bars_step, half_step, step_at, end_bytes, meaning};

use crate::fault::Fault;
use edge_io::Text;
use net_lists::Stop;
use std::alloc::{AllocError, Global};

/// What a quoted text is.
#[derive(Clone, Copy)]
pub(crate) enum Style {
    Message,
    Bytes,
    Pattern,
}

/// Where the next byte is.
#[derive(Clone, Copy)]
pub(crate) enum QuotedPlace {
    Plain,
    /// After a backslash.
    Escaped,
    /// Between bars, before a pair of hex digits.
    Bars,
    /// Between bars, after this digit.
    Half(u8),
}

/// Where the next byte is, and what was given.
#[derive(Clone, Copy)]
pub(crate) struct QuotedStep {
    pub place: QuotedPlace,
    /// A backslash goes before the byte.
    pub slash: bool,
    pub byte: Option<u8>,
}

impl QuotedStep {
    fn silent(place: QuotedPlace) -> QuotedStep
        ensures { result ≡ silent place }
    {
        QuotedStep {
            place,
            slash: false,
            byte: None,
        }
    }

    fn giving(place: QuotedPlace, byte: u8) -> QuotedStep
        ensures { result ≡ giving place byte }
    {
        QuotedStep {
            place,
            slash: false,
            byte: Some(byte),
        }
    }
}

/// Whether a byte is a `"` that no backslash takes along.
fn closes(escaped: bool, byte: u8) -> bool
    ensures { result ≡ (not escaped && byte == 34) }
{
    !escaped && byte == b'"'
}

/// Whether a byte is a backslash that takes the next one along.
fn escapes(escaped: bool, byte: u8) -> bool
    ensures { result ≡ (not escaped && byte == 92) }
{
    !escaped && byte == b'\\'
}

/// The place of the first `"` that no backslash takes along.
#[tactic(auto, using(crate::proofs::Quoting::closing))]
fn closing_len(text: &[u8]) -> Option<usize>
    ensures len { result ≡ closing_len false text.now }
    ensures within { IfSome result (λ len. len < length text.now) }
{
    let mut len: usize = 0;
    let mut escaped = false;
    for byte in text {
        if closes(escaped, *byte) {
            return Some(len);
        }
        escaped = escapes(escaped, *byte);
        len += 1;
    }
    None
}

/// What is between the quotes, as it is written, and what comes after them.
#[tactic(auto, unfolding(crate::specs::Quotes::quoted))]
pub(crate) fn quoted(text: &[u8]) -> Option<(&[u8], &[u8])>
    ensures { option_map (λ parts. (parts.0.now, parts.1.now)) result ≡ quoted text.now }
{
    let [b'"', rest @ ..] = text else {
        return None;
    };
    let len = closing_len(rest)?;
    Some((&rest[..len], &rest[len + 1..]))
}

/// The value of a hex digit.
#[tactic(auto, unfolding(crate::specs::Quotes::hex_value))]
fn hex_value(byte: u8) -> Option<u8>
    ensures value { result ≡ hex_value byte }
    ensures within { IfSome result (λ value. value < 16) }
{
    match byte {
        b'0'..=b'9' => Some(byte - b'0'),
        b'A'..=b'F' => Some(byte - b'A' + 10),
        b'a'..=b'f' => Some(byte - b'a' + 10),
        _ => None,
    }
}

impl Style {
    fn has_bars(self) -> bool
        ensures { result ≡ has_bars self }
    {
        match self {
            Style::Bytes => true,
            Style::Message | Style::Pattern => false,
        }
    }

    fn frees(self, byte: u8) -> bool
        ensures { result ≡ frees self byte }
    {
        match self {
            Style::Bytes | Style::Message => true,
            Style::Pattern => byte == b'"' || byte == b';' || byte == b':' || byte == b'/',
        }
    }

    #[tactic(auto, unfolding(crate::specs::Quotes::plain_step))]
    fn plain_step(self, byte: u8) -> QuotedStep
        ensures { result ≡ plain_step self byte }
    {
        if byte == b'\\' {
            QuotedStep::silent(QuotedPlace::Escaped)
        } else if byte == b'|' && self.has_bars() {
            QuotedStep::silent(QuotedPlace::Bars)
        } else {
            QuotedStep::giving(QuotedPlace::Plain, byte)
        }
    }

    #[tactic(auto, unfolding(crate::specs::Quotes::escaped_step))]
    fn escaped_step(self, byte: u8) -> QuotedStep
        ensures { result ≡ escaped_step self byte }
    {
        let slash = !self.frees(byte);
        QuotedStep {
            place: QuotedPlace::Plain,
            slash,
            byte: Some(byte),
        }
    }
}

#[tactic(auto, unfolding(crate::specs::Quotes::bars_step))]
fn bars_step(byte: u8) -> Option<QuotedStep>
    ensures { result ≡ bars_step byte }
{
    match byte {
        b'|' => Some(QuotedStep::silent(QuotedPlace::Plain)),
        b' ' | b'\t' => Some(QuotedStep::silent(QuotedPlace::Bars)),
        _ => match hex_value(byte) {
            Some(_) => Some(QuotedStep::silent(QuotedPlace::Half(byte))),
            None => None,
        },
    }
}

#[tactic(auto, unfolding(crate::specs::Quotes::half_step))]
fn half_step(first: u8, byte: u8) -> Option<QuotedStep>
    ensures { result ≡ half_step first byte }
{
    let high = hex_value(first)?;
    let low = hex_value(byte)?;
    Some(QuotedStep::giving(QuotedPlace::Bars, high * 16 + low))
}

/// What a byte gives where it is.
fn step_at(style: Style, place: QuotedPlace, byte: u8) -> Option<QuotedStep>
    ensures { result ≡ step_at style place byte }
{
    match place {
        QuotedPlace::Plain => Some(style.plain_step(byte)),
        QuotedPlace::Escaped => Some(style.escaped_step(byte)),
        QuotedPlace::Bars => bars_step(byte),
        QuotedPlace::Half(first) => half_step(first, byte),
    }
}

/// What the end of a text gives where it is: in a pattern a lone backslash is no pair.
fn end_step(style: Style, place: QuotedPlace) -> Option<QuotedStep>
    ensures { option_map (λ step. bytes_of step.slash step.byte) result ≡ end_bytes style place }
{
    match (place, style) {
        (QuotedPlace::Plain, _) => Some(QuotedStep::silent(QuotedPlace::Plain)),
        (QuotedPlace::Escaped, Style::Pattern) => Some(QuotedStep::giving(
            QuotedPlace::Plain,
            b'\\',
        )),
        _ => None,
    }
}

/// Adds what a step gives.
fn push_step(out: &mut Vec<u8>, step: QuotedStep) -> Result<(), AllocError>
    ensures { OnOk result (out.new.items ≡ out.old.items ++ bytes_of step.slash step.byte) }
{
    let Some(byte) = step.byte else {
        return Ok(());
    };
    if step.slash {
        out.push(b'\\')?;
    }
    out.push(byte)?;
    Ok(())
}

/// What the text between quotes stands for.
#[tactic(auto, using(crate::proofs::Quoting::meanings))]
pub(crate) fn meaning(alloc: Global, style: Style, text: &[u8]) -> Result<Text, Stop<Fault>>
    ensures { Gives result (or_kind Fault.OptionValue (meaning style QuotedPlace.Plain text.now)) }
{
    let mut out = Vec::with_capacity(alloc, text.len())?;
    let mut place = QuotedPlace::Plain;
    for byte in text {
        let Some(step) = step_at(style, place, *byte) else {
            return Err(Stop::Wrong(Fault::OptionValue));
        };
        push_step(&mut out, step)?;
        place = step.place;
    }
    let Some(step) = end_step(style, place) else {
        return Err(Stop::Wrong(Fault::OptionValue));
    };
    push_step(&mut out, step)?;
    Ok(Text::from_vec(out))
}
