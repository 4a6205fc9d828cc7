//! Regular expressions.
ghost use Rattle.std.specs.Prelude.{◌≡◌, ◌≤◌, ◌+◌, length, option_map, Ok, Err, if◌then◌else◌};
ghost use Rattle.std.specs.List.{list_all, suffix_len};
ghost use Rattle.net_lists.specs.Stops.{Gives};
ghost use Rattle.rule_parser.specs.Patterns.{no_flags, no_flag, with_flag, flags_of, pattern_flags, is_no_slash, slashed, is_ascii, expression_of, pcre, pcre_option};
ghost use Rattle.rule_parser.specs.Drafts.{with_new};

use crate::Opt;
use crate::contents::negation;
use crate::draft::RuleDraft;
use crate::fault::Fault;
use crate::quoted::{Style, meaning, quoted};
use edge_io::{PatternFlags, Text};
use net_lists::Stop;
use std::alloc::Global;

/// Bytes that an expression may have.
const MOST_BYTES: usize = 4096;

/// The flags that come after an expression.
#[derive(Clone, Copy)]
pub(crate) struct Flags {
    pub nocase: bool,
    pub dot_all: bool,
    pub multi_line: bool,
    pub extended: bool,
    /// The search begins where the option before ended.
    pub relative: bool,
}

/// What is given for a letter that is no flag.
fn no_flag(letter: u8) -> Fault
    ensures { result ≡ no_flag letter }
{
    if b'A' <= letter && letter <= b'Z' {
        Fault::OutsideProfile
    } else {
        Fault::OptionValue
    }
}

impl Flags {
    fn none() -> Flags
        ensures { result ≡ no_flags }
    {
        Flags {
            nocase: false,
            dot_all: false,
            multi_line: false,
            extended: false,
            relative: false,
        }
    }

    /// These flags, where the letter's was not given before.
    fn unless(self, is_given: bool) -> Result<Flags, Fault>
        ensures { result ≡ (if is_given then Err Fault.OptionValue else Ok self) }
    {
        if is_given {
            Err(Fault::OptionValue)
        } else {
            Ok(self)
        }
    }

    /// The flags with that of a letter.
    #[tactic(auto, unfolding(crate::specs::Patterns::with_flag))]
    fn with(self, letter: u8) -> Result<Flags, Fault>
        ensures { result ≡ with_flag self letter }
    {
        match letter {
            b'i' => Flags {
                nocase: true,
                ..self
            }
            .unless(self.nocase),
            b's' => Flags {
                dot_all: true,
                ..self
            }
            .unless(self.dot_all),
            b'm' => Flags {
                multi_line: true,
                ..self
            }
            .unless(self.multi_line),
            b'x' => Flags {
                extended: true,
                ..self
            }
            .unless(self.extended),
            b'R' => Flags {
                relative: true,
                ..self
            }
            .unless(self.relative),
            _ => Err(no_flag(letter)),
        }
    }

    /// The flags of these letters.
    #[tactic(auto, using(crate::proofs::Flagging::flagging))]
    fn read(letters: &[u8]) -> Result<Flags, Fault>
        ensures { result ≡ flags_of no_flags letters.now }
    {
        let mut flags = Flags::none();
        for letter in letters {
            flags = flags.with(*letter)?;
        }
        Ok(flags)
    }

    fn pattern(self) -> PatternFlags
        ensures { result ≡ pattern_flags self }
    {
        PatternFlags {
            nocase: self.nocase,
            dot_all: self.dot_all,
            multi_line: self.multi_line,
            extended: self.extended,
        }
    }
}

/// How many bytes there are up to the last `/`, that one among them.
fn slash_end(text: &[u8]) -> usize
    ensures len { result + suffix_len is_no_slash text.now ≡ length text.now }
    ensures within { result ≤ length text.now }
{
    let mut len = text.len();
    while len > 0 {
        if text[len - 1] == b'/' {
            return len;
        }
        len -= 1;
    }
    0
}

/// What is between a `/` in front and the last `/`, and what comes after that.
#[tactic(auto, unfolding(crate::specs::Patterns::slashed))]
fn slashed(text: &[u8]) -> Option<(&[u8], &[u8])>
    ensures { option_map (λ parts. (parts.0.now, parts.1.now)) result ≡ slashed text.now }
{
    let [b'/', rest @ ..] = text else {
        return None;
    };
    let end = slash_end(rest);
    if end == 0 {
        return None;
    }
    Some((&rest[..end - 1], &rest[end..]))
}

fn is_ascii(text: &[u8]) -> bool
    ensures { result ≡ list_all is_ascii text.now }
{
    text.iter().all(|byte| *byte < 128)
}

/// What an expression between slashes stands for, where it is ASCII.
#[tactic(auto, unfolding(crate::specs::Patterns::expression_of))]
fn expression(alloc: Global, text: &[u8]) -> Result<Text, Stop<Fault>>
    ensures { Gives result (expression_of text.now) }
{
    let text = meaning(alloc, Style::Pattern, text)?;
    if !is_ascii(text.bytes()) {
        return Err(Stop::Wrong(Fault::OptionValue));
    }
    Ok(text)
}

/// What the value of a pcre says.
#[tactic(auto, unfolding(crate::specs::Patterns::pcre))]
fn pcre(alloc: Global, value: &[u8]) -> Result<Opt, Stop<Fault>>
    ensures { Gives result (pcre value.now) }
{
    let (negated, rest) = negation(value);
    let Some((inside, after)) = quoted(rest) else {
        return Err(Stop::Wrong(Fault::OptionValue));
    };
    let Some((expression_text, letters)) = slashed(inside) else {
        return Err(Stop::Wrong(Fault::OptionValue));
    };
    let text = expression(alloc, expression_text)?;
    let flags = Flags::read(letters)?;
    if !after.is_empty() {
        return Err(Stop::Wrong(Fault::OptionValue));
    }
    if text.bytes().len() > MOST_BYTES {
        return Err(Stop::Wrong(Fault::Limit));
    }
    Ok(Opt::Pcre {
        text,
        flags: flags.pattern(),
        relative: flags.relative,
        negated,
    })
}

#[tactic(auto, unfolding(crate::specs::Patterns::pcre_option))]
pub(crate) fn pcre_option(
    alloc: Global,
    draft: &mut RuleDraft,
    value: &[u8],
) -> Result<(), Stop<Fault>>
    ensures { Gives (with_new result draft.new) (pcre_option draft.old value.now) }
{
    let option = pcre(alloc, value)?;
    draft.keep(option)
}
