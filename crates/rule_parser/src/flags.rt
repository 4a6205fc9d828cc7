//! What a rule asks of a session, of TCP flags and of fragment bits.
ghost use Rattle.std.specs.Prelude.{◌≡◌};
ghost use Rattle.net_lists.specs.Cutting.{comma_parts};
ghost use Rattle.net_lists.specs.Folds.{draft_after};
ghost use Rattle.net_lists.specs.Stops.{Gives};
ghost use Rattle.rule_parser.specs.Flags.{no_flow, first_of_group, session_word, item_word, flow_word, flow_option, no_letters, mode_of, flag_bit, frag_bit, with_bit, with_mode, if_any, flag_step, frag_step, flag_letters, frag_letters, frag_signed, mask_of, flags_parts, flags_of, flags_option, fragbits_option};
ghost use Rattle.rule_parser.specs.Drafts.{with_new};

use crate::draft::RuleDraft;
use crate::fault::Fault;
use crate::word::is;
use crate::{FlowOpt, Mode, Opt};
use net_lists::{PartStep, Parts, Stop};

/// A `flow` that asks nothing.
fn no_flow() -> FlowOpt
    ensures { result ≡ no_flow }
{
    FlowOpt {
        established: None,
        stateless: false,
        from_client: None,
        stream: None,
        frag: None,
    }
}

/// This `flow`, where the group of its last word has no word yet.
fn first_of_group(is_given: bool, flow: FlowOpt) -> Result<FlowOpt, Fault>
    ensures { result ≡ first_of_group is_given flow }
{
    if is_given {
        Err(Fault::OptionValue)
    } else {
        Ok(flow)
    }
}

/// The `flow` with a word on the session.
#[tactic(auto, unfolding(crate::specs::Flags::session_word))]
fn session_word(flow: FlowOpt, word: &[u8]) -> Result<FlowOpt, Fault>
    ensures { result ≡ session_word flow word.now }
{
    let is_given = flow.established.is_some() || flow.stateless;
    if is(word, b"established") {
        first_of_group(
            is_given,
            FlowOpt {
                established: Some(true),
                ..flow
            },
        )
    } else if is(word, b"not_established") {
        first_of_group(
            is_given,
            FlowOpt {
                established: Some(false),
                ..flow
            },
        )
    } else if is(word, b"stateless") {
        first_of_group(
            is_given,
            FlowOpt {
                stateless: true,
                ..flow
            },
        )
    } else {
        Err(Fault::OptionValue)
    }
}

/// The `flow` with a word on how the item came to be, or on the session.
#[tactic(auto, unfolding(crate::specs::Flags::item_word))]
fn item_word(flow: FlowOpt, word: &[u8]) -> Result<FlowOpt, Fault>
    ensures { result ≡ item_word flow word.now }
{
    if is(word, b"only_stream") {
        first_of_group(
            flow.stream.is_some(),
            FlowOpt {
                stream: Some(true),
                ..flow
            },
        )
    } else if is(word, b"no_stream") {
        first_of_group(
            flow.stream.is_some(),
            FlowOpt {
                stream: Some(false),
                ..flow
            },
        )
    } else if is(word, b"only_frag") {
        first_of_group(
            flow.frag.is_some(),
            FlowOpt {
                frag: Some(true),
                ..flow
            },
        )
    } else if is(word, b"no_frag") {
        first_of_group(
            flow.frag.is_some(),
            FlowOpt {
                frag: Some(false),
                ..flow
            },
        )
    } else {
        session_word(flow, word)
    }
}

/// The `flow` with one word more.
#[tactic(auto, unfolding(crate::specs::Flags::flow_word))]
fn flow_word(flow: FlowOpt, word: &[u8]) -> Result<FlowOpt, Fault>
    ensures { result ≡ flow_word flow word.now }
{
    if is(word, b"to_server") || is(word, b"from_client") {
        first_of_group(
            flow.from_client.is_some(),
            FlowOpt {
                from_client: Some(true),
                ..flow
            },
        )
    } else if is(word, b"to_client") || is(word, b"from_server") {
        first_of_group(
            flow.from_client.is_some(),
            FlowOpt {
                from_client: Some(false),
                ..flow
            },
        )
    } else {
        item_word(flow, word)
    }
}

/// The words of a `flow`.
struct FlowWords;

impl PartStep<FlowOpt, Fault> for FlowWords {
    ghost next_draft = { λ _ flow word. flow_word flow word };

    fn next(&self, flow: FlowOpt, word: &[u8]) -> Result<FlowOpt, Fault> {
        flow_word(flow, word)
    }
}

/// What the words ask.
fn flow_words(value: &[u8]) -> Result<FlowOpt, Fault>
    ensures { result ≡ draft_after flow_word no_flow (comma_parts value.now) }
{
    Parts::commas(value).fold_by(&FlowWords, no_flow())
}

#[tactic(auto, unfolding(crate::specs::Flags::flow_option))]
pub(crate) fn flow_option(draft: &mut RuleDraft, value: &[u8]) -> Result<(), Stop<Fault>>
    ensures { Gives (with_new result draft.new) (flow_option draft.old value.now) }
{
    let flow = flow_words(value)?;
    if draft.flow {
        return Err(Stop::Wrong(Fault::OptionValue));
    }
    draft.flow = true;
    draft.keep(Opt::Flow(flow))
}

/// The letters of `flags` or `fragbits` so far.
#[derive(Clone, Copy)]
pub(crate) struct FlagLetters {
    /// The sign that was given.
    pub mode: Option<Mode>,
    pub bits: u8,
    /// A letter was given.
    pub any: bool,
}

/// The sign that a byte is.
fn mode_of(byte: u8) -> Option<Mode>
    ensures { result ≡ mode_of byte }
{
    match byte {
        b'!' => Some(Mode::NoneSet),
        b'*' => Some(Mode::Any),
        b'+' => Some(Mode::All),
        _ => None,
    }
}

/// The bit of a letter of TCP flags.
fn flag_bit(byte: u8) -> Option<u8>
    ensures { result ≡ flag_bit byte }
{
    match byte {
        b'F' => Some(1),
        b'S' => Some(2),
        b'R' => Some(4),
        b'P' => Some(8),
        b'A' => Some(16),
        b'U' => Some(32),
        b'E' | b'2' => Some(64),
        b'C' | b'1' => Some(128),
        b'0' => Some(0),
        _ => None,
    }
}

/// The bit of a letter of fragment bits.
fn frag_bit(byte: u8) -> Option<u8>
    ensures { result ≡ frag_bit byte }
{
    match byte {
        b'M' => Some(1),
        b'D' => Some(2),
        b'R' => Some(4),
        _ => None,
    }
}

impl FlagLetters {
    fn none() -> FlagLetters
        ensures { result ≡ no_letters }
    {
        FlagLetters {
            mode: None,
            bits: 0,
            any: false,
        }
    }

    /// The letters with one bit more, if there is one.
    fn with_bit(self, bit: Option<u8>) -> Option<FlagLetters>
        ensures { result ≡ with_bit self bit }
    {
        let bit = bit?;
        Some(FlagLetters {
            bits: self.bits | bit,
            any: true,
            ..self
        })
    }

    /// The letters with a sign, if the byte is one, or else with its bit.
    fn with_mode(self, bit: Option<u8>, mode: Option<Mode>) -> Option<FlagLetters>
        ensures { result ≡ with_mode self (with_bit self bit) mode }
    {
        match mode {
            None => self.with_bit(bit),
            Some(_) => {
                if self.mode.is_some() {
                    return None;
                }
                Some(FlagLetters { mode, ..self })
            }
        }
    }

    /// These letters, where there is one.
    fn unless_none(self) -> Option<FlagLetters>
        ensures { result ≡ if_any self }
    {
        if self.any { Some(self) } else { None }
    }

    /// The letters with a letter of TCP flags, or a sign where signs may come.
    #[tactic(auto, unfolding(crate::specs::Flags::flag_step))]
    fn with_flag(self, signs: bool, byte: u8) -> Option<FlagLetters>
        ensures { result ≡ flag_step signs self byte }
    {
        let mode = if signs { mode_of(byte) } else { None };
        self.with_mode(flag_bit(byte), mode)
    }

    /// The letters with a letter of fragment bits, or a sign where it is the last byte.
    #[tactic(auto, unfolding(crate::specs::Flags::frag_step))]
    fn with_frag(self, last: bool, byte: u8) -> Option<FlagLetters>
        ensures { result ≡ frag_step last self byte }
    {
        let mode = if last { mode_of(byte) } else { None };
        self.with_mode(frag_bit(byte), mode)
    }
}

/// The letters of TCP flags, a sign anywhere among them where signs may come.
#[tactic(auto, using(crate::proofs::Lettering::flag_steps))]
fn flag_letters(signs: bool, text: &[u8]) -> Option<FlagLetters>
    ensures { result ≡ flag_letters signs no_letters text.now }
{
    let mut letters = FlagLetters::none();
    for byte in text {
        letters = letters.with_flag(signs, *byte)?;
    }
    letters.unless_none()
}

/// The letters of fragment bits after a sign of this mode, if there is one; a sign may be the last byte.
#[tactic(auto, using(crate::proofs::Lettering::frag_steps))]
fn frag_letters(mode: Option<Mode>, text: &[u8]) -> Option<FlagLetters>
    ensures { result ≡ frag_letters (record no_letters { mode = mode }) text.now }
{
    let mut letters = FlagLetters {
        mode,
        ..FlagLetters::none()
    };
    let mut left = text.len();
    for byte in text {
        left -= 1;
        letters = letters.with_frag(left == 0, *byte)?;
    }
    letters.unless_none()
}

/// The letters of fragment bits with a sign before or after them.
fn frag_signed(text: &[u8]) -> Option<FlagLetters>
    ensures { result ≡ frag_signed text.now }
{
    let [byte, rest @ ..] = text else {
        return None;
    };
    match mode_of(*byte) {
        None => frag_letters(None, text),
        Some(mode) => frag_letters(Some(mode), rest),
    }
}

/// The bits of a mask that may lack.
fn mask_of(mut rest: Parts) -> Result<u8, Fault>
    ensures { result ≡ mask_of rest.entry }
{
    let Some(mask) = rest.next() else {
        return Ok(0);
    };
    if rest.next().is_some() {
        return Err(Fault::OptionValue);
    }
    let Some(letters) = flag_letters(false, mask) else {
        return Err(Fault::OptionValue);
    };
    Ok(letters.bits)
}

/// What a `flags` says.
#[tactic(auto, unfolding(crate::specs::Flags::flags_of))]
fn flags_of(value: &[u8]) -> Result<Opt, Fault>
    ensures { result ≡ flags_of value.now }
{
    let mut parts = Parts::commas(value);
    let Some(first) = parts.next() else {
        return Err(Fault::OptionValue);
    };
    let Some(letters) = flag_letters(true, first) else {
        return Err(Fault::OptionValue);
    };
    let mask = mask_of(parts)?;
    Ok(Opt::Flags {
        mode: letters.mode.unwrap_or(Mode::Exact),
        bits: letters.bits,
        mask,
    })
}

#[tactic(auto, unfolding(crate::specs::Flags::flags_option))]
pub(crate) fn flags_option(draft: &mut RuleDraft, value: &[u8]) -> Result<(), Stop<Fault>>
    ensures { Gives (with_new result draft.new) (flags_option draft.old value.now) }
{
    let option = flags_of(value)?;
    draft.keep(option)
}

#[tactic(auto, unfolding(crate::specs::Flags::fragbits_option))]
pub(crate) fn fragbits_option(draft: &mut RuleDraft, value: &[u8]) -> Result<(), Stop<Fault>>
    ensures { Gives (with_new result draft.new) (fragbits_option draft.old value.now) }
{
    let Some(letters) = frag_signed(value) else {
        return Err(Stop::Wrong(Fault::OptionValue));
    };
    draft.keep(Opt::FragBits {
        mode: letters.mode.unwrap_or(Mode::Exact),
        bits: letters.bits,
    })
}
