//! Flowbits: what a rule changes of its session's bits, and what it asks of them.
ghost use Rattle.std.specs.Prelude.{◌≡◌, MatchResult, Ok, Err};
ghost use Rattle.std.specs.List.{list_all, list_any};
ghost use Rattle.rule_parser.specs.Bits.{GivesWith, GivesNumber, Begins};
ghost use Rattle.rule_parser.specs.Flowbits.{is_bit_byte, is_joining, bit_name, bit_option, bit_word, numbered, last_name, bit_parts, noalert, flowbits_option};
ghost use Rattle.rule_parser.specs.ByteOptions.{seen};
ghost use Rattle.rule_parser.specs.Names.{place_among};
ghost use Rattle.rule_parser.specs.Drafts.{with_new};

use crate::bits::{BitNames, MOST_BITS};
use crate::byte_options::{LentPart, first_part, next_part};
use crate::draft::RuleDraft;
use crate::fault::Fault;
use crate::number::place_among;
use crate::word::is;
use crate::{BitChange, Opt};
use edge_io::Text;
use net_lists::Stop;
use std::alloc::Global;

/// A word that wants a bit's name.
#[derive(Clone, Copy)]
pub(crate) enum BitWord {
    Set,
    Unset,
    Toggle,
    IsSet,
    IsNotSet,
}

fn is_bit_byte(byte: u8) -> bool
    ensures { result ≡ is_bit_byte byte }
{
    byte.is_ascii_alphanumeric() || (byte == b'.' || (byte == b'_' || byte == b'-'))
}

fn is_joining(byte: u8) -> bool
    ensures { result ≡ is_joining byte }
{
    byte == b'&' || byte == b'|'
}

fn are_bit_bytes(text: &[u8]) -> bool
    ensures { result ≡ list_all is_bit_byte text.now }
{
    text.iter().all(|byte| is_bit_byte(*byte))
}

fn has_joining(text: &[u8]) -> bool
    ensures { result ≡ list_any is_joining text.now }
{
    text.iter().any(|byte| is_joining(*byte))
}

/// A name of a bit.
#[tactic(auto, unfolding(crate::specs::Flowbits::bit_name))]
fn bit_name(text: &[u8]) -> Result<&[u8], Fault>
    ensures { MatchResult result (λ name. bit_name text.now ≡ Ok name.now) (λ fault. bit_name text.now ≡ Err fault) }
{
    if has_joining(text) {
        return Err(Fault::OutsideProfile);
    }
    if text.is_empty() || !are_bit_bytes(text) {
        return Err(Fault::OptionValue);
    }
    Ok(text)
}

impl BitWord {
    /// A word that wants a name.
    #[tactic(auto, unfolding(crate::specs::Flowbits::bit_word))]
    fn read(text: &[u8]) -> Result<BitWord, Fault>
        ensures { result ≡ bit_word text.now }
    {
        if is(text, b"set") {
            Ok(BitWord::Set)
        } else if is(text, b"unset") {
            Ok(BitWord::Unset)
        } else if is(text, b"toggle") {
            Ok(BitWord::Toggle)
        } else if is(text, b"isset") {
            Ok(BitWord::IsSet)
        } else if is(text, b"isnotset") {
            Ok(BitWord::IsNotSet)
        } else if is(text, b"setx") || is(text, b"reset") {
            Err(Fault::OutsideProfile)
        } else {
            Err(Fault::OptionValue)
        }
    }

    fn option(self, bit: u32) -> Opt
        ensures { result ≡ bit_option self bit }
    {
        match self {
            BitWord::Set => Opt::BitDo {
                change: BitChange::Set,
                bit,
            },
            BitWord::Unset => Opt::BitDo {
                change: BitChange::Unset,
                bit,
            },
            BitWord::Toggle => Opt::BitDo {
                change: BitChange::Toggle,
                bit,
            },
            BitWord::IsSet => Opt::BitTest { bit, want: true },
            BitWord::IsNotSet => Opt::BitTest { bit, want: false },
        }
    }
}

/// The number of a name; one that is not there yet goes after the others.
fn numbered(alloc: Global, bits: &mut BitNames, name: &[u8]) -> Result<u32, Stop<Fault>>
    ensures gives { GivesNumber result bits.new (numbered bits.old name.now (place_among name.now bits.old)) }
    ensures begins { Begins bits.old bits.new }
{
    if let Some(place) = place_among(name, bits.as_slice()) {
        return Ok(place as u32);
    }
    let count = bits.as_slice().len();
    if count >= MOST_BITS {
        return Err(Stop::Wrong(Fault::Limit));
    }
    let name = Text::copy(alloc, name)?;
    bits.push(name)?;
    Ok(count as u32)
}

/// The name in a part, after which nothing comes.
#[tactic(auto, unfolding(crate::specs::Flowbits::last_name))]
fn last_name<'a>(part: &LentPart<'a>) -> Result<&'a [u8], Fault>
    ensures { MatchResult result (λ name. last_name (seen part.now) ≡ Ok name.now) (λ why. last_name (seen part.now) ≡ Err why) }
{
    let name = bit_name(part.text)?;
    if part.after.is_some() {
        return Err(Fault::OutsideProfile);
    }
    Ok(name)
}

/// An option of a word and a name.
#[tactic(auto, unfolding(crate::specs::Flowbits::bit_parts))]
fn bit_parts(
    alloc: Global,
    bits: &mut BitNames,
    draft: &mut RuleDraft,
    first: &LentPart,
    word: BitWord,
) -> Result<(), Stop<Fault>>
    ensures gives { GivesWith (with_new result draft.new) bits.new (bit_parts bits.old draft.old (seen first.now) word) }
    ensures begins { Begins bits.old bits.new }
{
    let part = next_part(first)?;
    let name = last_name(&part)?;
    let bit = numbered(alloc, bits, name)?;
    draft.keep(word.option(bit))
}

/// `noalert`, after which nothing comes.
fn noalert(draft: &mut RuleDraft, first: &LentPart) -> Result<(), Fault>
    ensures { with_new result draft.new ≡ noalert draft.old (seen first.now) }
{
    if first.after.is_some() {
        return Err(Fault::OptionValue);
    }
    draft.noalert = true;
    Ok(())
}

#[tactic(auto, unfolding(crate::specs::Flowbits::flowbits_option, crate::specs::Flowbits::flowbits_parts))]
pub(crate) fn flowbits_option(
    alloc: Global,
    bits: &mut BitNames,
    draft: &mut RuleDraft,
    value: &[u8],
) -> Result<(), Stop<Fault>>
    ensures gives { GivesWith (with_new result draft.new) bits.new (flowbits_option bits.old draft.old value.now) }
    ensures begins { Begins bits.old bits.new }
{
    let first = first_part(0, value);
    if is(first.text, b"noalert") {
        return Ok(noalert(draft, &first)?);
    }
    let word = BitWord::read(first.text)?;
    bit_parts(alloc, bits, draft, &first, word)
}
