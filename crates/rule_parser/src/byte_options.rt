//! Numbers in the payload: byte_test, byte_jump, byte_extract and isdataat.
ghost use Rattle.std.specs.Prelude.{◌≡◌, pos, negsuc, MatchResult, Ok, Err, option_copied, if◌then◌else◌};
ghost use Rattle.std.specs.List.{prefix_len};
ghost use Rattle.edge_io.specs.Bytes.{is_blank};
ghost use Rattle.net_lists.specs.Stops.{Gives};
ghost use Rattle.net_lists.specs.Variables.{is_name};
ghost use Rattle.rule_parser.specs.Names.{place_among, signed_or_named};
ghost use Rattle.rule_parser.specs.ByteOptions.{seen, first_part, next_part, words_of, operator_of, seen_comparison, comparison_of, byte_test, byte_test_option, byte_jump, byte_jump_option, seen_extraction, byte_extract, with_extraction, byte_extract_option, with_name, data_word, data_words, parts_after, isdataat, isdataat_option};
ghost use Rattle.rule_parser.specs.Drafts.{with_new};
ghost use Rattle.rule_parser.specs.Bits.{GivesNumber};

use crate::byte_words::{ByteWords, Which};
use crate::contents::negation;
use crate::draft::RuleDraft;
use crate::extracted::Extracted;
use crate::fault::Fault;
use crate::fields::place_of;
use crate::number::{number_or_named, place_among, signed_or_named};
use crate::word::is;
use crate::{Cmp, Fetch, Num, Opt};
use edge_io::Text;
use net_lists::{Parts, Stop, is_name, number_in, trimmed};
use std::alloc::Global;

/// A part of a value between commas, without the blanks around it.
#[derive(Clone, Copy)]
pub(crate) struct LentPart<'a> {
    pub text: &'a [u8],
    /// How many bytes of the line are left where it begins.
    pub left: usize,
    /// What comes after its comma, if there is a comma.
    pub after: Option<&'a [u8]>,
    /// How many bytes of the line are left where that begins.
    pub left_after: usize,
}

/// Space or tab.
fn is_blank(byte: u8) -> bool
    ensures { result ≡ is_blank byte }
{
    byte == b' ' || byte == b'\t'
}

/// How many blanks are in front.
#[tactic(auto, using(net_lists::proofs::Fronts::fronts))]
pub(crate) fn blanks_len(text: &[u8]) -> usize
    ensures { result ≡ prefix_len is_blank text.now }
{
    text.iter()
        .position(|byte| !is_blank(*byte))
        .unwrap_or(text.len())
}

/// The first part of a text that begins where `left` bytes of the line are left.
#[tactic(auto, unfolding(crate::specs::ByteOptions::first_part))]
pub(crate) fn first_part(left: usize, text: &[u8]) -> LentPart<'_>
    ensures { seen result ≡ first_part left text.now }
{
    let start = left.saturating_sub(blanks_len(text));
    match place_of(b',', text) {
        None => LentPart {
            text: trimmed(text),
            left: start,
            after: None,
            left_after: 0,
        },
        Some(place) => LentPart {
            text: trimmed(&text[..place]),
            left: start,
            after: Some(&text[place + 1..]),
            left_after: left.saturating_sub(place + 1),
        },
    }
}

/// The part after one, where there is one.
#[tactic(auto, unfolding(crate::specs::ByteOptions::next_part))]
pub(crate) fn next_part<'a>(part: &LentPart<'a>) -> Result<LentPart<'a>, Fault>
    ensures { MatchResult result (λ next. next_part (seen part.now) ≡ Ok (seen next)) (λ why. next_part (seen part.now)
        ≡ Err why) }
{
    let Some(text) = part.after else {
        return Err(Fault::OptionValue);
    };
    Ok(first_part(part.left_after, text))
}

/// All words after the parts that have their places.
#[tactic(auto, unfolding(crate::specs::ByteOptions::words_of))]
fn words_of(which: Which, after: Option<&[u8]>) -> Result<ByteWords, Fault>
    ensures { result ≡ words_of which (option_copied after.entry) }
{
    match after {
        None => Ok(ByteWords::none()),
        Some(text) => Parts::commas(text).fold_by(&which, ByteWords::none()),
    }
}

/// The words of a byte_test.
fn test_words(after: Option<&[u8]>) -> Result<ByteWords, Fault>
    ensures { result ≡ words_of Which.Test (option_copied after.entry) }
{
    words_of(Which::Test, after)
}

/// The words of a byte_jump.
fn jump_words(after: Option<&[u8]>) -> Result<ByteWords, Fault>
    ensures { result ≡ words_of Which.Jump (option_copied after.entry) }
{
    words_of(Which::Jump, after)
}

/// An operator of byte_test after its `!`, if there is one.
#[tactic(auto, unfolding(crate::specs::ByteOptions::operator_of))]
fn operator_of(negated: bool, text: &[u8]) -> Result<Cmp, Fault>
    ensures { result ≡ operator_of negated text.now }
{
    if is(text, b"<") {
        Ok(Cmp::Lt)
    } else if is(text, b">") {
        Ok(Cmp::Gt)
    } else if is(text, b"=") {
        Ok(Cmp::Eq)
    } else if is(text, b"<=") {
        Ok(Cmp::Le)
    } else if is(text, b">=") {
        Ok(Cmp::Ge)
    } else if is(text, b"&") {
        Ok(Cmp::And)
    } else if is(text, b"^") {
        Err(Fault::OutsideProfile)
    } else if negated && text.is_empty() {
        Ok(Cmp::Eq)
    } else {
        Err(Fault::OptionValue)
    }
}

/// An offset: -65535 to 65535, or a name.
fn offset_of(names: &Extracted, part: &LentPart) -> Result<Num, Fault>
    ensures { result ≡ signed_or_named (negsuc 65534) (pos 65535) names.now part.now.left part.now.text.now }
{
    signed_or_named(-65535, 65535, names.as_slice(), part.left, part.text)
}

/// What the value of a byte_jump says, after these names.
#[tactic(auto, unfolding(crate::specs::ByteOptions::byte_jump))]
fn byte_jump(names: &Extracted, left: usize, value: &[u8]) -> Result<Opt, Fault>
    ensures { result ≡ byte_jump names.now left value.now }
{
    let count = first_part(left, value);
    let Some(bytes) = number_in(1, 10, count.text) else {
        return Err(Fault::OptionValue);
    };
    let place = next_part(&count)?;
    let offset = offset_of(names, &place)?;
    let words = jump_words(place.after)?;
    let fetch = words.fetch(bytes as u8, offset)?;
    Ok(words.jump_option(fetch))
}

#[tactic(auto, unfolding(crate::specs::ByteOptions::byte_jump_option))]
pub(crate) fn byte_jump_option(
    draft: &mut RuleDraft,
    left: usize,
    value: &[u8],
) -> Result<(), Stop<Fault>>
    ensures { Gives (with_new result draft.new) (byte_jump_option draft.old left value.now) }
{
    let option = byte_jump(&draft.names, left, value)?;
    draft.keep(option)
}

/// What byte_test compares with, and how.
#[derive(Clone, Copy)]
pub(crate) struct LentComparison<'a> {
    pub negated: bool,
    pub cmp: Cmp,
    pub value: Num,
    /// The part that tells the value.
    pub part: LentPart<'a>,
}

/// The comparison after the first part.
#[tactic(auto, unfolding(crate::specs::ByteOptions::comparison_of))]
fn comparison_of<'a>(names: &Extracted, count: &LentPart<'a>) -> Result<LentComparison<'a>, Fault>
    ensures { MatchResult result (λ found. comparison_of names.now (seen count.now) ≡ Ok (seen_comparison found))
        (λ why. comparison_of names.now (seen count.now) ≡ Err why) }
{
    let operator = next_part(count)?;
    let (negated, sign) = negation(operator.text);
    let cmp = operator_of(negated, sign)?;
    let part = next_part(&operator)?;
    let value = number_or_named(0, u32::MAX, names.as_slice(), part.left, part.text)?;
    Ok(LentComparison {
        negated,
        cmp,
        value,
        part,
    })
}

/// What the value of a byte_test says, after these names.
#[tactic(auto, unfolding(crate::specs::ByteOptions::byte_test))]
fn byte_test(names: &Extracted, left: usize, value: &[u8]) -> Result<Opt, Fault>
    ensures { result ≡ byte_test names.now left value.now }
{
    let count = first_part(left, value);
    let Some(bytes) = number_in(1, 10, count.text) else {
        return Err(Fault::OptionValue);
    };
    let against = comparison_of(names, &count)?;
    let place = next_part(&against.part)?;
    let offset = offset_of(names, &place)?;
    let words = test_words(place.after)?;
    let fetch = words.fetch(bytes as u8, offset)?;
    Ok(Opt::ByteTest {
        fetch,
        not: against.negated,
        cmp: against.cmp,
        value: against.value,
    })
}

#[tactic(auto, unfolding(crate::specs::ByteOptions::byte_test_option))]
pub(crate) fn byte_test_option(
    draft: &mut RuleDraft,
    left: usize,
    value: &[u8],
) -> Result<(), Stop<Fault>>
    ensures { Gives (with_new result draft.new) (byte_test_option draft.old left value.now) }
{
    let option = byte_test(&draft.names, left, value)?;
    draft.keep(option)
}

/// Whether the one word that follows is `relative`.
fn data_word(word: &[u8]) -> Result<bool, Fault>
    ensures { result ≡ data_word word.now }
{
    if is(word, b"relative") {
        Ok(true)
    } else if is(word, b"rawbytes") {
        Ok(false)
    } else {
        Err(Fault::OptionValue)
    }
}

/// Whether `relative` is among what may follow the number of isdataat.
#[tactic(auto, unfolding(crate::specs::ByteOptions::data_words))]
fn data_words(after: Option<&[u8]>) -> Result<bool, Fault>
    ensures { result ≡ data_words (parts_after (option_copied after.entry)) }
{
    let Some(text) = after else {
        return Ok(false);
    };
    let mut parts = Parts::commas(text);
    let Some(first) = parts.next() else {
        return Ok(false);
    };
    let Some(second) = parts.next() else {
        return data_word(first);
    };
    if parts.next().is_some() {
        return Err(Fault::OptionValue);
    }
    if is(first, b"relative") && is(second, b"rawbytes") {
        return Ok(true);
    }
    Err(Fault::OptionValue)
}

/// What the value of an isdataat says, after these names.
#[tactic(auto, unfolding(crate::specs::ByteOptions::isdataat))]
fn isdataat(names: &Extracted, left: usize, value: &[u8]) -> Result<Opt, Fault>
    ensures { result ≡ isdataat names.now left value.now }
{
    let place = first_part(left, value);
    let (negated, number) = negation(place.text);
    let start = place.left.saturating_sub(usize::from(negated));
    let at = number_or_named(0, 65535, names.as_slice(), start, number)?;
    let relative = data_words(place.after)?;
    Ok(Opt::IsDataAt {
        at,
        relative,
        negated,
    })
}

#[tactic(auto, unfolding(crate::specs::ByteOptions::isdataat_option))]
pub(crate) fn isdataat_option(
    draft: &mut RuleDraft,
    left: usize,
    value: &[u8],
) -> Result<(), Stop<Fault>>
    ensures { Gives (with_new result draft.new) (isdataat_option draft.old left value.now) }
{
    let option = isdataat(&draft.names, left, value)?;
    draft.keep(option)
}

/// The place of a name among the others; one that is not there yet goes after them.
fn placed(alloc: Global, names: &mut Extracted, name: &[u8]) -> Result<u8, Stop<Fault>>
    ensures { GivesNumber result names.new (with_name names.old name.now (place_among name.now names.old)) }
{
    if let Some(place) = place_among(name, names.as_slice()) {
        return Ok(place as u8);
    }
    let count = names.as_slice().len();
    let name = Text::copy(alloc, name)?;
    names.push(name)?;
    Ok(count as u8)
}

/// The words of a byte_extract, where its name has the form of one.
fn extract_words(name: &[u8], after: Option<&[u8]>) -> Result<ByteWords, Fault>
    ensures { result ≡ (if is_name name.now then words_of Which.Extract (option_copied after.entry) else Err Fault.OptionValue) }
{
    if !is_name(name) {
        return Err(Fault::OptionValue);
    }
    words_of(Which::Extract, after)
}

/// A byte_extract before its name has a place among the others.
#[derive(Clone, Copy)]
struct LentExtraction<'a> {
    fetch: Fetch,
    words: ByteWords,
    name: &'a [u8],
}

/// What the value of a byte_extract says, after these names.
#[tactic(auto, unfolding(crate::specs::ByteOptions::byte_extract))]
fn byte_extract<'a>(
    names: &Extracted,
    left: usize,
    value: &'a [u8],
) -> Result<LentExtraction<'a>, Fault>
    ensures { MatchResult result (λ found. byte_extract names.now left value.now ≡ Ok (seen_extraction found))
        (λ why. byte_extract names.now left value.now ≡ Err why) }
{
    let count = first_part(left, value);
    let Some(bytes) = number_in(1, 10, count.text) else {
        return Err(Fault::OptionValue);
    };
    let place = next_part(&count)?;
    let offset = offset_of(names, &place)?;
    let name = next_part(&place)?;
    let words = extract_words(name.text, name.after)?;
    let fetch = words.fetch(bytes as u8, offset)?;
    Ok(LentExtraction {
        fetch,
        words,
        name: name.text,
    })
}

/// The rule with a byte_extract, and its name among the others.
#[tactic(auto, unfolding(crate::specs::ByteOptions::with_extraction))]
fn with_extraction(
    alloc: Global,
    draft: &mut RuleDraft,
    found: LentExtraction<'_>,
) -> Result<(), Stop<Fault>>
    ensures { Gives (with_new result draft.new) (with_extraction draft.old (seen_extraction found.entry)) }
{
    let number = placed(alloc, &mut draft.names, found.name)?;
    draft.keep(found.words.extract_option(found.fetch, number))
}

#[tactic(auto, unfolding(crate::specs::ByteOptions::byte_extract_option))]
pub(crate) fn byte_extract_option(
    alloc: Global,
    draft: &mut RuleDraft,
    left: usize,
    value: &[u8],
) -> Result<(), Stop<Fault>>
    ensures { Gives (with_new result draft.new) (byte_extract_option draft.old left value.now) }
{
    let found = byte_extract(&draft.names, left, value)?;
    with_extraction(alloc, draft, found)
}
