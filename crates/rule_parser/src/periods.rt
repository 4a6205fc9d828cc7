//! Detection filters.
ghost use Rattle.std.specs.Prelude.{◌≡◌, MatchResult, Ok, Err};
ghost use Rattle.net_lists.specs.Cutting.{comma_parts};
ghost use Rattle.rule_parser.specs.Periods.{after_key, tracked, counted, period_parts, detection_filter_option};
ghost use Rattle.rule_parser.specs.Drafts.{with_new};

use crate::Period;
use crate::draft::RuleDraft;
use crate::fault::Fault;
use crate::word::is;
use net_lists::{Parts, first_word, number_in};

/// What comes after this word in a part.
#[tactic(auto, unfolding(crate::specs::Periods::after_key))]
fn after_key<'a>(key: &[u8], part: &'a [u8]) -> Result<&'a [u8], Fault>
    ensures { MatchResult result (λ rest. after_key key.now part.now ≡ Ok rest.now) (λ fault. after_key key.now part.now
        ≡ Err fault) }
{
    let (word, rest) = first_word(part);
    if word == key {
        Ok(rest)
    } else {
        Err(Fault::OptionValue)
    }
}

/// Whether matches are counted by their source.
#[tactic(auto, unfolding(crate::specs::Periods::tracked))]
fn tracked(side: &[u8]) -> Result<bool, Fault>
    ensures { result ≡ tracked side.now }
{
    if is(side, b"by_src") {
        Ok(true)
    } else if is(side, b"by_dst") {
        Ok(false)
    } else {
        Err(Fault::OptionValue)
    }
}

/// A number after its word.
#[tactic(auto, unfolding(crate::specs::Periods::counted))]
fn counted(key: &[u8], part: &[u8]) -> Result<u32, Fault>
    ensures { result ≡ counted key.now part.now }
{
    let number = after_key(key, part)?;
    number_in(1, u32::MAX, number).ok_or(Fault::OptionValue)
}

/// The three parts.
#[tactic(auto, unfolding(crate::specs::Periods::period_parts))]
fn period_of(value: &[u8]) -> Result<Period, Fault>
    ensures { result ≡ period_parts (comma_parts value.now) }
{
    let mut parts = Parts::commas(value);
    let (Some(first), Some(second), Some(third), None) = (
        parts.next(),
        parts.next(),
        parts.next(),
        parts.next(),
    ) else {
        return Err(Fault::OptionValue);
    };
    let side = after_key(b"track", first)?;
    let by_src = tracked(side)?;
    let count = counted(b"count", second)?;
    let seconds = counted(b"seconds", third)?;
    Ok(Period {
        by_src,
        count,
        seconds,
    })
}

#[tactic(auto, unfolding(crate::specs::Periods::detection_filter_option))]
pub(crate) fn detection_filter_option(draft: &mut RuleDraft, value: &[u8]) -> Result<(), Fault>
    ensures { with_new result draft.new ≡ detection_filter_option draft.old value.now }
{
    let period = period_of(value)?;
    if draft.period.is_some() {
        return Err(Fault::OptionValue);
    }
    draft.period = Some(period);
    Ok(())
}
