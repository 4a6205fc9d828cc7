//! Options on reassembled streams: stream_size and stream_reassemble.
ghost use Rattle.std.specs.Prelude.{◌≡◌};
ghost use Rattle.net_lists.specs.Cutting.{comma_parts};
ghost use Rattle.net_lists.specs.Stops.{Gives};
ghost use Rattle.rule_parser.specs.Steering.{side_of, sized_side, size_cmp, size_parts, stream_size_option, switched, quiet, quiet_end, reassemble_parts, stream_reassemble_option};
ghost use Rattle.rule_parser.specs.Drafts.{with_new};

use crate::draft::RuleDraft;
use crate::fault::Fault;
use crate::word::is;
use crate::{Cmp, Opt, Side};
use net_lists::{Parts, Stop, number_in};

/// A side, or both.
#[tactic(auto, unfolding(crate::specs::Steering::side_of))]
fn side_of(text: &[u8]) -> Result<Side, Fault>
    ensures { result ≡ side_of text.now }
{
    if is(text, b"client") {
        Ok(Side::Client)
    } else if is(text, b"server") {
        Ok(Side::Server)
    } else if is(text, b"both") {
        Ok(Side::Both)
    } else if is(text, b"fastpath") {
        Err(Fault::OutsideProfile)
    } else {
        Err(Fault::OptionValue)
    }
}

/// The sides whose sizes are compared.
#[tactic(auto, unfolding(crate::specs::Steering::sized_side))]
fn sized_side(text: &[u8]) -> Result<Side, Fault>
    ensures { result ≡ sized_side text.now }
{
    if is(text, b"either") {
        Ok(Side::Either)
    } else if is(text, b"fastpath") {
        Err(Fault::OptionValue)
    } else {
        side_of(text)
    }
}

/// How sizes are compared.
#[tactic(auto, unfolding(crate::specs::Steering::size_cmp))]
fn size_cmp(text: &[u8]) -> Result<Cmp, Fault>
    ensures { result ≡ size_cmp text.now }
{
    if is(text, b"<") {
        Ok(Cmp::Lt)
    } else if is(text, b">") {
        Ok(Cmp::Gt)
    } else if is(text, b"=") {
        Ok(Cmp::Eq)
    } else if is(text, b"!=") {
        Ok(Cmp::Ne)
    } else if is(text, b"<=") {
        Ok(Cmp::Le)
    } else if is(text, b">=") {
        Ok(Cmp::Ge)
    } else {
        Err(Fault::OptionValue)
    }
}

/// What the value of a stream_size says.
#[tactic(auto, unfolding(crate::specs::Steering::size_parts))]
fn stream_size(value: &[u8]) -> Result<Opt, Fault>
    ensures { result ≡ size_parts (comma_parts value.now) }
{
    let mut parts = Parts::commas(value);
    let (Some(first), Some(second), Some(third), None) = (
        parts.next(),
        parts.next(),
        parts.next(),
        parts.next(),
    ) else {
        return Err(Fault::OptionValue);
    };
    let side = sized_side(first)?;
    let cmp = size_cmp(second)?;
    let Some(value) = number_in(0, u32::MAX, third) else {
        return Err(Fault::OptionValue);
    };
    Ok(Opt::StreamSize { side, cmp, value })
}

#[tactic(auto, unfolding(crate::specs::Steering::stream_size_option))]
pub(crate) fn stream_size_option(draft: &mut RuleDraft, value: &[u8]) -> Result<(), Stop<Fault>>
    ensures { Gives (with_new result draft.new) (stream_size_option draft.old value.now) }
{
    let option = stream_size(value)?;
    draft.keep(option)
}

/// Whether a word says on or off.
#[tactic(auto, unfolding(crate::specs::Steering::switched))]
fn switched(text: &[u8]) -> Result<bool, Fault>
    ensures { result ≡ switched text.now }
{
    if is(text, b"enable") {
        Ok(true)
    } else if is(text, b"disable") {
        Ok(false)
    } else if is(text, b"fastpath") {
        Err(Fault::OutsideProfile)
    } else {
        Err(Fault::OptionValue)
    }
}

/// Whether `noalert` is in what is left, as the last part.
#[tactic(auto, unfolding(crate::specs::Steering::quiet, crate::specs::Steering::quiet_end))]
fn quiet(mut rest: Parts) -> Result<bool, Fault>
    ensures { result ≡ quiet rest.entry }
{
    let Some(first) = rest.next() else {
        return Ok(false);
    };
    if is(first, b"fastpath") {
        return Err(Fault::OutsideProfile);
    }
    if !is(first, b"noalert") {
        return Err(Fault::OptionValue);
    }
    let Some(next) = rest.next() else {
        return Ok(true);
    };
    if is(next, b"fastpath") {
        return Err(Fault::OutsideProfile);
    }
    Err(Fault::OptionValue)
}

/// What the value of a stream_reassemble says: whether it is on, of which side, and without an alert.
#[tactic(auto, unfolding(crate::specs::Steering::reassemble_parts))]
fn stream_reassemble(value: &[u8]) -> Result<(bool, Side, bool), Fault>
    ensures { result ≡ reassemble_parts (comma_parts value.now) }
{
    let mut parts = Parts::commas(value);
    let Some(first) = parts.next() else {
        return Err(Fault::OptionValue);
    };
    let on = switched(first)?;
    let Some(second) = parts.next() else {
        return Err(Fault::OptionValue);
    };
    let side = side_of(second)?;
    let noalert = quiet(parts)?;
    Ok((on, side, noalert))
}

#[tactic(auto, unfolding(crate::specs::Steering::stream_reassemble_option))]
pub(crate) fn stream_reassemble_option(
    draft: &mut RuleDraft,
    value: &[u8],
) -> Result<(), Stop<Fault>>
    ensures { Gives (with_new result draft.new) (stream_reassemble_option draft.old value.now) }
{
    let (on, side, noalert) = stream_reassemble(value)?;
    draft.noalert = draft.noalert || noalert;
    draft.keep(Opt::Reassemble { on, side })
}
