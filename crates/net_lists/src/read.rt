//! Reading a list of either kind, part by part.
ghost use Rattle.std.specs.Prelude.{◌≡◌, ◌++◌, OnOk, option_copied, option_to_list};
ghost use Rattle.net_lists.specs.Machine.{Reads, ReadsList, group_parts, operand_parts, signed_parts, list_parts, bracketed, IsOne};

use crate::part::{Part, Spelled};
use crate::place::Place;
use crate::token::next_token;
use std::alloc::{AllocError, AllocFailed, Global};

/// Parts that a list may have.
const MOST_PARTS: usize = 1024;

/// Why a text is not read as a list of its kind.
#[derive(Clone, Copy, Debug, PartialEq, Eq)]
pub enum ReadFault {
    /// The text is no list of its kind.
    Bad,
    /// The list has more than 1024 parts.
    TooLong,
    /// Memory ran out.
    NoMemory,
}

impl From<AllocError> for ReadFault {
    ghost use Rattle.std.specs.Prelude.{◌≡◌};
    ghost use Rattle.net_lists.specs.declared.read.ReadFault.TheVariants.{NoMemory as out_of_memory};

    ghost from_gives = { λ _ fault. fault ≡ out_of_memory };

    fn from(_error: AllocError) -> ReadFault {
        ReadFault::NoMemory
    }
}

impl<T: Drop> From<AllocFailed<T>> for ReadFault {
    ghost use Rattle.std.specs.Prelude.{◌≡◌};
    ghost use Rattle.net_lists.specs.declared.read.ReadFault.TheVariants.{NoMemory as out_of_memory};

    ghost from_gives = { λ _ fault. fault ≡ out_of_memory };

    fn from(_error: AllocFailed<T>) -> ReadFault {
        ReadFault::NoMemory
    }
}

/// The parts of a list of this kind.
pub fn read_list<B: Spelled>(alloc: Global, text: &[u8]) -> Result<Vec<Part<B>>, ReadFault>
    ensures { ReadsList (λ parts. parts.items) result (list_parts B.bounds_of text.now) }
{
    match all_parts(alloc, text) {
        Ok(parts) => {
            if parts.len() > MOST_PARTS {
                return Err(ReadFault::TooLong);
            }
            Ok(parts)
        }
        Err(fault) => Err(fault),
    }
}

/// The parts of a list, however many.
#[tactic(auto, unfolding(crate::specs::Machine::list_parts))]
fn all_parts<B: Spelled>(alloc: Global, text: &[u8]) -> Result<Vec<Part<B>>, ReadFault>
    ensures { Reads (λ parts. parts.items) result (list_parts B.bounds_of text.now) }
{
    if text == b"any".as_slice() {
        return Ok(Vec::new(alloc));
    }
    signed_parts(alloc, text)
}

/// The parts of a list other than `any`.
#[tactic(auto, unfolding(crate::specs::Machine::signed_parts))]
fn signed_parts<B: Spelled>(alloc: Global, text: &[u8]) -> Result<Vec<Part<B>>, ReadFault>
    ensures { Reads (λ parts. parts.items) result (signed_parts B.bounds_of text.now) }
{
    match text.split_first() {
        Some((b'!', operand)) => operand_parts(alloc, true, operand),
        _ => operand_parts(alloc, false, text),
    }
}

/// The parts of a part or of a group in brackets.
#[tactic(auto, unfolding(crate::specs::Machine::operand_parts))]
fn operand_parts<B: Spelled>(
    alloc: Global,
    negated: bool,
    text: &[u8],
) -> Result<Vec<Part<B>>, ReadFault>
    ensures { Reads (λ parts. parts.items) result (operand_parts B.bounds_of negated text.now) }
{
    match bracketed(text) {
        Some(inner) => group_parts(alloc, negated, inner),
        None => match B::read(text) {
            Some(bounds) => one_part(alloc, Part { negated, bounds }),
            None => Err(ReadFault::Bad),
        },
    }
}

/// A list of one part.
fn one_part<B: Copy>(alloc: Global, part: Part<B>) -> Result<Vec<Part<B>>, ReadFault>
    ensures { IsOne part result }
{
    let mut parts = Vec::new(alloc);
    parts.push(part)?;
    Ok(parts)
}

/// What is between a `[` in front and a `]` at the end.
#[tactic(auto, unfolding(crate::specs::Machine::bracketed))]
fn bracketed(text: &[u8]) -> Option<&[u8]>
    ensures { option_copied result ≡ bracketed text.now }
{
    let len = text.len();
    if len < 2 || text[0] != b'[' || text[len - 1] != b']' {
        return None;
    }
    Some(&text[1..len - 1])
}

/// The parts of a group that is in brackets.
fn group_parts<B: Spelled>(
    alloc: Global,
    negated: bool,
    inner: &[u8],
) -> Result<Vec<Part<B>>, ReadFault>
    ensures { Reads (λ parts. parts.items) result (group_parts B.bounds_of negated inner.now) }
{
    let mut parts = Vec::new(alloc);
    let mut place = Place::start(negated);
    let mut rest = inner;
    while let Some((token, after)) = next_token(rest) {
        let Some(step) = place.step(token) else {
            return Err(ReadFault::Bad);
        };
        push_part(&mut parts, step.part)?;
        place = step.place;
        rest = after;
    }
    if !place.is_end() {
        return Err(ReadFault::Bad);
    }
    Ok(parts)
}

/// Adds a part after the last, if there is one.
fn push_part<B: Copy>(parts: &mut Vec<Part<B>>, part: Option<Part<B>>) -> Result<(), AllocError>
    ensures { OnOk result (parts.new.items ≡ parts.old.items ++ option_to_list part) }
{
    match part {
        Some(part) => {
            parts.push(part)?;
            Ok(())
        }
        None => Ok(()),
    }
}
