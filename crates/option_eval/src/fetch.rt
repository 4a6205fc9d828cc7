//! The numbers that options read: told, extracted, or fetched from the payload.

ghost use Rattle.std.specs.Prelude.{◌≡◌, ℕ, ◌+◌, ◌^◌, ◌<◌, ◌≤◌, length, nat_lt, option_map, IfSome, if◌then◌else◌};
ghost use Rattle.std.specs.List.{prefix_len};
ghost use Rattle.option_eval.specs.Numbers.{number_of, origin, digit_of, digits_number, text_number, bytes_number, fetched, rounded_up};
ghost use Rattle.option_eval.specs.Ranges.{IsSmall, IsShort};
ghost use Rattle.option_eval.specs.Sets.{point};

use byteorder::{BigEndian, ByteOrder, LittleEndian};
use rule_types::{Base, Fetch, Num};

/// The values of a rule's two names.
pub(crate) type Values = [u64; 2];

/// A number that was fetched, and the place after its bytes.
#[derive(Clone, Copy)]
pub(crate) struct Fetched {
    pub number: u64,
    pub stop: usize,
}

/// The number of an option.
pub(crate) fn number(values: &Values, number: Num) -> i128
    ensures value { result ≡ number_of values.now number }
    ensures small { IsSmall result }
{
    match number {
        Num::Value(number) => i128::from(number),
        Num::Name(name) => i128::from(values.get(usize::from(name)).copied().unwrap_or(0)),
    }
}

/// Where an option counts from.
pub(crate) fn origin(relative: bool, place: usize) -> usize
    ensures { result ≡ (if relative then place else 0) }
{
    if relative { place } else { 0 }
}

fn digit_of(byte: u8) -> u8
    ensures value { result ≡ digit_of byte }
    ensures small { result ≤ 16 }
{
    match byte {
        b'0'..=b'9' => byte - b'0',
        b'A'..=b'F' => byte - 55,
        b'a'..=b'f' => byte - 87,
        _ => 16,
    }
}

fn digit_count(radix: u8, text: &[u8]) -> usize
    ensures value { result ≡ prefix_len (λ byte. nat_lt (digit_of byte) radix) text.now }
    ensures inside { result ≤ length text.now }
{
    text.iter()
        .take_while(|byte| digit_of(**byte) < radix)
        .count()
}

#[tactic(auto, using(crate::proofs::Digits::digits))]
fn digits_number(radix: u8, digits: &[u8]) -> u64
    requires base { radix ≤ 16 }
    requires short { length digits.now ≤ 10 }
    ensures value { result ≡ digits_number radix digits.now }
    ensures small { result < 2 ^ 41 }
{
    let mut sum = 0;
    for byte in digits {
        sum = sum * u64::from(radix) + u64::from(digit_of(*byte));
    }
    sum
}

#[tactic(auto, unfolding(crate::specs::Numbers::text_number))]
fn text_number(radix: u8, text: &[u8]) -> Option<u64>
    requires base { radix ≤ 16 }
    requires short { length text.now ≤ 10 }
    ensures value { result ≡ text_number radix text.now }
    ensures small { IfSome result (λ number. number < 2 ^ 41) }
{
    let count = digit_count(radix, text);
    if count == 0 {
        return None;
    }
    Some(digits_number(radix, &text[..count]))
}

#[tactic(auto, unfolding(crate::specs::Numbers::bytes_number))]
fn bytes_number(base: Base, bytes: &[u8]) -> Option<u64>
    requires { IsShort base (length bytes.now) }
    ensures value { result ≡ bytes_number base bytes.now }
    ensures small { IfSome result (λ number. number < 2 ^ 41) }
{
    match base {
        Base::Binary { little: true } => Some(LittleEndian::read_uint(bytes, bytes.len())),
        Base::Binary { little: false } => Some(BigEndian::read_uint(bytes, bytes.len())),
        Base::Dec => text_number(10, bytes),
        Base::Hex => text_number(16, bytes),
        Base::Oct => text_number(8, bytes),
    }
}

/// The number that a fetch reads from a point, if all its bytes lie in the payload and hold one.
#[tactic(auto, unfolding(crate::specs::Numbers::fetched))]
pub(crate) fn fetched_number(
    fetch: &Fetch,
    payload: &[u8],
    place: usize,
    values: &Values,
) -> Option<Fetched>
    requires { IsShort fetch.now.base fetch.now.bytes }
    ensures value { option_map (λ f. record { number = f.number; stop = f.stop }) result
        ≡ fetched payload.now fetch.now (point values.now place) }
    ensures small { IfSome result (λ f. f.number < 2 ^ 41) }
    ensures inside { IfSome result (λ f. f.stop ≤ length payload.now) }
{
    let start = origin(fetch.relative, place) as i128 + number(values, fetch.offset);
    let start = usize::try_from(start).ok()?;
    let stop = start.checked_add(usize::from(fetch.bytes))?;
    let bytes = payload.get(start..stop)?;
    let number = bytes_number(fetch.base, bytes)?;
    Some(Fetched { number, stop })
}

/// The number rounded up to a multiple of the step, or as it is where that is 0.
pub(crate) fn rounded_up(step: u64, number: u64) -> u64
    requires step { step ≤ 4 }
    requires small { number < 2 ^ 60 }
    ensures value { result ≡ rounded_up step number }
    ensures small { result < 2 ^ 61 }
{
    if step == 0 {
        number
    } else {
        (number + (step - 1)) / step * step
    }
}
