//! Whole numbers in texts, as configurations and rules write them.
ghost use Rattle.std.specs.Prelude.{◌≡◌, ◌<◌, ◌≤◌, ◌^◌, min, option_map, option_copied, IfSome, ◌≤ℤ◌};
ghost use Rattle.net_lists.specs.Numbers.{whole_number, kept_in, number_in, after_minus, signed_kept_in, signed_in};

use crate::decimal::{are_digits, capped_value, has_leading_zero};

/// A number past all that may be asked for.
const PAST_ALL: u64 = 1 << 32;

/// The whole number that the text spells, or `PAST_ALL` where it is larger.
#[tactic(auto, unfolding(crate::specs::Numbers::whole_number))]
fn capped_number(text: &[u8]) -> Option<u64>
    ensures value { result ≡ option_map (λ number. min number PAST_ALL) (whole_number text.now) }
    ensures within { IfSome result (λ number. number ≤ PAST_ALL) }
{
    if !are_digits(text) || has_leading_zero(text) {
        return None;
    }
    Some(capped_value(text, PAST_ALL))
}

/// The number, if it lies from `least` to `most`.
fn kept_in(least: u32, most: u32, number: u64) -> Option<u32>
    ensures value { result ≡ kept_in least most number }
    ensures within { IfSome result (λ number. (least ≤ number) × (number ≤ most)) }
{
    if u64::from(least) <= number && number <= u64::from(most) {
        Some(number as u32)
    } else {
        None
    }
}

/// The whole number that the text spells, if it lies from `least` to `most`: digits alone, without a
/// sign or a leading zero. `number_in(1, 65535, b"80")` is 80.
pub fn number_in(least: u32, most: u32, text: &[u8]) -> Option<u32>
    ensures value { result ≡ number_in least most text.now }
    ensures within { IfSome result (λ number. (least ≤ number) × (number ≤ most)) }
{
    match capped_number(text) {
        Some(number) => kept_in(least, most, number),
        None => None,
    }
}

/// What comes after a `-` in front, if there is one.
fn after_minus(text: &[u8]) -> Option<&[u8]>
    ensures { option_copied result ≡ after_minus text.now }
{
    match text {
        [b'-', rest @ ..] => Some(rest),
        _ => None,
    }
}

/// The number, if it lies from `least` to `most`.
fn signed_kept_in(least: i32, most: i32, number: i64) -> Option<i32>
    ensures value { result ≡ signed_kept_in least most number }
    ensures within { IfSome result (λ number. (least ≤ℤ number) × (number ≤ℤ most)) }
{
    if i64::from(least) <= number && number <= i64::from(most) {
        Some(number as i32)
    } else {
        None
    }
}

/// The whole number that the text spells, a `-` in front perhaps, if it lies from `least` to `most`.
/// `signed_in(-5, 5, b"-0")` is 0.
pub fn signed_in(least: i32, most: i32, text: &[u8]) -> Option<i32>
    ensures value { result ≡ signed_in least most text.now }
    ensures within { IfSome result (λ number. (least ≤ℤ number) × (number ≤ℤ most)) }
{
    match after_minus(text) {
        Some(digits) => match capped_number(digits) {
            Some(number) => signed_kept_in(least, most, -(number as i64)),
            None => None,
        },
        None => match capped_number(text) {
            Some(number) => signed_kept_in(least, most, number as i64),
            None => None,
        },
    }
}
