//! Numbers in decimal digits.
ghost use Rattle.std.specs.Prelude.{◌≡◌, ◌<◌, ◌≤◌, ◌^◌, min, IfSome};
ghost use Rattle.net_lists.specs.Numbers.{decimal_value, are_digits, digits_upto, has_leading_zero};

/// The number that digits spell, or `cap` where it is larger.
pub fn capped_value(digits: &[u8], cap: u64) -> u64
    requires { cap < 2 ^ 60 }
    ensures { result ≡ min (decimal_value digits.now) cap }
{
    let mut value: u64 = 0;
    for digit in digits {
        value = (value * 10 + u64::from(digit.saturating_sub(b'0'))).min(cap);
    }
    value
}

/// Whether these are digits, at least one.
pub fn are_digits(text: &[u8]) -> bool
    ensures { result ≡ are_digits text.now }
{
    !text.is_empty() && text.iter().all(|byte| byte.is_ascii_digit())
}

/// Whether a number in this text begins with a 0 that another byte follows.
#[tactic(auto, unfolding(crate::specs::Numbers::has_leading_zero))]
pub fn has_leading_zero(text: &[u8]) -> bool
    ensures { result ≡ has_leading_zero text.now }
{
    matches!(text, [b'0', _, ..])
}

/// The number that the text spells, digits alone and at least one, if it is at most `most`.
#[tactic(auto, using(crate::proofs::Numbers::Digits::capped))]
pub fn digits_upto(text: &[u8], most: u32) -> Option<u32>
    ensures value { result ≡ digits_upto most text.now }
    ensures within { IfSome result (λ number. number ≤ most) }
{
    if !are_digits(text) {
        return None;
    }
    let most = u64::from(most);
    let value = capped_value(text, most + 1);
    if value > most {
        return None;
    }
    Some(value as u32)
}
