//! Addresses of version 6 as texts (RFC 4291, section 2.2).
ghost use Rattle.std.specs.Prelude.{◌≡◌, ◌<◌, ◌≤◌, ◌^◌, ◌+◌, ◌-◌, ◌*◌, ◌∷◌, ◌==◌, IfSome, min, length, option_map};
ghost use Rattle.std.specs.List.{slice_split, list_all};
ghost use Rattle.std.specs.Char.{is_ascii_hexdigit};
ghost use Rattle.net_lists.specs.Addresses.{hex_digit, hex_value, is_group, group, groups, gap_place, gap, colons};
ghost use Rattle.net_lists.specs.Groups.{IsSmall, pieces_left, with_group, joined, groups_upto, whole, around};

use crate::split::place_of;

/// Groups that were read: how many, at most eight, and the number that they make.
#[derive(Clone, Copy, Debug)]
pub struct AddrGroups {
    pub count: u32,
    pub value: u128,
}

/// The value of a hexadecimal digit.
fn hex_digit(digit: u8) -> u32
    ensures { result ≡ hex_digit digit }
{
    if digit < 65 {
        u32::from(digit.saturating_sub(48))
    } else if digit < 97 {
        u32::from(digit) - 55
    } else {
        u32::from(digit) - 87
    }
}

/// The number that hexadecimal digits spell, or 65535 where it is larger.
fn capped_hex_value(digits: &[u8]) -> u32
    ensures { result ≡ min (hex_value digits.now) 65535 }
{
    let mut value: u32 = 0;
    for digit in digits {
        value = (value * 16 + hex_digit(*digit)).min(65535);
    }
    value
}

/// Whether all bytes are hexadecimal digits.
fn are_hex_digits(text: &[u8]) -> bool
    ensures { result ≡ list_all is_ascii_hexdigit text.now }
{
    text.iter().all(|byte| byte.is_ascii_hexdigit())
}

/// Whether these are one to four hexadecimal digits.
fn is_group(text: &[u8]) -> bool
    ensures { result ≡ is_group text.now }
{
    1 <= text.len() && text.len() <= 4 && are_hex_digits(text)
}

/// A group.
#[tactic(auto, using(crate::proofs::Addresses::HexGroups::hex_groups))]
fn group(text: &[u8]) -> Option<u32>
    ensures value { result ≡ group text.now }
    ensures small { IfSome result (λ group. group < 65536) }
{
    if is_group(text) {
        Some(capped_hex_value(text))
    } else {
        None
    }
}

/// The bytes before the first colon, and those after it, if there is one.
fn first_piece(text: &[u8]) -> (&[u8], Option<&[u8]>)
    ensures { slice_split (λ b. b == 58) text.now ≡ result.0.now ∷ pieces_left result.1 }
{
    match place_of(text, b':') {
        Some(place) => (&text[..place], Some(&text[place + 1..])),
        None => (text, None),
    }
}

/// The groups with one more, if there are fewer than eight.
fn with_group(groups: AddrGroups, next: u32) -> Option<AddrGroups>
    requires small { IsSmall groups }
    requires next { next < 65536 }
    ensures value { result ≡ with_group groups next }
    ensures small { IfSome result IsSmall }
{
    if groups.count == 8 {
        return None;
    }
    Some(AddrGroups {
        count: groups.count + 1,
        value: groups.value * 65536 + u128::from(next),
    })
}

/// The groups with colons between them.
fn joined_groups(text: &[u8]) -> Option<AddrGroups>
    ensures value { result ≡ joined (record { count = 0; value = 0 }) (slice_split (λ b. b == 58) text.now) }
    ensures small { IfSome result IsSmall }
{
    let mut groups = AddrGroups { count: 0, value: 0 };
    let mut rest = Some(text);
    while let Some(text) = rest {
        let (piece, after) = first_piece(text);
        groups = with_group(groups, group(piece)?)?;
        rest = after;
    }
    Some(groups)
}

/// The groups with colons between them, at most eight; none for an empty text.
fn eight_groups(text: &[u8]) -> Option<AddrGroups>
    ensures value { result ≡ groups_upto (groups text.now) }
    ensures small { IfSome result IsSmall }
{
    if text.is_empty() {
        return Some(AddrGroups { count: 0, value: 0 });
    }
    joined_groups(text)
}

/// The number of eight groups.
fn whole(groups: AddrGroups) -> Option<u128>
    ensures { result ≡ whole groups }
{
    if groups.count == 8 {
        Some(groups.value)
    } else {
        None
    }
}

/// The number of groups with zeros between them, at least one.
fn around(front: AddrGroups, back: AddrGroups) -> Option<u128>
    requires front { IsSmall front }
    requires back { IsSmall back }
    ensures { result ≡ around front back }
{
    if front.count + back.count > 7 {
        return None;
    }
    if front.count == 0 {
        return Some(back.value);
    }
    Some((front.value << (16 * (8 - front.count))) + back.value)
}

/// The place of the first `::`.
fn gap_place(text: &[u8]) -> Option<usize>
    ensures place { result ≡ gap_place text.now }
    ensures within { IfSome result (λ place. place + 2 ≤ length text.now) }
{
    for place in 0..text.len() {
        if text[place..].starts_with(b"::") {
            return Some(place);
        }
    }
    None
}

/// What comes before the first `::` and after it.
#[tactic(auto, unfolding(crate::specs::Addresses::gap))]
fn gap(text: &[u8]) -> Option<(&[u8], &[u8])>
    ensures { option_map (λ sides. (sides.0.now, sides.1.now)) result ≡ gap text.now }
{
    let place = gap_place(text)?;
    Some((&text[..place], &text[place + 2..]))
}

/// An address of version 6, as one number in network order.
pub fn colons(text: &[u8]) -> Option<u128>
    ensures { result ≡ colons text.now }
{
    match gap(text) {
        Some((front, back)) => {
            let front = eight_groups(front)?;
            let back = eight_groups(back)?;
            around(front, back)
        }
        None => whole(eight_groups(text)?),
    }
}
