//! The front of a line: when, and by which rule.
ghost use Rattle.std.specs.Prelude.{◌≡◌, ◌↔◌, IsTrue, MatchOption};
ghost use Rattle.alert_fast.specs.Calendar.{days_in_month};
ghost use Rattle.alert_fast.specs.Fronts.{IsFront, NoFront};
ghost use Rattle.alert_fast.specs.Heads.{ArePair, date_text, hour_text, AreSeconds, second_text, AreStamp, stamp_text, time_text, AreNumbers, numbers_text, IsHead, head_text};
ghost use Rattle.alert_fast.specs.Told.{IsLineTime};

use crate::told::LineTime;
use crate::words::{number_to, six_to, skip, two_to};

// A month, a slash, a day of the month and a dash.
fn date(text: &[u8]) -> Option<((u8, u8), &[u8])>
    ensures { MatchOption result (NoFront ArePair date_text text.now)
        (λ p. IsFront ArePair date_text text.now p.0 p.1.now) }
{
    let (month, following) = two_to(text, b'/')?;
    let (day, rest) = two_to(following, b'-')?;
    Some(((month, day), rest))
}

// An hour and a minute, each with its colon.
fn hour(text: &[u8]) -> Option<((u8, u8), &[u8])>
    ensures { MatchOption result (NoFront ArePair hour_text text.now)
        (λ p. IsFront ArePair hour_text text.now p.0 p.1.now) }
{
    let (first, following) = two_to(text, b':')?;
    let (minute, rest) = two_to(following, b':')?;
    Some(((first, minute), rest))
}

// A second, a full stop, its microseconds and a blank.
fn second(text: &[u8]) -> Option<((u8, u32), &[u8])>
    ensures { MatchOption result (NoFront AreSeconds second_text text.now)
        (λ p. IsFront AreSeconds second_text text.now p.0 p.1.now) }
{
    let (first, following) = two_to(text, b'.')?;
    let (micros, rest) = six_to(following, b' ')?;
    Some(((first, micros), rest))
}

// The numbers of a time, as they are written.
fn stamp(text: &[u8]) -> Option<(((u8, u8), ((u8, u8), (u8, u32))), &[u8])>
    ensures { MatchOption result (NoFront AreStamp stamp_text text.now)
        (λ p. IsFront AreStamp stamp_text text.now p.0 p.1.now) }
{
    let (day, following) = date(text)?;
    let (clock, later) = hour(following)?;
    let (parts, rest) = second(later)?;
    Some(((day, (clock, parts)), rest))
}

fn last_day(month: u8) -> u8
    ensures { result ≡ days_in_month 1972 month }
{
    match month {
        2 => 29,
        4 | 6 | 9 | 11 => 30,
        _ => 31,
    }
}

// Some year has the day.
fn is_time(time: LineTime) -> bool
    ensures { IsTrue result ↔ IsLineTime time }
{
    1 <= time.month
        && time.month <= 12
        && 1 <= time.day
        && time.day <= last_day(time.month)
        && time.hour < 24
        && time.minute < 60
        && time.second < 60
        && time.microsecond < 1_000_000
}

// A time, and a blank.
fn time(text: &[u8]) -> Option<(LineTime, &[u8])>
    ensures { MatchOption result (NoFront IsLineTime time_text text.now)
        (λ p. IsFront IsLineTime time_text text.now p.0 p.1.now) }
{
    let (parts, rest) = stamp(text)?;
    let whole = LineTime {
        month: parts.0.0,
        day: parts.0.1,
        hour: parts.1.0.0,
        minute: parts.1.0.1,
        second: parts.1.1.0,
        microsecond: parts.1.1.1,
    };
    if is_time(whole) {
        Some((whole, rest))
    } else {
        None
    }
}

// The numbers of a rule, each with what ends it.
fn numbers(text: &[u8]) -> Option<((u32, (u32, u32)), &[u8])>
    ensures { MatchOption result (NoFront AreNumbers numbers_text text.now)
        (λ p. IsFront AreNumbers numbers_text text.now p.0 p.1.now) }
{
    let (gid, following) = number_to(text, b':')?;
    let (sid, later) = number_to(following, b':')?;
    let (rev, rest) = number_to(later, b']')?;
    Some(((gid, (sid, rev)), rest))
}

/// The front of a line up to its message.
pub(crate) fn head(text: &[u8]) -> Option<((LineTime, (u32, (u32, u32))), &[u8])>
    ensures { MatchOption result (NoFront IsHead head_text text.now)
        (λ p. IsFront IsHead head_text text.now p.0 p.1.now) }
{
    let (when, following) = time(text)?;
    let after = skip(following, b" [**] [")?;
    let (marks, later) = numbers(after)?;
    let rest = skip(later, b" ")?;
    Some(((when, marks), rest))
}
