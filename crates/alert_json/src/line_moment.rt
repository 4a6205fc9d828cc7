//! The moment of an alert line, in a year that the line doesn't tell.
ghost use Rattle.std.specs.Prelude.{◌≡◌, ◌↔◌, pos, IsTrue, MatchOption};
ghost use Rattle.jiff_core.specs.DateTime.{civil_nanos};
ghost use Rattle.alert_json.specs.LineMoments.{AreSmall, IsCivilOf, IsMomentOf, NoMomentOf, NoNanosOf};

use alert_fast::LineTime;
use edge_io::Moment;
use jiff::civil::DateTime;
use jiff::tz::Offset;

// The parts have no more digits than those of a date and a clock.
fn are_small(year: u32, time: LineTime) -> bool
    ensures { IsTrue result ↔ AreSmall year time }
{
    year < 10_000
        && time.month < 100
        && time.day < 100
        && time.hour < 100
        && time.minute < 100
        && time.second < 100
        && time.microsecond < 1_000_000
}

// The date and the time of day, if the calendar and a clock have them.
fn small_civil(year: u32, time: LineTime) -> Option<DateTime>
    requires { AreSmall year time }
    ensures { MatchOption result (NoMomentOf year time) (IsCivilOf year time) }
{
    match DateTime::new(
        year as i16,
        time.month as i8,
        time.day as i8,
        time.hour as i8,
        time.minute as i8,
        time.second as i8,
        time.microsecond as i32 * 1_000,
    ) {
        Ok(civil) => Some(civil),
        Err(_) => None,
    }
}

fn civil_of(year: u32, time: LineTime) -> Option<DateTime>
    ensures { MatchOption result (NoMomentOf year time) (IsCivilOf year time) }
{
    if are_small(year, time) {
        small_civil(year, time)
    } else {
        None
    }
}

// The nanoseconds since 1970, if they have 64 bits.
fn nanos_of(civil: DateTime) -> Option<u64>
    ensures { MatchOption result (NoNanosOf civil) (λ nanos. civil_nanos civil ≡ pos nanos) }
{
    match Offset::UTC.to_timestamp(civil) {
        Ok(timestamp) => match u64::try_from(timestamp.as_nanosecond()) {
            Ok(nanos) => Some(nanos),
            Err(_) => None,
        },
        Err(_) => None,
    }
}

/// The moment of a line's time in this year. There is none where the year doesn't have that day, or isn't one of 1970 to
/// 2553; in 2554 only up to July 21, since a moment has 64 bits.
pub fn moment_of(year: u32, time: LineTime) -> Option<Moment>
    ensures { MatchOption result (NoMomentOf year time) (λ moment. IsMomentOf year time moment.nanos) }
{
    let civil = civil_of(year, time)?;
    let nanos = nanos_of(civil)?;
    Some(Moment { nanos })
}
