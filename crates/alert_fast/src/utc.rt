//! The UTC time of a moment.
ghost use Rattle.std.specs.Prelude.{◌≡◌, ◌<◌, pos};
ghost use Rattle.jiff_core.specs.DateTime.{civil_nanos};
ghost use Rattle.alert_fast.specs.Calendar.{IsUtc};

use edge_io::Moment;
use jiff::Timestamp;
use jiff::civil::DateTime;
use jiff::tz::Offset;

/// A moment in UTC: the year, the month and the day of the month from 1, and the time of day with its whole
/// microseconds.
#[derive(Clone, Copy, Debug)]
pub struct UtcTime {
    pub year: u16,
    pub month: u8,
    pub day: u8,
    pub hour: u8,
    pub minute: u8,
    pub second: u8,
    pub microsecond: u32,
}

/// The UTC time of a moment. Its parts fit the digits in which they are written.
pub fn utc_time(moment: Moment) -> UtcTime
    ensures utc { IsUtc moment.nanos result }
    ensures year_fits { result.year < 10000 }
    ensures month_fits { result.month < 100 }
    ensures day_fits { result.day < 100 }
{
    let civil = utc_datetime(moment);
    UtcTime {
        year: civil.year().unsigned_abs(),
        month: civil.month() as u8,
        day: civil.day() as u8,
        hour: civil.hour() as u8,
        minute: civil.minute() as u8,
        second: civil.second() as u8,
        microsecond: civil.subsec_nanosecond() as u32 / 1_000,
    }
}

// Each moment lies within the years of the calendar, so no error is left.
fn utc_datetime(moment: Moment) -> DateTime
    ensures { civil_nanos result ≡ pos moment.nanos }
{
    match Timestamp::from_nanosecond(moment.nanos as i128) {
        Ok(timestamp) => Offset::UTC.to_datetime(timestamp),
        Err(_) => unreachable!(),
    }
}
