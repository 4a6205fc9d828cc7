//! The year of an alert line, which counts on from line to line.
ghost use Rattle.std.specs.Prelude.{◌≡◌, ◌<◌, ◌^◌};
ghost use Rattle.alert_json.specs.LineYears.{place_of, year_after, year_of};

use alert_fast::LineTime;

/// What the year of a line follows from.
#[derive(Clone, Copy, Debug, PartialEq, Eq)]
pub enum YearFrom {
    /// The year is this one.
    Given { year: u16 },
    /// The line comes after one of this day.
    After { year: u16, month: u8, day: u8 },
}

// How many days of a leap year lie before each month, from 1 on.
const DAYS_BEFORE: [u16; 13] = [0, 0, 31, 60, 91, 121, 152, 182, 213, 244, 274, 305, 335];

// The place of a day in a leap year, from 1 on.
#[tactic(auto, unfolding(crate::specs::LineYears::place_of))]
fn place_of(month: u8, day: u8) -> u32
    ensures value { result ≡ place_of month day }
    ensures small { result < 2 ^ 17 }
{
    u32::from(DAYS_BEFORE.get(month as usize).copied().unwrap_or(0)) + u32::from(day)
}

// The year of a day at this place that comes after one at the last place, in this year.
#[tactic(auto, unfolding(crate::specs::LineYears::year_after))]
fn year_after(year: u16, last: u32, place: u32) -> u32
    requires small_last { last < 2 ^ 17 }
    requires small_place { place < 2 ^ 17 }
    ensures { result ≡ year_after year last place }
{
    let same = u32::from(year);
    if place + 183 < last {
        same + 1
    } else if last + 335 < place {
        same.saturating_sub(1)
    } else {
        same
    }
}

/// The year of a line with this time.
///
/// A day that is more than half a year earlier in the year than the one before is in the next year; one that is more than
/// eleven months later is in the year before, since times may run back over New Year.
pub fn year_of(from: YearFrom, time: LineTime) -> u32
    ensures { result ≡ year_of from time }
{
    match from {
        YearFrom::Given { year } => u32::from(year),
        YearFrom::After { year, month, day } => year_after(
            year,
            place_of(month, day),
            place_of(time.month, time.day),
        ),
    }
}
