//! The time of a record.
ghost use Rattle.std.specs.Prelude.{◌≡◌, ◌<◌, IsAscii};
ghost use Rattle.alert_fast.specs.Pieces.{digits};
ghost use Rattle.alert_json.specs.Stamps.{timestamp_text};

use alert_fast::{six_digits, two_digits, utc_time};
use edge_io::Moment;

// The bytes of a time.
const LENGTH: usize = 31;

/// The text of a moment, as 2009-02-13T23:31:30.123456+0000.
pub(crate) fn timestamp(moment: Moment) -> [u8; LENGTH]
    ensures text { result ≡ timestamp_text moment.nanos }
    ensures ascii { IsAscii result }
{
    stamp(moment)
}

// All digits and signs at once: appended one after another they would cost most of what a time costs.
fn stamp(moment: Moment) -> [u8; LENGTH]
    ensures { result ≡ timestamp_text moment.nanos }
{
    let utc = utc_time(moment);
    let [year_1, year_2, year_3, year_4] = four_digits(utc.year);
    let [month_1, month_2] = two_digits(utc.month);
    let [day_1, day_2] = two_digits(utc.day);
    let [hour_1, hour_2] = two_digits(utc.hour);
    let [minute_1, minute_2] = two_digits(utc.minute);
    let [second_1, second_2] = two_digits(utc.second);
    let [micro_1, micro_2, micro_3, micro_4, micro_5, micro_6] = six_digits(utc.microsecond);
    [
        year_1, year_2, year_3, year_4, b'-', month_1, month_2, b'-', day_1, day_2, b'T', hour_1,
        hour_2, b':', minute_1, minute_2, b':', second_1, second_2, b'.', micro_1, micro_2,
        micro_3, micro_4, micro_5, micro_6, b'+', b'0', b'0', b'0', b'0',
    ]
}

fn four_digits(number: u16) -> [u8; 4]
    requires { number < 10000 }
    ensures { result ≡ digits 4 number }
{
    let [a, b] = two_digits((number / 100) as u8);
    let [c, d] = two_digits((number % 100) as u8);
    [a, b, c, d]
}
