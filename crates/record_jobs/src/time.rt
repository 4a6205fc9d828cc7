//! The time of a record within its capture.
ghost use Rattle.std.specs.Prelude.{◌≡◌, unwrap_or};

use edge_io::Moment;

/// When a record was captured, and when its capture's first one was.
#[derive(Clone, Copy, Debug, PartialEq, Eq)]
pub(crate) struct Time {
    pub first: Moment,
    pub now: Moment,
}

impl Time {
    /// The time of a record of this moment, where its capture began at `begin`, if it had a record before.
    pub fn of(begin: Option<Moment>, moment: Moment) -> Time
        ensures { result ≡ record { first = unwrap_or begin moment; now = moment } }
    {
        Time {
            first: begin.unwrap_or(moment),
            now: moment,
        }
    }
}
