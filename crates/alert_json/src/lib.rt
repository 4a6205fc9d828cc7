//! Alerts as JSON lines, in the form of the `alert` records of Suricata's EVE output.
//!
//! `push_event` appends one line to the caller's buffer: the text of `event_line` (specs/Value), an object
//! whose members are in Suricata's order. The text is UTF-8, and as JSON (RFC 8259) it is exactly the
//! event's value, by the kit's own definition of reading (specs/Reading). A flow's number and its community
//! ID are those of specs/FlowNumbers. Where memory is lacking the buffer stays as it was.
//! `event_of` makes the event of an alert line that `alert_fast` has read, at the moment that `moment_of` gives for its time
//! in a year; the year counts on from line to line (`year_of`). `push_lines`
//! does so with all lines at the front of bytes.
#![tactic(auto)]

mod event;
mod fields;
mod flow_ids;
mod line;
mod line_event;
mod line_moment;
mod line_walk;
mod line_year;
mod members;
mod stamp;
mod texts;

pub use event::{Alert, Captured, Event, FiveTuple, Pair, RunFields};
pub use line::push_event;
pub use line_event::event_of;
pub use line_moment::moment_of;
pub use line_walk::{LinesTaken, push_lines};
pub use line_year::{YearFrom, year_of};
