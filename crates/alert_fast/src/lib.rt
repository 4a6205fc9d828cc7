//! Alert lines: what an item and the rule that it matches become in Snort's fast alerts.
//!
//! `line` appends one line to the caller's buffer and meets `line_text` (specs/Line) for every item,
//! rule and list of classes: the moment in UTC by the Gregorian calendar (specs/Calendar), the rule's
//! mark and message, its class where it has one, its priority, the protocol, the two ends; addresses
//! of version 6 by RFC 5952. Where memory is lacking the buffer stays as it was. The detector writes
//! one line for each event that is kept. `push_address`, `utc_time` and the digits are for lines of other
//! forms.
//!
//! `read_line` reads a line back: what it tells (specs/Told) has exactly that line for its text, or no alert
//! has. Where several alerts have one line, the one with the longest message is read.
#![tactic(auto)]

mod address;
mod alert;
mod cuts;
mod ends;
mod head;
mod laws;
mod pieces;
mod reader;
mod tail;
mod told;
mod utc;
mod words;

pub use address::push_address;
pub use alert::line;
pub use laws::lines_are_told;
pub use pieces::{six_digits, two_digits};
#[doc(hidden)]
pub use pieces::{TextPiece, push_pieces};
pub use reader::read_line;
pub use told::{AlertLine, LineEnds, LineTime, RuleMark};
pub use utc::{UtcTime, utc_time};
