//! What programs of rows share: the files of rows that their words name, the lines of such a file and their parts, the
//! files in memory that a row gives to what it calls, and the count of the rows that passed.
//!
//! A line `repeat 3 host 5` is read three times, `numbered 2 8 host #` is `host 8` and then `host 9`.
#![tactic(auto)]

mod count;
mod files;
mod line;
mod parts;
mod words;

pub use count::PassCount;
pub use files::Files;
pub use line::RowLine;
pub use parts::{TextParts, cut, named};
pub use words::{RowWords, words_of};
