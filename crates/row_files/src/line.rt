//! A line of a file of rows.
ghost use Rattle.std.specs.Prelude.{◌≡◌, ◌+◌, ◌-◌, ◌^◌, min, None, IfOk, IfSome, string_bytes};
ghost use Rattle.row_files.specs.Numbered.{numbered};

use std::alloc::{AllocError, Global};

/// A line of a file of rows, as often as it is read.
#[derive(Clone, Copy, Debug)]
pub struct RowLine<'a> {
    /// How often it is read.
    pub times: u32,
    /// What takes the place of `#` at the first time, and is one more at each later one; none where a `#` stays.
    pub first: Option<u32>,
    pub text: &'a str,
}

impl<'a> RowLine<'a> {
    /// What a line says. `repeat N LINE` and `numbered N FIRST LINE` are read N times, an empty line and one that
    /// begins with `#` never, and any other once.
    pub fn read(line: &'a str) -> RowLine<'a> {
        if line.is_empty() || line.starts_with('#') {
            return RowLine::plain(0, line);
        }
        match repeated(line) {
            Some(repeated) => repeated,
            None => numbered(line).unwrap_or(RowLine::plain(1, line)),
        }
    }

    fn plain(times: u32, text: &'a str) -> RowLine<'a> {
        RowLine {
            times,
            first: None,
            text,
        }
    }

    /// The line of this turn, counted from 0. The greatest number is 4294967295.
    pub fn at(&self, alloc: Global, turn: u32) -> Result<String, AllocError>
        ensures plain { self.now.first ≡ None → IfOk result (λ line. string_bytes line ≡ self.now.text.now) }
        ensures numbered { IfSome self.now.first (λ first. IfOk result
            (λ line. string_bytes line ≡ numbered (min (first + turn) (2 ^ 32 - 1)) self.now.text.now)) }
    {
        match self.first {
            None => String::from_str(alloc, self.text),
            Some(first) => {
                let number = format!(in alloc; "{}", first.saturating_add(turn))?;
                self.text.replace(alloc, "#", number.as_str())
            }
        }
    }
}

/// `repeat N LINE`
fn repeated(line: &str) -> Option<RowLine<'_>> {
    let (times, text) = line.strip_prefix("repeat ")?.split_once(' ')?;
    Some(RowLine::plain(times.parse::<u32>().ok()?, text))
}

/// `numbered N FIRST LINE`
fn numbered(line: &str) -> Option<RowLine<'_>> {
    let (times, rest) = line.strip_prefix("numbered ")?.split_once(' ')?;
    let (first, text) = rest.split_once(' ')?;
    Some(RowLine {
        times: times.parse::<u32>().ok()?,
        first: Some(first.parse::<u32>().ok()?),
        text,
    })
}
