//! The lines of a file.
ghost use Rattle.std.specs.Prelude.{◌≡◌, ◌+◌, ◌<◌, ◌≤◌, ◌^◌, ◌∷◌, ◌++◌, length, IfOk, if◌then◌else◌};
ghost use Rattle.std.specs.Str.Lines.{lines};
ghost use Rattle.net_lists.specs.Lines.{numbered};
ghost use Rattle.conf_parser.specs.Lines.{is_open, without_last, joined_lines, kept_line, content_lines};

use edge_io::{Items, NoMemory, Text};
use net_lists::{NumberedLine, cut_line, has_content, trimmed};
use std::alloc::Global;

/// Whether the line ends in a backslash.
fn is_open(line: &[u8]) -> bool
    ensures { result ≡ is_open line.now }
{
    let len = line.len();
    len > 0 && line[len - 1] == b'\\'
}

/// The bytes so far and those of one more line, without its backslash where the line goes on.
fn with_line(joined: Vec<u8>, line: &[u8], goes_on: bool) -> Result<Vec<u8>, NoMemory>
    ensures { IfOk result (λ next. next.items ≡ joined.items ++ (if goes_on then without_last line.now else line.now)) }
{
    let mut joined = joined;
    let len = if goes_on {
        line.len().saturating_sub(1)
    } else {
        line.len()
    };
    joined.extend_from_slice(&line[..len])?;
    Ok(joined)
}

/// A joined line, what comes after it, and the number of the next line.
#[derive(Drop)]
struct Joined<'a> {
    text: Vec<u8>,
    rest: &'a [u8],
    next: u32,
}

/// The first joined line of a text that is not empty, whose first line has this number.
fn joined_line<'a>(alloc: Global, text: &'a [u8], number: u32) -> Result<Joined<'a>, NoMemory>
    requires some { 0 < length text.now }
    requires few { number + length text.now < 2 ^ 32 }
    ensures line { IfOk result (λ joined. joined_lines number (lines text.now)
        ≡ numbered number joined.text.items ∷ joined_lines joined.next (lines joined.rest.now)) }
    ensures shorter { IfOk result (λ joined. length joined.rest.now < length text.now) }
    ensures few { IfOk result (λ joined. joined.next + length joined.rest.now ≤ number + length text.now) }
{
    let mut joined = Vec::new(alloc);
    let mut rest = text;
    let mut next = number;
    'joining: while !rest.is_empty() {
        let (line, after) = cut_line(rest);
        let goes_on = is_open(line);
        joined = with_line(joined, line, goes_on)?;
        rest = after;
        next += 1;
        if !goes_on {
            return Ok(Joined {
                text: joined,
                rest,
                next,
            });
        }
    }
    Ok(Joined {
        text: joined,
        rest,
        next,
    })
}

/// The lines so far and one more, without the blanks at its ends, if it is neither empty nor a comment.
fn with_content(
    alloc: Global,
    all: Items<NumberedLine>,
    number: u32,
    line: &[u8],
) -> Result<Items<NumberedLine>, NoMemory>
    ensures { IfOk result (λ next. next ≡ all ++ kept_line (numbered number line.now)) }
{
    let text = trimmed(line);
    if !has_content(text) {
        return Ok(all);
    }
    let text = Text::copy(alloc, text)?;
    let mut all = all;
    all.push(NumberedLine { number, text })?;
    Ok(all)
}

/// The lines of a file that are read, in order.
#[tactic(auto, unfolding(crate::specs::Lines::content_lines))]
pub fn content_lines(alloc: Global, bytes: &[u8]) -> Result<Items<NumberedLine>, NoMemory>
    requires { length bytes.now ≤ 16777216 }
    ensures { IfOk result (λ lines. lines ≡ content_lines bytes.now) }
{
    let mut all = Items::new(alloc);
    let mut rest = bytes;
    let mut number: u32 = 1;
    'lines: while !rest.is_empty() {
        let joined = joined_line(alloc, rest, number)?;
        all = with_content(alloc, all, number, joined.text.as_slice())?;
        number = joined.next;
        rest = joined.rest;
    }
    Ok(all)
}
