//! An alert line, read.
ghost use Rattle.std.specs.Prelude.{◌≡◌, MatchOption, IfOk};
ghost use Rattle.alert_fast.specs.Parts.{AreParts, NoParts};
ghost use Rattle.alert_fast.specs.PartsRead.{part_facts};
ghost use Rattle.alert_fast.specs.LinesRead.{line_facts};
ghost use Rattle.alert_fast.specs.Told.{has_ports, IsReading, NoReading};

use crate::cuts::{back_word, split_msg};
use crate::ends::ends;
use crate::head::head;
use crate::tail::{arrow, ranked};
use crate::told::{AlertLine, LineTime, RuleMark};
use crate::words::skip;
use edge_io::NoMemory;
use std::alloc::Global;

// The parts of a line before its ends are read.
#[derive(Clone, Copy)]
struct LineParts<'a> {
    time: LineTime,
    numbers: (u32, (u32, u32)),
    msg: &'a [u8],
    class: Option<&'a [u8]>,
    ranked: (u32, u8),
    from: &'a [u8],
    to: &'a [u8],
}

fn parts(line: &[u8]) -> Option<LineParts<'_>>
    ensures { MatchOption result (NoParts line.now) (λ p. AreParts line.now (part_facts p)) }
{
    let ((time, numbers), rest) = head(line)?;
    let (middle, word) = back_word(rest, b'[')?;
    let tail = skip(word, b"Priority: ")?;
    let (rank, back) = ranked(tail)?;
    let (from, to) = arrow(back)?;
    let (msg, class) = split_msg(middle)?;
    Some(LineParts {
        time,
        numbers,
        msg,
        class,
        ranked: rank,
        from,
        to,
    })
}

#[tactic(auto, unfolding(crate::specs::Told::has_ports))]
fn has_ports(protocol: u8) -> bool
    ensures { result ≡ has_ports protocol }
{
    protocol == 6 || protocol == 17
}

/// Reads an alert line, its line feed included; None where it is the line of no alert.
///
/// Of several alerts with this line, that with the longest message is read, with ports if its protocol is TCP or
/// UDP, and without them for others, wherever it can be read so.
pub fn read_line(alloc: Global, line: &[u8]) -> Result<Option<AlertLine<'_>>, NoMemory>
    ensures { IfOk result (λ read.
        MatchOption read (NoReading line.now) (λ alert. IsReading line.now (line_facts alert))) }
{
    match parts(line) {
        None => Ok(None),
        Some(parts) => match ends(alloc, has_ports(parts.ranked.1), parts.from, parts.to)? {
            None => Ok(None),
            Some(ends) => Ok(Some(AlertLine {
                time: parts.time,
                mark: RuleMark {
                    gid: parts.numbers.0,
                    sid: parts.numbers.1.0,
                    rev: parts.numbers.1.1,
                },
                msg: parts.msg,
                class: parts.class,
                priority: parts.ranked.0,
                protocol: parts.ranked.1,
                ends,
            })),
        },
    }
}
