//! Suppress lines.
ghost use Rattle.std.specs.Prelude.{◌≡◌, ◌&&◌};
ghost use Rattle.std.specs.List.{list_any};
ghost use Rattle.event_filters.specs.Events.{address_of, drops, is_suppressed, speaks_of};

use conf_types::{Suppress, Track};
use edge_io::Addr;
use packet_decode::ItemHead;
use rule_types::Rule;

/// Whether the line speaks of the rule's events.
fn speaks_of(line: &Suppress, rule: &Rule) -> bool
    ensures { result ≡ speaks_of line.now rule.now }
{
    (line.gid == 0 && line.sid == 0)
        || (line.gid == rule.gid && (line.sid == 0 || line.sid == rule.sid))
}

fn address_of(track: Track, head: &ItemHead) -> Addr
    ensures { result ≡ address_of track head.now }
{
    match track {
        Track::BySrc => head.ip.src,
        Track::ByDst => head.ip.dst,
    }
}

/// Whether the line drops the events of an item that it speaks of.
fn drops(line: &Suppress, head: &ItemHead) -> bool
    ensures { result ≡ drops line.now head.now }
{
    match &line.track {
        Some((track, list)) => list.contains(address_of(*track, head)),
        None => true,
    }
}

/// Whether a line drops the event of a rule.
fn is_dropped(lines: &[Suppress], rule: &Rule, head: &ItemHead) -> bool
    ensures { result ≡ list_any (λ line. speaks_of line rule.now && drops line head.now) lines.now }
{
    lines
        .iter()
        .any(|line| speaks_of(line, rule) && drops(line, head))
}

/// Whether a line drops the event of the rule at this place.
pub(crate) fn is_suppressed(lines: &[Suppress], rules: &[Rule], head: &ItemHead, place: u32) -> bool
    ensures { result ≡ is_suppressed lines.now rules.now head.now place }
{
    match rules.get(place as usize) {
        Some(rule) => is_dropped(lines, rule, head),
        None => false,
    }
}
