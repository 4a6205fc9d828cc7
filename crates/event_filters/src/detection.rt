//! Detection filters: which matches of an item stay.
ghost use Rattle.std.specs.Prelude.{◌≡◌, ◌+◌, ◌<◌, ◌≤◌, [], ◌∷◌, ◌++◌, length, vec_len, vec_capacity};
ghost use Rattle.std.specs.HashMap.{spare};
ghost use Rattle.std.specs.Option.{option_map};
ghost use Rattle.event_filters.specs.Counts.{match_count, period_count};
ghost use Rattle.event_filters.specs.Runs.{Stays};

use crate::counting::{Count, CountKey, CountKind, CountLine, Windows, lets_through, tracked};
use packet_decode::ItemHead;
use rule_types::Rule;

/// How the rule's detection filter counts its match, if it has one.
fn period_count(rule: &Rule, head: &ItemHead, place: u32) -> Option<Count>
    ensures { result ≡ option_map (period_count place rule.now head.now) rule.now.period }
{
    match rule.period {
        Some(period) => Some(Count {
            key: CountKey {
                place,
                gid: rule.gid,
                sid: rule.sid,
                addr: tracked(period.by_src, head),
            },
            line: CountLine {
                kind: CountKind::Above,
                count: period.count,
                seconds: period.seconds,
            },
        }),
        None => None,
    }
}

/// How the match of the rule at this place is counted, if it is.
fn match_count(rules: &[Rule], head: &ItemHead, place: u32) -> Option<Count>
    ensures { result ≡ match_count rules.now head.now place }
{
    match rules.get(place as usize) {
        Some(rule) => period_count(rule, head, place),
        None => None,
    }
}

/// Appends a number to a list that has room for it.
pub(crate) fn push(out: &mut Vec<u32>, value: u32)
    requires { vec_len out.old < vec_capacity out.old }
    ensures items { out.new.items ≡ out.old.items ++ value ∷ [] }
    ensures longer { vec_len out.new ≡ vec_len out.old + 1 }
    ensures room { vec_capacity out.old ≤ vec_capacity out.new }
{
    match out.push(value) {
        Ok(()) => {}
        // There is room, as the caller has to see to.
        Err(_) => unreachable!(),
    }
}

/// Counts the match of the rule at this place, and gathers it where it stays; there is room for both.
fn stay(windows: &mut Windows, rules: &[Rule], head: &ItemHead, place: u32, staying: &mut Vec<u32>)
    requires room { 0 < spare windows.old }
    requires space { vec_len staying.old < vec_capacity staying.old }
    ensures stays { Stays rules.now head.now
        (record { matches = windows.old.entries; written = staying.old.items }) (place ∷ [])
        (record { matches = windows.new.entries; written = staying.new.items }) }
    ensures room { spare windows.old ≤ spare windows.new + 1 }
    ensures few { vec_len staying.new ≤ vec_len staying.old + 1 }
    ensures space { vec_capacity staying.old ≤ vec_capacity staying.new }
{
    if !lets_through(windows, match_count(rules, head, place), head.moment) {
        return;
    }
    push(staying, place);
}

/// Counts the matches of an item, and gathers those that stay; there is room for all.
pub(crate) fn stay_all(
    windows: &mut Windows,
    rules: &[Rule],
    head: &ItemHead,
    places: &[u32],
    staying: &mut Vec<u32>,
)
    requires room { length places.now ≤ spare windows.old }
    requires empty { staying.old.items ≡ [] }
    requires space { length places.now ≤ vec_capacity staying.old }
    ensures stays { Stays rules.now head.now
        (record { matches = windows.old.entries; written = [] }) places.now
        (record { matches = windows.new.entries; written = staying.new.items }) }
    ensures few { vec_len staying.new ≤ length places.now }
{
    for place in places {
        stay(windows, rules, head, *place, staying);
    }
}
