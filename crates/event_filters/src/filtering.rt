//! Event filters: which events of an item are kept.
ghost use Rattle.std.specs.Prelude.{◌≡◌, ◌+◌, ◌<◌, ◌≤◌, [], ◌∷◌, length, vec_len, vec_capacity};
ghost use Rattle.std.specs.HashMap.{spare};
ghost use Rattle.event_filters.specs.Counts.{count_by, event_count, placed};
ghost use Rattle.event_filters.specs.Runs.{Keeps, lines_of};

use crate::counting::{Count, CountKey, Windows, lets_through, tracked};
use crate::detection::push;
use crate::lines::filter_line;
use crate::suppress::is_suppressed;
use conf_types::{EventFilter, Suppress};
use packet_decode::ItemHead;
use rule_types::Rule;

/// The lines that events go through, the rules, and of each rule the places of its filters.
#[derive(Clone, Copy)]
pub(crate) struct FilterLines<'a> {
    pub filters: &'a [EventFilter],
    pub suppress: &'a [Suppress],
    pub rules: &'a [Rule],
    pub own_places: &'a [Option<u32>],
    pub global_places: &'a [Option<u32>],
}

/// How the filter at this place counts the rule's event.
fn count_by(filters: &[EventFilter], rule: &Rule, head: &ItemHead, place: u32) -> Option<Count>
    ensures { result ≡ count_by filters.now rule.now head.now place }
{
    match filters.get(place as usize) {
        Some(filter) => Some(Count {
            key: CountKey {
                place,
                gid: rule.gid,
                sid: rule.sid,
                addr: tracked(filter.by_src, head),
            },
            line: filter_line(filter),
        }),
        None => None,
    }
}

/// The place that the table has for an event.
fn place_in(places: &[Option<u32>], event: u32) -> Option<u32>
    ensures { result ≡ placed places.now event }
{
    match places.get(event as usize) {
        Some(place) => *place,
        None => None,
    }
}

/// How an event is counted by the filter that the table has for it, if it is.
fn event_count(
    filters: &[EventFilter],
    places: &[Option<u32>],
    rules: &[Rule],
    head: &ItemHead,
    event: u32,
) -> Option<Count>
    ensures { result ≡ event_count filters.now places.now rules.now head.now event }
{
    let rule = rules.get(event as usize)?;
    let place = place_in(places, event)?;
    count_by(filters, rule, head, place)
}

/// Counts an event, and appends it where it is kept; there is room for both.
fn keep(
    own: &mut Windows,
    global: &mut Windows,
    lines: FilterLines<'_>,
    head: &ItemHead,
    event: u32,
    out: &mut Vec<u32>,
)
    requires own { 0 < spare own.old }
    requires global { 0 < spare global.old }
    requires space { vec_len out.old < vec_capacity out.old }
    ensures keeps { Keeps (lines_of lines.entry) head.now
        (record { own = own.old.entries; global = global.old.entries; written = out.old.items })
        (event ∷ [])
        (record { own = own.new.entries; global = global.new.entries; written = out.new.items }) }
    ensures own { spare own.old ≤ spare own.new + 1 }
    ensures global { spare global.old ≤ spare global.new + 1 }
    ensures few { vec_len out.new ≤ vec_len out.old + 1 }
    ensures space { vec_capacity out.old ≤ vec_capacity out.new }
{
    if is_suppressed(lines.suppress, lines.rules, head, event) {
        return;
    }
    let count = event_count(lines.filters, lines.own_places, lines.rules, head, event);
    if !lets_through(own, count, head.moment) {
        return;
    }
    let count = event_count(lines.filters, lines.global_places, lines.rules, head, event);
    if !lets_through(global, count, head.moment) {
        return;
    }
    push(out, event);
}

/// Counts the events of an item, and appends those that are kept; there is room for all.
pub(crate) fn keep_all(
    own: &mut Windows,
    global: &mut Windows,
    lines: FilterLines<'_>,
    head: &ItemHead,
    events: &[u32],
    out: &mut Vec<u32>,
)
    requires own { length events.now ≤ spare own.old }
    requires global { length events.now ≤ spare global.old }
    requires space { vec_len out.old + length events.now ≤ vec_capacity out.old }
    ensures keeps { Keeps (lines_of lines.entry) head.now
        (record { own = own.old.entries; global = global.old.entries; written = out.old.items })
        events.now
        (record { own = own.new.entries; global = global.new.entries; written = out.new.items }) }
{
    for event in events {
        keep(own, global, lines, head, *event, out);
    }
}
