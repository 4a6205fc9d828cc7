//! Which event filters a rule's events go through.
ghost use Rattle.std.specs.Prelude.{◌≡◌, ◌<◌, ◌≤◌, ◌&&◌, ◌==◌, length, map, position, IfOk, IfSome};
ghost use Rattle.event_filters.specs.Events.{filter_line, filter_place, global_place, kind_of, own_place};
ghost use Rattle.event_filters.specs.Queue.{longest_content};

use crate::counting::{CountKind, CountLine};
use crate::queue::longest_content;
use conf_types::{EventFilter, FilterKind};
use edge_io::NoMemory;
use rule_types::Rule;
use std::alloc::Global;

fn kind_of(kind: FilterKind) -> CountKind
    ensures { result ≡ kind_of kind }
{
    match kind {
        FilterKind::Limit => CountKind::Limit,
        FilterKind::Threshold => CountKind::Threshold,
        FilterKind::Both => CountKind::Both,
    }
}

/// How a filter counts.
pub(crate) fn filter_line(filter: &EventFilter) -> CountLine
    ensures { result ≡ filter_line filter.now }
{
    CountLine {
        kind: kind_of(filter.kind),
        count: filter.count,
        seconds: filter.seconds,
    }
}

fn place_of(filters: &[EventFilter], gid: u32, sid: u32) -> Option<usize>
    requires { length filters.now ≤ 1024 }
    ensures place { result ≡ filter_place filters.now gid sid }
    ensures within { IfSome result (λ place. place < 1024) }
{
    filters
        .iter()
        .position(|filter| filter.gid == gid && filter.sid == sid)
}

/// The place of the filter with this gid and sid.
fn filter_place(filters: &[EventFilter], gid: u32, sid: u32) -> Option<u32>
    requires { length filters.now ≤ 1024 }
    ensures { result ≡ filter_place filters.now gid sid }
{
    match place_of(filters, gid, sid) {
        Some(place) => Some(place as u32),
        None => None,
    }
}

/// The place of the filter of the rule's gid and sid.
fn own_place(filters: &[EventFilter], rule: &Rule) -> Option<u32>
    requires { length filters.now ≤ 1024 }
    ensures { result ≡ own_place filters.now rule.now }
{
    filter_place(filters, rule.gid, rule.sid)
}

/// The place of the global filter of the rule.
fn global_place(filters: &[EventFilter], rule: &Rule) -> Option<u32>
    requires { length filters.now ≤ 1024 }
    ensures { result ≡ global_place filters.now rule.now }
{
    match filter_place(filters, rule.gid, 0) {
        Some(place) => Some(place),
        None => filter_place(filters, 0, 0),
    }
}

/// The places of the own filters of each rule.
pub(crate) fn own_places(
    alloc: Global,
    filters: &[EventFilter],
    rules: &[Rule],
) -> Result<Vec<Option<u32>>, NoMemory>
    requires { length filters.now ≤ 1024 }
    ensures { IfOk result (λ places. places.items ≡ map (own_place filters.now) rules.now) }
{
    let mut places = Vec::new(alloc);
    for rule in rules {
        places.push(own_place(filters, rule))?;
    }
    Ok(places)
}

/// The places of the global filters of each rule.
pub(crate) fn global_places(
    alloc: Global,
    filters: &[EventFilter],
    rules: &[Rule],
) -> Result<Vec<Option<u32>>, NoMemory>
    requires { length filters.now ≤ 1024 }
    ensures { IfOk result (λ places. places.items ≡ map (global_place filters.now) rules.now) }
{
    let mut places = Vec::new(alloc);
    for rule in rules {
        places.push(global_place(filters, rule))?;
    }
    Ok(places)
}

/// The size of each rule's longest content that isn't negated.
pub(crate) fn sizes_of(alloc: Global, rules: &[Rule]) -> Result<Vec<usize>, NoMemory>
    ensures { IfOk result (λ sizes. sizes.items ≡ map longest_content rules.now) }
{
    let mut sizes = Vec::new(alloc);
    for rule in rules {
        sizes.push(longest_content(rule))?;
    }
    Ok(sizes)
}
