//! Candidates: the call of fast_pattern, on the row's item and the rules of its configuration.

ghost use Rattle.std.specs.Prelude.{◌≤◌, length};

use crate::items::item_of;
use crate::page::Page;
use crate::row::Row;
use edge_io::NoMemory;
use fast_pattern::Groups;
use packet_decode::ItemHead;
use row_files::TextParts;
use rule_parser::Rule;

/// Finds the candidates, after a number that is there already.
fn find(page: &mut Page, groups: &Groups, item: &ItemHead, payload: &str, places: &mut Vec<u32>) {
    places.clear();
    page.note(places.push(77));
    let found = groups.candidates(page.alloc, item, payload.as_bytes(), places);
    page.note(found);
}

/// Finds the candidates again and again, and shows where they differ.
fn find_again(
    page: &mut Page,
    groups: &Groups,
    item: &ItemHead,
    times: u32,
    payload: &str,
    first: &[u32],
) {
    let mut places = Vec::new(page.alloc);
    for _ in 1..times {
        find(page, groups, item, payload, &mut places);
        if places.as_slice() != first {
            page.put("not the same each time: ");
        }
    }
}

/// Shows the candidates, which are the same each time.
fn show_candidates(page: &mut Page, groups: &Groups, item: &ItemHead, times: u32, payload: &str) {
    let mut first = Vec::new(page.alloc);
    find(page, groups, item, payload, &mut first);
    find_again(page, groups, item, times, payload, &first);
    page.places(&first);
}

/// Shows the candidates among rules.
fn ask(page: &mut Page, rules: &[Rule], item: &ItemHead, given: &str)
    requires { length rules.now ≤ 65536 }
{
    let mut given = TextParts::of(given, ' ');
    let times = given.number();
    match Groups::build(page.alloc, rules) {
        Ok(groups) => show_candidates(page, &groups, item, times, given.left()),
        Err(NoMemory) => page.lacks_memory = true,
    }
}

/// `candidates TIMES PAYLOAD`: the candidates among rules, which are looked for TIMES times.
pub(crate) fn candidates(page: &mut Page, row: &Row, rules: &[Rule], given: &str) {
    if rules.len() > 65_536 {
        return page.put("too many rules");
    }
    match item_of(&row.item) {
        Some(item) => ask(page, rules, &item, given),
        None => page.put("not an item"),
    }
}
