//! Events: the call of event_filters, with the row's configuration and its rules.

ghost use Rattle.conf_types.specs.Sound.{IsSound};

use crate::items::item_of;
use crate::page::Page;
use conf_parser::Config;
use edge_io::{Literal, NoMemory};
use event_filters::Filters;
use packet_decode::ItemHead;
use row_files::cut;
use rule_parser::Rule;
use snort_setup::Setup;

/// The places of rules that words say.
fn places_of(page: &mut Page, words: &str) -> Vec<u32> {
    let mut places = Vec::new(page.alloc);
    for word in words.split_whitespace() {
        page.note(places.push(word.parse::<u32>().unwrap_or(u32::MAX)));
    }
    places
}

/// Shows the rules that are kept of those that match an item.
fn pass(
    page: &mut Page,
    config: &Config,
    rules: &[Rule],
    filters: &mut Filters,
    item: &ItemHead,
    words: &str,
) {
    let hits = places_of(page, words);
    let mut kept = Vec::new(page.alloc);
    let passed = filters.pass(config, rules, item, &hits, &mut kept);
    page.note(passed);
    page.places(&kept);
    page.put("\n");
}

/// Shows the rules that are kept of a step, which is an item and, after a `:`, those that match it.
fn pass_step(page: &mut Page, setup: &Setup<Literal>, filters: &mut Filters, step: &str) {
    let (item, hits) = cut(step, ':');
    match item_of(item) {
        Some(item) => pass(page, &setup.config, setup.set.rules(), filters, &item, hits),
        None => page.put("not an item\n"),
    }
}

fn pass_steps(page: &mut Page, setup: &Setup<Literal>, filters: &mut Filters, steps: &str) {
    for step in steps.lines() {
        pass_step(page, setup, filters, step);
    }
}

/// `events`: of each step the places of the rules that are kept.
pub(crate) fn events(page: &mut Page, setup: &Setup<Literal>, steps: &str)
    requires { IsSound setup.now.config }
{
    match Filters::new(page.alloc, &setup.config, setup.set.rules()) {
        Ok(mut filters) => pass_steps(page, setup, &mut filters, steps),
        Err(NoMemory) => page.lacks_memory = true,
    }
}
