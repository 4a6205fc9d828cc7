//! Payloads: the calls of option_eval.

ghost use Rattle.std.specs.Prelude.{◌≡◌, ◌<◌, length};
ghost use Rattle.rule_types.specs.Sound.{IsTriable};

use crate::counted::CountingMaker;
use crate::page::Page;
use crate::row::Row;
use crate::rules::{ANY, RuleContext};
use edge_io::{LiteralMaker, NoMemory, Pattern, PatternMaker};
use option_eval::{RuleSet, Steps, payload_matches};
use row_files::cut;
use rule_parser::Rule;
use std::marker::Brand;
use std::sync::atomic::{AtomicU64, Ordering};
use std::sync::ledger::{Blank, Ledger};

/// Appends the bytes of pairs of hexadecimal digits with blanks between them.
fn push_pairs(page: &mut Page, bytes: &mut Vec<u8>, pairs: &str) {
    for pair in pairs.split(' ') {
        page.note(bytes.push(u8::from_str_radix(pair, 16).unwrap_or(0)));
    }
}

/// The bytes that are written as a content is, with pairs of digits between bars.
fn bytes_of(page: &mut Page, written: &str) -> Vec<u8> {
    let mut bytes = Vec::new(page.alloc);
    for (place, part) in written.split('|').enumerate() {
        if place % 2 == 1 {
            push_pairs(page, &mut bytes, part);
        } else {
            page.note(bytes.extend_from_slice(part.as_bytes()));
        }
    }
    bytes
}

/// Whether the payload matches the first rule, with a count of its own.
fn show_match<P: Pattern, L: Ledger>(
    page: &mut Page,
    set: &RuleSet<P>,
    payload: &[u8],
    blank: Blank,
)
    requires some { 0 < length set.now.rules }
    requires name { blank.name ≡ L.name }
    requires parts { blank.parts ≡ L.parts }
    requires blank { 0 < blank.parts }
{
    let mut visits = Steps::<L>::new(blank);
    match payload_matches(page.alloc, set, 0, payload, &mut visits) {
        Ok(matches) => page.show(matches),
        Err(NoMemory) => page.lacks_memory = true,
    }
}

/// Whether the payload matches the rule of a set, if it has one.
fn show_set<P: Pattern>(page: &mut Page, set: &RuleSet<P>, payload: &[u8]) {
    if !set.rules().is_empty() {
        show_match::<P, Brand>(page, set, payload, Blank::new(1));
    }
}

/// Adds a rule to a set; why that fails.
fn push<M: PatternMaker>(page: &mut Page, set: &mut RuleSet<M::Made>, maker: &mut M, rule: Rule)
    requires { IsTriable rule }
{
    match set.push(page.alloc, rule, maker) {
        Ok(()) => (),
        Err(fault) => page.debug(&fault),
    }
}

/// Adds the rule of a line to a set; why that fails.
fn push_line<M: PatternMaker>(
    page: &mut Page,
    given: &mut RuleContext,
    set: &mut RuleSet<M::Made>,
    maker: &mut M,
    line: &str,
) {
    match given.read(page, line) {
        Ok(rule) => push(page, set, maker, rule),
        Err(fault) => page.debug(&fault),
    }
}

/// Whether the payload matches the rule of a line, after what a configuration gives.
fn try_payload<M: PatternMaker>(
    page: &mut Page,
    given: &mut RuleContext,
    maker: &mut M,
    line: &str,
    payload: &[u8],
) {
    let mut set = RuleSet::new(page.alloc);
    push_line(page, given, &mut set, maker, line);
    show_set(page, &set, payload);
}

/// `payload OPTIONS~PAYLOAD`: whether it matches them.
fn payload<M: PatternMaker>(page: &mut Page, given: &mut RuleContext, maker: &mut M, text: &str) {
    let (options, written) = cut(text, '~');
    let line = page.rule_line(ANY, options, " sid:1;");
    let payload = bytes_of(page, written);
    try_payload(page, given, maker, &line, &payload);
}

/// `searches OPTIONS~PAYLOAD`: whether it matches them, and how often their patterns were searched.
fn searches(page: &mut Page, given: &mut RuleContext, text: &str) {
    let searches = AtomicU64::new(0);
    let mut maker = CountingMaker::new(page.alloc, &searches);
    payload(page, given, &mut maker, text);
    page.show(format_args!(" {}", searches.load(Ordering::SeqCst)));
}

/// `rule-set`: how many rules a set has after each step's rule was added, after why one was not.
fn rule_set(page: &mut Page, row: &Row, given: &mut RuleContext, maker: &mut LiteralMaker) {
    let mut set = RuleSet::new(page.alloc);
    for line in row.steps.as_str().lines() {
        push_line(page, given, &mut set, maker, line);
        page.show(set.rules().len());
        page.put("\n");
    }
}

/// A call with the row's maker of patterns.
fn call_with_maker(page: &mut Page, row: &Row, given: &mut RuleContext, call: &str, text: &str) {
    let mut maker = row.maker(page);
    match call {
        "payload" => payload(page, given, &mut maker, text),
        _ => rule_set(page, row, given, &mut maker),
    }
}

/// The calls of payloads.
pub(crate) fn call(
    page: &mut Page,
    row: &Row,
    given: &mut RuleContext,
    call: &str,
    text: &str,
) -> bool {
    match call {
        "payload" | "rule-set" => call_with_maker(page, row, given, call, text),
        "searches" => searches(page, given, text),
        _ => return false,
    }
    true
}
