//! What the calls show of a rule: what it says of itself, its fast pattern, and what it says of the row's item.

ghost use Rattle.std.specs.Prelude.{◌<◌, length};
ghost use Rattle.rule_types.specs.Sound.{IsSound, IsTriable};

use crate::items::item_of;
use crate::page::Page;
use crate::row::Row;
use alert_fast::line;
use conf_parser::Classes;
use fast_pattern::{Fast, choose};
use header_eval::{field_matches, header_matches};
use packet_decode::ItemHead;
use rule_parser::{Opt, Rule};

/// `rule`: the rule's number, how many options it keeps and whether it gives no event.
fn show_counts(page: &mut Page, rule: &Rule) {
    let kept = rule.opts.as_slice().len();
    page.show(format_args!("rule {} {kept} {}", rule.sid, rule.noalert));
}

/// `head`: what a rule says of itself: action, protocol, whether source and destination may be exchanged, message,
/// numbers, class, priority, whether it gives no event, and its filter.
fn show_head(page: &mut Page, rule: &Rule) {
    page.show(format_args!("{:?} {:?} {} ", rule.action, rule.proto, rule.both));
    page.bytes(rule.msg.bytes());
    page.show(format_args!(" {}:{}:{}", rule.gid, rule.sid, rule.rev));
    page.show(format_args!(
        " {:?} {} {} {:?}",
        rule.class, rule.priority, rule.noalert, rule.period
    ));
}

/// `choice`: the place of the content that is the fast pattern, and which of its bytes.
fn show_choice(page: &mut Page, rule: &Rule)
    requires { IsTriable rule.now }
{
    match choose(rule) {
        Some(Fast { opt, from, len }) => page.show(format_args!("{opt} {from} {len}")),
        None => page.put("none"),
    }
}

/// `meets`: whether the item meets the one option.
fn show_met(page: &mut Page, item: &ItemHead, opts: &[Opt]) {
    match opts {
        [opt] => page.show(field_matches(opt, item, 0)),
        _ => page.put("not one option"),
    }
}

/// `alert`: the line of the item and the rule, after the word that was there before.
fn show_line(page: &mut Page, item: &ItemHead, rule: &Rule, classes: &Classes)
    requires { IsSound classes.now rule.now }
{
    let mut out = Vec::new(page.alloc);
    page.note(out.extend_from_slice(b"before "));
    page.note(line(item, rule, classes, &mut out));
    page.bytes(&out);
}

/// Shows what a rule says of an item.
fn show_of_item(page: &mut Page, item: &ItemHead, rule: &Rule, classes: &Classes, call: &str)
    requires { IsSound classes.now rule.now }
{
    match call {
        "header" => page.show(header_matches(rule, item)),
        "meets" => show_met(page, item, rule.opts.as_slice()),
        _ => show_line(page, item, rule, classes),
    }
}

/// Shows what a call finds of a rule.
pub(crate) fn show_rule(page: &mut Page, row: &Row, rule: &Rule, classes: &Classes, call: &str)
    requires { IsSound classes.now rule.now }
{
    match call {
        "rule" => show_counts(page, rule),
        "option" => page.put("read"),
        "options" => page.debug(&rule.opts.as_slice()),
        "head" => show_head(page, rule),
        "choice" => show_choice(page, rule),
        _ => match item_of(&row.item) {
            Some(item) => show_of_item(page, &item, rule, classes, call),
            None => page.put("not an item"),
        },
    }
}
