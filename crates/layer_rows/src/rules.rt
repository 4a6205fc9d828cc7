//! Rules: the calls of rule_parser, under the classes, the variables and the rules of the row's configuration, and those
//! of what a rule is tried with. One function owns the rule, since dropping it is dear to prove.

ghost use Rattle.std.specs.Prelude.{IfOk};
ghost use Rattle.rule_types.specs.Sound.{IsSound, IsTriable};

use crate::configurations::load_file;
use crate::notation::CONF;
use crate::page::Page;
use crate::payloads;
use crate::row::Row;
use crate::shown::show_rule;
use conf_parser::{Classes, Loaded};
use net_lists::Vars;
use rule_parser::{BitNames, Rule, RuleFault, read_rule};

/// A header that all packets have.
pub(crate) const ANY: &str = "ip any any -> any any";

/// What a configuration gives to the rules that are read after it.
#[derive(Drop)]
pub(crate) struct RuleContext {
    pub loaded: Loaded,
    vars: Vars,
    bits: BitNames,
}

impl RuleContext {
    /// What the configuration of a row gives; where it is refused the page says so.
    pub fn of(page: &mut Page, row: &Row) -> RuleContext {
        let mut given = RuleContext {
            loaded: Loaded::new(page.alloc),
            vars: Vars::new(page.alloc),
            bits: BitNames::new(page.alloc),
        };
        if !row.files.bytes(CONF).is_empty() {
            given.load(page, row);
            given.read_own(page);
        }
        given
    }

    fn load(&mut self, page: &mut Page, row: &Row) {
        let mut host = row.host(page);
        match load_file(page, &mut host, CONF, &mut self.vars, &mut self.loaded) {
            Ok(()) => (),
            Err(_) => page.put("the configuration is refused: "),
        }
    }

    /// Reads the configuration's own rules, for the names of their flowbits.
    fn read_own(&mut self, page: &Page) {
        for line in self.loaded.rules.as_slice() {
            drop(read_line(
                page,
                line.text.bytes(),
                &self.vars,
                &self.loaded.config.classes,
                &mut self.bits,
            ));
        }
    }

    /// The rule of a line.
    pub fn read(&mut self, page: &Page, line: &str) -> Result<Rule, RuleFault>
        ensures triable { IfOk result IsTriable }
        ensures sound { IfOk result (IsSound self.new.loaded.config.classes) }
    {
        match read_line(
            page,
            line.as_bytes(),
            &self.vars,
            &self.loaded.config.classes,
            &mut self.bits,
        ) {
            Ok(rule) => Ok(rule),
            Err(fault) => Err(fault),
        }
    }
}

/// The rule of a line, after these variables, classes and names of bits.
fn read_line(
    page: &Page,
    line: &[u8],
    vars: &Vars,
    classes: &Classes,
    bits: &mut BitNames,
) -> Result<Rule, RuleFault>
    ensures { IfOk result (IsSound classes.now) }
{
    read_rule(page.alloc, line, vars, classes, bits)
}

/// Shows why a line is no rule: with `rule` the kind of the fault and the places of what an unknown variable shows, with
/// `option` the kind alone.
fn show_fault(page: &mut Page, fault: &RuleFault, call: &str) {
    match call {
        "rule" => page.show(format_args!("{:?} {} {}", fault.kind, fault.from, fault.to)),
        "option" => page.debug(&fault.kind),
        _ => page.debug(fault),
    }
}

/// A call on the rule of a line, after what a configuration gives.
fn ask_of(page: &mut Page, row: &Row, given: &mut RuleContext, call: &str, line: &str) {
    match given.read(page, line) {
        Ok(rule) => show_rule(page, row, &rule, &given.loaded.config.classes, call),
        Err(fault) => show_fault(page, &fault, call),
    }
}

/// A call on a rule with this header and these options, and others after them.
fn ask_with(
    page: &mut Page,
    row: &Row,
    given: &mut RuleContext,
    call: &str,
    header: &str,
    options: &str,
    more: &str,
) {
    let line = page.rule_line(header, options, more);
    ask_of(page, row, given, call, &line);
}

/// A call on a rule: a whole line, a header, or options, with a `sid` after them but for `alert`.
fn ask(page: &mut Page, row: &Row, given: &mut RuleContext, call: &str, text: &str) {
    match call {
        "rule" | "head" => ask_of(page, row, given, call, text),
        "header" => ask_with(page, row, given, call, text, "", " sid:1;"),
        "alert" => ask_with(page, row, given, call, ANY, text, ""),
        _ => ask_with(page, row, given, call, ANY, text, " sid:1;"),
    }
}

/// The calls of rules and of payloads.
const CALLS: [&str; 11] = [
    "rule", "head", "header", "alert", "option", "options", "choice", "meets", "payload",
    "searches", "rule-set",
];

/// The calls of rules and of payloads. One function owns what the row's configuration gives to them.
pub(crate) fn call(page: &mut Page, row: &Row, call: &str, text: &str) -> bool {
    if !CALLS.contains(&call) {
        return false;
    }
    let mut given = RuleContext::of(page, row);
    if !payloads::call(page, row, &mut given, call, text) {
        ask(page, row, &mut given, call, text);
    }
    true
}
