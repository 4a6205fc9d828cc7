//! Reading one rule line.
ghost use Rattle.std.specs.Prelude.{◌≡◌, ◌+◌, ◌<◌, ◌≤◌, ◌++◌, ◌∷◌, [], List, ℕ, Result, None, length, option_copied, OnOk, OnErr, IfOk, IfSome};
ghost use Rattle.net_lists.specs.Stops.{Gives};
ghost use Rattle.rule_parser.specs.Drafts.{settled};
ghost use Rattle.rule_parser.specs.declared.fault.Fault.{Fault};
ghost use Rattle.rule_types.specs.declared.rule.Rule.{Rule};
ghost use Rattle.rule_parser.specs.Bits.{GivesWith, IsGivenWith, Begins};
ghost use Rattle.rule_parser.specs.RuleLine.{in_parentheses, options_of, IsClassOf, class_of, class_priority, told, finished, rule_body, IsRuleLine, IsAnswered, AnswersAs};
ghost use Rattle.rule_types.specs.Sound.{IsSound};
ghost use Rattle.rule_parser.specs.Written.{outside, option_texts, AreOptionTexts, IsOptionText, options_text};

use crate::Rule;
use crate::bits::BitNames;
use crate::draft::{ClassName, RuleDraft};
use crate::fault::{Fault, RuleFault, stop_fault};
use crate::header::{Header, HeaderTexts};
use crate::options::rule_option;
use crate::written::{are_blank, first_option};
use conf_types::Classes;
use edge_io::Text;
use net_lists::{Stop, Vars};
use std::alloc::Global;

/// What is between the parentheses that hold the options.
#[tactic(auto, unfolding(crate::specs::RuleLine::in_parentheses))]
fn in_parentheses(text: &[u8]) -> Option<&[u8]>
    ensures { option_copied result ≡ in_parentheses text.now }
{
    let len = text.len();
    if len < 2 || text[0] != b'(' || text[len - 1] != b')' {
        return None;
    }
    Some(&text[1..len - 1])
}

/// How many bytes of the line are left where these options begin: they and the `)`.
fn left_from(options: &[u8]) -> usize
    ensures { result ≡ length options.now + 1 }
{
    options.len() + 1
}

/// The options of a rule, read in their order.
fn read_options(
    alloc: Global,
    classes: &Classes,
    bits: &mut BitNames,
    inside: &[u8],
) -> Result<RuleDraft, Stop<Fault>>
    ensures gives { GivesWith result bits.new
        (options_of classes.now bits.old inside.now (option_texts outside inside.now)) }
    ensures begins { Begins bits.old bits.new }
{
    let mut draft = RuleDraft::new(alloc);
    let mut rest = inside;
    while let Some((text, after)) = first_option(rest) {
        rule_option(alloc, classes, bits, &mut draft, left_from(rest), text)?;
        rest = after;
    }
    if !are_blank(rest) {
        return Err(Stop::Wrong(Fault::OptionSyntax));
    }
    Ok(draft)
}

/// The options of a rule. Options that are written one after another are read one after another.
fn rule_options(
    alloc: Global,
    classes: &Classes,
    bits: &mut BitNames,
    inside: &[u8],
) -> Result<RuleDraft, Stop<Fault>>
    ensures gives { GivesWith result bits.new
        (options_of classes.now bits.old inside.now (option_texts outside inside.now)) }
    ensures begins { Begins bits.old bits.new }
    ensures written { (options : List (List ℕ)) (rest : List ℕ)
        → AreOptionTexts options → IsOptionText rest → inside.now ≡ options_text options rest
        → GivesWith result bits.new (options_of classes.now bits.old inside.now (options ++ rest ∷ [])) }
{
    read_options(alloc, classes, bits, inside)
}

/// The class that a rule names, if it names one.
#[tactic(auto, unfolding(crate::specs::RuleLine::class_of))]
fn class_of(class: Option<ClassName>) -> Result<Option<u32>, Fault>
    ensures { result ≡ class_of class }
{
    match class {
        None => Ok(None),
        Some(ClassName::Known(place)) => Ok(Some(place)),
        Some(ClassName::Unknown) => Err(Fault::UnknownClass),
    }
}

/// The priority of a class, 0 where there is none.
fn class_priority(classes: &Classes, class: Option<u32>) -> u32
    requires { IfSome class (λ place. place < length classes.now) }
    ensures { result ≡ class_priority classes.now class }
{
    match class {
        None => 0,
        Some(place) => classes.priority(place),
    }
}

/// The number and the class of a rule whose options are read; its last content comes in its place.
fn told(alloc: Global, draft: &mut RuleDraft) -> Result<(u32, Option<u32>), Stop<Fault>>
    ensures gives { Gives result (told draft.old) }
    ensures settles { OnOk result (draft.new ≡ record draft.old { opts = settled draft.old; held = None }) }
{
    let Some(sid) = draft.sid else {
        return Err(Stop::Wrong(Fault::MissingSid));
    };
    let class = class_of(draft.class)?;
    draft.settle(alloc)?;
    Ok((sid, class))
}

/// A rule of this header whose options are read.
#[tactic(auto, unfolding(crate::specs::RuleLine::finished))]
fn finished(
    alloc: Global,
    classes: &Classes,
    header: Header,
    mut draft: RuleDraft,
) -> Result<Rule, Stop<Fault>>
    requires { IsClassOf (length classes.now) draft.class }
    ensures { Gives result (finished classes.now header draft) }
{
    let (sid, class) = told(alloc, &mut draft)?;
    let class_priority = class_priority(classes, class);
    Ok(Rule {
        action: header.action,
        proto: header.proto,
        src: header.src,
        sports: header.sports,
        dst: header.dst,
        dports: header.dports,
        both: header.both,
        opts: draft.opts,
        msg: draft.msg.unwrap_or(Text::from_vec(Vec::new(alloc))),
        gid: draft.gid.unwrap_or(1),
        sid,
        rev: draft.rev.unwrap_or(0),
        class,
        priority: draft.priority.unwrap_or(class_priority),
        noalert: draft.noalert,
        period: draft.period,
    })
}

/// The rule of a header with what comes after it.
#[tactic(auto, unfolding(crate::specs::RuleLine::rule_body))]
fn rule_body(
    alloc: Global,
    classes: &Classes,
    bits: &mut BitNames,
    header: Header,
    text: &[u8],
) -> Result<Rule, Stop<Fault>>
    requires { length bits.old ≤ 1024 }
    ensures gives { GivesWith result bits.new (rule_body classes.now bits.old header text.now) }
    ensures begins { Begins bits.old bits.new }
{
    let Some(inside) = in_parentheses(text) else {
        return Err(Stop::Wrong(Fault::OptionSyntax));
    };
    let draft = rule_options(alloc, classes, bits, inside)?;
    finished(alloc, classes, header, draft)
}

/// The rule of a line. Where the line is none, names may come after those that there were before.
fn rule_of(
    alloc: Global,
    line: &[u8],
    vars: &Vars,
    classes: &Classes,
    bits: &mut BitNames,
) -> Result<Rule, Stop<Fault>>
    requires { length bits.old ≤ 1024 }
    ensures meant { IsGivenWith result bits.new (IsRuleLine vars.now classes.now bits.old line.now) }
    ensures begins { Begins bits.old bits.new }
{
    let texts = HeaderTexts::cut(line);
    let header = Header::read(alloc, vars, &texts)?;
    rule_body(alloc, classes, bits, header, texts.options)
}

/// The rule that a line of a rule file says, with the variables, the classes and the flowbit names that there are
/// (Snort Users Manual 2.9, chapter 3).
///
/// The leftmost fault in the line decides: the words of the header, its parentheses, the options one after
/// another, then a missing `sid` and a class that there is not. After a rule the names of its flowbits come
/// after those before; after a fault the names are as they were.
pub fn read_rule(
    alloc: Global,
    line: &[u8],
    vars: &Vars,
    classes: &Classes,
    bits: &mut BitNames,
) -> Result<Rule, RuleFault>
    ensures meant { IsAnswered (length line.now) result bits.new
        (IsRuleLine vars.now classes.now bits.old line.now) }
    // The meaning of a line is one: no other is its meaning.
    ensures only { (meant : Result (Rule × List (List ℕ)) Fault)
        → IsRuleLine vars.now classes.now bits.old line.now meant
        → AnswersAs (length line.now) result bits.new meant }
    ensures begins { Begins bits.old bits.new }
    ensures refused { OnErr result (bits.new ≡ bits.old) }
    ensures sound { IfOk result (IsSound classes.now) }
{
    let before = bits.as_slice().len();
    match rule_of(alloc, line, vars, classes, bits) {
        Ok(rule) => Ok(rule),
        Err(stop) => {
            bits.truncate(before);
            Err(stop_fault(line.len(), stop))
        }
    }
}
