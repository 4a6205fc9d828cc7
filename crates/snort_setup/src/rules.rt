//! The rule lines of a configuration, one after another.
ghost use Rattle.std.specs.Prelude.{◌≡◌, ◌&&◌, false, IfOk, OnOk};
ghost use Rattle.snort_setup.specs.Setup.{frame_of};
ghost use Rattle.snort_setup.specs.Pieces.{reason_text};
ghost use Rattle.snort_setup.specs.Texts.{shown_by};
ghost use Rattle.snort_setup.specs.Rules.{end_at, fault_text, is_skippable};
ghost use Rattle.snort_setup.specs.Lines.{state_of, lines_frame, IsRead, AsksOf, Skips, StayReady, StepGives, RulesAnswer, first_progress};
ghost use Rattle.snort_setup.specs.Steps.{is_memory, refused_one, grown_by, OnlyMade};

use crate::accepted::Accepted;
use crate::message::{Reason, error_line, file_at, rule_reason, warning_line};
use conf_parser::{Classes, Line, Loaded};
use edge_io::{Items, NoMemory, Pattern, PatternMaker, Text};
use net_lists::Vars;
use rule_parser::{BitNames, RuleFault, RuleKind, read_rule};
use std::alloc::Global;
use std::mem;

/// What there is after some rule lines: the accepted rules, the names of flowbits, and all warnings.
#[derive(Drop)]
pub(crate) struct Progress<P> {
    pub accepted: Accepted<P>,
    pub names: BitNames,
    pub warnings: Items<Text>,
}

/// What all rule lines are read in.
#[derive(Clone, Copy)]
pub(crate) struct LinesIn<'a> {
    pub vars: &'a Vars,
    pub classes: &'a Classes,
    pub files: &'a [Text],
    pub skips: bool,
}

/// What the line has where a variable is unknown.
fn shown_by(line: &[u8], fault: RuleFault) -> &[u8]
    ensures { result.now ≡ shown_by line.now fault }
{
    let after = match line.get(fault.from..) {
        Some(after) => after,
        None => b"",
    };
    let len = fault.to.saturating_sub(fault.from);
    match after.get(..len) {
        Some(shown) => shown,
        None => after,
    }
}

/// Why the line is refused.
fn reason(line: &Line, fault: RuleFault) -> Reason<'_>
    ensures { reason_text result ≡ fault_text line.now fault }
{
    rule_reason(fault.kind, shown_by(line.text.bytes(), fault))
}

/// Whether a rule that is refused for this may be skipped.
fn is_skippable(kind: RuleKind) -> bool
    ensures { result ≡ is_skippable kind }
{
    matches!(kind, RuleKind::OutsideProfile | RuleKind::PatternRefused)
}

/// Why a line is none, where it was read: want of memory is no fault of the line.
fn line_fault(fault: RuleFault) -> Result<RuleFault, NoMemory>
    ensures same { IfOk result (λ same. same ≡ fault) }
    ensures read { OnOk result (is_memory fault.kind ≡ false) }
{
    match fault.kind {
        RuleKind::NoMemory => Err(NoMemory),
        _ => Ok(fault),
    }
}

/// Reads a line, and takes its rule in; gives the fault for which it is none.
#[tactic(auto, unfolding(crate::specs::Rules::LineGives))]
fn read_line<M: PatternMaker>(
    alloc: Global,
    lines: &LinesIn<'_>,
    progress: &mut Progress<M::Made>,
    maker: &mut M,
    text: &[u8],
) -> Result<Option<RuleFault>, NoMemory>
    ensures read { IfOk result (IsRead (lines_frame lines.now) (state_of progress.old) text.now
        (refused_one (M.refusals maker.old) (M.refusals maker.new)) (state_of progress.new)) }
    ensures asks { IfOk result (λ _. AsksOf (lines_frame lines.now) progress.old.names text.now (M.refusals maker.old)
        (M.refusals maker.new)) }
    ensures ready { IfOk result (λ _. StayReady M.Made.finds (M.means maker.old) lines.now.classes.now
        progress.old.accepted progress.new.accepted) }
    ensures only_made { OnlyMade (M.means maker.old) (M.means maker.new) (M.refusals maker.old) (M.refusals maker.new) }
{
    match read_rule(alloc, text, lines.vars, lines.classes, &mut progress.names) {
        Ok(rule) => {
            let before = mem::replace(&mut progress.accepted, Accepted::new(alloc));
            let (accepted, fault) = before.judge(alloc, rule, maker)?;
            progress.accepted = accepted;
            Ok(fault)
        }
        Err(fault) => {
            let fault = line_fault(fault)?;
            Ok(Some(fault))
        }
    }
}

/// Whether a rule that is refused for this is skipped.
fn skips(lines: &LinesIn<'_>, kind: RuleKind) -> bool
    ensures { result ≡ (lines.now.skips && is_skippable kind) }
{
    lines.skips && is_skippable(kind)
}

/// After a line that is none for this fault: a warning more, or the error that ends the setup.
fn refused_line<P: Pattern>(
    alloc: Global,
    lines: &LinesIn<'_>,
    progress: &mut Progress<P>,
    line: &Line,
    fault: RuleFault,
) -> Result<Option<Text>, NoMemory>
    ensures gives { IfOk result (Skips (lines_frame lines.now) line.now (state_of progress.old) fault
        (state_of progress.new)) }
    ensures same_rules { progress.new.accepted ≡ progress.old.accepted }
{
    let file = file_at(lines.files, line.file);
    let reason = reason(line, fault);
    if !skips(lines, fault.kind) {
        let message = error_line(alloc, file, line.line, reason)?;
        return Ok(Some(message));
    }
    let warning = warning_line(alloc, file, line.line, reason)?;
    progress.warnings.push(warning)?;
    Ok(None)
}

/// Takes a line in; gives the error, if it ends the setup.
#[tactic(auto, unfolding(crate::specs::Rules::after_line))]
fn line_end<M: PatternMaker>(
    alloc: Global,
    lines: &LinesIn<'_>,
    progress: &mut Progress<M::Made>,
    maker: &mut M,
    line: &Line,
) -> Result<Option<Text>, NoMemory>
    ensures gives { IfOk result (StepGives (lines_frame lines.now) line.now (state_of progress.old)
        (refused_one (M.refusals maker.old) (M.refusals maker.new)) (state_of progress.new)) }
    ensures asks { IfOk result (λ _. AsksOf (lines_frame lines.now) progress.old.names line.now.text
        (M.refusals maker.old) (M.refusals maker.new)) }
    ensures ready { IfOk result (λ _. StayReady M.Made.finds (M.means maker.old) lines.now.classes.now
        progress.old.accepted progress.new.accepted) }
    ensures only_made { OnlyMade (M.means maker.old) (M.means maker.new) (M.refusals maker.old) (M.refusals maker.new) }
{
    let fault = read_line(alloc, lines, progress, maker, line.text.bytes())?;
    match fault {
        None => Ok(None),
        Some(fault) => Ok(refused_line(alloc, lines, progress, line, fault)?),
    }
}

/// What there is before the first line, after these warnings.
pub(crate) fn first_progress<P: Pattern>(alloc: Global, warnings: Items<Text>) -> Progress<P>
    ensures { result ≡ first_progress warnings }
{
    Progress {
        accepted: Accepted::new(alloc),
        names: BitNames::new(alloc),
        warnings,
    }
}

/// Takes these lines in, or those before the first that is refused; gives its error.
fn read_lines<M: PatternMaker>(
    alloc: Global,
    lines: &LinesIn<'_>,
    rules: &[Line],
    progress: &mut Progress<M::Made>,
    maker: &mut M,
) -> Result<Option<Text>, NoMemory>
    ensures answer { IfOk result (λ refusal. RulesAnswer (lines_frame lines.now) rules.now (state_of progress.old)
        (grown_by (M.refusals maker.old) (M.refusals maker.new)) (end_at (state_of progress.new) refusal)) }
    ensures ready { IfOk result (λ _. StayReady M.Made.finds (M.means maker.old) lines.now.classes.now
        progress.old.accepted progress.new.accepted) }
    ensures only_made { OnlyMade (M.means maker.old) (M.means maker.new) (M.refusals maker.old) (M.refusals maker.new) }
{
    let mut rest = rules;
    'lines: while let Some((line, after)) = rest.split_first() {
        let refusal = line_end(alloc, lines, progress, maker, line)?;
        if refusal.is_some() {
            return Ok(refusal);
        }
        rest = after;
    }
    Ok(None)
}

/// Takes the rule lines of a configuration that was loaded in; gives the error of the first that is refused.
pub(crate) fn read_rules<M: PatternMaker>(
    alloc: Global,
    vars: &Vars,
    loaded: &Loaded,
    skips: bool,
    progress: &mut Progress<M::Made>,
    maker: &mut M,
) -> Result<Option<Text>, NoMemory>
    ensures answer { IfOk result (λ refusal. RulesAnswer (frame_of skips vars.now loaded.now) loaded.now.rules
        (state_of progress.old) (grown_by (M.refusals maker.old) (M.refusals maker.new))
        (end_at (state_of progress.new) refusal)) }
    ensures ready { IfOk result (λ _. StayReady M.Made.finds (M.means maker.old) loaded.now.config.classes
        progress.old.accepted progress.new.accepted) }
    ensures only_made { OnlyMade (M.means maker.old) (M.means maker.new) (M.refusals maker.old) (M.refusals maker.new) }
{
    let lines = LinesIn {
        vars,
        classes: &loaded.config.classes,
        files: loaded.files.as_slice(),
        skips,
    };
    read_lines(alloc, &lines, loaded.rules.as_slice(), progress, maker)
}
