//! A law about rule lines, for callers.

ghost use Rattle.std.specs.Prelude.{◌≡◌, Bool, true};
ghost use Rattle.conf_parser.specs.declared.line.Line.{Line};
ghost use Rattle.rule_parser.specs.declared.fault.RuleFault.{RuleFault};
ghost use Rattle.rule_parser.specs.declared.fault.RuleKind.TheVariants.{OutsideProfile, PatternRefused};
ghost use Rattle.rule_parser.specs.Faults.{plain};
ghost use Rattle.snort_setup.specs.Rules.{Frame, IsFaulty, RulesState};
ghost use Rattle.snort_setup.specs.SkippedLines.{IsRefusedRule, IsSkipped, OnlyWarns};

/// After whatever there is, rule lines the first of which is skipped end as they do without that line, but for its
/// warning: with the same rules, and the same refusal if there is one (`only`). Lines outside the profile are skipped
/// (`outside`), and rules whose pattern is refused (`refused`), where the words say so.
pub fn skipped_lines_only_warn()
    ensures only { (frame : Frame) (state : RulesState) (line : Line) (fault : RuleFault)
        → OnlyWarns frame state line fault }
    ensures outside { (frame : Frame) (state : RulesState) (is_refused : Bool) (line : Line) (fault : RuleFault)
        → frame.skips ≡ true → fault.kind ≡ OutsideProfile → IsFaulty frame state.names line.text fault
        → IsSkipped frame state is_refused line fault }
    ensures refused { (frame : Frame) (state : RulesState) (line : Line) → IsRefusedRule frame state line
        → IsSkipped frame state true line (plain PatternRefused) }
{}
