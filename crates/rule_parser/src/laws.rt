//! A law about rule lines, for callers.

ghost use Rattle.std.specs.Prelude.{ℕ, List};
ghost use Rattle.net_lists.specs.Variables.{Variables};
ghost use Rattle.conf_types.specs.declared.classes.Class.{Class};
ghost use Rattle.rule_parser.specs.RuleLine.{HasMeaning};

/// Every line has a meaning, whatever its bytes are: it is a rule, with the flowbit names after it, or it is refused for
/// a fault other than want of memory.
pub fn lines_have_a_meaning()
    ensures { (variables : Variables) (classes : List Class) (names : List (List ℕ)) (line : List ℕ)
        → HasMeaning variables classes names line }
{}
