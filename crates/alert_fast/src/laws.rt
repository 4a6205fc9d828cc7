//! A law about the lines of items, for callers.
ghost use Rattle.std.specs.Prelude.{◌≡◌, List};
ghost use Rattle.packet_decode.specs.declared.item.ItemHead.{ItemHead};
ghost use Rattle.conf_types.specs.declared.classes.Class.{Class};
ghost use Rattle.rule_types.specs.declared.rule.Rule.{Rule};
ghost use Rattle.alert_fast.specs.Line.{line_text};
ghost use Rattle.alert_fast.specs.Told.{told_text};
ghost use Rattle.alert_fast.specs.Telling.{told_by};

/// The line of an item that a rule matches is the text of what it tells, with the date that its moment has.
pub fn lines_are_told()
    ensures { (head : ItemHead) (rule : Rule) (classes : List Class)
        → line_text head rule classes ≡ told_text (told_by head rule classes) }
{}
