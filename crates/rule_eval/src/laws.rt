//! Laws about all rules that match an item, for callers.

ghost use Rattle.std.specs.Prelude.{◌≡◌, ℕ, ◌↔◌, List, Option, true};
ghost use Rattle.rule_types.specs.declared.rule.Rule.{Rule};
ghost use Rattle.fast_pattern.specs.Candidates.{is_candidate};
ghost use Rattle.option_eval.specs.Places.{Means};
ghost use Rattle.rule_eval.specs.Hits.{AreHits, Bits, Item, RuleMatches, Tells, Test, Trying, matching};

/// It is decided whether a rule matches an item. So some test says which rules match, whatever the texts of
/// patterns mean.
pub fn matching_is_decided()
    ensures { (means : Means) → (test : Test) × Tells means test }
{}

/// An item has one list of all rules that match, whatever its bits are.
pub fn hits_are_one()
    ensures some { (means : Means) (rules : List Rule) (item : Item) (bits : Option Bits)
        → (places : List ℕ) × AreHits means rules item bits places }
    ensures one { (means : Means) (rules : List Rule) (item : Item) (bits : Option Bits) (xs ys : List ℕ)
        → AreHits means rules item bits xs → AreHits means rules item bits ys → xs ≡ ys }
{}

/// A rule that matches an item is a candidate for it (`fast_pattern`). So no rule that matches is left out where
/// candidates alone are tried.
pub fn matching_rules_are_candidates()
    ensures { (means : Means) (rule : Rule) (item : Item) (bits : Bits) → RuleMatches means rule item bits
        → is_candidate item.head.body item.payload rule ≡ true }
{}

/// All rules that match an item, as a relation and by a test, are the same: where the test tells which rules
/// match, these places are of all that do exactly if they are those that are told with the item.
pub fn tests_tell_the_hits()
    ensures { (means : Means) (trying : Trying) → Tells means trying.matches
        → (item : Item) (bits : Option Bits) (places : List ℕ)
        → (AreHits means trying.rules item bits places ↔ (places ≡ matching trying item bits)) }
{}
