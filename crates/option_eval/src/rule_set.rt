//! Rules in their order, with what was made of them.

ghost use Rattle.std.specs.Prelude.{◌≡◌, ◌+◌, ◌*◌, ◌<◌, ◌≤◌, ◌↔◌, length, IsTrue, IfOk};
ghost use Rattle.rule_types.specs.declared.rule.Rule.{Rule};
ghost use Rattle.option_eval.specs.Places.{PayloadMatches};
ghost use Rattle.option_eval.specs.RuleSet.{FindWhatIsMeant, IsRuleAt};
ghost use Rattle.option_eval.specs.Trying.{OfRule, OfFewValues, OfAllValues};
ghost use Rattle.option_eval.specs.Values.{most_visits};
ghost use Rattle.option_eval.specs.Walks.{ExtractsNothing, HasEachValueList, visits_of, visits_apart};

use crate::Steps;
use crate::made::MadeOption;
use crate::making::{PushFault, make_all};
use crate::passing::is_passed;
use edge_io::{NoMemory, Pattern, PatternMaker};
use rule_types::Rule;
use std::alloc::Global;
use std::marker::Model;
use std::sync::ledger::Ledger;

/// Rules in the order in which they were pushed, with the patterns and searches made of them once.
#[derive(Drop)]
pub struct RuleSet<P> {
    rules: Vec<Rule>,
    made: Vec<Vec<MadeOption<P>>>,
}

impl<P> Model for RuleSet<P> {
    ghost use Rattle.std.specs.Prelude.{List, map};
    ghost use Rattle.std.specs.List.{AllZip};
    ghost use Rattle.option_eval.specs.RuleSet.{Rules};

    ghost Value = { Rules P };

    ghost use Rattle.option_eval.specs.Ready.{IsReady, pattern_of};

    ghost view = { λ set. record { rules = set.rules.items; patterns = map (λ made. map pattern_of made.items) set.made.items } };

    ghost invariant = { λ set. AllZip (λ rule made. AllZip IsReady rule.opts made.items) set.rules.items set.made.items };
}

impl<P> RuleSet<P> {
    ghost use Rattle.std.specs.Prelude.{[], ◌∷◌, ◌++◌, map, OnOk, IsOkUnless};
    ghost use Rattle.std.specs.List.{AllZip};
    ghost use Rattle.option_eval.specs.Ready.{IsReady, pattern_of};

    /// No rules. Takes no memory.
    pub fn new(alloc: Global) -> RuleSet<P>
        ensures { result ≡ record { rules = []; patterns = [] } }
    {
        RuleSet {
            rules: Vec::new(alloc),
            made: Vec::new(alloc),
        }
    }

    /// Appends a rule with what serves its options.
    fn append(&mut self, rule: Rule, made: Vec<MadeOption<P>>) -> Result<(), PushFault>
    where
        P: Drop,
        requires { AllZip IsReady rule.opts made.items }
        ensures pushed { OnOk result (self.new ≡ record {
          rules = self.old.rules ++ rule ∷ [];
          patterns = self.old.patterns ++ map pattern_of made.items ∷ [];
        }) }
        ensures unchanged { result ≡ Err PushFault.NoMemory → self.new ≡ self.old }
        ensures no_memory { IsOkUnless result PushFault.NoMemory }
    {
        self.made.push(made)?;
        match self.rules.push(rule) {
            Ok(()) => Ok(()),
            Err(error) => {
                let _ = self.made.pop();
                Err(error.into())
            }
        }
    }

    /// The rules, in the order in which they were pushed.
    pub fn rules(&self) -> &[Rule]
        ensures { result.now ≡ self.now.rules }
    {
        &self.rules
    }
}

impl<P: Pattern> RuleSet<P> {
    ghost use Rattle.std.specs.Prelude.{[], ◌∷◌, ◌++◌, OnOk, OnErr};
    ghost use Rattle.rule_types.specs.Sound.{IsTriable};
    ghost use Rattle.option_eval.specs.RuleSet.{FindWhatIsMeant, RefusesOneOf, SameMeaning};

    /// Makes the patterns of a rule, in their order, and appends it.
    pub fn push<M: PatternMaker<Made = P>>(
        &mut self,
        alloc: Global,
        rule: Rule,
        maker: &mut M,
    ) -> Result<(), PushFault>
        requires { IsTriable rule }
        ensures pushed { OnOk result (self.new.rules ≡ self.old.rules ++ rule ∷ []) }
        ensures found { OnOk result (FindWhatIsMeant P.finds (M.means maker.old) self.old
            → FindWhatIsMeant P.finds (M.means maker.old) self.new) }
        ensures unchanged { OnErr result (self.new ≡ self.old) }
        ensures refused { result ≡ Err PushFault.Refused → RefusesOneOf rule.opts (M.refusals maker.old) (M.refusals maker.new) }
        ensures pushed_unrefused { OnOk result (M.refusals maker.new ≡ M.refusals maker.old) }
        ensures no_memory { result ≡ Err PushFault.NoMemory → M.refusals maker.new ≡ M.refusals maker.old }
        ensures same_meaning { SameMeaning (M.means maker.old) (M.means maker.new) }
    {
        let made = make_all(alloc, rule.opts.as_slice(), maker)?;
        self.append(rule, made)
    }
}

/// Whether the payload matches the rule's payload options: whether some way leads from its start
/// through all of them (specs/Places).
///
/// `rule` is the place of a rule of the set. The rule's header and its other options are not asked.
/// A visit is a place of the payload at which a content that isn't negated is compared, or a place
/// from which another payload option is asked. Of a rule that extracts values each option is asked once from
/// each place and list of values that are still read, however many ways lead there, as long as there are no more
/// than 131,072 of these after its extractions; otherwise once again for each part of the states before it.
pub fn payload_matches<P: Pattern, L: Ledger>(
    alloc: Global,
    set: &RuleSet<P>,
    rule: u32,
    payload: &[u8],
    visits: &mut Steps<L>,
) -> Result<bool, NoMemory>
    requires { rule < length set.now.rules }
    ensures right { OfRule P.finds set.now rule (λ means chosen.
        IfOk result (λ matches. IsTrue matches ↔ PayloadMatches means chosen payload.now)) }
    ensures bounded { (chosen : Rule) → IsRuleAt set.now rule chosen → ExtractsNothing chosen.opts
        → visits.new ≤ visits.old + visits_of chosen.opts (length payload.now) }
    ensures bounded_by_values { OfRule P.finds set.now rule (λ means chosen.
        OfFewValues (HasEachValueList means payload.now chosen.opts)
        (λ lists. visits.new ≤ visits.old + lists * visits_of chosen.opts (length payload.now))) }
    ensures bounded_in_parts { OfRule P.finds set.now rule (λ means chosen.
        OfAllValues (HasEachValueList means payload.now chosen.opts)
        (λ lists. visits.new ≤ visits.old + visits_apart lists chosen.opts (length payload.now))) }
    ensures bounded_by_rule { OfRule P.finds set.now rule (λ means chosen.
        visits.new ≤ visits.old + most_visits chosen.opts (length payload.now)) }
{
    let made = &set.made[rule as usize];
    let rule = &set.rules[rule as usize];
    is_passed(alloc, rule.opts.as_slice(), made, payload, visits)
}
