//! The rules that were accepted.
ghost use Rattle.std.specs.Prelude.{◌≡◌, [], length, nat_le, IfOk};
ghost use Rattle.rule_types.specs.Sound.{IsTriable};
ghost use Rattle.option_eval.specs.RuleSet.{FindWhatIsMeant, SameMeaning};
ghost use Rattle.snort_setup.specs.Rules.{is_taken, judged, most_rules};
ghost use Rattle.snort_setup.specs.Steps.{IsAdded, IsJudged, refused_one, Grows, Refuses};

use crate::number::Number;
use edge_io::{NoMemory, Pattern, PatternMaker};
use option_eval::{PushFault, RuleSet};
use rule_parser::{Rule, RuleFault, RuleKind};
use std::alloc::Global;
use std::collections::BTreeSet;
use std::marker::Model;

/// How many rules there may be.
const MOST_RULES: usize = 65_536;

/// The accepted rules in their order, with their numbers. Contracts see the set of rules.
#[derive(Drop)]
pub(crate) struct Accepted<P> {
    set: RuleSet<P>,
    numbers: BTreeSet<Number>,
}

impl<P> Model for Accepted<P> {
    ghost use Rattle.option_eval.specs.RuleSet.{Rules};
    ghost use Rattle.snort_setup.specs.Numbers.{AreNumbers};

    ghost Value = { Rules P };

    ghost view = { λ accepted. accepted.set };

    ghost invariant = { λ accepted. AreNumbers accepted.set.rules accepted.numbers };
}

/// A fault at no place of its line.
fn plain(kind: RuleKind) -> RuleFault
    ensures { result ≡ record { kind = kind; from = 0; to = 0 } }
{
    RuleFault {
        kind,
        from: 0,
        to: 0,
    }
}

impl<P: Pattern> Accepted<P> {
    /// No rules. Takes no memory.
    pub fn new(alloc: Global) -> Accepted<P>
        ensures { result ≡ record { rules = []; patterns = [] } }
    {
        Accepted {
            set: RuleSet::new(alloc),
            numbers: BTreeSet::new(alloc),
        }
    }

    /// The set of the rules.
    pub fn into_set(self) -> RuleSet<P>
        ensures { result ≡ self }
    {
        let Accepted { set, numbers: _ } = self;
        set
    }

    /// Whether a rule has the number of this one.
    fn is_taken(&self, rule: &Rule) -> bool
        ensures { result ≡ is_taken self.now.rules rule.now }
    {
        self.numbers.contains(&Number::of(rule))
    }

    /// Whether there may be no more rules.
    fn is_full(&self) -> bool
        ensures { result ≡ nat_le most_rules (length self.now.rules) }
    {
        self.set.rules().len() >= MOST_RULES
    }

    /// The rules and this one after them, or the rules where the maker refuses its pattern.
    fn with_rule<M: PatternMaker<Made = P>>(
        self,
        alloc: Global,
        rule: Rule,
        maker: &mut M,
    ) -> Result<(Accepted<P>, Option<RuleFault>), NoMemory>
        requires { IsTriable rule }
        ensures added { IfOk result (λ after. IsAdded self.rules rule
            (refused_one (M.refusals maker.old) (M.refusals maker.new)) after.0.rules after.1) }
        ensures refuses { IfOk result (λ _. Refuses rule.opts (M.refusals maker.old) (M.refusals maker.new)) }
        ensures grows { Grows (M.refusals maker.old) (M.refusals maker.new) }
        ensures meant { FindWhatIsMeant P.finds (M.means maker.old) self
            → IfOk result (λ after. FindWhatIsMeant P.finds (M.means maker.old) after.0) }
        ensures same_meaning { SameMeaning (M.means maker.old) (M.means maker.new) }
    {
        let Accepted {
            mut set,
            mut numbers,
        } = self;
        let number = Number::of(&rule);
        match set.push(alloc, rule, maker) {
            Ok(()) => {
                numbers.insert(number)?;
                Ok((Accepted { set, numbers }, None))
            }
            Err(PushFault::Refused) => Ok((
                Accepted { set, numbers },
                Some(plain(RuleKind::PatternRefused)),
            )),
            Err(PushFault::NoMemory) => Err(NoMemory),
        }
    }

    /// The rules after this one: with it, or without it and with the fault for which it is refused.
    #[tactic(auto, unfolding(crate::specs::Rules::judged))]
    pub fn judge<M: PatternMaker<Made = P>>(
        self,
        alloc: Global,
        rule: Rule,
        maker: &mut M,
    ) -> Result<(Accepted<P>, Option<RuleFault>), NoMemory>
        requires { IsTriable rule }
        ensures judged { IfOk result (λ after. IsJudged self.rules
            (judged self.rules (refused_one (M.refusals maker.old) (M.refusals maker.new)) rule) after.0.rules after.1) }
        ensures refuses { IfOk result (λ _. Refuses rule.opts (M.refusals maker.old) (M.refusals maker.new)) }
        ensures grows { Grows (M.refusals maker.old) (M.refusals maker.new) }
        ensures meant { FindWhatIsMeant P.finds (M.means maker.old) self
            → IfOk result (λ after. FindWhatIsMeant P.finds (M.means maker.old) after.0) }
        ensures same_meaning { SameMeaning (M.means maker.old) (M.means maker.new) }
    {
        if self.is_taken(&rule) {
            return Ok((self, Some(plain(RuleKind::DuplicateSid))));
        }
        if self.is_full() {
            return Ok((self, Some(plain(RuleKind::Limit))));
        }
        self.with_rule(alloc, rule, maker)
    }
}
