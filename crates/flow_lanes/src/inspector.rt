//! What the jobs of a batch are answered by.

ghost use Rattle.std.specs.Prelude.{All};
ghost use Rattle.conf_types.specs.Sound.{IsStreamConfig};
ghost use Rattle.fast_pattern.specs.Grouping.{AreFor};
ghost use Rattle.rule_types.specs.Sound.{IsTriable};

use conf_types::StreamConfig;
use fast_pattern::Groups;
use option_eval::RuleSet;
use std::alloc::Global;

/// By what the jobs of a batch are answered, the same for all of them and all lanes: the configuration of streams,
/// the rules that items are tried against, and the groups that give their candidates. What a job keeps is taken from
/// `alloc`. With `all`, each item is told with the rules that match it; without, an item is told only where a rule
/// does.
///
/// Its facts are asked of the caller where it is made, once a batch, and hold wherever it is lent.
#[derive(Drop)]
pub(crate) struct Inspector<'a, P> {
    pub alloc: Global,
    pub stream: &'a StreamConfig,
    pub set: &'a RuleSet<P>,
    pub groups: &'a Groups,
    pub all: bool,
    ghost config: { ∥ IsStreamConfig stream.now ∥₁ },
    ghost hold: { ∥ AreFor groups.now set.now.rules ∥₁ },
    ghost triable: { ∥ All IsTriable set.now.rules ∥₁ },
}
