//! A law for callers, proved of the definitions: items that no rule matches.

ghost use Rattle.std.specs.Prelude.{◌≡◌, [], ℕ, List};
ghost use Rattle.conf_types.specs.declared.config.Config.{Config};
ghost use Rattle.rule_types.specs.declared.rule.Rule.{Rule};
ghost use Rattle.event_filters.specs.Events.{Item, kept, matched};
ghost use Rattle.event_filters.specs.Filtering.{FiltersState, IsGiven};

/// Items that no rule matches are nothing to the filters. Filters that were given items stand for any items of
/// which the same ones are matched; what is kept of an item goes by the earlier items that are matched alone; and
/// of an item that no rule matches nothing is kept.
pub fn nothing_matches()
    ensures given { (config : Config) (rules : List Rule) (xs ys : List Item) (filters : FiltersState)
        → matched xs ≡ matched ys → IsGiven config rules xs filters → IsGiven config rules ys filters }
    ensures kept { (config : Config) (rules : List Rule) (xs ys : List Item) (item : Item)
        → matched xs ≡ matched ys → kept config rules xs item ≡ kept config rules ys item }
    ensures none { (config : Config) (rules : List Rule) (before : List Item) (item : Item)
        → item.hits ≡ [] → kept config rules before item ≡ [] }
{}
