//! What the keys of windows are hashed with.

use rule_types::{Opt, Rule};
use std::hash::{BuildHasher, DefaultHasher, Hash, Hasher};

/// What every hash begins with: a hasher (SipHash-1-3) that has taken the rules, which a sender needn't know.
/// So who doesn't know them can't choose addresses whose keys have one hash. No contract speaks of it, since
/// no answer depends on a hash.
#[derive(Clone, Copy)]
pub(crate) struct CountSeed {
    initial: DefaultHasher,
}

impl CountSeed {
    /// The seed of these rules: their numbers, messages and contents.
    pub fn of(rules: &[Rule]) -> CountSeed {
        let mut initial = DefaultHasher::new();
        for rule in rules {
            take_rule(&mut initial, rule);
        }
        CountSeed { initial }
    }
}

/// Has the hasher take a rule.
fn take_rule(hasher: &mut DefaultHasher, rule: &Rule) {
    rule.gid.hash(hasher);
    rule.sid.hash(hasher);
    rule.rev.hash(hasher);
    hasher.write(rule.msg.bytes());
    for option in rule.opts.as_slice() {
        if let Opt::Content(content) = option {
            hasher.write(content.bytes.bytes());
        }
    }
}

impl BuildHasher for CountSeed {
    type Hasher = DefaultHasher;

    ghost build_hasher = { λ seed. seed.initial };

    fn build_hasher(&self) -> DefaultHasher {
        self.initial
    }
}
