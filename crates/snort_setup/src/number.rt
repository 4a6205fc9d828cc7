//! The number of a rule: that of its generator, and its own.
ghost use Rattle.std.specs.Prelude.{◌≡◌};
ghost use Rattle.snort_setup.specs.Numbers.{number_of};

use rule_parser::Rule;

/// The generator's number and the rule's (Snort Users Manual 2.9, section 3.4).
#[derive(Clone, Copy, Debug, PartialEq, Eq, PartialOrd, Ord)]
pub(crate) struct Number {
    pub gid: u32,
    pub sid: u32,
}

impl Number {
    /// The number of a rule.
    pub fn of(rule: &Rule) -> Number
        ensures { result ≡ number_of rule.now }
    {
        Number {
            gid: rule.gid,
            sid: rule.sid,
        }
    }
}
