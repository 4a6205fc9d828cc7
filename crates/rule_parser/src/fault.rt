//! Why a rule is refused.
ghost use Rattle.std.specs.Prelude.{◌≡◌};
ghost use Rattle.rule_parser.specs.Faults.{plain, rule_fault, stop_fault};

use edge_io::NoMemory;
use net_lists::Stop;

/// The kinds of faults of a rule file, in the order of their numbers, which begin at 1.
#[derive(Clone, Copy, Debug, PartialEq, Eq)]
pub enum RuleKind {
    Action,
    Protocol,
    Address,
    Port,
    Direction,
    /// The parentheses, a `;` or an option's name is lacking.
    OptionSyntax,
    UnknownOption,
    OptionValue,
    /// A modifier without a content, or one that its content has already or that excludes another.
    MisplacedModifier,
    /// Not given by a single line: another rule has the generator's number and the rule's.
    DuplicateSid,
    MissingSid,
    UnknownClass,
    /// A variable that is not defined, or a name that no option before extracts.
    UnknownVariable,
    Limit,
    OutsideProfile,
    /// Not given by a single line: the maker of patterns refuses one.
    PatternRefused,
    NoMemory,
}

/// Why a line is no rule.
#[derive(Clone, Copy, Debug, PartialEq, Eq)]
pub struct RuleFault {
    pub kind: RuleKind,
    /// Where the line has what the message of an `UnknownVariable` shows, the name or its text; 0 for
    /// any other kind.
    pub from: usize,
    /// The place after that; 0 for any other kind.
    pub to: usize,
}

/// Why a line is no rule, while it is read: the places are counted from the line's end.
#[derive(Clone, Copy)]
pub(crate) enum Fault {
    Action,
    Protocol,
    Address,
    Port,
    Direction,
    OptionSyntax,
    UnknownOption,
    OptionValue,
    Misplaced,
    MissingSid,
    UnknownClass,
    /// `left` bytes are left of the line where the name begins, and the name has `len`.
    Unknown { left: usize, len: usize },
    Limit,
    OutsideProfile,
}

impl From<Fault> for Stop<Fault> {
    ghost use Rattle.net_lists.specs.declared.stop.Stop.TheVariants.{Wrong as wrong};

    ghost from_gives = { λ fault stop. stop ≡ wrong fault };

    fn from(fault: Fault) -> Stop<Fault> {
        Stop::Wrong(fault)
    }
}

/// A fault of this kind, at no place.
fn plain(kind: RuleKind) -> RuleFault
    ensures { result ≡ plain kind }
{
    RuleFault {
        kind,
        from: 0,
        to: 0,
    }
}

/// The fault in a line of `len` bytes.
#[tactic(auto, unfolding(crate::specs::Faults::rule_fault))]
fn rule_fault(len: usize, fault: Fault) -> RuleFault
    ensures { result ≡ rule_fault len fault }
{
    match fault {
        Fault::Action => plain(RuleKind::Action),
        Fault::Protocol => plain(RuleKind::Protocol),
        Fault::Address => plain(RuleKind::Address),
        Fault::Port => plain(RuleKind::Port),
        Fault::Direction => plain(RuleKind::Direction),
        Fault::OptionSyntax => plain(RuleKind::OptionSyntax),
        Fault::UnknownOption => plain(RuleKind::UnknownOption),
        Fault::OptionValue => plain(RuleKind::OptionValue),
        Fault::Misplaced => plain(RuleKind::MisplacedModifier),
        Fault::MissingSid => plain(RuleKind::MissingSid),
        Fault::UnknownClass => plain(RuleKind::UnknownClass),
        Fault::Unknown { left, len: size } => RuleFault {
            kind: RuleKind::UnknownVariable,
            from: len.saturating_sub(left),
            to: len.saturating_sub(left.saturating_sub(size)),
        },
        Fault::Limit => plain(RuleKind::Limit),
        Fault::OutsideProfile => plain(RuleKind::OutsideProfile),
    }
}

/// The fault of what stopped a reader, in a line of `len` bytes.
pub(crate) fn stop_fault(len: usize, stop: Stop<Fault>) -> RuleFault
    ensures { result ≡ stop_fault len stop }
{
    match stop {
        Stop::NoMemory => plain(RuleKind::NoMemory),
        Stop::Wrong(fault) => rule_fault(len, fault),
    }
}
