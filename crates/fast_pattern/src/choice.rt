//! The fast pattern of a rule: the content that is looked for first.

ghost use Rattle.std.specs.Prelude.{◌≡◌, Option, Some, option_map};
ghost use Rattle.rule_types.specs.Sound.{IsTriable};
ghost use Rattle.fast_pattern.specs.FastPattern.{sought_at, sought_of, longer, chosen, fast_of};

use rule_types::{Content, FastMode, Opt, Rule};

/// The fast pattern of a rule: a part of one of its contents.
#[derive(Clone, Copy, Debug, PartialEq, Eq)]
pub struct Fast {
    /// The place of the content among the rule's options.
    pub opt: u32,
    /// Where the part begins in the content.
    pub from: u32,
    /// How many bytes it has.
    pub len: u32,
}

/// A content that isn't negated, with the part of it that is the fast pattern if the content is chosen.
#[derive(Clone, Copy)]
pub struct Sought {
    /// The place of the content among the options.
    pub place: usize,
    pub from: usize,
    pub len: usize,
    /// The rule names it as its fast pattern.
    pub marked: bool,
}

/// What a fast pattern is of this content.
fn sought_at(place: usize, content: &Content) -> Sought
    ensures { result ≡ sought_at place content.now }
{
    let len = content.bytes.bytes().len();
    match content.fast {
        FastMode::No => Sought {
            place,
            from: 0,
            len,
            marked: false,
        },
        FastMode::Yes | FastMode::Only => Sought {
            place,
            from: 0,
            len,
            marked: true,
        },
        FastMode::Part { from, len } => Sought {
            place,
            from: from as usize,
            len: len as usize,
            marked: true,
        },
    }
}

/// The option as a fast pattern. None where it isn't a content, or one that is negated.
fn sought_of(place: usize, option: &Opt) -> Option<Sought>
    ensures { result ≡ sought_of place option.now }
{
    match option {
        Opt::Content(content) => {
            if content.negated {
                None
            } else {
                Some(sought_at(place, content))
            }
        }
        _ => None,
    }
}

/// The longer of two, the first where they are equal.
fn longer(one: Option<Sought>, other: Sought) -> Option<Sought>
    ensures { result ≡ longer one (Some other) }
{
    match one {
        Some(one) => {
            if one.len < other.len {
                Some(other)
            } else {
                Some(one)
            }
        }
        None => Some(other),
    }
}

/// The content that is chosen: the marked one, else the longest, the first of equals.
#[tactic(auto, using(crate::proofs::Candidates::Choosing::choosing))]
pub fn chosen(options: &[Opt]) -> Option<Sought>
    ensures { result ≡ chosen options.now }
{
    let mut best = None;
    for (place, option) in options.iter().enumerate() {
        if let Some(sought) = sought_of(place, option) {
            if sought.marked {
                return Some(sought);
            }
            best = longer(best, sought);
        }
    }
    best
}

/// The rule's fast pattern: its content that is marked so and isn't negated, or the part of it that the
/// mark names, else the longest content that isn't negated, the first of equals. None exactly where
/// every content is negated. Takes no memory.
pub fn choose(rule: &Rule) -> Option<Fast>
    requires { IsTriable rule.now }
    ensures { result ≡ fast_of rule.now.opts }
{
    let sought = chosen(rule.opts.as_slice())?;
    Some(Fast {
        opt: sought.place as u32,
        from: sought.from as u32,
        len: sought.len as u32,
    })
}
