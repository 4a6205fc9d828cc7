//! What is made of a rule's options when it is pushed.

ghost use Rattle.std.specs.Prelude.{◌≡◌, ℕ, ◌<◌, ◌++◌, ◌∷◌, [], List, length, map, All, IfOk, OnOk};
ghost use Rattle.std.specs.List.{AllZip};
ghost use Rattle.option_eval.specs.Ready.{IsReady, IsInRange, pattern_of};
ghost use Rattle.option_eval.specs.RuleSet.{IsMade, RefusesText, RefusesOneOf, SameMeaning};

use crate::made::MadeOption;
use edge_io::{MakeFault, NoMemory, PatternFlags, PatternMaker, Text};
use memchr::memmem::Finder;
use rule_types::{Content, Opt};
use std::alloc::{AllocFailed, Global};

/// Why a rule was not pushed.
#[derive(Clone, Copy, Debug, PartialEq, Eq)]
pub enum PushFault {
    /// The maker refuses one of the rule's patterns.
    Refused,
    /// Memory ran out.
    NoMemory,
}

impl<T: Drop> From<AllocFailed<T>> for PushFault {
    ghost use Rattle.option_eval.specs.declared.making.PushFault.TheVariants.{NoMemory as out_of_memory};

    ghost from_gives = { λ _ fault. fault ≡ out_of_memory };

    fn from(_error: AllocFailed<T>) -> PushFault {
        PushFault::NoMemory
    }
}

/// A search for the content's bytes.
fn search(alloc: Global, content: &Content) -> Result<Finder<'static>, NoMemory>
    ensures { IfOk result (λ finder. finder ≡ content.now.bytes) }
{
    Ok(Finder::new(content.bytes.bytes()).into_owned(alloc)?)
}

/// The pattern of a text of ASCII.
fn pattern<M: PatternMaker>(
    alloc: Global,
    text: &Text,
    flags: PatternFlags,
    maker: &mut M,
) -> Result<M::Made, MakeFault>
    requires { All (λ byte. byte < 128) text.now }
    ensures made { IfOk result (λ made. (bytes : List ℕ) → M.Made.finds made bytes ≡ M.means maker.old text.now flags bytes) }
    ensures refused { result ≡ Err MakeFault.Refused →
        M.refusals maker.new ≡ M.refusals maker.old ++ record { text = text.now; flags = flags } ∷ [] }
    ensures made_unrefused { OnOk result (M.refusals maker.new ≡ M.refusals maker.old) }
    ensures no_memory { result ≡ Err MakeFault.NoMemory → M.refusals maker.new ≡ M.refusals maker.old }
    ensures same_meaning { SameMeaning (M.means maker.old) (M.means maker.new) }
{
    match std::str::from_utf8(text.bytes()) {
        Ok(text) => maker.make(alloc, text, flags),
        // ASCII is UTF-8.
        Err(_) => unreachable!(),
    }
}

/// What serves one option.
fn make_one<M: PatternMaker>(
    alloc: Global,
    option: &Opt,
    maker: &mut M,
) -> Result<MadeOption<M::Made>, PushFault>
    requires { IsInRange option.now }
    ensures ready { IfOk result (λ made. IsReady option.now made) }
    ensures found { IfOk result (λ made. IsMade M.Made.finds (M.means maker.old) option.now (pattern_of made)) }
    ensures made_unrefused { OnOk result (M.refusals maker.new ≡ M.refusals maker.old) }
    ensures refused { result ≡ Err PushFault.Refused → RefusesText option.now (M.refusals maker.old) (M.refusals maker.new) }
    ensures no_memory { result ≡ Err PushFault.NoMemory → M.refusals maker.new ≡ M.refusals maker.old }
    ensures same_meaning { SameMeaning (M.means maker.old) (M.means maker.new) }
{
    match option {
        Opt::Content(content) => match search(alloc, content) {
            Ok(finder) => Ok(MadeOption::Needle(finder)),
            Err(NoMemory) => Err(PushFault::NoMemory),
        },
        Opt::Pcre { text, flags, .. } => match pattern(alloc, text, *flags, maker) {
            Ok(pattern) => Ok(MadeOption::Pattern(pattern)),
            Err(MakeFault::Refused) => Err(PushFault::Refused),
            Err(MakeFault::NoMemory) => Err(PushFault::NoMemory),
        },
        _ => Ok(MadeOption::Nothing),
    }
}

/// What serves each of the options, in their order.
pub(crate) fn make_all<M: PatternMaker>(
    alloc: Global,
    options: &[Opt],
    maker: &mut M,
) -> Result<Vec<MadeOption<M::Made>>, PushFault>
    requires { All IsInRange options.now }
    ensures ready { IfOk result (λ made. AllZip IsReady options.now made.items) }
    ensures found { IfOk result (λ made. AllZip (IsMade M.Made.finds (M.means maker.old)) options.now
        (map pattern_of made.items)) }
    ensures made_unrefused { OnOk result (M.refusals maker.new ≡ M.refusals maker.old) }
    ensures refused { result ≡ Err PushFault.Refused → RefusesOneOf options.now (M.refusals maker.old) (M.refusals maker.new) }
    ensures no_memory { result ≡ Err PushFault.NoMemory → M.refusals maker.new ≡ M.refusals maker.old }
    ensures same_meaning { SameMeaning (M.means maker.old) (M.means maker.new) }
{
    let mut made = Vec::new(alloc);
    for option in options {
        let one = make_one(alloc, option, maker)?;
        made.push(one)?;
    }
    Ok(made)
}
