//! Settings that are a name and its value, one after another.
ghost use Rattle.std.specs.Prelude.{◌≡◌, ◌≤◌, ◌∷◌, length, Bool, List, ℕ, Option, Result, option_copied};
ghost use Rattle.net_lists.specs.Stops.{Gives};
ghost use Rattle.conf_parser.specs.declared.line.ConfKind.{ConfKind};
ghost use Rattle.conf_parser.specs.Options.{setting, paired, settings_after};
ghost use Rattle.conf_parser.specs.Values.{with_new};

use crate::line::ConfKind;
use net_lists::{Parts, Stop};

/// A step over settings.
pub trait SettingStep<D> {
    ghost alone: { Self → List ℕ → Bool };

    ghost next_draft: { Self → D → List ℕ → Option (List ℕ) → Result D ConfKind };

    /// Whether the setting of this name has no value.
    fn is_alone(&self, name: &[u8]) -> bool
        ensures { result ≡ alone self.now name.now };

    /// Changes the draft by a setting; a value lacks only where the setting has none, or at the end.
    fn change(&self, draft: &mut D, name: &[u8], value: Option<&[u8]>) -> Result<(), Stop<ConfKind>>
        ensures { Gives (with_new result draft.new) (next_draft self.now draft.old name.now (option_copied value.entry)) };
}

/// The value after a name: the next word, if the name takes a value and there is one.
#[tactic(auto, using(crate::proofs::Pairs::pairs))]
fn value_after<'a>(words: &mut Parts<'a>, alone: bool) -> Option<&'a [u8]>
    ensures pairs { (test : List ℕ → Bool) → (name : List ℕ) → test name ≡ alone
        → paired test (name ∷ words.old) ≡ setting name (option_copied result) ∷ paired test words.new }
    ensures shorter { length words.new ≤ length words.old }
{
    if alone { None } else { words.next() }
}

/// Changes the draft by all settings of a text.
#[tactic(auto, using(net_lists::proofs::Drafts::draft_steps))]
pub fn change_by_settings<D, S: SettingStep<D>>(
    text: &[u8],
    step: &S,
    draft: &mut D,
) -> Result<(), Stop<ConfKind>>
    ensures { Gives (with_new result draft.new)
        (settings_after (S.alone step.now) (S.next_draft step.now) draft.old text.now) }
{
    let mut words = Parts::settings(text);
    'settings: while let Some(name) = words.next() {
        let value = value_after(&mut words, step.is_alone(name));
        step.change(draft, name, value)?;
    }
    Ok(())
}
