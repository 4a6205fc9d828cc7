//! A fold over the parts of a text, proved once for any step.
//!
//! A form of values with parts is a step: how one part changes the draft before it, or why it may not
//! come there. `Parts::commas(value).fold_by(&step, draft)` then reads the whole value, up to the first part
//! that is refused.
ghost use Rattle.std.specs.Prelude.{◌≡◌, List, ℕ, Result};
ghost use Rattle.net_lists.specs.Stops.{Gives};
ghost use Rattle.net_lists.specs.Folds.{draft_after};

use crate::parts::Parts;
use crate::stop::Stop;

/// A step over parts that takes no memory.
pub trait PartStep<D, K> {
    ghost next_draft: { Self → D → List ℕ → Result D K };

    /// The draft after a part, or the kind of the part's fault.
    fn next(&self, draft: D, part: &[u8]) -> Result<D, K>
        ensures { result ≡ next_draft self.now draft part.now };
}

/// A step over parts that may want memory.
pub trait TryPartStep<D, K> {
    ghost next_draft: { Self → D → List ℕ → Result D K };

    /// The draft after a part, or the kind of the part's fault; or want of memory.
    fn try_next(&self, draft: D, part: &[u8]) -> Result<D, Stop<K>>
        ensures { Gives result (next_draft self.now draft part.now) };
}

impl<'a> Parts<'a> {
    /// The draft after all parts, or the kind of the first fault.
    #[tactic(auto, using(crate::proofs::Drafts::draft_steps))]
    pub fn fold_by<D, K, S: PartStep<D, K>>(self, step: &S, draft: D) -> Result<D, K>
        ensures { result ≡ draft_after (S.next_draft step.now) draft self.entry }
    {
        let mut draft = draft;
        for part in self {
            draft = step.next(draft, part)?;
        }
        Ok(draft)
    }

    /// The draft after all parts, or the kind of the first fault, by a step that may want memory.
    #[tactic(auto, using(crate::proofs::Drafts::draft_steps))]
    pub fn try_fold_by<D, K, S: TryPartStep<D, K>>(self, step: &S, draft: D) -> Result<D, Stop<K>>
        ensures { Gives result (draft_after (S.next_draft step.now) draft self.entry) }
    {
        let mut draft = draft;
        for part in self {
            draft = step.try_next(draft, part)?;
        }
        Ok(draft)
    }
}
