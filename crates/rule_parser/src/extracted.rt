//! The names that byte_extract gives in a rule.
ghost use Rattle.std.specs.Prelude.{◌≡◌, ◌≤◌, ◌<◌, ◌↔◌, [], ◌∷◌, ◌++◌, length, OnOk, IfErr, IsOk};
ghost use Rattle.rule_parser.specs.declared.fault.Fault.TheVariants.{Limit as limit};

use crate::fault::Fault;
use arrayvec::ArrayVec;
use edge_io::Text;
use std::alloc::Global;
use std::marker::Model;

/// At most two names, each once. Contracts see the list of them.
#[derive(Drop)]
pub(crate) struct Extracted {
    names: ArrayVec<Text, 2, Global>,
}

impl Model for Extracted {
    ghost use Rattle.std.specs.Prelude.{ℕ, List};

    ghost Value = { List (List ℕ) };

    ghost view = { λ extracted. extracted.names.items };
}

impl Extracted {
    pub(crate) fn new(alloc: Global) -> Extracted
        ensures { result ≡ [] }
    {
        Extracted {
            names: ArrayVec::new_in(alloc),
        }
    }

    /// The names, lent.
    pub(crate) fn as_slice(&self) -> &[Text]
        ensures value { result.now ≡ self.now }
        ensures within { length result.now ≤ 2 }
    {
        self.names.as_slice()
    }

    /// Adds a name after the last, where there is room.
    pub(crate) fn push(&mut self, name: Text) -> Result<(), Fault>
        ensures more { OnOk result (self.new ≡ self.old ++ name ∷ []) }
        ensures room { IsOk result ↔ (length self.old < 2) }
        ensures full { IfErr result (λ fault. fault ≡ limit) }
    {
        match self.names.try_push(name) {
            Ok(()) => Ok(()),
            Err(_) => Err(Fault::Limit),
        }
    }
}
