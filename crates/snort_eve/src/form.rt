//! A form of input: how its bytes come piece by piece, and give lines.
ghost use Rattle.std.specs.Prelude.{◌≡◌, ℕ, List, [], Ok, false, IfOk, OnOk};
ghost use Rattle.snort_eve.specs.Forms.{Adds, Closes, Gives, Meaning};

use edge_io::NoMemory;
use std::alloc::Global;

/// How far a file is of its form.
#[derive(Clone, Copy)]
pub(crate) enum Ending {
    /// All of it.
    Done,
    /// Up to this byte, at which no record begins.
    Bad { at: u64 },
    /// Up to the line of this number, which gives no record.
    NoLine { number: u64 },
}

/// A form of input, which says what lines its bytes have.
///
/// The meanings: `came`, such bytes came and gave such lines; `foreign`, whatever follows makes no difference; `means`, which
/// lines bytes have, and how they end.
pub(crate) trait InputForm {
    /// What is kept between two pieces.
    type State: Drop;

    ghost came: { Self → Self.State → List ℕ → List ℕ → Type 0 };

    ghost foreign: { Self → Self.State → Type 0 };

    ghost means: { Self → Meaning };

    /// Nothing has come.
    fn start(&self, alloc: Global) -> Self::State
        ensures { came self.now result [] [] };

    /// Takes a further piece, and appends the lines that it gives: false where whatever follows makes no difference.
    fn feed(
        &self,
        alloc: Global,
        state: &mut Self::State,
        piece: &[u8],
        out: &mut Vec<u8>,
    ) -> Result<bool, NoMemory>
        ensures gives { OnOk result (Adds out.old.items out.new.items
            (Gives (came self.now state.old) (came self.now state.new) (means self.now) piece.now)) }
        ensures over { result ≡ Ok false → foreign self.now state.new };

    /// Ends the input behind so many bytes: appends the last lines.
    fn finish(
        &self,
        alloc: Global,
        state: &Self::State,
        read: u64,
        out: &mut Vec<u8>,
    ) -> Result<Ending, NoMemory>
        ensures { IfOk result (λ ending. Adds out.old.items out.new.items
            (Closes (came self.now state.now) (foreign self.now state.now) (means self.now) read ending)) };

    ghost nothing: { (form : Self) (bytes : List ℕ) → (means form).begins bytes [] };
}
