//! What a run reads from: files that are loaded, and one capture that is open.
ghost use Rattle.std.specs.Prelude.{◌≡◌, ℕ, ◌+◌, ◌<◌, ◌≤◌, ◌++◌, ◌⊎◌, Option, None, Some, List, length, take, drop, vec_len, IfOk, OnOk, OnErr, IsErrOf};
ghost use Rattle.std.specs.FinMap.{get};
ghost use Rattle.edge_io.specs.Told.{before, NothingLeft, one_more, Rose};
ghost use Rattle.edge_io.specs.Files.{Files, AsTold, Holds, Lacks, IsLonger, IsOpened, IsUnopened};

use crate::Failed;
use std::alloc::AllocError;

/// Why a file was not loaded.
#[derive(Clone, Copy, Debug, PartialEq, Eq)]
pub enum LoadFault {
    /// The host failed, or has no such file.
    Failed,
    /// The file is longer than the limit.
    TooLarge,
    /// Memory ran out.
    NoMemory,
}

/// Files by name, and one open capture that is read piece by piece.
///
/// The meanings: `contents`, the files where they are told; `left`, the bytes left of the open
/// capture where one is open and they are told; `agrees`, the files that give all that the host
/// answered so far, which no call makes more; `left_of`, the bytes left of the open capture by such
/// files; `faults`, a count that never falls; `opens`, a count that `open` alone raises, by one. A
/// host that tells `left` tells `contents`, and of one that tells files these alone agree.
pub trait Host {
    ghost contents: { Self → Option Files };

    ghost left: { Self → Option (List ℕ) };

    ghost agrees: { Self → Files → Type 0 };

    ghost left_of: { Self → Files → Option (List ℕ) };

    ghost faults: { Self → ℕ };

    ghost opens: { Self → ℕ };

    /// Appends the whole contents of a file of at most `limit` bytes to `out`.
    fn load(&mut self, name: &str, limit: usize, out: &mut Vec<u8>) -> Result<(), LoadFault>
        ensures appends { OnOk result (out.new.items ≡ out.old.items ++ drop (vec_len out.old) out.new.items) }
        ensures whole { OnOk result (Holds (contents self.old) name.now (drop (vec_len out.old) out.new.items)) }
        ensures within { OnOk result (vec_len out.new ≤ vec_len out.old + limit) }
        ensures too_large { IsErrOf result LoadFault.TooLarge → IsLonger (contents self.old) name.now limit }
        ensures failed { IsErrOf result LoadFault.Failed
            → Rose (faults self.old) (faults self.new) ⊎ Lacks (contents self.old) name.now }
        ensures unfailed { (IsErrOf result LoadFault.Failed → ⊥) → faults self.new ≡ faults self.old }
        ensures refused { OnErr result (out.new.items ≡ out.old.items) }
        ensures same_contents { contents self.new ≡ contents self.old }
        ensures same_left { left self.new ≡ left self.old }
        ensures agreed { OnOk result ((files : Files) → agrees self.new files
            → get files name.now ≡ Some (drop (vec_len out.old) out.new.items)) }
        ensures agreed_large { IsErrOf result LoadFault.TooLarge
            → (files : Files) → agrees self.new files → IsLonger (Some files) name.now limit }
        ensures same_left_of { (files : Files) → left_of self.new files ≡ left_of self.old files }
        ensures earlier { (files : Files) → agrees self.new files → agrees self.old files }
        ensures same_opens { opens self.new ≡ opens self.old }
        ensures later { faults self.old ≤ faults self.new };

    /// Opens a file as the capture, in place of one that was open. After a refusal nothing is open. The
    /// call is counted, whatever it answers.
    fn open(&mut self, name: &str) -> Result<(), Failed>
        ensures opened { OnOk result (IsOpened (contents self.old) name.now (left self.new)) }
        ensures failed { OnErr result (Rose (faults self.old) (faults self.new) ⊎ Lacks (contents self.old) name.now) }
        ensures unfailed { OnOk result (faults self.new ≡ faults self.old) }
        ensures closed { OnErr result (left self.new ≡ None) }
        ensures counted { opens self.new ≡ one_more (opens self.old) }
        ensures same_contents { contents self.new ≡ contents self.old }
        ensures agreed { OnOk result ((files : Files) → agrees self.new files
            → IsOpened (Some files) name.now (left_of self.new files)) }
        ensures agreed_closed { OnErr result ((files : Files) → left_of self.new files ≡ None) }
        ensures earlier { (files : Files) → agrees self.new files → agrees self.old files }
        ensures later { faults self.old ≤ faults self.new };

    /// Takes bytes off the front of the open capture into the front of `buf`, as many as the answer
    /// says: 0 exactly where nothing is left or nothing is open. What is in the rest of `buf`
    /// afterwards, and in all of it after a refusal, is left open.
    fn read(&mut self, buf: &mut [u8]) -> Result<usize, Failed>
        requires { 0 < length buf.old }
        ensures within { IfOk result (λ count. count ≤ length buf.old) }
        ensures taken { IfOk result (λ count. left self.old ≡ before (take count buf.new) (left self.new)) }
        ensures ended { IfOk result (λ count. count ≡ 0 → NothingLeft (left self.old)) }
        ensures unopened { IsUnopened (contents self.old) (left self.old) → IfOk result (λ count. count ≡ 0) }
        ensures failed { OnErr result (Rose (faults self.old) (faults self.new)) }
        ensures unfailed { OnOk result (faults self.new ≡ faults self.old) }
        ensures nothing_taken { OnErr result (left self.new ≡ left self.old) }
        ensures same_contents { contents self.new ≡ contents self.old }
        ensures agreed { IfOk result (λ count. (files : Files) → agrees self.new files
            → left_of self.old files ≡ before (take count buf.new) (left_of self.new files)) }
        ensures agreed_end { IfOk result (λ count. count ≡ 0
            → (files : Files) → agrees self.new files → NothingLeft (left_of self.old files)) }
        ensures agreed_unopened { IfOk result (λ count. (files : Files) → agrees self.new files
            → left_of self.old files ≡ None → count ≡ 0) }
        ensures agreed_failed { OnErr result ((files : Files) → left_of self.new files ≡ left_of self.old files) }
        ensures earlier { (files : Files) → agrees self.new files → agrees self.old files }
        ensures same_opens { opens self.new ≡ opens self.old }
        ensures later { faults self.old ≤ faults self.new };

    ghost as_told: { (host : Self) → AsTold (contents host) (left host) (agrees host) (left_of host) };
}

impl From<Failed> for LoadFault {
    ghost use Rattle.edge_io.specs.declared.host.LoadFault.TheVariants.{Failed as outside_failed};

    ghost from_gives = { λ _ fault. fault ≡ outside_failed };

    fn from(_error: Failed) -> LoadFault {
        LoadFault::Failed
    }
}

impl From<AllocError> for LoadFault {
    ghost use Rattle.edge_io.specs.declared.host.LoadFault.TheVariants.{NoMemory as out_of_memory};

    ghost from_gives = { λ _ fault. fault ≡ out_of_memory };

    fn from(_error: AllocError) -> LoadFault {
        LoadFault::NoMemory
    }
}
