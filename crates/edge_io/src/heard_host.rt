//! Real files whose answers are noted for contracts.
ghost use Rattle.std.specs.Prelude.{◌≡◌, ◌<◌, ◌≤◌, ◌+◌, ◌++◌, ◌∷◌, [], None, length, vec_len, take, drop, IfOk, OnOk, OnErr, IsSome, IsErrOf, refl};
ghost use Rattle.std.specs.Io.KnownBytes.{Consumes, Keeps, IsAtEnd};
ghost use Rattle.edge_io.specs.Answers.{Agree, left_after, loaded, longer, opened, closed, gave};
ghost use Rattle.edge_io.specs.RealFiles.{coming, SomeHasLeft, SomeHasMoreLeft};
ghost use Rattle.edge_io.specs.Told.{one_more};

use crate::heard::{Heard, Note};
use crate::{Failed, FileHost, Host, LoadFault};
use std::rt::Files;

/// The real files of a runtime, with what they answered. Contracts see each answer that the caller was given: a
/// note takes no memory and does nothing at run time. Each call is the same call of the host below, of which the
/// clauses say what they say there.
#[derive(Drop)]
pub struct HeardHost<R: Files> {
    host: FileHost<R>,
    heard: Heard,
}

impl<R: Files> HeardHost<R> {
    /// A host over this one, of which nothing was asked yet.
    pub fn over(host: FileHost<R>) -> HeardHost<R>
        ensures host { result.host ≡ host }
        ensures nothing { result.heard.answers ≡ [] }
    {
        HeardHost {
            host,
            heard: Heard::new(),
        }
    }
}

impl<R: Files> Host for HeardHost<R> {
    ghost contents = { λ _. None };

    ghost left = { λ _. None };

    ghost agrees = { λ h files. Agree h.heard.answers files };

    ghost left_of = { λ h files. left_after h.heard.answers files };

    ghost faults = { λ h. h.host.faults };

    ghost opens = { λ h. h.host.opens };

    ghost as_told = { λ _. refl };

    fn load(&mut self, name: &str, limit: usize, out: &mut Vec<u8>) -> Result<(), LoadFault>
        ensures appends { OnOk result (out.new.items ≡ out.old.items ++ drop (vec_len out.old) out.new.items) }
        ensures heard { OnOk result (self.new.heard.answers
            ≡ loaded name.now (drop (vec_len out.old) out.new.items) ∷ self.old.heard.answers) }
        ensures within { OnOk result (vec_len out.new ≤ vec_len out.old + limit) }
        ensures heard_long { IsErrOf result LoadFault.TooLarge
            → self.new.heard.answers ≡ longer name.now limit ∷ self.old.heard.answers }
        ensures failed { IsErrOf result LoadFault.Failed → self.new.host.faults ≡ one_more self.old.host.faults }
        ensures unheard_failed { IsErrOf result LoadFault.Failed → self.new.heard.answers ≡ self.old.heard.answers }
        ensures unheard_memory { IsErrOf result LoadFault.NoMemory → self.new.heard.answers ≡ self.old.heard.answers }
        ensures refused { OnErr result (out.new.items ≡ out.old.items) }
        ensures whole { OnOk result (SomeHasLeft R.File.remaining (drop (vec_len out.old) out.new.items)) }
        ensures too_large { IsErrOf result LoadFault.TooLarge → SomeHasMoreLeft R.File.remaining limit }
        ensures unfailed { (IsErrOf result LoadFault.Failed → ⊥) → self.new.host.faults ≡ self.old.host.faults }
        ensures same_capture { self.new.host.capture ≡ self.old.host.capture }
        ensures same_pending { self.new.host.pending ≡ self.old.host.pending }
        ensures same_opens { self.new.host.opens ≡ self.old.host.opens }
        ensures later { self.old.host.faults ≤ self.new.host.faults }
    {
        let start = out.len();
        match self.host.load(name, limit, out) {
            Ok(()) => {
                self.heard = self.heard.then(&Note::Loaded(name, out, start));
                Ok(())
            }
            Err(LoadFault::TooLarge) => {
                self.heard = self.heard.then(&Note::Longer(name, limit));
                Err(LoadFault::TooLarge)
            }
            Err(LoadFault::Failed) => Err(LoadFault::Failed),
            Err(LoadFault::NoMemory) => Err(LoadFault::NoMemory),
        }
    }

    fn open(&mut self, name: &str) -> Result<(), Failed>
        ensures heard { OnOk result (self.new.heard.answers ≡ opened name.now ∷ self.old.heard.answers) }
        ensures heard_closed { OnErr result (self.new.heard.answers ≡ closed ∷ self.old.heard.answers) }
        ensures opened { OnOk result (IsSome self.new.host.capture) }
        ensures closed { OnErr result (self.new.host.capture ≡ None) }
        ensures fresh { self.new.host.pending ≡ [] }
        ensures counted { self.new.host.opens ≡ one_more self.old.host.opens }
        ensures failed { OnErr result (self.new.host.faults ≡ one_more self.old.host.faults) }
        ensures unfailed { OnOk result (self.new.host.faults ≡ self.old.host.faults) }
        ensures later { self.old.host.faults ≤ self.new.host.faults }
    {
        match self.host.open(name) {
            Ok(()) => {
                self.heard = self.heard.then(&Note::Opened(name));
                Ok(())
            }
            Err(Failed) => {
                self.heard = self.heard.then(&Note::Closed);
                Err(Failed)
            }
        }
    }

    fn read(&mut self, buf: &mut [u8]) -> Result<usize, Failed>
        requires { 0 < length buf.old }
        ensures within { IfOk result (λ count. count ≤ length buf.old) }
        ensures heard { IfOk result (λ count. self.new.heard.answers ≡ gave (take count buf.new) ∷ self.old.heard.answers) }
        ensures unheard { OnErr result (self.new.heard.answers ≡ self.old.heard.answers) }
        ensures same_length { length buf.new ≡ length buf.old }
        ensures taken { IfOk result (λ count. Consumes (coming R.File.remaining self.old.host)
            (coming R.File.remaining self.new.host) (take count buf.new)) }
        ensures ended { IfOk result (λ count. count ≡ 0 → IsAtEnd (coming R.File.remaining self.old.host)) }
        ensures failed { OnErr result (self.new.host.faults ≡ one_more self.old.host.faults) }
        ensures unfailed { OnOk result (self.new.host.faults ≡ self.old.host.faults) }
        ensures none_waiting { OnErr result (self.old.host.pending ≡ []) }
        ensures nothing_taken { OnErr result (Keeps (coming R.File.remaining self.old.host)
            (coming R.File.remaining self.new.host)) }
        ensures same_opens { self.new.host.opens ≡ self.old.host.opens }
        ensures later { self.old.host.faults ≤ self.new.host.faults }
    {
        match self.host.read(buf) {
            Ok(count) => {
                self.heard = self.heard.then(&Note::Gave(buf, count));
                Ok(count)
            }
            Err(Failed) => Err(Failed),
        }
    }
}
