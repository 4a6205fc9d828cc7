//! What each lane passes at the start of its work, by which tests hold a lane back.
ghost use Rattle.std.specs.Prelude.{◌≡◌, false};

/// A gate at the entry of each lane's work.
///
/// It is passed once at the start of each lane's work in a batch, and takes no memory. It changes
/// no answer: tests hold a lane back by it.
pub trait Gate: Sync {
    fn pass(&self, lane: u32);

    /// Whether lanes with little work have to be in threads of their own, so that they can meet at
    /// this gate. A gate that does not say so wants them.
    fn wants_threads(&self) -> bool {
        true
    }
}

/// The gate that is always open. Nothing meets at it, so it wants no threads.
#[derive(Clone, Copy, Debug)]
pub struct OpenGate;

impl Gate for OpenGate {
    fn pass(&self, _lane: u32) {}

    fn wants_threads(&self) -> bool
        ensures { result ≡ false }
    {
        false
    }
}
