//! What the showing of a capture goes by.
use crate::plan::Plan;
use std::alloc::Global;

/// What the showing of a capture goes by, from its opening to its last line.
#[derive(Drop)]
pub(crate) struct Context<'a, P, G, R> {
    /// What threads start from.
    pub rt: &'a R,
    pub alloc: Global,
    pub plan: &'a Plan<'a, P>,
    /// What each lane passes at the start of its work on a batch.
    pub gate: &'a G,
}
