//! The detector on the system: the proved call `run` over real files and the standard streams.
//!
//! What a run over them means, and what it writes, is the contract of `run_on_system`: that of `run`, by any files that
//! give all that the system answered.
#![tactic(auto)]

mod system;

pub use system::run_on_system;
