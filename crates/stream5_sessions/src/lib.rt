//! Flows that live and die, and the phases of a session.
//!
//! Each packet of TCP or UDP has a `Key`, which is the same in both directions. `Flows` says which
//! stretch of life of its key a packet belongs to, and which one ends for it where as many keys are
//! known as may be: the definition counts keys in the list of all touches (specs/Liveness). A flow
//! holds sessions one after another: `Session::step` takes its packets one by one and tells of each
//! what the table of phases says (specs/Phases). Reassembly, flowbits and the tests of rules on
//! sessions build on what it tells.
#![tactic(auto)]

mod flow_numbers;
mod flows;
mod guesses;
mod key;
mod laws;
mod lives;
mod rows;
mod segment;
mod session;
mod state;
mod staying;
mod step;

pub use flows::{Flows, Touch};
pub use key::{End, Key};
pub use laws::{flows_live_until_told, live_flows_are_few, no_touch_no_flow};
pub use session::Session;
pub use step::{SessionRules, Step};
