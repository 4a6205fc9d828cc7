//! The outside of the detector: what it reads from, writes to and asks, as traits with meanings.
//!
//! Everything above this crate is proved over these traits. A meaning says what an object stands
//! for: the files of a host and what is left of its open capture, the bytes that a sink was given,
//! what a pattern finds. A real file or terminal leaves its meanings untold, and then the clauses
//! about contents claim nothing; the clauses about faults hold all the same. The memory
//! implementations tell their meanings and are proved against them. Those over real files and
//! streams have clauses of their own as well, over what the standard library says of the bytes of a
//! file or a stream. Beside the traits are the base types that all crates share: text, lists,
//! addresses, moments; and the words that the definitions of all crates share: answers along a list
//! (`Along`), steps one after another (`OnOption`, `OnResult`), places of bytes (`Bytes`).
#![tactic(auto)]

mod address;
mod calls;
#[doc(hidden)]
pub mod crossing;
mod fault;
mod file_host;
mod gate;
mod heard;
mod heard_host;
mod heard_sink;
mod host;
#[doc(hidden)]
pub mod interrupted;
mod items;
mod laws;
mod link;
mod literal;
mod mem_host;
mod mem_sink;
mod moment;
mod pattern;
mod policy;
mod sink;
mod std_sink;
mod text;

pub use address::Addr;
pub use fault::{Failed, NoMemory};
pub use file_host::FileHost;
pub use gate::{Gate, OpenGate};
pub use heard_host::HeardHost;
pub use heard_sink::HeardSink;
pub use host::{Host, LoadFault};
pub use items::Items;
pub use laws::policies_are_named;
pub use link::Link;
pub use literal::{Literal, LiteralMaker};
pub use mem_host::MemHost;
pub use mem_sink::MemSink;
pub use moment::Moment;
pub use pattern::{MakeFault, Pattern, PatternFlags, PatternMaker, Refusal, Span};
pub use policy::{FragPolicy, Preference, StreamPolicy};
pub use sink::{Sink, WriteStop, write_all};
pub use std_sink::StdSink;
pub use text::Text;
