//! The tests of a rule on the head of an item: its header, and the options that look at fields.
//!
//! `header_matches` and `field_matches` meet the definitions of `specs/Fields`, for every rule, option
//! and item. A field has a number, or an item lacks it; one comparison serves all fields. Neither call
//! takes memory. The payload's options and the bits of a session are tested elsewhere; the lanes that
//! try rules on items build on this crate. The types of items are handed on under their names.
#![tactic(auto)]

mod compare;
mod field;
mod flow;
mod header;
mod kind;
mod stream_size;

pub use field::field_matches;
pub use header::header_matches;
pub use packet_decode::{Body, IpHead, ItemHead, ItemKind, SessionFacts, TcpHead};
