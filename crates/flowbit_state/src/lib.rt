//! The flowbits of a session: a set of numbers below 1024, which its rules set, unset and test.
//!
//! `specs/Changes` says what a change makes of a set (Snort Users Manual 2.9, section 3.6.10). Most
//! sessions meet no rule that changes a bit: a set takes no memory before its first change, and 128
//! bytes after it. The lanes that try rules on the items of a session build on this crate.
#![tactic(auto)]

mod bits;
mod words;

pub use bits::Bits;
