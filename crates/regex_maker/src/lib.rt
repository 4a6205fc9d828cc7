//! Patterns by the library `regex`: the maker that the option `pcre` uses.
//!
//! A maker builds the bytes form of a regular expression, with `(?-u)` in front of its text, so that
//! characters are bytes. `specs/Meaning` says what it finds: what that crate's grammar reads in the
//! text has its leftmost match there, by that crate's definition of a match. Look-around and
//! back-references are in no such grammar: their texts are refused (Snort takes them, by PCRE:
//! Users Manual 2.9, section 3.5, pcre).
#![tactic(auto)]

#[doc(hidden)]
pub mod kept;
mod made;
mod maker;
mod memory;
mod shelf;
mod sieve;
mod tally;

pub use made::RegexPattern;
pub use maker::RegexMaker;
