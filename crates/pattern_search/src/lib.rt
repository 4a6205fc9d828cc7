//! Which patterns of a list occur in a text, ASCII letters in either case: all of them are looked for at once.
//!
//! An `Automaton` of Aho and Corasick (Communications of the ACM 18, 1975) goes over the text once. A sieve before it
//! (specs/Sieving.antt) skips the places where no pattern begins, unless there are very short ones. A byte costs a few
//! look-ups, however many patterns there are; nothing is allocated before the first pattern has ended.
//!
//! The automaton takes at most 124 bytes a byte of a pattern: rows of moves for the first states, and for the others
//! the states that are longer by a letter. The sieve takes 128 KB.
#![tactic(auto)]

mod automaton;
mod effort;
mod ends;
mod letters;
mod links;
mod moves;
mod numbers;
mod owned;
mod rows;
mod seen;
mod sieve;
mod slots;
mod trie;
mod windows;

pub use automaton::Automaton;
pub use effort::Effort;
// What an index by other keys is made of, too.
#[doc(hidden)]
pub use numbers::read;
#[doc(hidden)]
pub use owned::Owned;
#[doc(hidden)]
pub use slots::{TABLE_WORDS, set_slot, slot_bit};
