//! A list with a place in it: one element in the list itself, a few in a row, more over raw nodes linked both ways.
//!
//! `PieceList` is seen as its elements, a place from 0 to their number, and the number of spare nodes
//! (`specs/Pieces.antt`). All but `reserve` take no memory, nor does that for the first node. `single`
//! is a list of one element at most, `few` one of up to eight in a row, `nodes` one of any number.
//! Underneath, `node` says who owns which part of a block, `ring` links the nodes between two
//! sentinels, and `chain` puts a place into a ring. Only `node` and `ring` touch raw pointers, each step
//! proved by hand under one invariant (`specs/Ownership.antt`); all else sees lists. The queue of
//! segments builds on this crate.
#![tactic(auto)]

mod chain;
mod few;
mod iter;
mod list;
mod node;
mod nodes;
mod ring;
mod single;
mod spare;

pub use iter::Iter;
pub use list::PieceList;
