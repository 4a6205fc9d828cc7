//! The elements in order, by the links between their nodes.
ghost use Rattle.std.specs.Prelude.{◌≡◌, length, option_copied, option_to_list};
ghost use Rattle.std.specs.Iterator.{YieldsFirstRef, item_count};
ghost use Rattle.piece_list.specs.Linked.{values, first_place};

use crate::node::NodePtr;
use crate::ring::Ring;
use std::marker::Model;

/// What is left of a ring's values. `from` counts those that were given, which only the proof needs.
#[derive(Drop)]
pub(crate) struct ChainIter<'a, T> {
    ring: &'a Ring<T>,
    here: NodePtr<T>,
    from: usize,
    left: usize,
}

impl<'a, T> Model for ChainIter<'a, T> {
    ghost use Rattle.std.specs.Prelude.{◌+◌, ◌^◌, ◌<◌, List, drop};
    ghost use Rattle.piece_list.specs.Linked.{values};
    ghost use Rattle.piece_list.specs.Placed.{Placed};

    ghost Value = { List T };

    ghost view = { λ i. drop i.from (values i.ring.now.nodes) };

    ghost invariant = { λ i. Placed i.ring.now i.ring.now.head i.ring.now.tail i.here.ptr (i.from + i.left) i.from
        × (i.from + i.left < 2 ^ 64) };
}

impl<'a, T> ChainIter<'a, T> {
    pub(crate) fn new(ring: &'a Ring<T>, first: NodePtr<T>, len: usize) -> ChainIter<'a, T>
        requires { (len ≡ length ring.now.nodes) × (first.ptr ≡ first_place ring.now.nodes ring.now.tail) }
        ensures { result ≡ values ring.now.nodes }
    {
        ChainIter {
            ring,
            here: first,
            from: 0,
            left: len,
        }
    }
}

impl<'a, T> Iterator for ChainIter<'a, T> {
    type Item = &'a T;

    ghost next_gives = { YieldsFirstRef (λ left. left) };

    ghost remaining = { item_count (λ left. left) };

    fn next(&mut self) -> Option<&'a T> {
        if self.left == 0 {
            return None;
        }
        let (ring, here) = (self.ring, self.here);
        self.here = ring.next(here);
        self.from += 1;
        self.left -= 1;
        Some(ring.value(here))
    }
}

/// The elements of a list that are left to give, from the first to the last.
#[derive(Drop)]
pub struct Iter<'a, T> {
    left: IterLeft<'a, T>,
}

/// At most one element of a list that keeps it in itself, those of a row, or those in nodes.
#[derive(Drop)]
enum IterLeft<'a, T> {
    One(Option<&'a T>),
    Few(&'a [T]),
    Many(ChainIter<'a, T>),
}

impl<'a, T> Model for Iter<'a, T> {
    ghost use Rattle.std.specs.Prelude.{List};
    ghost use Rattle.piece_list.specs.Left.{left_in};

    ghost Value = { List T };

    ghost view = { λ i. left_in i.left };
}

impl<'a, T> Iter<'a, T> {
    pub(crate) fn of_one(element: Option<&'a T>) -> Iter<'a, T>
        ensures { result ≡ option_to_list (option_copied element.entry) }
    {
        Iter {
            left: IterLeft::One(element),
        }
    }

    pub(crate) fn of_few(row: &'a [T]) -> Iter<'a, T>
        ensures { result ≡ row.now }
    {
        Iter {
            left: IterLeft::Few(row),
        }
    }

    pub(crate) fn of_many(chain: ChainIter<'a, T>) -> Iter<'a, T>
        ensures { result ≡ chain.entry }
    {
        Iter {
            left: IterLeft::Many(chain),
        }
    }
}

impl<'a, T> Iterator for Iter<'a, T> {
    type Item = &'a T;

    ghost next_gives = { YieldsFirstRef (λ left. left) };

    ghost remaining = { item_count (λ left. left) };

    fn next(&mut self) -> Option<&'a T> {
        match &mut self.left {
            IterLeft::One(element) => element.take(),
            IterLeft::Few(row) => {
                let (first, rest) = row.split_first()?;
                *row = rest;
                Some(first)
            }
            IterLeft::Many(chain) => chain.next(),
        }
    }
}
