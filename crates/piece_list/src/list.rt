//! The list with a place that callers see.
ghost use Rattle.std.specs.Prelude.{◌≡◌, ◌+◌, ◌-◌, ◌<◌, ◌≤◌, ◌↔◌, ◌++◌, ◌∷◌, [], length, insert, remove, slice_get, option_copied, IsTrue, OnSome, IfNone, OnOk, if◌then◌else◌};
ghost use Rattle.piece_list.specs.Pieces.{pieces};

use crate::few::{Few, MOST};
use crate::iter::Iter;
use crate::nodes::NodeList;
use crate::single::Single;
use edge_io::NoMemory;
use std::alloc::Global;
use std::marker::Model;

/// A list of elements and a place in it, from before the first element to after the last. An element
/// alone lies in the list itself, a few lie in a row; with more each has a node of its own, linked both
/// ways. So the place moves by one in constant time, and from either end; nodes that were reserved, or
/// whose element was taken out, are spare. Contracts see the elements, the place as a number, and the
/// number of spare nodes, where room in the list itself or in a row counts as one for each element.
#[derive(Drop)]
pub struct PieceList<T: Drop> {
    alloc: Global,
    held: Held<T>,
}

/// Where the elements lie. Once in a row they don't go back into the list itself, nor from nodes to a row.
#[derive(Drop)]
enum Held<T: Drop> {
    One(Single<T>),
    Few(Few<T>),
    Many(NodeList<T>),
}

impl<T: Drop> Model for PieceList<T> {
    ghost use Rattle.piece_list.specs.Pieces.{Pieces, pieces_code};
    ghost use Rattle.piece_list.specs.Held.{pieces_in};

    ghost Value = { Pieces T };

    ghost coded = { pieces_code T.code };

    ghost view = { λ p. pieces_in p.held };
}

impl<T: Drop> PieceList<T> {
    /// No element, at place 0, with no spare node. Takes no memory.
    pub fn new(alloc: Global) -> PieceList<T>
        ensures { result ≡ pieces [] 0 0 }
    {
        PieceList {
            alloc,
            held: Held::One(Single::new()),
        }
    }

    /// Makes at least this many nodes spare. Where memory is lacking fewer may be spare, and never
    /// fewer than before. The list and the place stay in either case. The first node takes no memory, and seven more one block.
    pub fn reserve(&mut self, nodes: usize) -> Result<(), NoMemory>
        ensures enough { OnOk result (nodes ≤ self.new.spare) }
        ensures grown { self.old.spare ≤ self.new.spare }
        ensures kept { self.new ≡ pieces self.old.list self.old.place self.new.spare }
    {
        match &mut self.held {
            Held::One(single) => {
                if single.reserve(nodes) {
                    return Ok(());
                }
                self.held = if nodes < MOST {
                    Held::Few(single.few(self.alloc)?)
                } else {
                    Held::Many(single.linked(self.alloc, nodes)?)
                };
                Ok(())
            }
            Held::Few(few) => {
                if few.has_spare(nodes) {
                    return Ok(());
                }
                let mut linked = few.linked(self.alloc)?;
                let made = linked.reserve(nodes);
                self.held = Held::Many(linked);
                made
            }
            Held::Many(linked) => linked.reserve(nodes),
        }
    }

    /// Appends an element, and is then at it.
    pub fn push_back(&mut self, value: T)
        requires { 0 < self.old.spare }
        ensures { self.new ≡ pieces (self.old.list ++ value ∷ []) (length self.old.list) (self.old.spare - 1) }
    {
        self.end();
        self.insert_here(value);
    }

    /// Moves to the place after the last element.
    fn end(&mut self)
        ensures { self.new ≡ pieces self.old.list (length self.old.list) self.old.spare }
    {
        match &mut self.held {
            Held::One(single) => single.end(),
            Held::Few(few) => few.end(),
            Held::Many(linked) => linked.end(),
        }
    }

    /// Moves to the first element.
    pub fn front(&mut self)
        ensures { self.new ≡ pieces self.old.list 0 self.old.spare }
    {
        match &mut self.held {
            Held::One(single) => single.front(),
            Held::Few(few) => few.front(),
            Held::Many(linked) => linked.front(),
        }
    }

    /// Moves to the last element, or to place 0 where there is none.
    pub fn back(&mut self)
        ensures { self.new ≡ pieces self.old.list (length self.old.list - 1) self.old.spare }
    {
        self.end();
        self.prev();
    }

    /// The elements from the first to the last.
    pub fn iter(&self) -> Iter<'_, T>
        ensures { result ≡ self.now.list }
    {
        match &self.held {
            Held::One(single) => Iter::of_one(single.element()),
            Held::Few(few) => Iter::of_few(few.row()),
            Held::Many(linked) => Iter::of_many(linked.iter()),
        }
    }

    /// The element at the place. None at the end, beyond which the place never is.
    pub fn peek(&self) -> Option<&T>
        ensures value { option_copied result ≡ slice_get self.now.list self.now.place }
        ensures within { self.now.place ≤ length self.now.list }
    {
        match &self.held {
            Held::One(single) => single.peek(),
            Held::Few(few) => few.peek(),
            Held::Many(linked) => linked.peek(),
        }
    }

    /// Moves to the next element. False, without a move, at the end.
    pub fn next(&mut self) -> bool
        ensures moved { IsTrue result ↔ (self.old.place < length self.old.list) }
        ensures place { self.new ≡ pieces self.old.list (if result then self.old.place + 1 else self.old.place) self.old.spare }
    {
        match &mut self.held {
            Held::One(single) => single.next(),
            Held::Few(few) => few.next(),
            Held::Many(linked) => linked.next(),
        }
    }

    /// Moves to the element before. False, without a move, at place 0.
    pub fn prev(&mut self) -> bool
        ensures moved { IsTrue result ↔ (0 < self.old.place) }
        ensures place { self.new ≡ pieces self.old.list (self.old.place - 1) self.old.spare }
    {
        match &mut self.held {
            Held::One(single) => single.prev(),
            Held::Few(few) => few.prev(),
            Held::Many(linked) => linked.prev(),
        }
    }

    /// Puts an element before the place, and is then at it.
    pub fn insert_here(&mut self, value: T)
        requires { 0 < self.old.spare }
        ensures { self.new ≡ pieces (insert self.old.list self.old.place value) self.old.place (self.old.spare - 1) }
    {
        match &mut self.held {
            Held::One(single) => single.insert_here(value),
            Held::Few(few) => few.insert_here(value),
            Held::Many(linked) => linked.insert_here(value),
        }
    }

    /// Takes the element at the place out: the place stays a number, and names the element after it.
    /// None, without a change, at the end.
    pub fn remove_here(&mut self) -> Option<T>
        ensures taken { result ≡ slice_get self.old.list self.old.place }
        ensures left { OnSome result (self.new ≡ pieces (remove self.old.list self.old.place) self.old.place
            (self.old.spare + 1)) }
        ensures unchanged { IfNone result (self.new ≡ self.old) }
    {
        match &mut self.held {
            Held::One(single) => single.remove_here(),
            Held::Few(few) => few.remove_here(),
            Held::Many(linked) => linked.remove_here(),
        }
    }
}
