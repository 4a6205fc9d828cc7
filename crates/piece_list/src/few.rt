//! A list of a few elements, which lie in a row in one block.
ghost use Rattle.std.specs.Prelude.{◌≡◌, ◌+◌, ◌-◌, ◌<◌, ◌≤◌, ◌↔◌, [], length, insert, remove, slice_get, option_copied, IsTrue, OnErr, OnSome, IfNone, IfOk, vec_capacity, if◌then◌else◌};
ghost use Rattle.piece_list.specs.Pieces.{pieces};

use crate::nodes::NodeList;
use edge_io::NoMemory;
use std::alloc::Global;
use std::marker::Model;

/// How many elements lie in a row at most: so an insertion or a removal moves no more than seven.
pub(crate) const MOST: usize = 8;

/// A few elements in a row, and a place among them. Seen as a list with a place, where the room for
/// an element counts as a node.
#[derive(Drop)]
pub(crate) struct Few<T: Drop> {
    row: Vec<T>,
    place: usize,
    spare: usize,
}

impl<T: Drop> Model for Few<T> {
    ghost use Rattle.std.specs.Prelude.{vec_capacity};
    ghost use Rattle.piece_list.specs.Pieces.{Pieces, pieces, pieces_code};
    ghost use Rattle.piece_list.specs.Rooms.{AreFew};

    ghost Value = { Pieces T };

    ghost coded = { pieces_code T.code };

    ghost view = { λ f. pieces f.row.items f.place f.spare };

    ghost invariant = { λ f. AreFew f.row.items f.place f.spare (vec_capacity f.row) };
}

impl<T: Drop> Few<T> {
    /// A list without an element, with room for a few.
    pub(crate) fn take(alloc: Global) -> Result<Few<T>, NoMemory>
        ensures empty { IfOk result (λ few. few ≡ pieces [] 0 few.spare) }
        ensures spare { IfOk result (λ few. few.spare ≡ 8) }
    {
        Ok(Few {
            row: Vec::with_capacity(alloc, MOST)?,
            place: 0,
            spare: MOST,
        })
    }

    /// Whether `nodes` nodes are spare.
    pub(crate) fn has_spare(&self, nodes: usize) -> bool
        ensures { IsTrue result → nodes ≤ self.now.spare }
    {
        nodes <= self.spare
    }

    /// The elements moved to a list over nodes, at the same place. Without memory this list stays.
    pub(crate) fn linked(&mut self, alloc: Global) -> Result<NodeList<T>, NoMemory>
        ensures grown { IfOk result (λ linked. self.old.spare ≤ linked.spare) }
        ensures kept { IfOk result (λ linked. linked ≡ pieces self.old.list self.old.place linked.spare) }
        ensures err { OnErr result (self.new ≡ self.old) }
    {
        let mut linked = NodeList::take(alloc, MOST)?;
        let place = self.place;
        self.place = 0;
        move_all(&mut self.row, &mut linked);
        step_on(&mut linked, place);
        Ok(linked)
    }

    /// The elements, as a row.
    pub(crate) fn row(&self) -> &[T]
        ensures { result.now ≡ self.now.list }
    {
        &self.row
    }

    pub(crate) fn end(&mut self)
        ensures { self.new ≡ pieces self.old.list (length self.old.list) self.old.spare }
    {
        self.place = self.row.len();
    }

    pub(crate) fn front(&mut self)
        ensures { self.new ≡ pieces self.old.list 0 self.old.spare }
    {
        self.place = 0;
    }

    pub(crate) fn peek(&self) -> Option<&T>
        ensures value { option_copied result ≡ slice_get self.now.list self.now.place }
        ensures within { self.now.place ≤ length self.now.list }
    {
        self.row.get(self.place)
    }

    pub(crate) fn next(&mut self) -> bool
        ensures moved { IsTrue result ↔ (self.old.place < length self.old.list) }
        ensures place { self.new ≡ pieces self.old.list (if result then self.old.place + 1 else self.old.place) self.old.spare }
    {
        if self.place < self.row.len() {
            self.place += 1;
            return true;
        }
        false
    }

    pub(crate) fn prev(&mut self) -> bool
        ensures moved { IsTrue result ↔ (0 < self.old.place) }
        ensures place { self.new ≡ pieces self.old.list (self.old.place - 1) self.old.spare }
    {
        if self.place > 0 {
            self.place -= 1;
            return true;
        }
        false
    }

    pub(crate) fn insert_here(&mut self, value: T)
        requires { 0 < self.old.spare }
        ensures { self.new ≡ pieces (insert self.old.list self.old.place value) self.old.place (self.old.spare - 1) }
    {
        match self.row.insert(self.place, value) {
            Ok(()) => self.spare -= 1,
            // There is room: it was counted (`AreFew`).
            Err(_) => unreachable!(),
        }
    }

    pub(crate) fn remove_here(&mut self) -> Option<T>
        ensures taken { result ≡ slice_get self.old.list self.old.place }
        ensures left { OnSome result (self.new ≡ pieces (remove self.old.list self.old.place) self.old.place
            (self.old.spare + 1)) }
        ensures unchanged { IfNone result (self.new ≡ self.old) }
    {
        if self.place == self.row.len() {
            return None;
        }
        self.spare += 1;
        Some(self.row.remove(self.place))
    }
}

/// Moves the elements of a row, the last first, to an empty list over nodes, which stays at its front.
fn move_all<T: Drop>(row: &mut Vec<T>, linked: &mut NodeList<T>)
    requires nodes { length row.old.items ≤ linked.old.spare }
    requires empty { linked.old ≡ pieces [] 0 linked.old.spare }
    ensures moved { linked.new ≡ pieces row.old.items 0 (linked.old.spare - length row.old.items) }
    ensures left { row.new.items ≡ [] }
    ensures room { vec_capacity row.new ≡ vec_capacity row.old }
{
    while let Some(element) = row.pop() {
        linked.insert_here(element);
    }
}

/// Moves on from the first element by `count`.
fn step_on<T: Drop>(linked: &mut NodeList<T>, count: usize)
    requires within { count ≤ length linked.old.list }
    requires front { linked.old.place ≡ 0 }
    ensures { linked.new ≡ pieces linked.old.list count linked.old.spare }
{
    for _step in 0..count {
        linked.next();
    }
}
