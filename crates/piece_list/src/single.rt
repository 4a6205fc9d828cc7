//! A list of at most one element, which lies in the list itself.
ghost use Rattle.std.specs.Prelude.{◌≡◌, ◌+◌, ◌-◌, ◌<◌, ◌≤◌, ◌↔◌, [], length, insert, remove, slice_get, option_copied, option_to_list, IsTrue, IfOk, IfNone, OnErr, OnSome, if◌then◌else◌};
ghost use Rattle.piece_list.specs.Pieces.{pieces};

use crate::few::Few;
use crate::nodes::NodeList;
use edge_io::NoMemory;
use std::alloc::Global;
use std::marker::Model;

/// At most one element, and a place at it or after it. Seen as a list with a place, where what lies
/// here counts as a node.
#[derive(Drop)]
pub(crate) struct Single<T: Drop> {
    element: Option<T>,
    place: usize,
    spare: usize,
}

impl<T: Drop> Model for Single<T> {
    ghost use Rattle.std.specs.Prelude.{option_to_list};
    ghost use Rattle.piece_list.specs.Pieces.{Pieces, pieces, pieces_code};
    ghost use Rattle.piece_list.specs.Rooms.{IsSingle};

    ghost Value = { Pieces T };

    ghost coded = { pieces_code T.code };

    ghost view = { λ s. pieces (option_to_list s.element) s.place s.spare };

    ghost invariant = { λ s. IsSingle (option_to_list s.element) s.place s.spare };
}

impl<T: Drop> Single<T> {
    pub(crate) fn new() -> Single<T>
        ensures { result ≡ pieces [] 0 0 }
    {
        Single {
            element: None,
            place: 0,
            spare: 0,
        }
    }

    /// Whether `nodes` nodes are spare. Where there is no element, one is from now on.
    pub(crate) fn reserve(&mut self, nodes: usize) -> bool
        ensures enough { IsTrue result → nodes ≤ self.new.spare }
        ensures grown { self.old.spare ≤ self.new.spare }
        ensures kept { self.new ≡ pieces self.old.list self.old.place self.new.spare }
    {
        if self.element.is_none() {
            self.spare = 1;
        }
        nodes <= self.spare
    }

    /// The element moved to a list over nodes of which `nodes` are spare, at the same place. Without memory
    /// this list stays.
    pub(crate) fn linked(&mut self, alloc: Global, nodes: usize) -> Result<NodeList<T>, NoMemory>
        ensures enough { IfOk result (λ linked. nodes ≤ linked.spare) }
        ensures grown { IfOk result (λ linked. self.old.spare ≤ linked.spare) }
        ensures kept { IfOk result (λ linked. linked ≡ pieces self.old.list self.old.place linked.spare) }
        ensures err { OnErr result (self.new ≡ self.old) }
    {
        let mut linked = NodeList::take(alloc, nodes)?;
        self.move_to(&mut linked);
        Ok(linked)
    }

    /// The element moved to a row with room for a few, at the same place. Without memory this list stays.
    pub(crate) fn few(&mut self, alloc: Global) -> Result<Few<T>, NoMemory>
        ensures enough { IfOk result (λ few. 7 ≤ few.spare) }
        ensures grown { IfOk result (λ few. self.old.spare ≤ few.spare) }
        ensures kept { IfOk result (λ few. few ≡ pieces self.old.list self.old.place few.spare) }
        ensures err { OnErr result (self.new ≡ self.old) }
    {
        let mut few = Few::take(alloc)?;
        let place = self.place;
        self.place = 0;
        if let Some(element) = self.element.take() {
            few.insert_here(element);
            if place == 1 {
                few.end();
            }
        }
        Ok(few)
    }

    /// Moves the element, if there is one, to an empty list over nodes, whose place is then the same.
    fn move_to(&mut self, linked: &mut NodeList<T>)
        requires node { 0 < linked.old.spare }
        requires empty { linked.old ≡ pieces [] 0 linked.old.spare }
        ensures fits { length self.old.list + self.old.spare ≤ 1 }
        ensures moved { linked.new ≡ pieces self.old.list self.old.place (linked.old.spare - length self.old.list) }
    {
        let place = self.place;
        self.place = 0;
        if let Some(element) = self.element.take() {
            linked.insert_here(element);
            if place == 1 {
                linked.end();
            }
        }
    }

    /// The element, as a list.
    pub(crate) fn element(&self) -> Option<&T>
        ensures { option_to_list (option_copied result) ≡ self.now.list }
    {
        self.element.as_ref()
    }

    fn len(&self) -> usize
        ensures { result ≡ length self.now.list }
    {
        match &self.element {
            Some(_) => 1,
            None => 0,
        }
    }

    pub(crate) fn end(&mut self)
        ensures { self.new ≡ pieces self.old.list (length self.old.list) self.old.spare }
    {
        self.place = self.len();
    }

    pub(crate) fn front(&mut self)
        ensures { self.new ≡ pieces self.old.list 0 self.old.spare }
    {
        self.place = 0;
    }

    pub(crate) fn peek(&self) -> Option<&T>
        ensures value { option_copied result ≡ slice_get self.now.list self.now.place }
        ensures within { self.now.place ≤ length self.now.list }
    {
        if self.place == 0 {
            return self.element.as_ref();
        }
        None
    }

    pub(crate) fn next(&mut self) -> bool
        ensures moved { IsTrue result ↔ (self.old.place < length self.old.list) }
        ensures place { self.new ≡ pieces self.old.list (if result then self.old.place + 1 else self.old.place) self.old.spare }
    {
        if self.place < self.len() {
            self.place += 1;
            return true;
        }
        false
    }

    pub(crate) fn prev(&mut self) -> bool
        ensures moved { IsTrue result ↔ (0 < self.old.place) }
        ensures place { self.new ≡ pieces self.old.list (self.old.place - 1) self.old.spare }
    {
        if self.place > 0 {
            self.place -= 1;
            return true;
        }
        false
    }

    pub(crate) fn insert_here(&mut self, value: T)
        requires { 0 < self.old.spare }
        ensures { self.new ≡ pieces (insert self.old.list self.old.place value) self.old.place (self.old.spare - 1) }
    {
        self.element = Some(value);
        self.spare -= 1;
    }

    pub(crate) fn remove_here(&mut self) -> Option<T>
        ensures taken { result ≡ slice_get self.old.list self.old.place }
        ensures left { OnSome result (self.new ≡ pieces (remove self.old.list self.old.place) self.old.place
            (self.old.spare + 1)) }
        ensures unchanged { IfNone result (self.new ≡ self.old) }
    {
        if self.place == self.len() {
            return None;
        }
        self.spare += 1;
        self.element.take()
    }
}
