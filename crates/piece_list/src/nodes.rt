//! A list of any number of elements, in nodes.
ghost use Rattle.std.specs.Prelude.{◌≡◌, ◌+◌, ◌-◌, ◌^◌, ◌<◌, ◌≤◌, ◌↔◌, [], length, insert, remove, slice_get, option_copied, IsTrue, OnSome, IfNone, IfOk, OnOk, if◌then◌else◌};
ghost use Rattle.piece_list.specs.Pieces.{pieces};

use crate::chain::Chain;
use crate::iter::ChainIter;
use crate::node::EmptyNode;
use crate::spare::{add_rooms, free_rooms};
use edge_io::NoMemory;
use std::alloc::Global;
use std::marker::Model;

/// Elements in nodes of their own, linked both ways, and a place among them; nodes that were
/// reserved, or whose element was taken out, are spare.
pub(crate) struct NodeList<T: Drop> {
    alloc: Global,
    chain: Chain<T>,
    spare: Vec<EmptyNode<T>>,
}

impl<T: Drop> Model for NodeList<T> {
    ghost use Rattle.std.specs.Prelude.{vec_len, vec_capacity};
    ghost use Rattle.piece_list.specs.Pieces.{Pieces, pieces, pieces_code};
    ghost use Rattle.piece_list.specs.Rooms.{AreCounted};

    ghost Value = { Pieces T };

    ghost coded = { pieces_code T.code };

    ghost view = { λ n. pieces n.chain.0 n.chain.1 (vec_len n.spare) };

    ghost invariant = { λ n. AreCounted n.chain.0 (vec_len n.spare) (vec_capacity n.spare) };
}

impl<T: Drop> NodeList<T> {
    /// A list without an element, with more spare nodes than this.
    pub(crate) fn take(alloc: Global, nodes: usize) -> Result<NodeList<T>, NoMemory>
        ensures empty { IfOk result (λ list. list ≡ pieces [] 0 list.spare) }
        ensures spare { IfOk result (λ list. nodes < list.spare) }
    {
        let chain = Chain::take(alloc)?;
        let mut list = NodeList {
            alloc,
            chain,
            spare: Vec::new(alloc),
        };
        list.reserve(nodes.saturating_add(1))?;
        Ok(list)
    }

    pub(crate) fn reserve(&mut self, nodes: usize) -> Result<(), NoMemory>
        ensures enough { OnOk result (nodes ≤ self.new.spare) }
        ensures grown { self.old.spare ≤ self.new.spare }
        ensures small { self.new.spare < 2 ^ 63 }
        ensures kept { self.new ≡ pieces self.old.list self.old.place self.new.spare }
    {
        let missing = nodes.saturating_sub(self.spare.len());
        if missing == 0 {
            return Ok(());
        }
        let room = missing.saturating_add(self.chain.len());
        self.spare.reserve(room)?;
        add_rooms(self.alloc, &mut self.spare, missing)
    }

    pub(crate) fn end(&mut self)
        ensures { self.new ≡ pieces self.old.list (length self.old.list) self.old.spare }
    {
        self.chain.end();
    }

    pub(crate) fn front(&mut self)
        ensures { self.new ≡ pieces self.old.list 0 self.old.spare }
    {
        self.chain.front();
    }

    pub(crate) fn iter(&self) -> ChainIter<'_, T>
        ensures { result ≡ self.now.list }
    {
        self.chain.iter()
    }

    pub(crate) fn peek(&self) -> Option<&T>
        ensures value { option_copied result ≡ slice_get self.now.list self.now.place }
        ensures within { self.now.place ≤ length self.now.list }
    {
        if self.chain.place() == self.chain.len() {
            return None;
        }
        Some(self.chain.peek())
    }

    pub(crate) fn next(&mut self) -> bool
        ensures moved { IsTrue result ↔ (self.old.place < length self.old.list) }
        ensures place { self.new ≡ pieces self.old.list (if result then self.old.place + 1 else self.old.place) self.old.spare }
    {
        if self.chain.place() < self.chain.len() {
            self.chain.next();
            return true;
        }
        false
    }

    pub(crate) fn prev(&mut self) -> bool
        ensures moved { IsTrue result ↔ (0 < self.old.place) }
        ensures place { self.new ≡ pieces self.old.list (self.old.place - 1) self.old.spare }
    {
        if self.chain.place() > 0 {
            self.chain.prev();
            return true;
        }
        false
    }

    pub(crate) fn insert_here(&mut self, value: T)
        requires { 0 < self.old.spare }
        ensures { self.new ≡ pieces (insert self.old.list self.old.place value) self.old.place (self.old.spare - 1) }
    {
        let room = self.spare.pop().unwrap();
        self.chain.insert(room.fill(value));
    }

    pub(crate) fn remove_here(&mut self) -> Option<T>
        ensures taken { result ≡ slice_get self.old.list self.old.place }
        ensures left { OnSome result (self.new ≡ pieces (remove self.old.list self.old.place) self.old.place
            (self.old.spare + 1)) }
        ensures unchanged { IfNone result (self.new ≡ self.old) }
    {
        if self.chain.place() == self.chain.len() {
            return None;
        }
        let (value, room) = self.chain.remove().empty();
        match self.spare.push(room) {
            Ok(()) => Some(value),
            // There is room: it was reserved for this node too (`AreCounted`).
            Err(_) => unreachable!(),
        }
    }
}

impl<T: Drop> Drop for NodeList<T> {
    fn drop(mut self) {
        self.front();
        while let Some(value) = self.remove_here() {
            drop(value);
        }
        let NodeList {
            alloc,
            chain,
            spare,
        } = self;
        free_rooms(alloc, spare);
        let (head, tail) = chain.into_rooms();
        head.free(alloc);
        tail.free(alloc);
    }
}
