//! A ring with a place in it, seen as the list of its values and a number.
ghost use Rattle.std.specs.Prelude.{◌≡◌, ◌+◌, ◌-◌, ◌^◌, ◌<◌, ◌≤◌, [], length, insert, remove, slice_get, Some, IfOk};

use crate::iter::ChainIter;
use crate::node::{Detached, EmptyNode, NodePtr};
use crate::ring::Ring;
use edge_io::NoMemory;
use std::alloc::Global;
use std::marker::Model;

pub(crate) struct Chain<T> {
    ring: Ring<T>,
    head: NodePtr<T>,
    tail: NodePtr<T>,
    here: NodePtr<T>,
    len: usize,
    at: usize,
}

impl<T> Model for Chain<T> {
    ghost use Rattle.std.specs.Prelude.{ℕ, List};
    ghost use Rattle.piece_list.specs.Linked.{values};
    ghost use Rattle.piece_list.specs.Placed.{Placed};

    ghost Value = { List T × ℕ };

    ghost view = { λ c. (values c.ring.nodes, c.at) };

    ghost invariant = { λ c. Placed c.ring c.head.ptr c.tail.ptr c.here.ptr c.len c.at };
}

impl<T> Chain<T> {
    pub(crate) fn new(head: EmptyNode<T>, tail: EmptyNode<T>) -> Chain<T>
        ensures { result ≡ ([], 0) }
    {
        let (ring, head, tail) = Ring::new(head, tail);
        Chain {
            ring,
            head,
            tail,
            here: tail,
            len: 0,
            at: 0,
        }
    }

    /// A chain without a value, over two new nodes.
    pub(crate) fn take(alloc: Global) -> Result<Chain<T>, NoMemory>
        ensures { IfOk result (λ chain. chain ≡ ([], 0)) }
    {
        let head = EmptyNode::take(alloc)?;
        match EmptyNode::take(alloc) {
            Ok(tail) => Ok(Chain::new(head, tail)),
            Err(error) => {
                head.free(alloc);
                Err(error.into())
            }
        }
    }

    /// The sentinels' rooms, where no value is left.
    pub(crate) fn into_rooms(self) -> (EmptyNode<T>, EmptyNode<T>)
        requires { self.0 ≡ [] }
    {
        let Chain {
            ring,
            head,
            tail,
            here: _,
            len: _,
            at: _,
        } = self;
        ring.into_sentinels(head, tail)
    }

    pub(crate) fn len(&self) -> usize
        ensures { result ≡ length self.now.0 }
    {
        self.len
    }

    pub(crate) fn place(&self) -> usize
        ensures value { result ≡ self.now.1 }
        ensures within { self.now.1 ≤ length self.now.0 }
    {
        self.at
    }

    pub(crate) fn front(&mut self)
        ensures { self.new ≡ (self.old.0, 0) }
    {
        self.here = self.ring.next(self.head);
        self.at = 0;
    }

    /// Moves to the place after the last value.
    pub(crate) fn end(&mut self)
        ensures { self.new ≡ (self.old.0, length self.old.0) }
    {
        self.here = self.tail;
        self.at = self.len;
    }

    pub(crate) fn next(&mut self)
        requires { self.old.1 < length self.old.0 }
        ensures { self.new ≡ (self.old.0, self.old.1 + 1) }
    {
        self.here = self.ring.next(self.here);
        self.at += 1;
    }

    pub(crate) fn prev(&mut self)
        requires { 0 < self.old.1 }
        ensures { self.new ≡ (self.old.0, self.old.1 - 1) }
    {
        self.here = self.ring.prev(self.here);
        self.at -= 1;
    }

    /// Puts the node before the place, and is then at it.
    pub(crate) fn insert(&mut self, node: Detached<T>)
        requires { length self.old.0 + 1 < 2 ^ 64 }
        ensures { self.new ≡ (insert self.old.0 self.old.1 node.value, self.old.1) }
    {
        self.here = self.ring.link(self.here, node);
        self.len += 1;
    }

    /// Takes the node at the place out. The place stays a number.
    pub(crate) fn remove(&mut self) -> Detached<T>
        requires { self.old.1 < length self.old.0 }
        ensures taken { slice_get self.old.0 self.old.1 ≡ Some result.value }
        ensures left { self.new ≡ (remove self.old.0 self.old.1, self.old.1) }
    {
        let node = self.here;
        self.here = self.ring.next(node);
        self.len -= 1;
        self.ring.unlink(node)
    }

    pub(crate) fn peek(&self) -> &T
        requires { self.now.1 < length self.now.0 }
        ensures { slice_get self.now.0 self.now.1 ≡ Some result.now }
    {
        self.ring.value(self.here)
    }

    pub(crate) fn iter(&self) -> ChainIter<'_, T>
        ensures { result ≡ self.now.0 }
    {
        ChainIter::new(&self.ring, self.ring.next(self.head), self.len)
    }
}
