//! The links between the nodes, from the head sentinel to the tail sentinel.
ghost use Rattle.std.specs.Prelude.{◌≡◌, List, [], ◌∷◌, ◌++◌};
ghost use Rattle.std.specs.Coded.{prop_coded};
ghost use denote.RawPtr.{Ptr};
ghost use Rattle.piece_list.specs.Linked.{Linked, linked, ring, places, IsApart, IsApart-prop, IsAt, AtNode, IsBefore, HasNext, HasPrev};
ghost use Rattle.piece_list.specs.Ownership.{ring_owns, ring_lent};

use crate::node::{Detached, EmptyNode, Node, NodePtr};
use std::marker::{Model, PhantomData, Send, Sync};
use std::ptr;

/// The owner of the nodes' memory. It takes no space: who has it keeps the places of the two sentinels.
pub(crate) struct Ring<T> {
    mark: PhantomData<*mut Node<T>>,
    ghost head: { Ptr },
    ghost tail: { Ptr },
    ghost nodes: { List (Linked T) },
    ghost apart: { IsApart (ring head nodes tail) } by { prop_coded (IsApart-prop (ring head nodes tail)) },
}

impl<T> Model for Ring<T> {
    ghost also_owns = { λ r. ring_owns T.row r.head r.nodes r.tail };

    ghost also_shares = { λ r _ κ. ring_lent T.row r.head r.nodes r.tail κ };
}

unsafe impl<T: Send> Send for Ring<T> {}

unsafe impl<T: Sync> Sync for Ring<T> {}

impl<T> Ring<T> {
    /// A ring of the two sentinels alone, and where they lie.
    pub(crate) fn new(head: EmptyNode<T>, tail: EmptyNode<T>) -> (Ring<T>, NodePtr<T>, NodePtr<T>)
        ensures { (result.0.head ≡ result.1.ptr) × (result.0.tail ≡ result.2.ptr) × (result.0.nodes ≡ []) }
    {
        let EmptyNode { ptr: head } = head;
        let EmptyNode { ptr: tail } = tail;
        unsafe {
            (*head).prev = ptr::null_mut();
            (*head).next = tail;
            (*tail).prev = head;
            (*tail).next = ptr::null_mut();
        }
        (
            Ring { mark: PhantomData },
            NodePtr { ptr: head },
            NodePtr { ptr: tail },
        )
    }

    pub(crate) fn into_sentinels(
        self,
        head: NodePtr<T>,
        tail: NodePtr<T>,
    ) -> (EmptyNode<T>, EmptyNode<T>)
        requires { (head.ptr ≡ self.head) × (tail.ptr ≡ self.tail) × (self.nodes ≡ []) }
        ensures { (result.0.ptr ≡ self.head) × (result.1.ptr ≡ self.tail) }
    {
        let Ring { mark: _ } = self;
        (EmptyNode { ptr: head.ptr }, EmptyNode { ptr: tail.ptr })
    }

    /// Takes the node out, between its two neighbours.
    pub(crate) fn unlink(&mut self, node: NodePtr<T>) -> Detached<T>
        requires { IsAt self.old.nodes node.ptr }
        ensures sentinels { (self.new.head ≡ self.old.head) × (self.new.tail ≡ self.old.tail) }
        ensures nodes { AtNode self.old.nodes node.ptr (λ xs n ys. (self.new.nodes ≡ xs ++ ys)
            × (n ≡ linked result.ptr result.value)) }
    {
        let node = node.ptr;
        unsafe {
            (*(*node).prev).next = (*node).next;
            (*(*node).next).prev = (*node).prev;
        }
        Detached { ptr: node }
    }

    /// Links the node in before the node, or the tail sentinel, at `after`. Says where it lies.
    pub(crate) fn link(&mut self, after: NodePtr<T>, node: Detached<T>) -> NodePtr<T>
        requires { (xs : List (Linked T)) × (ys : List (Linked T)) × IsBefore self.old.nodes self.old.tail after.ptr xs ys }
        ensures sentinels { (self.new.head ≡ self.old.head) × (self.new.tail ≡ self.old.tail) }
        ensures nodes { (xs ys : List (Linked T)) → IsBefore self.old.nodes self.old.tail after.ptr xs ys
            → self.new.nodes ≡ xs ++ linked result.ptr node.value ∷ ys }
    {
        let after = after.ptr;
        let Detached { ptr: node } = node;
        unsafe {
            (*node).next = after;
            (*node).prev = (*after).prev;
            (*after).prev = node;
            (*(*node).prev).next = node;
        }
        NodePtr { ptr: node }
    }

    pub(crate) fn next(&self, node: NodePtr<T>) -> NodePtr<T>
        requires { (after : Ptr) × HasNext (ring self.now.head self.now.nodes self.now.tail) node.ptr after }
        ensures { (after : Ptr) → HasNext (ring self.now.head self.now.nodes self.now.tail) node.ptr after → result.ptr ≡ after }
    {
        NodePtr {
            ptr: unsafe { (*node.ptr).next },
        }
    }

    pub(crate) fn prev(&self, node: NodePtr<T>) -> NodePtr<T>
        requires { (before : Ptr) × HasPrev (ring self.now.head self.now.nodes self.now.tail) node.ptr before }
        ensures { (before : Ptr) → HasPrev (ring self.now.head self.now.nodes self.now.tail) node.ptr before
            → result.ptr ≡ before }
    {
        NodePtr {
            ptr: unsafe { (*node.ptr).prev },
        }
    }

    pub(crate) fn value(&self, node: NodePtr<T>) -> &T
        requires { IsAt self.now.nodes node.ptr }
        ensures { AtNode self.now.nodes node.ptr (λ _ n _. result.now ≡ n.val) }
    {
        unsafe { &(*node.ptr).value }
    }
}
