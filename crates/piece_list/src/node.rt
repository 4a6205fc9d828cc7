//! The block of one node, and the values that stand for who owns which part of it.
ghost use Rattle.std.specs.Prelude.{◌≡◌, IfOk, ⊤};
ghost use Rattle.std.specs.declared.alloc.Global.{Global};
ghost use base.Fml.{ftrue};
ghost use denote.RawPtr.{Ptr};
ghost use Rattle.piece_list.specs.Ownership.{blank_owns, deed_owns, room_owns, detached_owns};

use std::alloc::{AllocError, Allocator, Global};
use std::marker::{Model, PhantomData, Send, Sync};
use std::mem::{align_of, size_of};

/// A node of a ring. The two sentinels at its ends never hold a value.
pub(crate) struct Node<T> {
    pub(crate) prev: *mut Node<T>,
    pub(crate) next: *mut Node<T>,
    pub(crate) value: T,
}

/// Where a node lies. It owns nothing.
pub(crate) struct NodePtr<T> {
    pub(crate) ptr: *mut Node<T>,
}

impl<T> Clone for NodePtr<T> {
    ghost is_clone = { λ x y. y ≡ x };

    ghost is_infallible = { λ _. ⊤ };

    fn clone(&self) -> Result<NodePtr<T>, AllocError> {
        Ok(*self)
    }
}

impl<T> Copy for NodePtr<T> {}

unsafe impl<T> Send for NodePtr<T> {}

unsafe impl<T> Sync for NodePtr<T> {}

/// The three fields of a block, with nothing in them.
pub(crate) struct Blank<T> {
    pub(crate) ptr: *mut Node<T>,
}

impl<T> Model for Blank<T> {
    ghost also_owns = { λ b. blank_owns T.row b.ptr };
}

/// The right to give the block at `at` back to `alloc`. It takes no space.
pub(crate) struct Deed<T, A: Allocator> {
    mark: PhantomData<*const (T, A)>,
    ghost at: { Ptr },
    ghost alloc: { A },
}

impl<T, A: Allocator> Model for Deed<T, A> {
    ghost also_owns = { λ d. deed_owns T.row (A.dealloc_token d.alloc) d.at };
}

/// An empty node, with the right to free it.
pub(crate) struct EmptyNode<T> {
    pub(crate) ptr: *mut Node<T>,
}

impl<T> Model for EmptyNode<T> {
    ghost also_owns = { λ r. room_owns T.row r.ptr };
}

unsafe impl<T> Send for EmptyNode<T> {}

/// A node with its value that is in no ring.
pub(crate) struct Detached<T> {
    pub(crate) ptr: *mut Node<T>,
    ghost value: { T },
}

impl<T> Model for Detached<T> {
    ghost also_owns = { λ d. detached_owns T.row d.ptr d.value };
}

fn allocate<T, A: Allocator>(alloc: &A) -> Result<(Blank<T>, Deed<T, A>), AllocError>
    ensures { IfOk result (λ r. (r.1.at ≡ r.0.ptr) × (r.1.alloc ≡ alloc.now)) }
{
    match alloc.allocate(size_of::<Node<T>>(), align_of::<Node<T>>()) {
        Ok(block) => {
            let ptr = block as *mut Node<T>;
            Ok((Blank { ptr }, Deed { mark: PhantomData }))
        }
        Err(error) => Err(error),
    }
}

fn deallocate<T, A: Allocator>(alloc: &A, blank: Blank<T>, deed: Deed<T, A>)
    requires { (deed.at ≡ blank.ptr) × (deed.alloc ≡ alloc.now) }
{
    let Blank { ptr } = blank;
    let Deed { mark: _ } = deed;
    unsafe {
        alloc.deallocate(ptr as *mut u8, size_of::<Node<T>>(), align_of::<Node<T>>());
    }
}

impl<T> EmptyNode<T> {
    fn of(blank: Blank<T>, deed: Deed<T, Global>) -> EmptyNode<T>
        requires { deed.at ≡ blank.ptr }
    {
        let Blank { ptr } = blank;
        let Deed { mark: _ } = deed;
        EmptyNode { ptr }
    }

    fn parts(self, _alloc: &Global) -> (Blank<T>, Deed<T, Global>)
        ensures { (result.1.at ≡ result.0.ptr) × (result.1.alloc ≡ _alloc.now) }
    {
        let EmptyNode { ptr } = self;
        (Blank { ptr }, Deed { mark: PhantomData })
    }

    /// A new empty node.
    pub(crate) fn take(alloc: Global) -> Result<EmptyNode<T>, AllocError> {
        let (blank, deed) = allocate(&alloc)?;
        Ok(EmptyNode::of(blank, deed))
    }

    /// Frees an empty node.
    pub(crate) fn free(self, alloc: Global) {
        let (blank, deed) = self.parts(&alloc);
        deallocate(&alloc, blank, deed);
    }

    /// Moves a value in.
    pub(crate) fn fill(self, value: T) -> Detached<T>
        ensures { (result.ptr ≡ self.ptr) × (result.value ≡ value) }
    {
        let EmptyNode { ptr } = self;
        unsafe {
            (&raw mut (*ptr).value).write(value);
        }
        Detached { ptr }
    }
}

impl<T> Detached<T> {
    /// Moves the value out.
    pub(crate) fn empty(self) -> (T, EmptyNode<T>)
        ensures { result.0 ≡ self.value }
    {
        let Detached { ptr } = self;
        unsafe {
            let value = (&raw const (*ptr).value).read();
            (value, EmptyNode { ptr })
        }
    }
}
