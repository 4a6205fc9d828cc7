//! The nodes that wait for an element.
ghost use Rattle.std.specs.Prelude.{◌≡◌, ◌+◌, ◌≤◌, OnOk, vec_len, vec_capacity};

use crate::node::EmptyNode;
use edge_io::NoMemory;
use std::alloc::Global;

/// Adds new empty nodes, for which the vector has room.
pub(crate) fn add_rooms<T>(
    alloc: Global,
    spare: &mut Vec<EmptyNode<T>>,
    count: usize,
) -> Result<(), NoMemory>
    requires { vec_len spare.old + count ≤ vec_capacity spare.old }
    ensures ok { OnOk result (vec_len spare.new ≡ vec_len spare.old + count) }
    ensures grown { vec_len spare.old ≤ vec_len spare.new }
    ensures bound { vec_len spare.new ≤ vec_len spare.old + count }
    ensures room { vec_capacity spare.old ≤ vec_capacity spare.new }
{
    for _room in 0..count {
        let room = EmptyNode::take(alloc)?;
        match spare.push(room) {
            Ok(()) => {}
            // There is room for each, as the caller has to see to.
            Err(_) => unreachable!(),
        }
    }
    Ok(())
}

/// Frees empty nodes.
pub(crate) fn free_rooms<T>(alloc: Global, mut spare: Vec<EmptyNode<T>>) {
    while let Some(room) = spare.pop() {
        room.free(alloc);
    }
    spare.destroy_empty();
}
