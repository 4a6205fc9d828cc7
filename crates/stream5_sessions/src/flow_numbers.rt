//! The number of each key's flow, in a tree.
//!
//! A tree stays balanced whatever keys a sender chooses.
ghost use Rattle.std.specs.Prelude.{◌≡◌, None, Some, IfOk, IsSome, OnErr};
ghost use Rattle.stream5_sessions.specs.Trees.{tree_key_of, number_in, HasNone, Puts, KeepsNumbers};

use crate::Key;
use edge_io::{Addr, NoMemory};
use std::alloc::Global;
use std::collections::BTreeMap;
use std::collections::btree_map::Entry;

/// A key in the order of the tree: what differs between most flows comes first, so that a comparison ends there.
#[derive(Clone, Copy, PartialEq, Eq, PartialOrd, Ord)]
struct TreeKey {
    low_port: u16,
    high_port: u16,
    low_addr: Addr,
    high_addr: Addr,
    tcp: bool,
}

impl TreeKey {
    /// The key, with all that it has.
    fn of(key: &Key) -> TreeKey
        ensures { result ≡ tree_key_of key.now }
    {
        TreeKey {
            low_port: key.low.port,
            high_port: key.high.port,
            low_addr: key.low.addr,
            high_addr: key.high.addr,
            tcp: key.tcp,
        }
    }
}

/// The numbers of the flows of some keys.
#[derive(Drop)]
pub(crate) struct FlowNumbers {
    tree: BTreeMap<TreeKey, u64>,
}

impl FlowNumbers {
    /// No key has a number. Takes no memory.
    pub fn new(alloc: Global) -> FlowNumbers
        ensures { HasNone result }
    {
        FlowNumbers {
            tree: BTreeMap::new(alloc),
        }
    }

    /// The number of a key's flow; a key that has none gets this one, and nothing is answered. Without memory nothing
    /// changes.
    // One search: a key that begins to live is looked for first.
    pub fn get_or_insert(&mut self, key: &Key, number: u64) -> Result<Option<u64>, NoMemory>
        ensures value { IfOk result (λ found. found ≡ number_in self.old key.now) }
        ensures puts { IfOk result (λ found. found ≡ None → Puts self.old key.now (Some number) self.new) }
        ensures keeps { IfOk result (λ found. IsSome found → KeepsNumbers self.old self.new) }
        ensures absent { OnErr result (number_in self.old key.now ≡ None) }
        ensures err { OnErr result (KeepsNumbers self.old self.new) }
    {
        match self.tree.entry(TreeKey::of(key))? {
            Entry::Occupied(entry) => Ok(Some(*entry.get())),
            Entry::Vacant(entry) => {
                entry.insert(number);
                Ok(None)
            }
        }
    }

    /// The key's flow has no number any more.
    pub fn remove(&mut self, key: &Key)
        ensures { Puts self.old key.now None self.new }
    {
        self.tree.remove(&TreeKey::of(key));
    }
}
