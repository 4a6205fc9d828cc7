//! The keys of one protocol that live, with their flows' numbers, by their last touches.
//!
//! A sender chooses the keys, and could choose many that one hash table keeps in one place. So no key is
//! hashed: a tree has the number of each key's flow, and the cache hashes that number alone, which counts up. The
//! cache compares the key too, so a number may be guessed before the tree is asked.
ghost use Rattle.std.specs.Prelude.{◌≡◌, ◌≤◌, [], None, Some, option_map, if◌then◌else◌};
ghost use Rattle.std.specs.Prelude.{IfOk, IfSome, IsOk, IsSome, MatchOption, OnOk, OnErr};
ghost use Rattle.std.specs.Map.{lookup, values_of};
ghost use Rattle.lru.specs.LruCache.{promoted};
ghost use Rattle.stream5_sessions.specs.Keys.{same_key};
ghost use Rattle.stream5_sessions.specs.Caches.{found_by, kept_by};
ghost use Rattle.stream5_sessions.specs.Indexed.{lives_with, is_gone};
ghost use Rattle.stream5_sessions.specs.Trees.{number_in};
ghost use Rattle.stream5_sessions.specs.declared.key.Key.{Key};

use crate::Key;
use crate::flow_numbers::FlowNumbers;
use crate::flows::Touch;
use crate::guesses::Guesses;
use edge_io::NoMemory;
use lru::LruCache;
use std::alloc::Global;
use std::hash::{Hash, Hasher};
use std::marker::Model;
use std::num::NonZeroUsize;

/// A key, and the number of its flow.
#[derive(Clone, Copy, Debug, PartialEq, Eq)]
pub(crate) struct NumberedKey {
    pub key: Key,
    pub number: u64,
}

impl Hash for NumberedKey {
    ghost use Rattle.std.specs.Hash as fed;
    ghost use Rattle.std.proofs.Common.{rules};
    ghost use Rattle.std.specs.Cmp.Rules.{hashing};

    ghost hash_input = { λ numbered. fed.u64 numbered.number };

    ghost respects_eq = { Prim.search (hashing, rules) };

    fn hash<H: Hasher>(&self, state: &mut H) {
        self.number.hash(state);
    }
}

/// The keys that live. Contracts see them with their flows' numbers, the latest touched first, and how many
/// there may be.
#[derive(Drop)]
pub(crate) struct Lives {
    /// The number of each key's flow.
    numbers: FlowNumbers,
    cache: LruCache<NumberedKey, u64>,
    /// What is tried before `numbers`.
    guesses: Guesses,
}

impl Model for Lives {
    ghost use Rattle.stream5_sessions.specs.Indexed.{LivesState, lives_with, entries_of, IsIndexed};

    ghost Value = { LivesState };

    ghost view = { λ lives. lives_with (entries_of lives.cache.entries) lives.cache.cap };

    ghost invariant = { λ lives. IsIndexed lives.numbers lives.cache.entries };
}

impl Lives {
    /// No key, and room for `most` keys. Memory for keys is taken as they come.
    pub fn new(alloc: Global, most: u32) -> Result<Lives, NoMemory>
        requires { 1 ≤ most }
        ensures { IfOk result (λ lives. lives ≡ lives_with [] most) }
    {
        let most = NonZeroUsize::new(most as usize).unwrap();
        Ok(Lives {
            numbers: FlowNumbers::new(alloc),
            cache: LruCache::sparse(alloc, most)?,
            guesses: Guesses::new(alloc)?,
        })
    }

    /// The flow of a key that lives, which becomes the latest touched, where the flow's number is the guess; else nothing.
    #[inline(always)]
    pub fn by_guess(&mut self, key: &Key) -> Option<u64>
        ensures value { IfSome result (λ flow. lookup (same_key key.now) self.old.entries ≡ Some flow) }
        ensures after { MatchOption result (self.new ≡ self.old)
            (λ flow. self.new ≡ lives_with (promoted (same_key key.now) self.old.entries) self.old.cap) }
    {
        let guess = self.guesses.of(key)?;
        let entry = NumberedKey {
            key: *key,
            number: guess,
        };
        self.cache.get(&entry).copied()
    }

    /// Touches a key, which the tree is asked for: the flow of one that lives becomes the latest touched; that of another
    /// begins, with the number `next`.
    // Kept out of the line of packets whose flow is the guess.
    #[inline(never)]
    pub fn by_tree(&mut self, key: &Key, next: u64) -> Result<Touch, NoMemory>
        ensures value { IfOk result (λ touch. touch ≡ found_by self.old.entries self.old.cap next
            (lookup (same_key key.now) self.old.entries)) }
        ensures after { OnOk result (self.new ≡ lives_with
            (kept_by self.old.entries self.old.cap next key.now (lookup (same_key key.now) self.old.entries)) self.old.cap) }
        ensures err { OnErr result (self.new ≡ self.old) }
        ensures known { IsSome (lookup (same_key key.now) self.old.entries) → IsOk result }
    {
        // The cache is never beyond its capacity: a key that isn't among those before its last place is the last.
        let is_within = self.cache.len() <= self.cache.cap().get();
        prove!(is_within);
        match self.numbers.get_or_insert(key, next)? {
            Some(number) => {
                self.guesses.set(key, number);
                let flow = self.cache.get(&NumberedKey { key: *key, number }).copied();
                Ok(Touch {
                    flow: flow.unwrap_or(number),
                    fresh: false,
                    evicted: None,
                })
            }
            None => {
                self.guesses.set(key, next);
                let entry = NumberedKey {
                    key: *key,
                    number: next,
                };
                match self.cache.push(entry, next) {
                    Ok(evicted) => Ok(Touch {
                        flow: next,
                        fresh: true,
                        evicted: forget(&mut self.numbers, evicted),
                    }),
                    Err(error) => {
                        self.numbers.remove(key);
                        Err(error.into())
                    }
                }
            }
        }
    }

    /// The numbers of the flows.
    pub fn flows(&self, alloc: Global) -> Result<Vec<u64>, NoMemory>
        ensures { IfOk result (λ flows. flows.items ≡ values_of self.now.entries) }
    {
        flows_of(alloc, &self.cache)
    }
}

/// The flows of these keys.
fn flows_of(alloc: Global, cache: &LruCache<NumberedKey, u64>) -> Result<Vec<u64>, NoMemory>
    ensures { IfOk result (λ flows. flows.items ≡ values_of cache.now.entries) }
{
    Ok(cache.iter().map(|(_, flow)| *flow).collect(alloc)?)
}

/// Takes the number of the evicted key out of the tree, and gives its flow.
fn forget(numbers: &mut FlowNumbers, evicted: Option<(NumberedKey, u64)>) -> Option<u64>
    ensures flow { result ≡ option_map (λ e. e.1) evicted }
    ensures gone { (q : Key) → number_in numbers.new q
        ≡ (if is_gone evicted q then None else number_in numbers.old q) }
{
    let (last, flow) = evicted?;
    numbers.remove(&last.key);
    Some(flow)
}
