//! The links of all states: the longest word that a state's word ends in, and the patterns that end there.

ghost use Rattle.std.specs.Prelude.{◌≡◌, ◌+◌, ◌<◌, length, IfOk};
ghost use Rattle.pattern_search.specs.Outputs.{either, AreNexts};

use crate::moves::fail_of;
use crate::numbers::read;
use crate::trie::Trie;
use edge_io::NoMemory;
use std::alloc::Global;

/// The first of the two that isn't 0.
fn either(one: u32, other: u32) -> u32
    ensures { result ≡ either one other }
{
    if one == 0 { other } else { one }
}

/// The state that each state fails to, and the place of the first pattern of its chain, plus one.
#[derive(Drop)]
pub struct Links {
    pub fails: Vec<u32>,
    pub heads: Vec<u32>,
}

impl Links {
    ghost use Rattle.pattern_search.specs.Outputs.{IsLinking};

    /// Links the states of a trie in their order.
    pub fn of(alloc: Global, trie: &Trie, firsts: &[u32]) -> Result<Links, NoMemory>
        requires { length trie.now.steps.items < 1073741824 }
        ensures { IfOk result (λ links. IsLinking trie.now firsts.now links.fails.items links.heads.items
            (length trie.now.steps.items + 1)) }
    {
        let states = trie.steps.len() as u32 + 1;
        let mut fails = Vec::with_capacity(alloc, states as usize)?;
        let mut heads = Vec::with_capacity(alloc, states as usize)?;
        for state in 0..states {
            let fail = fail_of(trie, &fails, state);
            heads.push(either(read(firsts, state as usize), read(&heads, fail as usize)))?;
            fails.push(fail)?;
        }
        Ok(Links { fails, heads })
    }
}

/// Where the chain goes on after each pattern.
pub fn nexts(
    alloc: Global,
    ends: &[u32],
    sames: &[u32],
    links: &Links,
) -> Result<Vec<u32>, NoMemory>
    ensures { IfOk result (λ nexts. AreNexts ends.now sames.now links.now.fails.items links.now.heads.items nexts.items
        (length ends.now)) }
{
    let mut nexts = Vec::new(alloc);
    for (place, end) in ends.iter().enumerate() {
        let fail = read(&links.fails, *end as usize);
        nexts.push(either(read(sames, place), read(&links.heads, fail as usize)))?;
    }
    Ok(nexts)
}
