//! Places by their keys, in chains: the patterns by the states at which they end.

ghost use Rattle.std.specs.Prelude.{◌≡◌, ◌<◌, length, All, IfOk};
ghost use Rattle.pattern_search.specs.Owned.{AreOwned, owned_by};

use crate::numbers::{read, write};
use edge_io::NoMemory;
use std::alloc::Global;

/// The last place of each key, and before each place the last one of its key: places, plus one. The key 0 has no chain.
#[derive(Drop)]
pub struct Owned {
    pub firsts: Vec<u32>,
    pub sames: Vec<u32>,
}

/// Makes a place the last of its key, if that isn't 0.
fn own(firsts: &mut [u32], key: u32, owner: u32)
    ensures { firsts.new ≡ owned_by firsts.old key owner }
{
    if key != 0 {
        write(firsts, key as usize, owner);
    }
}

impl Owned {
    /// The places of these keys, which are fewer than a number.
    pub fn of(alloc: Global, key_count: usize, keys: &[u32]) -> Result<Owned, NoMemory>
        requires few { length keys.now < 4294967295 }
        requires within { All (λ key. key < key_count) keys.now }
        ensures { IfOk result (λ owned. AreOwned keys.now key_count owned.firsts.items owned.sames.items (length keys.now)) }
    {
        let mut firsts = vec![in alloc; 0; key_count]?;
        let mut sames = Vec::new(alloc);
        for place in 0..keys.len() {
            let key = keys[place];
            sames.push(read(&firsts, key as usize))?;
            own(&mut firsts, key, place as u32 + 1);
        }
        Ok(Owned { firsts, sames })
    }
}
