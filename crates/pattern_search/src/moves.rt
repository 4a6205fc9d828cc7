//! Moves by the states that are longer by a letter, and by the fails.

ghost use Rattle.std.specs.Prelude.{◌≡◌};
ghost use Rattle.pattern_search.specs.Moves.{Reaches, Moves, FailsTo};

use crate::numbers::read;
use crate::trie::{Trie, step_at};

/// How far back a move goes: to this state, and the one that is longer by the letter; 0 where there is none.
#[derive(Clone, Copy)]
pub struct Reached {
    pub state: u32,
    pub child: u32,
}

/// Goes back from a state along the fails, to the first one that is longer by the letter or is below a number.
pub fn reach(trie: &Trie, fails: &[u32], below: u32, state: u32, letter: u16) -> Reached
    ensures { Reaches trie.now fails.now below state letter result }
{
    let least = below.max(1);
    let mut at = state;
    while at >= least {
        let child = trie.found(at, letter);
        if child != 0 {
            return Reached { state: at, child };
        }
        at = read(fails, at as usize).min(at - 1);
    }
    Reached {
        state: at,
        child: 0,
    }
}

/// One letter on from a state.
fn move_from(trie: &Trie, fails: &[u32], state: u32, letter: u16) -> u32
    ensures { Moves trie.now fails.now state letter result }
{
    let reached = reach(trie, fails, 1, state, letter);
    if reached.child != 0 {
        return reached.child;
    }
    trie.found(0, letter)
}

/// The state that another fails to, if those before it have theirs.
pub fn fail_of(trie: &Trie, fails: &[u32], state: u32) -> u32
    ensures { FailsTo trie.now fails.now state result }
{
    if state == 0 {
        return 0;
    }
    let step = step_at(&trie.steps, state as usize - 1);
    if step.up == 0 {
        return 0;
    }
    move_from(trie, fails, read(fails, step.up as usize), step.by)
}
