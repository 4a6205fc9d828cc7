//! The layout of the moves: rows for the first states, and the moves to all states.

ghost use Rattle.std.specs.Prelude.{◌≡◌, ◌+◌, ◌*◌, ◌^◌, ◌<◌, ◌≤◌, ◌==◌, if◌then◌else◌, length, IfOk, OnOk};
ghost use Rattle.pattern_search.specs.Words.{FindsChild, AreChildren};
ghost use Rattle.pattern_search.specs.Rows.{sparse, place_of, entry_of, AreEntries, IsNextEntry, HasRows, IsParent, AreShallow, IsShallow};

use crate::numbers::read;
use crate::trie::{Trie, place, step_at};
use edge_io::NoMemory;
use std::alloc::{AllocError, Global};

/// The first place that no row has.
pub const SPARSE: u32 = 1_073_741_824;

/// This many letters are few: a state with a shorter word lies near the root.
pub const FEW_LETTERS: usize = 3;

/// How many moves rows have for each state, all in all.
const MOVES: usize = 20;

/// How many states have a row: as many as there is room for, at least one.
fn row_count(width: u16, states: usize) -> u32
    ensures some { 0 < result }
    ensures within { 0 < states → result ≤ states }
    ensures fits { result * width ≤ sparse }
{
    let wide = u32::from(width).max(1);
    let most = SPARSE / wide;
    let room = states.saturating_mul(MOVES) / wide as usize;
    room.min(states).min(most as usize).max(1) as u32
}

/// The place of a state.
#[tactic(auto, unfolding(crate::specs::Rows::place_of))]
fn place_of(width: u16, dense: u32, state: u32) -> u64
    ensures place { result ≡ place_of width dense state }
    ensures small { result < 2 ^ 62 }
{
    if state < dense {
        return place(width, state, 0) as u64;
    }
    u64::from(SPARSE) + u64::from(state)
}

/// Whether a pattern has ended, as a number.
fn ended_at(head: u32) -> u64
    ensures value { result ≡ (if head == 0 then 0 else 1) }
    ensures small { result ≤ 1 }
{
    if head == 0 { 0 } else { 1 }
}

/// The move to a state.
#[tactic(auto, unfolding(crate::specs::Rows::entry_of))]
fn entry_of(width: u16, dense: u32, heads: &[u32], state: u32) -> u32
    requires fits { dense * width ≤ sparse }
    requires few { state < sparse }
    ensures { result ≡ entry_of width dense heads.now state }
{
    let ended = ended_at(read(heads, state as usize));
    let entry = 2 * place_of(width, dense, state) + ended;
    entry as u32
}

/// The moves to all states.
fn entries_of(
    alloc: Global,
    width: u16,
    dense: u32,
    heads: &[u32],
    states: u32,
) -> Result<Vec<u32>, AllocError>
    requires fits { dense * width ≤ sparse }
    requires few { states ≤ sparse }
    ensures { IfOk result (λ entries. AreEntries width dense heads.now entries.items states) }
{
    let mut entries = Vec::with_capacity(alloc, states as usize)?;
    for state in 0..states {
        entries.push(entry_of(width, dense, heads, state))?;
    }
    Ok(entries)
}

/// The next move of a table, by the state that is longer by the letter, if there is one.
fn next_entry(
    trie: &Trie,
    fails: &[u32],
    entries: &[u32],
    table: &[u32],
    state: u32,
    letter: u16,
    child: u32,
) -> u32
    requires { FindsChild trie.now state letter child }
    ensures { IsNextEntry trie.now fails.now entries.now table.now state letter result }
{
    if child != 0 {
        return read(entries, child as usize);
    }
    if state == 0 {
        return read(entries, 0);
    }
    read(
        table,
        place(trie.width, read(fails, state as usize), letter),
    )
}

/// Adds the row of a state, by its children.
fn push_row(
    trie: &Trie,
    fails: &[u32],
    entries: &[u32],
    state: u32,
    children: &[u32],
    table: &mut Vec<u32>,
) -> Result<(), AllocError>
    requires { AreChildren trie.now state children.now }
    ensures { OnOk result (HasRows trie.now fails.now entries.now state 0 table.old.items
        → HasRows trie.now fails.now entries.now (state + 1) 0 table.new.items) }
{
    for letter in 0..trie.width {
        let child = read(children, letter as usize);
        let entry = next_entry(trie, fails, entries, table, state, letter, child);
        table.push(entry)?;
    }
    Ok(())
}

/// The rows of the first states.
fn table_of(
    alloc: Global,
    trie: &Trie,
    fails: &[u32],
    entries: &[u32],
    dense: u32,
) -> Result<Vec<u32>, AllocError>
    ensures { IfOk result (λ table. HasRows trie.now fails.now entries.now dense 0 table.items) }
{
    let mut table = Vec::with_capacity(alloc, place(trie.width, dense, 0))?;
    let mut room = vec![in alloc; 0; trie.width as usize]?;
    let children = room.as_mut_slice();
    for state in 0..dense {
        trie.put_children(state, children);
        push_row(trie, fails, entries, state, children, &mut table)?;
    }
    Ok(table)
}

/// The state that is shorter by a letter; the root for the root.
fn parent(trie: &Trie, state: u32) -> u32
    ensures { IsParent trie.now state result }
{
    if state == 0 {
        return 0;
    }
    step_at(&trie.steps, state as usize - 1).up
}

/// How many of the first states have words of at most `FEW_LETTERS` letters: all that do, where the numbers suffice.
fn shallow_count(trie: &Trie) -> u32
    ensures { AreShallow trie.now result }
{
    let most = u32::try_from(trie.steps.len()).unwrap_or(0);
    let mut count = 0;
    while count < most {
        let state = count + 1;
        let one = parent(trie, state);
        let two = parent(trie, one);
        if parent(trie, two) != 0 {
            return state;
        }
        count = state;
    }
    count.saturating_add(1)
}

/// A place below which states have words of at most `FEW_LETTERS` letters.
pub fn shallow_bound(trie: &Trie, dense: u32) -> u64
    ensures { IsShallow trie.now dense result }
{
    let state = shallow_count(trie);
    place_of(trie.width, dense, state)
}

/// How many of the first states have a row, their rows, and the moves to all states.
#[derive(Drop)]
pub struct Rows {
    pub dense: u32,
    pub table: Vec<u32>,
    pub entries: Vec<u32>,
}

impl Rows {
    ghost use Rattle.pattern_search.specs.Rows.{IsLayout};

    /// The layout of the moves of these states.
    pub fn of(alloc: Global, trie: &Trie, fails: &[u32], heads: &[u32]) -> Result<Rows, NoMemory>
        requires { length trie.now.steps.items < 1073741824 }
        ensures { IfOk result (λ rows. IsLayout trie.now fails.now heads.now rows) }
    {
        let states = trie.steps.len() as u32 + 1;
        let dense = row_count(trie.width, states as usize);
        let entries = entries_of(alloc, trie.width, dense, heads, states)?;
        let table = table_of(alloc, trie, fails, &entries, dense)?;
        Ok(Rows {
            dense,
            table,
            entries,
        })
    }
}
