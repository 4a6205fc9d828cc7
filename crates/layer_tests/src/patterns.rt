//! Patterns and texts worked out by hand: which patterns occur, by `find`. The rows are text, so that another one costs
//! nothing to prove.

use edge_io::{NoMemory, Text};
use pattern_search::Automaton;
use row_files::cut;
use std::alloc::Global;
use std::process::Abort;
use std::test::Fail;

/// Patterns between blanks, a text, and the places of the patterns that occur in it, each after a blank. In order:
///
/// - patterns that end in others, in either case
/// - patterns that begin others, and one that doesn't end
/// - the order of the places is that of the patterns, not that of the text
/// - equal patterns, and an empty one between others
/// - bytes that differ by the bit of the case alone, and are no letters
/// - a text that is shorter than each pattern, and one without a byte
/// - long patterns alone, which a sieve looks for at every eighth place
const ROWS: &str = "\
he SHE his hers:Ushers: 0 1 3
a ab abc:xabx: 0 1
b a c:cab: 0 1 2
ab ab  AB:xAbx: 0 1 3
[x @y:{x `y:
[x @y:{X[x`Y@Y: 0 1
abc bcd:ab:
abc bcd::
abcdefghijklmnop bcdefghijklmnopq:xxxabcdefghijklmnopxxx: 0
abcdefghijklmnop bcdefghijklmnopq:ABCDEFGHIJKLMNOPQ: 0 1
";

/// Adds the patterns of a row.
fn push_patterns(alloc: Global, words: &str, patterns: &mut Vec<Text>) -> Result<(), NoMemory> {
    for word in words.split(' ') {
        patterns.push(Text::copy(alloc, word.as_bytes())?)?;
    }
    Ok(())
}

/// Writes places, each after a blank.
fn push_places(text: &mut String, places: &[u32]) -> Result<(), NoMemory> {
    for place in places {
        if write!(text, " {place}").is_err() {
            return Err(NoMemory);
        }
    }
    Ok(())
}

/// Compares what is found in a text.
fn check_found(
    rt: &impl Abort,
    alloc: Global,
    automaton: &Automaton,
    text: &str,
    want: &str,
) -> Result<(), NoMemory> {
    let found = automaton.find(alloc, text.as_bytes())?;
    let mut shown = String::new(alloc);
    push_places(&mut shown, found.as_slice())?;
    assert!(rt; shown.as_str() == want, "{text}");
    Ok(())
}

/// Compares what of some patterns is found in a text.
fn check_patterns(
    rt: &impl Abort,
    alloc: Global,
    patterns: &[Text],
    text: &str,
    want: &str,
) -> Result<(), NoMemory> {
    assert!(rt; patterns.len() < 100);
    let automaton = Automaton::of(alloc, patterns)?;
    check_found(rt, alloc, &automaton, text, want)
}

/// Compares what is found by a row.
fn check_row(rt: &impl Abort, alloc: Global, row: &str) -> Result<(), NoMemory> {
    let (words, rest) = cut(row, ':');
    let (text, want) = cut(rest, ':');
    let mut patterns = Vec::new(alloc);
    push_patterns(alloc, words, &mut patterns)?;
    check_patterns(rt, alloc, patterns.as_slice(), text, want)
}

#[test]
fn patterns_are_found_in_order(rt: HostRuntime) -> Result<(), Fail> {
    for row in ROWS.lines() {
        check_row(&rt, rt.alloc(), row)?;
    }
    Ok(())
}
