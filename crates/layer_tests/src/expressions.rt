//! Expressions and what they find, worked out by hand.

use edge_io::{MakeFault, NoMemory, Pattern, PatternFlags, PatternMaker, Span};
use regex_maker::kept::{counted, emptied, with_most};
use regex_maker::{RegexMaker, RegexPattern};
use std::alloc::Global;
use std::process::Abort;
use std::test::Fail;

const PLAIN: PatternFlags = PatternFlags {
    nocase: false,
    dot_all: false,
    multi_line: false,
    extended: false,
};

const NOCASE: PatternFlags = PatternFlags {
    nocase: true,
    ..PLAIN
};

const DOT_ALL: PatternFlags = PatternFlags {
    dot_all: true,
    ..PLAIN
};

const MULTI_LINE: PatternFlags = PatternFlags {
    multi_line: true,
    ..PLAIN
};

const EXTENDED: PatternFlags = PatternFlags {
    extended: true,
    ..PLAIN
};

/// A text with flags, bytes, and the ends of the match in them.
#[derive(Clone, Copy)]
struct SearchRow(
    &'static str,
    PatternFlags,
    &'static [u8],
    Option<(usize, usize)>,
);

const ROWS: [SearchRow; 15] = [
    SearchRow("b+", PLAIN, b"abbabbb", Some((1, 3))),
    SearchRow("a|ab", PLAIN, b"xab", Some((1, 2))),
    SearchRow("c", PLAIN, b"ab", None),
    SearchRow("", PLAIN, b"ab", Some((0, 0))),
    SearchRow("evil", PLAIN, b"xEvIl", None),
    SearchRow("evil", NOCASE, b"xEvIl", Some((1, 5))),
    SearchRow("a.b", PLAIN, b"a\nb", None),
    SearchRow("a.b", DOT_ALL, b"a\nb", Some((0, 3))),
    SearchRow("^b$", PLAIN, b"a\nb\nc", None),
    SearchRow("^b$", MULTI_LINE, b"a\nb\nc", Some((2, 3))),
    SearchRow("a b", PLAIN, b"ab", None),
    SearchRow("a b", EXTENDED, b"ab", Some((0, 2))),
    SearchRow("[^a]", PLAIN, b"a\xe9\xa9", Some((1, 2))),
    SearchRow(r"\xff.", PLAIN, b"a\xff\xfe", Some((1, 3))),
    SearchRow("k", NOCASE, b"\xe2\x84\xaa", None),
];

/// Compares what the pattern of a row finds.
fn check_row(
    rt: &impl Abort,
    alloc: Global,
    maker: &mut RegexMaker,
    row: &SearchRow,
) -> Result<(), Fail> {
    let pattern = maker.make(alloc, row.0, row.1)?;
    assert!(rt; ends_of(&pattern, row.2)? == row.3, "{}", row.0);
    Ok(())
}

#[test]
fn patterns_find_the_leftmost_match(rt: HostRuntime) -> Result<(), Fail> {
    let mut maker = RegexMaker::new(rt.alloc());
    for row in &ROWS {
        check_row(&rt, rt.alloc(), &mut maker, row)?;
    }
    Ok(())
}

/// Whether a text is refused.
fn is_refused(alloc: Global, maker: &mut RegexMaker, text: &str) -> bool {
    match maker.make(alloc, text, PLAIN) {
        Ok(_) => false,
        Err(fault) => fault == MakeFault::Refused,
    }
}

#[test]
fn texts_that_are_refused(rt: HostRuntime) {
    let mut maker = RegexMaker::new(rt.alloc());
    for text in ["a(?=b)", "(?<!a)b", r"(a)\1", "(", "a{1000}{1000}"] {
        assert!(rt; is_refused(rt.alloc(), &mut maker, text), "{text}");
    }
}

/// Bytes, and the ends of the match in them.
#[derive(Clone, Copy)]
struct SearchTurn(&'static [u8], Option<(usize, usize)>);

/// Of the expression `[0-9]+[a-z]+(z9)+|[ab]{2,5}[0-9]`.
const TURNS: [SearchTurn; 7] = [
    SearchTurn(b"12az9", Some((0, 5))),
    SearchTurn(b"12a", None),
    SearchTurn(b"- 7bz9z9", Some((2, 8))),
    SearchTurn(b"", None),
    SearchTurn(b"aaaaaaa", None),
    SearchTurn(b"xaab3ab4", Some((1, 5))),
    SearchTurn(b"12az9", Some((0, 5))),
];

/// The ends of what a pattern finds.
fn ends_of(pattern: &RegexPattern, bytes: &[u8]) -> Result<Option<(usize, usize)>, NoMemory> {
    let found = pattern.find(bytes)?;
    Ok(found.map(|span: Span| (span.start, span.end)))
}

/// Searches one after the other, which hand their working memory on.
fn check_turns(rt: &impl Abort, pattern: &RegexPattern) -> Result<(), NoMemory> {
    for SearchTurn(bytes, want) in &TURNS {
        assert!(rt; ends_of(pattern, bytes)? == *want);
    }
    Ok(())
}

/// Searches twice, one after the other.
fn check_turns_twice(rt: &impl Abort, pattern: &RegexPattern) -> Result<(), NoMemory> {
    check_turns(rt, pattern)?;
    check_turns(rt, pattern)
}

#[test]
fn no_search_remembers_the_match_before(rt: HostRuntime) -> Result<(), Fail> {
    let mut maker = RegexMaker::new(rt.alloc());
    let pattern = maker.make(rt.alloc(), "[0-9]+[a-z]+(z9)+|[ab]{2,5}[0-9]", PLAIN)?;
    check_turns_twice(&rt, &pattern)?;
    Ok(())
}

/// Appends letters a and b without an order, and after them an a and fourteen letters b.
fn push_letters(bytes: &mut Vec<u8>, count: u32) -> Result<(), NoMemory> {
    let mut seed: u32 = 1;
    for _ in 0..count {
        seed = seed.wrapping_mul(1_103_515_245).wrapping_add(12345);
        bytes.push(if seed < 0x8000_0000 { b'a' } else { b'b' })?;
    }
    bytes.extend_from_slice(b"abbbbbbbbbbbbbb")?;
    Ok(())
}

/// An expression whose automaton has more states than its memory holds.
const MANY_STATES: &str = "[ab]*a[ab]{14}c";

/// Searches many letters, without the last one of a match and with it.
fn check_many_states(
    rt: &impl Abort,
    pattern: &RegexPattern,
    bytes: &mut Vec<u8>,
) -> Result<(), NoMemory> {
    push_letters(bytes, 100_000)?;
    assert!(rt; ends_of(pattern, bytes.as_slice())?.is_none());
    bytes.push(b'c')?;
    assert!(rt; ends_of(pattern, bytes.as_slice())? == Some((0, bytes.len())));
    Ok(())
}

#[test]
fn patterns_with_too_many_states_are_searched(rt: HostRuntime) -> Result<(), Fail> {
    let mut bytes = Vec::new(rt.alloc());
    let mut maker = RegexMaker::new(rt.alloc());
    let pattern = maker.make(rt.alloc(), MANY_STATES, PLAIN)?;
    check_many_states(&rt, &pattern, &mut bytes)?;
    Ok(())
}

/// How many patterns there are in the tests of what they keep.
const PATTERNS: usize = 4;

/// One search in bytes all of which match. The count is never above what the patterns may keep.
fn check_search(
    rt: &impl Abort,
    maker: &RegexMaker,
    pattern: &RegexPattern,
    bytes: &[u8],
    most: u64,
) -> Result<(), NoMemory> {
    assert!(rt; ends_of(pattern, bytes)? == Some((0, bytes.len())));
    assert!(rt; counted(maker).is_some_and(|now| now <= most));
    Ok(())
}

/// Makes patterns of one expression.
fn make_all(
    alloc: Global,
    maker: &mut RegexMaker,
    patterns: &mut Vec<RegexPattern>,
) -> Result<(), Fail> {
    for _ in 0..PATTERNS {
        patterns.push(maker.make(alloc, MANY_STATES, PLAIN)?)?;
    }
    Ok(())
}

/// Each pattern is searched by twice in bytes that have it build a state for each letter: its literals occur
/// there, so nothing dismisses them.
fn search_all(
    rt: &impl Abort,
    maker: &RegexMaker,
    patterns: &[RegexPattern],
    bytes: &mut Vec<u8>,
    most: u64,
) -> Result<(), NoMemory> {
    push_letters(bytes, 100)?;
    bytes.push(b'c')?;
    for pattern in patterns {
        check_search(rt, maker, pattern, bytes.as_slice(), most)?;
        check_search(rt, maker, pattern, bytes.as_slice(), most)?;
    }
    Ok(())
}

/// Makes patterns, and searches by them.
fn search(
    rt: &impl Abort,
    alloc: Global,
    maker: &mut RegexMaker,
    patterns: &mut Vec<RegexPattern>,
    most: u64,
) -> Result<(), Fail> {
    let mut bytes = Vec::new(alloc);
    make_all(alloc, maker, patterns)?;
    search_all(rt, maker, patterns, &mut bytes, most)?;
    Ok(())
}

/// How many memories patterns keep that may keep so much, and what they are counted for. What comes
/// off a shelf and is dropped counts no longer.
fn kept(rt: &impl Abort, alloc: Global, most: u64) -> Result<(usize, u64), Fail> {
    let mut maker = with_most(alloc, most);
    let mut patterns = Vec::new(alloc);
    search(rt, alloc, &mut maker, &mut patterns, most)?;
    let before = counted(&maker);
    let (memories, size) = emptied(&patterns);
    assert!(rt; before == Some(size) && counted(&maker) == Some(0));
    Ok((memories, size))
}

/// The patterns are alike, so what half of them take is room for half of them, and a byte less for one
/// fewer.
#[test]
fn patterns_keep_no_more_than_they_may(rt: HostRuntime) -> Result<(), Fail> {
    let (all, size) = kept(&rt, rt.alloc(), 1 << 30)?;
    let half = size / 2;
    assert!(rt; all == PATTERNS);
    assert!(rt; kept(&rt, rt.alloc(), half)? == (PATTERNS / 2, half));
    assert!(rt; kept(&rt, rt.alloc(), half.saturating_sub(1))?.0 == PATTERNS / 2 - 1);
    assert!(rt; kept(&rt, rt.alloc(), 0)? == (0, 0));
    Ok(())
}

#[test]
fn patterns_that_are_dropped_keep_nothing(rt: HostRuntime) -> Result<(), Fail> {
    let mut maker = RegexMaker::new(rt.alloc());
    let mut patterns = Vec::new(rt.alloc());
    search(&rt, rt.alloc(), &mut maker, &mut patterns, 1 << 30)?;
    assert!(rt; counted(&maker).is_some_and(|now| now > 0));
    drop(patterns);
    assert!(rt; counted(&maker) == Some(0));
    Ok(())
}
