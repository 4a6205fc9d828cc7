//! Fragments one after another, with the answers that the overlap table and the limits give by hand. The rows are
//! text, so that another one costs nothing to prove.

use crate::overlaps::preference_of;
use edge_io::{Addr, Moment, NoMemory};
use frag3_core::{Datagram, Frag3, FragRules, Ignored, Taken};
use packet_decode::IpHead;
use row_files::TextParts;
use std::alloc::Global;
use std::process::Abort;
use std::test::Fail;

/// A preference and how many fragments are held at most; fragments in their order; their answers. A fragment is its
/// offset in units of 8 bytes, whether more follow, its second and its bytes, and then, where they are others, its
/// time to live and its preference. An answer is the bytes of a whole datagram, or its name. The timeout is 60
/// seconds, the least time to live 10.
///
/// First four fragments, in order of arrival A at 16 to 24, B at 8 to 24, C at 0 to 16, D at 8 to 32, the last.
/// Only C covers 0 to 8 and only D 24 to 32. From 8 on B, C and D are asked, from 16 on A, B and D, each later one
/// against the one that is kept:
///
/// - C against B starts earlier and ends earlier: taken by last, bsd, linux.
/// - D against B (8 to 24) starts at the same place and ends later: taken by last, bsd-right, linux.
/// - D against C (0 to 16) starts later: taken by last, bsd-right.
/// - B against A (16 to 24) starts earlier and ends at the same place: taken by last, bsd, linux, solaris.
/// - D against A starts earlier and ends later: taken by all but first and bsd-right.
///
/// So from 8 on first, windows and solaris keep B, bsd and linux C, last and bsd-right D; from 16 on first and
/// bsd-right keep A, bsd and solaris B (D doesn't win against B), last, linux and windows D.
///
/// Then three: B at 8 to 32 against A at 8 to 24 starts at the same place and ends later, so it is taken by last,
/// bsd-right, linux.
///
/// Whole bounds decide, not what is left of a fragment: X, Y and Z all start at 8, so under bsd none takes the stead
/// of an earlier one, also not from 16 on, where Y is kept; under linux each does.
///
/// A timeout counts from the first fragment, which is in time at its very end; as many fragments as a row says and no
/// more are held; a part is ignored by its place, its length and its time to live. The rules of a tracker are those
/// of its first fragment, except the least time to live.
const ROWS: &str = "\
first 9: 2:more:0:AAAAAAAA 1:more:0:BBBBBBBBBBBBBBBB 0:more:0:CCCCCCCCCCCCCCCC 1:last:0:DDDDDDDDDDDDDDDDDDDDDDDD: held held held CCCCCCCCBBBBBBBBAAAAAAAADDDDDDDD
last 9: 2:more:0:AAAAAAAA 1:more:0:BBBBBBBBBBBBBBBB 0:more:0:CCCCCCCCCCCCCCCC 1:last:0:DDDDDDDDDDDDDDDDDDDDDDDD: held held held CCCCCCCCDDDDDDDDDDDDDDDDDDDDDDDD
bsd 9: 2:more:0:AAAAAAAA 1:more:0:BBBBBBBBBBBBBBBB 0:more:0:CCCCCCCCCCCCCCCC 1:last:0:DDDDDDDDDDDDDDDDDDDDDDDD: held held held CCCCCCCCCCCCCCCCBBBBBBBBDDDDDDDD
bsd-right 9: 2:more:0:AAAAAAAA 1:more:0:BBBBBBBBBBBBBBBB 0:more:0:CCCCCCCCCCCCCCCC 1:last:0:DDDDDDDDDDDDDDDDDDDDDDDD: held held held CCCCCCCCDDDDDDDDAAAAAAAADDDDDDDD
linux 9: 2:more:0:AAAAAAAA 1:more:0:BBBBBBBBBBBBBBBB 0:more:0:CCCCCCCCCCCCCCCC 1:last:0:DDDDDDDDDDDDDDDDDDDDDDDD: held held held CCCCCCCCCCCCCCCCDDDDDDDDDDDDDDDD
windows 9: 2:more:0:AAAAAAAA 1:more:0:BBBBBBBBBBBBBBBB 0:more:0:CCCCCCCCCCCCCCCC 1:last:0:DDDDDDDDDDDDDDDDDDDDDDDD: held held held CCCCCCCCBBBBBBBBDDDDDDDDDDDDDDDD
solaris 9: 2:more:0:AAAAAAAA 1:more:0:BBBBBBBBBBBBBBBB 0:more:0:CCCCCCCCCCCCCCCC 1:last:0:DDDDDDDDDDDDDDDDDDDDDDDD: held held held CCCCCCCCBBBBBBBBBBBBBBBBDDDDDDDD
first 9: 0:more:0:CCCCCCCC 1:more:1:AAAAAAAAAAAAAAAA 1:last:2:BBBBBBBBBBBBBBBBBBBBBBBB: held held CCCCCCCCAAAAAAAAAAAAAAAABBBBBBBB
bsd 9: 0:more:0:CCCCCCCC 1:more:1:AAAAAAAAAAAAAAAA 1:last:2:BBBBBBBBBBBBBBBBBBBBBBBB: held held CCCCCCCCAAAAAAAAAAAAAAAABBBBBBBB
windows 9: 0:more:0:CCCCCCCC 1:more:1:AAAAAAAAAAAAAAAA 1:last:2:BBBBBBBBBBBBBBBBBBBBBBBB: held held CCCCCCCCAAAAAAAAAAAAAAAABBBBBBBB
solaris 9: 0:more:0:CCCCCCCC 1:more:1:AAAAAAAAAAAAAAAA 1:last:2:BBBBBBBBBBBBBBBBBBBBBBBB: held held CCCCCCCCAAAAAAAAAAAAAAAABBBBBBBB
last 9: 0:more:0:CCCCCCCC 1:more:1:AAAAAAAAAAAAAAAA 1:last:2:BBBBBBBBBBBBBBBBBBBBBBBB: held held CCCCCCCCBBBBBBBBBBBBBBBBBBBBBBBB
bsd-right 9: 0:more:0:CCCCCCCC 1:more:1:AAAAAAAAAAAAAAAA 1:last:2:BBBBBBBBBBBBBBBBBBBBBBBB: held held CCCCCCCCBBBBBBBBBBBBBBBBBBBBBBBB
linux 9: 0:more:0:CCCCCCCC 1:more:1:AAAAAAAAAAAAAAAA 1:last:2:BBBBBBBBBBBBBBBBBBBBBBBB: held held CCCCCCCCBBBBBBBBBBBBBBBBBBBBBBBB
bsd 9: 0:more:0:WWWWWWWW 1:more:1:XXXXXXXX 1:more:2:YYYYYYYYYYYYYYYYYYYYYYYY 1:last:3:ZZZZZZZZZZZZZZZZZZZZZZZZ: held held held WWWWWWWWXXXXXXXXYYYYYYYYYYYYYYYY
linux 9: 0:more:0:WWWWWWWW 1:more:1:XXXXXXXX 1:more:2:YYYYYYYYYYYYYYYYYYYYYYYY 1:last:3:ZZZZZZZZZZZZZZZZZZZZZZZZ: held held held WWWWWWWWZZZZZZZZZZZZZZZZZZZZZZZZ
first 9: 0:more:0:AAAAAAAA 1:last:60:BBBBBBBB: held AAAAAAAABBBBBBBB
first 9: 0:more:0:AAAAAAAA 1:last:61:BBBBBBBB: held held
first 9: 0:more:0:AAAAAAAA 1:more:40:BBBBBBBB 2:last:61:CCCCCCCC: held held held
first 2: 0:more:0:AAAAAAAA 2:more:1:CCCCCCCC 1:last:2:BBBBBBBB: held held held
first 3: 0:more:0:AAAAAAAA 2:more:1:CCCCCCCC 1:last:2:BBBBBBBB: held held AAAAAAAABBBBBBBB
first 9: 8191:more:0:AAAAAAAA 8191:more:1:AAAAAAA 8191:more:2:: reach held empty
last 9: 0:more:0:AAAAAAAA:64:first 0:more:0:BBBBBBBB:64 1:last:0::5 1:last:0:CCCCCCCC:10: held held ttl AAAAAAAACCCCCCCC
";

/// A fragment of a row.
#[derive(Clone, Copy)]
struct RowFragment<'a> {
    ip: IpHead,
    moment: Moment,
    bytes: &'a [u8],
    rules: FragRules,
}

/// The header of a fragment from 10.0.0.1 to 10.0.0.2 with this offset in units of 8 bytes.
fn head(ttl: u8, offset: u16, more: bool) -> IpHead {
    IpHead {
        ttl,
        id: 7,
        more,
        offset,
        ..IpHead::between(Addr::V4(0x0a00_0001), Addr::V4(0x0a00_0002), 253)
    }
}

/// The fragment of a word, by the preference of this name unless it names another.
fn part_of<'a>(word: &'a str, preference: &str) -> RowFragment<'a> {
    let mut fields = TextParts::of(word, ':');
    let offset = fields.short();
    let more = fields.word() == "more";
    let second = fields.number();
    let bytes = fields.word().as_bytes();
    let ttl = if fields.is_read() { 64 } else { fields.byte() };
    let other = fields.word();
    RowFragment {
        ip: head(ttl, offset, more),
        moment: Moment {
            nanos: u64::from(second) * 1_000_000_000,
        },
        bytes,
        rules: FragRules {
            preference: preference_of(if other.is_empty() { preference } else { other }),
            timeout: 60,
            min_ttl: 10,
        },
    }
}

/// The bytes of a whole datagram, or the name of another answer.
fn shown(taken: &Taken) -> &[u8] {
    match taken {
        Taken::Held => b"held",
        Taken::Ignored(Ignored::Ttl) => b"ttl",
        Taken::Ignored(Ignored::Empty) => b"empty",
        Taken::Ignored(Ignored::Reach) => b"reach",
        Taken::Whole(Datagram { ip: _, bytes }) => bytes.bytes(),
    }
}

/// Compares the answer to a fragment.
fn check_answer(
    rt: &impl Abort,
    alloc: Global,
    frag3: &mut Frag3,
    part: &RowFragment,
    want: &str,
) -> Result<(), NoMemory> {
    let taken = frag3.accept(alloc, &part.ip, part.bytes, part.moment, part.rules)?;
    assert!(rt; shown(&taken) == want.as_bytes(), "{want}");
    Ok(())
}

/// Takes fragments, and compares their answers.
fn check_parts(
    rt: &impl Abort,
    alloc: Global,
    frag3: &mut Frag3,
    preference: &str,
    parts: &str,
    answers: &str,
) -> Result<(), NoMemory> {
    let mut answers = TextParts::of(answers, ' ');
    for word in parts.split(' ') {
        let part = part_of(word, preference);
        check_answer(rt, alloc, frag3, &part, answers.word())?;
    }
    assert!(rt; answers.is_read(), "{parts}");
    Ok(())
}

/// Takes the fragments of a row, and compares their answers.
fn check_row(rt: &impl Abort, alloc: Global, row: &str) -> Result<(), NoMemory> {
    let (head, rest) = row.split_once(": ").unwrap_or((row, ""));
    let (parts, answers) = rest.split_once(": ").unwrap_or((rest, ""));
    let mut head = TextParts::of(head, ' ');
    let (preference, most) = (head.word(), head.number());
    assert!(rt; most > 0 && head.is_read());
    let mut frag3 = Frag3::new(alloc, most);
    check_parts(rt, alloc, &mut frag3, preference, parts, answers)
}

#[test]
fn fragments_by_rows(rt: HostRuntime) -> Result<(), Fail> {
    for row in ROWS.lines() {
        check_row(&rt, rt.alloc(), row)?;
    }
    Ok(())
}
