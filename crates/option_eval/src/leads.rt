//! Where an option leads from one place.

ghost use Rattle.std.specs.Prelude.{◌≡◌, ℕ, ◌+◌, ◌^◌, ◌<◌, ◌≤◌, ◌↔◌, pos, ◌+ℤ◌, ◌<ℤ◌, List, true, false, not, length, drop, IsTrue, IfOk, IfSome, if◌then◌else◌};
ghost use Rattle.rule_types.specs.declared.option.Opt.TheVariants as opt;
ghost use Rattle.option_eval.specs.Kinds.{is_test, IsJump};
ghost use Rattle.option_eval.specs.Numbers.{fetched};
ghost use Rattle.option_eval.specs.Places.{Means, Compares, SharesBit, byte_jump_len};
ghost use Rattle.option_eval.specs.Ranges.{IsSmall, IsShort};
ghost use Rattle.option_eval.specs.Ready.{IsReady, pattern_of};
ghost use Rattle.option_eval.specs.RuleSet.{IsMade};
ghost use Rattle.option_eval.specs.Sets.{LeadsFrom, LeadsOnlyTo, PlaceIn};
ghost use Rattle.edge_io.specs.declared.pattern.PatternFlags.{PatternFlags};

use crate::content::content_is_found;
use crate::fetch::{Fetched, Values, fetched_number, number, origin, rounded_up};
use crate::made::MadeOption;
use edge_io::{NoMemory, Pattern, Span};
use rule_types::{Cmp, Content, Fetch, Num, Opt};

/// Whether a test holds at a place: `content:!`, `fast_pattern:only`, `isdataat`, `pcre:!`, `byte_test`, which lead
/// nowhere but to it. An option that asks nothing of the payload holds.
pub(crate) fn test_holds<P: Pattern>(
    option: &Opt,
    made: &MadeOption<P>,
    payload: &[u8],
    place: usize,
    values: &Values,
) -> Result<bool, NoMemory>
    requires ready { IsReady option.now made.now }
    requires test { is_test option.now ≡ true }
    requires inside { place ≤ length payload.now }
    ensures { (means : Means) → IsMade P.finds means option.now (pattern_of made.now)
        → IfOk result (λ holds. IsTrue holds ↔ LeadsFrom means payload.now values.now option.now place place) }
{
    match option {
        Opt::Content(content) => Ok(content_holds(content, made, payload, place, values)),
        Opt::IsDataAt {
            at,
            relative,
            negated,
        } => { Ok(isdataat_holds(*at, *relative, *negated, payload, place, values)) }
        Opt::Pcre { relative, .. } => negated_pcre_holds(made, *relative, payload, place),
        Opt::ByteTest {
            fetch,
            not,
            cmp,
            value,
        } => { Ok(byte_test_holds(fetch, *not, *cmp, *value, payload, place, values)) }
        _ => Ok(true),
    }
}

/// Where a `pcre` or a `byte_jump` leads from a place: to one place, or nowhere.
pub(crate) fn place_after_jump<P: Pattern>(
    option: &Opt,
    made: &MadeOption<P>,
    payload: &[u8],
    place: usize,
    values: &Values,
) -> Result<Option<usize>, NoMemory>
    requires ready { IsReady option.now made.now }
    requires jumps { IsJump option.now }
    requires inside { place ≤ length payload.now }
    ensures only { (means : Means) → IsMade P.finds means option.now (pattern_of made.now)
        → IfOk result (λ led. LeadsOnlyTo (LeadsFrom means payload.now values.now option.now place) led) }
    ensures inside { IfOk result (λ led. IfSome led (λ q. q ≤ length payload.now)) }
{
    match option {
        Opt::Pcre { relative, .. } => place_after_pcre(made, *relative, payload, place),
        Opt::ByteJump {
            fetch,
            times,
            align,
            beginning,
            post,
        } => {
            Ok(place_after_byte_jump(
                fetch, *times, *align, *beginning, *post, payload, place, values,
            ))
        }
        _ => Ok(None),
    }
}

/// The fact, or under `negated` its opposite.
fn unless(negated: bool, holds: bool) -> bool
    ensures { result ≡ (if negated then not holds else holds) }
{
    if negated { !holds } else { holds }
}

// ---- content:!, fast_pattern:only

/// Whether a negated content, or one that is sought by the fast pattern alone, holds.
fn content_holds<P>(
    content: &Content,
    made: &MadeOption<P>,
    payload: &[u8],
    place: usize,
    values: &Values,
) -> bool
    requires ready { IsReady (opt.Content content.now) made.now }
    requires test { is_test (opt.Content content.now) ≡ true }
    ensures { (means : Means) → IsTrue result
        ↔ LeadsFrom means payload.now values.now (opt.Content content.now) place place }
{
    match made {
        MadeOption::Needle(finder) => {
            unless(
                content.negated,
                content_is_found(content, finder, payload, place, values),
            )
        }
        _ => false,
    }
}

// ---- isdataat

/// Whether an `isdataat` holds: the payload has a byte so far from a place, or under `!` has none.
fn isdataat_holds(
    at: Num,
    relative: bool,
    negated: bool,
    payload: &[u8],
    place: usize,
    values: &Values,
) -> bool
    ensures { (means : Means) → IsTrue result
        ↔ LeadsFrom means payload.now values.now (opt.IsDataAt at relative negated) place place }
{
    let wanted = origin(relative, place) as i128 + number(values, at);
    unless(negated, is_before(wanted, payload.len()))
}

/// Whether a whole number is below a length.
fn is_before(place: i128, len: usize) -> bool
    ensures { IsTrue result ↔ (place <ℤ pos len) }
{
    place < len as i128
}

// ---- pcre

/// Whether a `pcre:!` holds: the pattern that was made finds nothing.
fn negated_pcre_holds<P: Pattern>(
    made: &MadeOption<P>,
    relative: bool,
    payload: &[u8],
    place: usize,
) -> Result<bool, NoMemory>
    requires { place ≤ length payload.now }
    ensures { (text : List ℕ) → (flags : PatternFlags) → (means : Means) → (values : List ℕ)
        → IsMade P.finds means (opt.Pcre text flags relative true) (pattern_of made.now)
        → IfOk result (λ holds. IsTrue holds ↔ LeadsFrom means payload.now values
        (opt.Pcre text flags relative true) place place) }
{
    match made {
        MadeOption::Pattern(pattern) => Ok(pcre_finds(
            pattern, relative, payload, place,
        )?.is_none()),
        _ => Ok(false),
    }
}

/// Where a `pcre` leads: to the end of what the pattern that was made finds.
fn place_after_pcre<P: Pattern>(
    made: &MadeOption<P>,
    relative: bool,
    payload: &[u8],
    place: usize,
) -> Result<Option<usize>, NoMemory>
    requires { place ≤ length payload.now }
    ensures only { (text : List ℕ) → (flags : PatternFlags) → (means : Means) → (values : List ℕ)
        → IsMade P.finds means (opt.Pcre text flags relative false) (pattern_of made.now)
        → IfOk result (λ led. LeadsOnlyTo (LeadsFrom means payload.now values (opt.Pcre text flags relative false) place) led) }
    ensures inside { IfOk result (λ led. IfSome led (λ q. q ≤ length payload.now)) }
{
    match made {
        MadeOption::Pattern(pattern) => match pcre_finds(pattern, relative, payload, place)? {
            None => Ok(None),
            Some(span) => Ok(Some(origin(relative, place) + span.end)),
        },
        _ => Ok(None),
    }
}

/// What a pattern finds in the payload, or in its bytes from the place on.
fn pcre_finds<P: Pattern>(
    pattern: &P,
    relative: bool,
    payload: &[u8],
    place: usize,
) -> Result<Option<Span>, NoMemory>
    requires { place ≤ length payload.now }
    ensures found { IfOk result (λ found. found ≡ P.finds pattern.now (drop (if relative then place else 0) payload.now)) }
    ensures inside { IfOk result (λ found. IfSome found (λ span.
        (if relative then place else 0) + span.end ≤ length payload.now)) }
{
    pattern.find(&payload[origin(relative, place)..])
}

// ---- byte_test

/// Whether a `byte_test` holds: a number is there, and compares so with the value, or under `!` doesn't.
fn byte_test_holds(
    fetch: &Fetch,
    negated: bool,
    cmp: Cmp,
    value: Num,
    payload: &[u8],
    place: usize,
    values: &Values,
) -> bool
    requires { IsShort fetch.now.base fetch.now.bytes }
    ensures { (means : Means) → IsTrue result
        ↔ LeadsFrom means payload.now values.now (opt.ByteTest fetch.now negated cmp value) place place }
{
    match fetched_number(fetch, payload, place, values) {
        None => false,
        Some(read) => unless(negated, compares(cmp, read.number, number(values, value))),
    }
}

/// Whether a fetched number compares with a value.
fn compares(cmp: Cmp, number: u64, value: i128) -> bool
    requires { IsSmall value }
    ensures { IsTrue result ↔ Compares cmp number value }
{
    let wide = i128::from(number);
    match cmp {
        Cmp::Eq | Cmp::Within => wide == value,
        Cmp::Ne => wide != value,
        Cmp::Lt => wide < value,
        Cmp::Gt => wide > value,
        Cmp::Le => wide <= value,
        Cmp::Ge => wide >= value,
        Cmp::And => shares_bit(number, value),
    }
}

/// Whether two numbers have a bit in common.
fn shares_bit(number: u64, value: i128) -> bool
    requires { IsSmall value }
    ensures { IsTrue result ↔ SharesBit number value }
{
    value >= 0 && number & (value as u64) != 0
}

// ---- byte_jump

/// Where a `byte_jump` leads from a place: nowhere, unless a number is there.
fn place_after_byte_jump(
    fetch: &Fetch,
    times: u32,
    align: bool,
    beginning: bool,
    post: i32,
    payload: &[u8],
    place: usize,
    values: &Values,
) -> Option<usize>
    requires short { IsShort fetch.now.base fetch.now.bytes }
    requires times { times ≤ 65535 }
    ensures only { (means : Means) → LeadsOnlyTo
        (LeadsFrom means payload.now values.now (opt.ByteJump fetch.now times align beginning post) place) result }
    ensures inside { IfSome result (λ q. q ≤ length payload.now) }
{
    match fetched_number(fetch, payload, place, values) {
        None => None,
        Some(read) => byte_jump_place(read, times, align, beginning, post, payload.len()),
    }
}

/// Where the jump by a fetched number leads, and `post_offset` bytes more.
fn byte_jump_place(
    read: Fetched,
    times: u32,
    align: bool,
    beginning: bool,
    post: i32,
    len: usize,
) -> Option<usize>
    requires small { read.number < 2 ^ 41 }
    requires times { times ≤ 65535 }
    ensures { PlaceIn (pos ((if beginning then 0 else read.stop) + byte_jump_len times align read.number) +ℤ post) len result }
{
    let start = byte_jump_start(beginning, read.stop);
    let far = byte_jump_len(times, align, read.number);
    place_in(start as i128 + i128::from(far) + i128::from(post), len)
}

/// `from_beginning`: where the jump counts from.
fn byte_jump_start(beginning: bool, stop: usize) -> usize
    ensures { result ≡ (if beginning then 0 else stop) }
{
    if beginning { 0 } else { stop }
}

/// `multiplier`, then `align`: how far the jump goes.
fn byte_jump_len(times: u32, align: bool, number: u64) -> u64
    requires small { number < 2 ^ 41 }
    requires times { times ≤ 65535 }
    ensures { result ≡ byte_jump_len times align number }
{
    rounded_up(if align { 4 } else { 0 }, number * u64::from(times))
}

/// A whole number as a place up to the payload's end.
fn place_in(place: i128, len: usize) -> Option<usize>
    ensures { PlaceIn place len result }
{
    if place < 0 || place > len as i128 {
        return None;
    }
    Some(place as usize)
}
