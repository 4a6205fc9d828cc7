//! The lines `event_filter` and `suppress`.
ghost use Rattle.std.specs.Prelude.{◌≡◌, Some, option_copied};
ghost use Rattle.conf_parser.specs.Values.{mapped, with_new};
ghost use Rattle.net_lists.specs.Stops.{Gives};
ghost use Rattle.conf_parser.specs.Events.{track_of, is_source, filter_name, filter_kind, once, filter_value, filter_part, no_parts, filter_of, read_filter, has_filter, with_filter, event_filter, next_word, part_after, is_named, suppress_value, placed_part, suppress_part, first_part, tracked, suppress_of, read_suppress, with_suppress, suppress};

use crate::line::ConfKind;
use crate::value::{put_addresses, put_or_stop, put_some};
use crate::word::is;
use conf_types::{EventFilter, FilterKind, Suppress, Track};
use edge_io::Items;
use net_lists::{AddrList, PartStep, Parts, Stop, TryPartStep, Vars, first_word, number_in};
use std::alloc::Global;

/// Event filters, and suppress lines, that a configuration may have.
const MOST_LINES: usize = 1024;

/// The parts of an event filter.
#[derive(Clone, Copy)]
pub enum FilterName {
    GenId,
    SigId,
    Type,
    Track,
    Count,
    Seconds,
}

/// The parts of an event filter that were read.
#[derive(Clone, Copy)]
pub struct FilterDraft {
    pub gid: Option<u32>,
    pub sid: Option<u32>,
    pub kind: Option<FilterKind>,
    pub track: Option<Track>,
    pub count: Option<u32>,
    pub seconds: Option<u32>,
}

/// The part of a suppress line that comes next.
#[derive(Clone, Copy)]
pub enum NextPart {
    GenId,
    SigId,
    Track,
    Ip,
    End,
}

/// The parts of a suppress line that were read.
#[derive(Drop)]
pub struct SuppressDraft {
    pub next: NextPart,
    /// A part was given without its value.
    pub lacks: bool,
    pub gid: u32,
    pub sid: u32,
    pub track: Option<Track>,
    pub list: Option<AddrList>,
}

/// The address that is tracked.
#[tactic(auto, unfolding(crate::specs::Events::track_of))]
fn track_of(value: &[u8]) -> Option<Track>
    ensures { result ≡ track_of value.now }
{
    if is(value, b"by_src") {
        Some(Track::BySrc)
    } else if is(value, b"by_dst") {
        Some(Track::ByDst)
    } else {
        None
    }
}

/// The part of an event filter that a word names.
#[tactic(auto, unfolding(crate::specs::Events::filter_name))]
fn filter_name(word: &[u8]) -> Option<FilterName>
    ensures { result ≡ filter_name word.now }
{
    if is(word, b"gen_id") {
        Some(FilterName::GenId)
    } else if is(word, b"sig_id") {
        Some(FilterName::SigId)
    } else if is(word, b"type") {
        Some(FilterName::Type)
    } else if is(word, b"track") {
        Some(FilterName::Track)
    } else if is(word, b"count") {
        Some(FilterName::Count)
    } else if is(word, b"seconds") {
        Some(FilterName::Seconds)
    } else {
        None
    }
}

/// How an event filter counts.
#[tactic(auto, unfolding(crate::specs::Events::filter_kind))]
fn filter_kind(value: &[u8]) -> Option<FilterKind>
    ensures { result ≡ filter_kind value.now }
{
    if is(value, b"limit") {
        Some(FilterKind::Limit)
    } else if is(value, b"threshold") {
        Some(FilterKind::Threshold)
    } else if is(value, b"both") {
        Some(FilterKind::Both)
    } else {
        None
    }
}

/// Puts what a value spells in the place of a part that is given for the first time.
fn put_once<T: Copy>(place: &mut Option<T>, value: Option<T>) -> Result<(), ConfKind>
    ensures { with_new result place.new ≡ mapped (λ part. Some part) (once place.old value) }
{
    if place.is_some() {
        return Err(ConfKind::BadValue);
    }
    let Some(part) = value else {
        return Err(ConfKind::BadValue);
    };
    *place = Some(part);
    Ok(())
}

/// A part of this name.
fn filter_value(draft: &mut FilterDraft, name: FilterName, value: &[u8]) -> Result<(), ConfKind>
    ensures { with_new result draft.new ≡ filter_value draft.old name value.now }
{
    match name {
        FilterName::GenId => put_once(&mut draft.gid, number_in(0, 4294967295, value)),
        FilterName::SigId => put_once(&mut draft.sid, number_in(0, 4294967295, value)),
        FilterName::Type => put_once(&mut draft.kind, filter_kind(value)),
        FilterName::Track => put_once(&mut draft.track, track_of(value)),
        FilterName::Count => put_once(&mut draft.count, number_in(1, 4294967295, value)),
        FilterName::Seconds => put_once(&mut draft.seconds, number_in(1, 4294967295, value)),
    }
}

/// The parts of an event filter.
#[derive(Drop)]
struct FilterStep;

impl PartStep<FilterDraft, ConfKind> for FilterStep {
    ghost next_draft = { λ step draft part. filter_part draft part };

    #[tactic(auto, unfolding(crate::specs::Events::filter_part))]
    fn next(&self, draft: FilterDraft, part: &[u8]) -> Result<FilterDraft, ConfKind> {
        let (word, value) = first_word(part);
        let Some(name) = filter_name(word) else {
            return Err(ConfKind::BadValue);
        };
        let mut draft = draft;
        filter_value(&mut draft, name, value)?;
        Ok(draft)
    }
}

/// Whether the source is tracked.
fn is_source(track: Track) -> bool
    ensures { result ≡ is_source track }
{
    match track {
        Track::BySrc => true,
        Track::ByDst => false,
    }
}

/// The filter, where all six parts were given.
#[tactic(auto, unfolding(crate::specs::Events::filter_of))]
fn filter_of(draft: FilterDraft) -> Result<EventFilter, ConfKind>
    ensures { result ≡ filter_of draft }
{
    let FilterDraft {
        gid: Some(gid),
        sid: Some(sid),
        kind: Some(kind),
        track: Some(track),
        count: Some(count),
        seconds: Some(seconds),
    } = draft
    else {
        return Err(ConfKind::BadValue);
    };
    if gid == 0 && sid != 0 {
        return Err(ConfKind::BadValue);
    }
    Ok(EventFilter {
        gid,
        sid,
        kind,
        by_src: is_source(track),
        count,
        seconds,
    })
}

/// Whether a filter of this generator and rule is there.
#[tactic(auto, unfolding(crate::specs::Events::has_filter))]
fn has_filter(filters: &[EventFilter], gid: u32, sid: u32) -> bool
    ensures { result ≡ has_filter filters.now gid sid }
{
    filters
        .iter()
        .any(|filter| filter.gid == gid && filter.sid == sid)
}

/// Adds one filter more.
#[tactic(auto, unfolding(crate::specs::Events::with_filter))]
fn add_filter(filters: &mut Items<EventFilter>, filter: EventFilter) -> Result<(), Stop<ConfKind>>
    ensures { Gives (with_new result filters.new) (with_filter filters.old filter) }
{
    if has_filter(filters.as_slice(), filter.gid, filter.sid) {
        return Err(Stop::Wrong(ConfKind::Duplicate));
    }
    if filters.as_slice().len() >= MOST_LINES {
        return Err(Stop::Wrong(ConfKind::Limit));
    }
    filters.push(filter)?;
    Ok(())
}

/// The filter that a line gives.
#[tactic(auto, unfolding(crate::specs::Events::read_filter))]
fn read_filter(rest: &[u8]) -> Result<EventFilter, ConfKind>
    ensures { result ≡ read_filter rest.now }
{
    let none = FilterDraft {
        gid: None,
        sid: None,
        kind: None,
        track: None,
        count: None,
        seconds: None,
    };
    let draft = Parts::commas(rest).fold_by(&FilterStep, none)?;
    filter_of(draft)
}

/// `event_filter`: adds the filter of the line.
#[tactic(auto, unfolding(crate::specs::Events::event_filter))]
pub fn event_filter(filters: &mut Items<EventFilter>, rest: &[u8]) -> Result<(), Stop<ConfKind>>
    ensures { Gives (with_new result filters.new) (event_filter filters.old rest.now) }
{
    let filter = read_filter(rest)?;
    add_filter(filters, filter)
}

impl NextPart {
    /// What the part begins with; None after the last.
    fn word(self) -> Option<&'static [u8]>
        ensures { option_copied result ≡ next_word self }
    {
        match self {
            NextPart::GenId => Some(b"gen_id".as_slice()),
            NextPart::SigId => Some(b"sig_id".as_slice()),
            NextPart::Track => Some(b"track".as_slice()),
            NextPart::Ip => Some(b"ip".as_slice()),
            NextPart::End => None,
        }
    }

    /// The part after this one.
    fn after(self) -> NextPart
        ensures { result ≡ part_after self }
    {
        match self {
            NextPart::GenId => NextPart::SigId,
            NextPart::SigId => NextPart::Track,
            NextPart::Track => NextPart::Ip,
            NextPart::Ip => NextPart::End,
            NextPart::End => NextPart::End,
        }
    }

    /// Whether a part that begins with this word may come here.
    fn is_named(self, word: &[u8]) -> bool
        ensures { result ≡ is_named (next_word self) word.now }
    {
        match self.word() {
            Some(wanted) => is(word, wanted),
            None => false,
        }
    }
}

/// The value of the next part.
fn suppress_value(
    alloc: Global,
    vars: &Vars,
    draft: &mut SuppressDraft,
    next: NextPart,
    value: &[u8],
) -> Result<(), Stop<ConfKind>>
    ensures { Gives (with_new result draft.new) (suppress_value vars.now draft.old next value.now) }
{
    match next {
        NextPart::GenId => put_or_stop(&mut draft.gid, number_in(0, 4294967295, value)),
        NextPart::SigId => put_or_stop(&mut draft.sid, number_in(0, 4294967295, value)),
        NextPart::Track => put_some(&mut draft.track, track_of(value)),
        NextPart::Ip => put_addresses(alloc, vars, &mut draft.list, value),
        NextPart::End => Err(Stop::Wrong(ConfKind::BadValue)),
    }
}

/// A part that is in its place, with its value or without.
#[tactic(auto, unfolding(crate::specs::Events::placed_part))]
fn placed_part(
    alloc: Global,
    vars: &Vars,
    draft: &mut SuppressDraft,
    value: &[u8],
) -> Result<(), Stop<ConfKind>>
    ensures { Gives (with_new result draft.new) (placed_part vars.now draft.old value.now) }
{
    let next = draft.next;
    if value.is_empty() {
        draft.next = next.after();
        draft.lacks = true;
        return Ok(());
    }
    suppress_value(alloc, vars, draft, next, value)?;
    draft.next = next.after();
    Ok(())
}

/// The parts of a suppress line.
#[derive(Drop)]
struct SuppressStep<'a> {
    alloc: Global,
    vars: &'a Vars,
}

impl<'a> TryPartStep<SuppressDraft, ConfKind> for SuppressStep<'a> {
    ghost next_draft = { λ step draft part. suppress_part step.vars.now draft part };

    #[tactic(auto, unfolding(crate::specs::Events::suppress_part))]
    fn try_next(&self, draft: SuppressDraft, part: &[u8]) -> Result<SuppressDraft, Stop<ConfKind>> {
        let (word, value) = first_word(part);
        if !draft.next.is_named(word) {
            return Err(Stop::Wrong(ConfKind::BadValue));
        }
        let mut draft = draft;
        placed_part(self.alloc, self.vars, &mut draft, value)?;
        Ok(draft)
    }
}

/// The line that four parts give.
fn tracked(draft: SuppressDraft) -> Result<Suppress, ConfKind>
    ensures { result ≡ tracked draft }
{
    let (Some(track), Some(list)) = (draft.track, draft.list) else {
        return Err(ConfKind::BadValue);
    };
    Ok(Suppress {
        gid: draft.gid,
        sid: draft.sid,
        track: Some((track, list)),
    })
}

/// The line, where two or four parts were given, each with its value.
#[tactic(auto, unfolding(crate::specs::Events::suppress_of))]
fn suppress_of(draft: SuppressDraft) -> Result<Suppress, ConfKind>
    ensures { result ≡ suppress_of draft }
{
    if draft.lacks {
        return Err(ConfKind::BadValue);
    }
    match draft.next {
        NextPart::Track => Ok(Suppress {
            gid: draft.gid,
            sid: draft.sid,
            track: None,
        }),
        NextPart::End => tracked(draft),
        NextPart::GenId | NextPart::SigId | NextPart::Ip => Err(ConfKind::BadValue),
    }
}

/// Adds one suppress line more.
#[tactic(auto, unfolding(crate::specs::Events::with_suppress))]
fn add_suppress(lines: &mut Items<Suppress>, line: Suppress) -> Result<(), Stop<ConfKind>>
    ensures { Gives (with_new result lines.new) (with_suppress lines.old line) }
{
    if lines.as_slice().len() >= MOST_LINES {
        return Err(Stop::Wrong(ConfKind::Limit));
    }
    lines.push(line)?;
    Ok(())
}

/// The suppress line that a text gives.
#[tactic(auto, unfolding(crate::specs::Events::read_suppress))]
fn read_suppress(alloc: Global, vars: &Vars, rest: &[u8]) -> Result<Suppress, Stop<ConfKind>>
    ensures { Gives result (read_suppress vars.now rest.now) }
{
    let first = SuppressDraft {
        next: NextPart::GenId,
        lacks: false,
        gid: 0,
        sid: 0,
        track: None,
        list: None,
    };
    let draft = Parts::commas(rest).try_fold_by(&SuppressStep { alloc, vars }, first)?;
    let line = suppress_of(draft)?;
    Ok(line)
}

/// `suppress`: adds what the line says.
#[tactic(auto, unfolding(crate::specs::Events::suppress))]
pub fn suppress(
    alloc: Global,
    vars: &Vars,
    lines: &mut Items<Suppress>,
    rest: &[u8],
) -> Result<(), Stop<ConfKind>>
    ensures { Gives (with_new result lines.new) (suppress vars.now lines.old rest.now) }
{
    let line = read_suppress(alloc, vars, rest)?;
    add_suppress(lines, line)
}
