//! Windows of counted events, by their keys.
ghost use Rattle.std.specs.Prelude.{◌≡◌, ◌+◌, ◌*◌, ◌≤◌, ◌<◌, OnOk, Some, nat_lt, if◌then◌else◌};
ghost use Rattle.std.specs.HashMap.{spare};
ghost use Rattle.event_filters.specs.Keys.{tracked, same_key};
ghost use Rattle.event_filters.specs.declared.counting.CountKey.{CountKey};
ghost use Rattle.event_filters.specs.Windows.{answer_of, next_number, next_window, shows, window_at, windows_after};

use crate::seed::CountSeed;
use edge_io::{Addr, Moment, NoMemory};
use packet_decode::ItemHead;
use std::collections::HashMap;

/// How a line decides by the number of an event in its interval.
#[derive(Clone, Copy, Debug, PartialEq, Eq)]
pub(crate) enum CountKind {
    /// The first `count` events are let through.
    Limit,
    /// Every `count`th event is.
    Threshold,
    /// The `count`th event is.
    Both,
    /// The events after the `count`th are let through.
    Above,
}

/// A line that counts events in intervals of this many seconds.
#[derive(Clone, Copy, Debug, PartialEq, Eq)]
pub(crate) struct CountLine {
    pub kind: CountKind,
    pub count: u32,
    pub seconds: u32,
}

/// What events are counted by: the place of the line, or of the rule with a detection filter, the
/// event's generator and number, the tracked address.
#[derive(Clone, Copy, Debug, PartialEq, Eq, Hash)]
pub(crate) struct CountKey {
    pub place: u32,
    pub gid: u32,
    pub sid: u32,
    pub addr: Addr,
}

/// How an event is counted.
#[derive(Clone, Copy, Debug)]
pub(crate) struct Count {
    pub key: CountKey,
    pub line: CountLine,
}

/// An interval at hand: when it began, in nanoseconds, and the number of its last event as far as the
/// line can tell.
#[derive(Clone, Copy, Debug)]
pub(crate) struct Window {
    pub start: u64,
    pub number: u64,
}

/// Makes room for this many keys more.
pub(crate) fn reserve(windows: &mut Windows, keys: usize) -> Result<(), NoMemory>
    ensures same { (key : CountKey) → window_at windows.new.entries key
        ≡ window_at windows.old.entries key }
    ensures room { OnOk result (keys ≤ spare windows.new) }
{
    windows.reserve(keys)?;
    Ok(())
}

/// The windows of all keys.
pub(crate) type Windows = HashMap<CountKey, Window, CountSeed>;

/// The tracked address of an item.
pub(crate) fn tracked(by_src: bool, head: &ItemHead) -> Addr
    ensures { result ≡ tracked by_src head.now }
{
    if by_src { head.ip.src } else { head.ip.dst }
}

/// The number after this one.
fn next_number(line: CountLine, number: u64) -> u64
    ensures { result ≡ next_number line.kind line.count number }
{
    let count = u64::from(line.count);
    match line.kind {
        CountKind::Threshold => { if number < count { number + 1 } else { 1 } }
        CountKind::Limit | CountKind::Both | CountKind::Above => number.min(count) + 1,
    }
}

/// Whether the line lets through an event with this number.
fn shows(line: CountLine, number: u64) -> bool
    ensures { result ≡ shows line.kind line.count number }
{
    let count = u64::from(line.count);
    match line.kind {
        CountKind::Limit => number <= count,
        CountKind::Threshold | CountKind::Both => number == count,
        CountKind::Above => count < number,
    }
}

/// Whether the moment lies in the window's interval.
fn is_within(line: CountLine, window: Window, moment: u64) -> bool
    ensures { result ≡ nat_lt moment (window.start + line.seconds * 1000000000) }
{
    u128::from(moment) < u128::from(window.start) + u128::from(line.seconds) * 1_000_000_000
}

/// The window once an event has come at this moment.
fn next_window(line: CountLine, window: Option<Window>, moment: u64) -> Window
    ensures { result ≡ next_window line window moment }
{
    if let Some(window) = window {
        if is_within(line, window, moment) {
            return Window {
                start: window.start,
                number: next_number(line, window.number),
            };
        }
    }
    Window {
        start: moment,
        number: 1,
    }
}

/// Counts an event, where it is counted, and tells whether its line lets it through.
pub(crate) fn lets_through(windows: &mut Windows, count: Option<Count>, moment: Moment) -> bool
    requires { 0 < spare windows.old }
    ensures answer { result ≡ answer_of (window_at windows.old.entries) count moment.nanos }
    ensures after { (key : CountKey) → window_at windows.new.entries key
        ≡ windows_after (window_at windows.old.entries) count moment.nanos key }
    ensures room { spare windows.old ≤ spare windows.new + 1 }
{
    match count {
        None => true,
        Some(count) => shows(count.line, counted_window(windows, count, moment).number),
    }
}

/// Counts an event, and gives the window after it.
fn counted_window(windows: &mut Windows, count: Count, moment: Moment) -> Window
    requires { 0 < spare windows.old }
    ensures window { result
        ≡ next_window count.line (window_at windows.old.entries count.key) moment.nanos }
    ensures after { (key : CountKey) → window_at windows.new.entries key
        ≡ (if same_key count.key key then Some result else window_at windows.old.entries key) }
    ensures room { spare windows.old ≤ spare windows.new + 1 }
{
    if let Some(window) = windows.get_mut(&count.key) {
        *window = next_window(count.line, Some(*window), moment.nanos);
        return *window;
    }
    let window = next_window(count.line, None, moment.nanos);
    match windows.insert(count.key, window) {
        Ok(_) => window,
        // There is room, as the caller has to see to.
        Err(_) => unreachable!(),
    }
}
