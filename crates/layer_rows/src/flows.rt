//! Keys, and the flows that touches of them find: the calls of flows.

ghost use Rattle.std.specs.Prelude.{◌+◌, ◌^◌, ◌<◌, ◌≤◌};

use crate::addresses::address;
use crate::page::Page;
use crate::row::Row;
use edge_io::NoMemory;
use row_files::TextParts;
use stream5_sessions::{End, Flows, Key, Touch};

/// What `ADDRESS PORT` says.
fn end_of(parts: &mut TextParts<'_>) -> End {
    End {
        addr: address(parts),
        port: parts.short(),
    }
}

/// What `PROTOCOL ADDRESS PORT ADDRESS PORT` says: whether it is TCP, and the two ends.
fn ends_of(text: &str) -> Option<(bool, End, End)> {
    let mut parts = TextParts::of(text, ' ');
    let is_tcp = parts.word() == "tcp";
    let (a, b) = (end_of(&mut parts), end_of(&mut parts));
    if parts.is_read() {
        Some((is_tcp, a, b))
    } else {
        None
    }
}

/// `key PROTOCOL ADDRESS PORT ADDRESS PORT`: which of the two ends is the low one.
pub(crate) fn key(page: &mut Page, given: &str) {
    match ends_of(given) {
        Some((tcp, a, b)) => page.put(if Key::of(tcp, a, b).low == a {
            "first"
        } else {
            "second"
        }),
        None => page.put("not a key"),
    }
}

/// Shows what a touch found.
fn show_touch(page: &mut Page, touch: Touch) {
    page.show(touch.flow);
    if touch.fresh {
        page.put(" begins");
    }
    if let Some(ended) = touch.evicted {
        page.put(" ends ");
        page.show(ended);
    }
    page.put("\n");
}

/// Touches the key between these ends, and shows what that finds.
fn touch(page: &mut Page, flows: &mut Flows, tcp: bool, a: End, b: End)
    requires { flows.old.next < 2 ^ 63 }
    ensures { flows.new.next ≤ flows.old.next + 1 }
{
    match flows.touch(Key::of(tcp, a, b)) {
        Ok(touch) => show_touch(page, touch),
        Err(NoMemory) => page.lacks_memory = true,
    }
}

/// Shows the flows that live.
fn show_live(page: &mut Page, flows: &Flows) {
    let mut live = Vec::new(page.alloc);
    match flows.live(page.alloc, &mut live) {
        Ok(()) => {
            for flow in &live {
                page.show(*flow);
                page.put(" ");
            }
            page.put("live\n");
        }
        Err(NoMemory) => page.lacks_memory = true,
    }
}

/// `live`, or a touch of the key between two ends.
fn run_step(page: &mut Page, flows: &mut Flows, step: &str)
    requires { flows.old.next < 2 ^ 63 }
    ensures { flows.new.next ≤ flows.old.next + 1 }
{
    if step == "live" {
        return show_live(page, flows);
    }
    match ends_of(step) {
        Some((tcp, a, b)) => touch(page, flows, tcp, a, b),
        None => page.put("not a key\n"),
    }
}

/// Runs the steps, at most a thousand.
fn run_steps(page: &mut Page, flows: &mut Flows, steps: &str)
    requires { flows.old.next ≤ 0 }
{
    let mut done = 0u64;
    for step in steps.lines() {
        if done >= 1000 {
            return page.put("broken off\n");
        }
        run_step(page, flows, step);
        done += 1;
    }
}

/// `flows TCP UDP`: of each step what it finds, where at most this many flows of each protocol may live.
pub(crate) fn flows(page: &mut Page, row: &Row, given: &str) {
    let mut given = TextParts::of(given, ' ');
    let (tcp, udp) = (given.number(), given.number());
    if tcp == 0 || udp == 0 {
        return page.put("not a limit");
    }
    match Flows::new(page.alloc, tcp, udp) {
        Ok(mut flows) => run_steps(page, &mut flows, row.steps.as_str()),
        Err(NoMemory) => page.lacks_memory = true,
    }
}
