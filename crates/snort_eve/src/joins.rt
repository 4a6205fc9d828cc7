//! Events of Unified2 joined with their packets, and their lines.
ghost use Rattle.std.specs.Prelude.{◌≡◌, ◌++◌, ℕ, List, Some, OnOk, IfOk, option_map};
ghost use Rattle.snort_eve.specs.Joins.{Joined, belongs, after_packet, waiting, flushed, by_packet, completed, held_after, completed_by, joined_of, lines_of};

use edge_io::NoMemory;
use std::alloc::Global;
use unified2_out::{U2, U2Event, U2Packet};

/// What writes the line of an event.
pub(crate) trait Teller {
    ghost line: { Self → Joined → List ℕ };

    /// Appends the line of an event, with its packet where one follows it.
    fn push_line(
        &self,
        alloc: Global,
        event: &U2Event,
        packet: Option<&U2Packet>,
        out: &mut Vec<u8>,
    ) -> Result<(), NoMemory>
        ensures appended { OnOk result (out.new.items ≡ out.old.items
            ++ line self.now (joined_of event.now (option_map (λ p. p.now) packet.entry))) };
}

#[tactic(auto, unfolding(crate::specs::Joins::belongs))]
fn belongs(event: &U2Event, packet: &U2Packet) -> bool
    ensures { result ≡ belongs event.now packet.now }
{
    event.sensor == packet.sensor && (event.id == packet.id && event.second == packet.event_second)
}

/// The event that waits for its packet behind a record.
#[tactic(auto, unfolding(crate::specs::Joins::waiting))]
fn waiting(held: Option<U2Event>, entry: &U2) -> Option<U2Event>
    ensures { result ≡ waiting held entry.now }
{
    match entry {
        U2::Event(event) => Some(*event),
        U2::Packet(packet) => after_packet(held, packet),
        U2::Other { .. } => held,
    }
}

#[tactic(auto, unfolding(crate::specs::Joins::after_packet))]
fn after_packet(held: Option<U2Event>, packet: &U2Packet) -> Option<U2Event>
    ensures { result ≡ after_packet held packet.now }
{
    match held {
        None => None,
        Some(event) => {
            if belongs(&event, packet) {
                None
            } else {
                Some(event)
            }
        }
    }
}

/// Appends the line of an event that waits for no packet.
pub(crate) fn push_flushed<T: Teller>(
    alloc: Global,
    teller: &T,
    held: Option<U2Event>,
    out: &mut Vec<u8>,
) -> Result<(), NoMemory>
    ensures { OnOk result (out.new.items ≡ out.old.items ++ lines_of (T.line teller.now) (flushed held)) }
{
    match held {
        None => Ok(()),
        Some(event) => teller.push_line(alloc, &event, None, out),
    }
}

#[tactic(auto, unfolding(crate::specs::Joins::by_packet))]
fn push_with_packet<T: Teller>(
    alloc: Global,
    teller: &T,
    held: Option<U2Event>,
    packet: &U2Packet,
    out: &mut Vec<u8>,
) -> Result<(), NoMemory>
    ensures { OnOk result (out.new.items
        ≡ out.old.items ++ lines_of (T.line teller.now) (by_packet held packet.now)) }
{
    match held {
        None => Ok(()),
        Some(event) => {
            if belongs(&event, packet) {
                teller.push_line(alloc, &event, Some(packet), out)
            } else {
                Ok(())
            }
        }
    }
}

/// Appends the lines of the events that a record completes.
#[tactic(auto, unfolding(crate::specs::Joins::completed))]
fn push_completed<T: Teller>(
    alloc: Global,
    teller: &T,
    held: Option<U2Event>,
    entry: &U2,
    out: &mut Vec<u8>,
) -> Result<(), NoMemory>
    ensures { OnOk result (out.new.items
        ≡ out.old.items ++ lines_of (T.line teller.now) (completed held entry.now)) }
{
    match entry {
        U2::Event(_) => push_flushed(alloc, teller, held, out),
        U2::Packet(packet) => push_with_packet(alloc, teller, held, packet, out),
        U2::Other { .. } => Ok(()),
    }
}

/// Appends the lines of the events that records complete, and gives the event that waits behind them.
pub(crate) fn push_all<T: Teller>(
    alloc: Global,
    teller: &T,
    held: Option<U2Event>,
    entries: &[U2],
    out: &mut Vec<u8>,
) -> Result<Option<U2Event>, NoMemory>
    ensures waits { IfOk result (λ now. now ≡ held_after held entries.now) }
    ensures written { OnOk result (out.new.items
        ≡ out.old.items ++ lines_of (T.line teller.now) (completed_by held entries.now)) }
{
    let mut waits = held;
    for entry in entries {
        push_completed(alloc, teller, waits, entry, out)?;
        waits = waiting(waits, entry);
    }
    Ok(waits)
}
