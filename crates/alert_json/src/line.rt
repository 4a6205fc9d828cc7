//! The line of an event.
ghost use Rattle.std.specs.Prelude.{◌≡◌, ◌++◌, [], IfOk, OnOk, OnErr};
ghost use Rattle.alert_json.specs.Facts.{event_facts, run_facts};
ghost use Rattle.alert_json.specs.Tokens.{Adds};
ghost use Rattle.alert_json.specs.Value.{event_fields, event_value, event_text, event_line};
ghost use Rattle.alert_json.specs.Reading.{IsTextOf};

use crate::event::{Event, RunFields};
use crate::fields::{push_alert, push_flow, push_packet, push_run, push_time};
use crate::flow_ids::number_hash;
use edge_io::NoMemory;
use json::Writer;
use std::alloc::Global;

// How many bytes a line has room for at first. Most events fit, so that it needn't grow step by step.
const ROOM: usize = 1024;

/// Appends the line of an event: a JSON object, and a line feed.
///
/// Where memory is lacking, nothing is appended.
pub fn push_event(
    alloc: Global,
    event: &Event<'_>,
    run: &RunFields<'_>,
    out: &mut Vec<u8>,
) -> Result<(), NoMemory>
    ensures appended { OnOk result
        (out.new.items ≡ out.old.items ++ event_line (event_facts event.now) (run_facts run.now)) }
    ensures reads_back { OnOk result
        (IsTextOf (event_value (event_facts event.now) (run_facts run.now))
        (event_text (event_facts event.now) (run_facts run.now))) }
    ensures unchanged { OnErr result (out.new.items ≡ out.old.items) }
{
    let mut line = event_bytes(alloc, *event, *run)?;
    line.push(b'\n')?;
    out.extend_from_slice(&line)?;
    Ok(())
}

// The text of an event.
fn event_bytes(alloc: Global, event: Event<'_>, run: RunFields<'_>) -> Result<Vec<u8>, NoMemory>
    ensures text { IfOk result (λ text. text.items ≡ event_text (event_facts event.entry) (run_facts run.entry)) }
    ensures reads_back { OnOk result
        (IsTextOf (event_value (event_facts event.entry) (run_facts run.entry))
        (event_text (event_facts event.entry) (run_facts run.entry))) }
{
    let text = Vec::with_capacity(alloc, ROOM)?;
    let mut writer = Writer::new(text);
    writer.begin_object()?;
    push_members(alloc, &mut writer, event, run)?;
    writer.end_object()?;
    Ok(writer.into_inner())
}

#[tactic(auto, unfolding(crate::specs::Value::event_fields))]
fn push_members(
    alloc: Global,
    writer: &mut Writer,
    event: Event<'_>,
    run: RunFields<'_>,
) -> Result<(), NoMemory>
    ensures added { OnOk result (Adds writer.old.tokens writer.new.tokens
        (event_fields (event_facts event.entry) (run_facts run.entry))) }
    ensures before { writer.new.before ≡ writer.old.before }
{
    let hash = number_hash(event.flow);
    push_time(writer, event, hash)?;
    push_flow(alloc, writer, run.seed, event.flow, hash)?;
    push_alert(alloc, writer, event.alert)?;
    push_packet(alloc, writer, event.packet)?;
    push_run(alloc, writer, run)?;
    Ok(())
}
