//! Alerts on their way to the sink: their texts are made one after another, and written in blocks.
ghost use Rattle.std.specs.Prelude.{◌≡◌, ◌≢◌, ◌<◌, ◌≤◌, [], ◌∷◌, ◌++◌, Err, length, All, OnOk, IfOk};
ghost use Rattle.std.specs.Option.{ForSome};
ghost use Rattle.rule_types.specs.Sound.{IsSound};
ghost use Rattle.alert_lines.specs.Beside.{beside};
ghost use Rattle.alert_lines.specs.Events.{event_of};
ghost use Rattle.alert_lines.specs.Lines.{text_of};
ghost use Rattle.alert_lines.specs.Gathering.{Emits, sending};
ghost use Rattle.alert_lines.specs.Showing.{ShowsPlaces, subject_of};

use crate::fault::WriteFault;
use crate::record::LinkedRecord;
use crate::tally::sum;
use crate::unified2::push_records;
use alert_fast::line;
use command_words::AlertForm;
use conf_types::Classes;
use edge_io::{NoMemory, Sink, write_all};
use packet_decode::ItemHead;
use rule_types::Rule;

/// How many bytes of alerts wait for a write at most, but for the last alert.
const BLOCK: usize = 65_536;

/// An item whose events are shown: in which form, by which classes and rules, and the record whose
/// decoding made its job.
#[derive(Clone, Copy)]
pub(crate) struct Subject<'a> {
    pub form: AlertForm,
    pub classes: &'a Classes,
    pub rules: &'a [Rule],
    pub origin: &'a LinkedRecord,
    pub head: &'a ItemHead,
}

/// Writes the lines that wait, whole. Takes no memory.
pub(crate) fn offer<A: Sink>(block: &mut Vec<u8>, alerts: &mut A) -> Result<(), WriteFault>
    ensures emits { Emits []
        (sending A.Sink block.old.items alerts.old) (sending A.Sink block.new.items alerts.new) result }
    ensures emptied { OnOk result (block.new.items ≡ []) }
    ensures kind { result ≢ Err WriteFault.NoMemory }
{
    match write_all(alerts, block) {
        Ok(()) => {
            block.clear();
            Ok(())
        }
        Err(_stop) => Err(WriteFault::Unwritten),
    }
}

/// Writes the lines that wait, where they fill the block.
fn offer_full<A: Sink>(block: &mut Vec<u8>, alerts: &mut A) -> Result<(), WriteFault>
    ensures emits { Emits []
        (sending A.Sink block.old.items alerts.old) (sending A.Sink block.new.items alerts.new) result }
    ensures kind { result ≢ Err WriteFault.NoMemory }
{
    if block.len() < BLOCK {
        return Ok(());
    }
    offer(block, alerts)
}

/// Appends the text of a rule that alerts on an item, after `before` alerts.
fn push_alert(
    subject: &Subject<'_>,
    before: u128,
    rule: &Rule,
    out: &mut Vec<u8>,
) -> Result<(), NoMemory>
    requires { ForSome rule.now.class (λ class. class < length subject.now.classes.now) }
    ensures { OnOk result (out.new.items ≡ out.old.items
        ++ text_of subject.now.form subject.now.classes.now before
        (beside subject.now.origin.now (event_of subject.now.head.now rule.now))) }
{
    match subject.form {
        AlertForm::Lines => line(subject.head, rule, subject.classes, out),
        AlertForm::Unified2 => push_records(before, subject.origin, subject.head, rule, out),
    }
}

/// Makes the text of a rule that alerts on an item, after those that wait; `before` alerts came before.
fn show_line<A: Sink>(
    subject: &Subject<'_>,
    before: u128,
    rule: &Rule,
    block: &mut Vec<u8>,
    alerts: &mut A,
) -> Result<(), WriteFault>
    requires { ForSome rule.now.class (λ class. class < length subject.now.classes.now) }
    ensures { Emits (text_of subject.now.form subject.now.classes.now before
        (beside subject.now.origin.now (event_of subject.now.head.now rule.now)))
        (sending A.Sink block.old.items alerts.old) (sending A.Sink block.new.items alerts.new) result }
{
    push_alert(subject, before, rule, block)?;
    offer_full(block, alerts)
}

/// Makes the text of the rule at a place, on an item. It tells how many alerts these are.
fn show_place<A: Sink>(
    subject: &Subject<'_>,
    before: u128,
    place: u32,
    block: &mut Vec<u8>,
    alerts: &mut A,
) -> Result<usize, WriteFault>
    requires { All (IsSound subject.now.classes.now) subject.now.rules.now }
    ensures shown { ShowsPlaces (subject_of subject.now) before (place ∷ [])
        (sending A.Sink block.old.items alerts.old) (sending A.Sink block.new.items alerts.new) result }
    ensures few { IfOk result (λ count. count ≤ 1) }
{
    let Some(rule) = subject.rules.get(place as usize) else {
        return Ok(0);
    };
    show_line(subject, before, rule, block, alerts)?;
    Ok(1)
}

/// Makes the texts of the rules at these places, on an item, after `before` alerts. It tells how many
/// alerts these are.
pub(crate) fn show_places<A: Sink>(
    subject: &Subject<'_>,
    before: u128,
    places: &[u32],
    block: &mut Vec<u8>,
    alerts: &mut A,
) -> Result<usize, WriteFault>
    requires { All (IsSound subject.now.classes.now) subject.now.rules.now }
    ensures { ShowsPlaces (subject_of subject.now) before places.now
        (sending A.Sink block.old.items alerts.old) (sending A.Sink block.new.items alerts.new) result }
{
    let mut count = 0;
    for place in places {
        let number = sum(before, count as u128)?;
        count += show_place(subject, number, *place, block, alerts)?;
    }
    Ok(count)
}
