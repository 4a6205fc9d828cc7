//! The `config` lines.
ghost use Rattle.std.specs.Prelude.{◌≡◌, false, option_copied};
ghost use Rattle.net_lists.specs.Stops.{Gives};
ghost use Rattle.conf_parser.specs.Config.{class_with, class_of, with_class, classification, checks_after, checksum_mode, event_order, queue_setting, event_queue, stops_inserts, detection};
ghost use Rattle.std.specs.List.{list_any};
ghost use Rattle.net_lists.specs.Cutting.{settings};
ghost use Rattle.conf_parser.specs.Values.{with_new};

use crate::line::ConfKind;
use crate::options::{SettingStep, change_by_settings};
use crate::settings::{ALL_CHECKS, NO_CHECKS};
use crate::value::put_or_stop;
use crate::word::is;
use conf_types::{Class, Classes, MOST_CLASSES, QueueLimits};
use edge_io::Text;
use net_lists::{PartStep, Parts, Stop, cut, number_in, trimmed};
use packet_decode::Checks;
use std::alloc::Global;
use std::mem;

/// A class of this name, text and priority.
fn class_with(
    alloc: Global,
    name: &[u8],
    text: &[u8],
    priority: u32,
) -> Result<Class, Stop<ConfKind>>
    ensures { Gives result (class_with name.now text.now priority) }
{
    if name.is_empty() || text.is_empty() {
        return Err(Stop::Wrong(ConfKind::BadValue));
    }
    let name = Text::copy(alloc, name)?;
    let text = Text::copy(alloc, text)?;
    Ok(Class {
        name,
        text,
        priority,
    })
}

/// The class that a line gives.
#[tactic(auto, unfolding(crate::specs::Config::class_of))]
fn class_of(alloc: Global, value: &[u8]) -> Result<Class, Stop<ConfKind>>
    ensures { Gives result (class_of value.now) }
{
    let Some((name, after)) = cut(value, b',') else {
        return Err(Stop::Wrong(ConfKind::BadValue));
    };
    let Some((text, priority)) = cut(after, b',') else {
        return Err(Stop::Wrong(ConfKind::BadValue));
    };
    let Some(priority) = number_in(1, 2147483647, trimmed(priority)) else {
        return Err(Stop::Wrong(ConfKind::BadValue));
    };
    class_with(alloc, trimmed(name), trimmed(text), priority)
}

/// Adds a class to the others, unless its name is there.
#[tactic(auto, unfolding(crate::specs::Config::with_class))]
fn add_class(alloc: Global, classes: &mut Classes, class: Class) -> Result<(), Stop<ConfKind>>
    ensures { Gives (with_new result classes.new) (with_class classes.old class) }
{
    if classes.find(class.name.bytes()).is_some() {
        return Ok(());
    }
    if classes.len() >= MOST_CLASSES {
        return Err(Stop::Wrong(ConfKind::Limit));
    }
    let before = mem::replace(classes, Classes::new(alloc));
    *classes = before.with_class(class)?;
    Ok(())
}

/// `classification`: adds the class of the line.
#[tactic(auto, unfolding(crate::specs::Config::classification))]
pub fn classification(
    alloc: Global,
    classes: &mut Classes,
    value: &[u8],
) -> Result<(), Stop<ConfKind>>
    ensures { Gives (with_new result classes.new) (classification classes.old value.now) }
{
    let class = class_of(alloc, value)?;
    add_class(alloc, classes, class)
}

/// The words of `checksum_mode`.
#[derive(Drop)]
struct ChecksStep;

impl PartStep<Checks, ConfKind> for ChecksStep {
    ghost next_draft = { λ step checks word. checks_after checks word };

    #[tactic(auto, unfolding(crate::specs::Config::checks_after))]
    fn next(&self, checks: Checks, word: &[u8]) -> Result<Checks, ConfKind> {
        if is(word, b"all") {
            Ok(ALL_CHECKS)
        } else if is(word, b"none") {
            Ok(NO_CHECKS)
        } else if is(word, b"noip") {
            Ok(Checks {
                ip: false,
                ..checks
            })
        } else if is(word, b"notcp") {
            Ok(Checks {
                tcp: false,
                ..checks
            })
        } else if is(word, b"noudp") {
            Ok(Checks {
                udp: false,
                ..checks
            })
        } else if is(word, b"noicmp") {
            Ok(Checks {
                icmp: false,
                ..checks
            })
        } else {
            Err(ConfKind::BadValue)
        }
    }
}

/// `checksum_mode`: the checksums that are checked after the line.
#[tactic(auto, unfolding(crate::specs::Config::checksum_mode))]
pub fn checksum_mode(checks: Checks, value: &[u8]) -> Result<Checks, ConfKind>
    ensures { result ≡ checksum_mode checks value.now }
{
    if value.is_empty() {
        return Err(ConfKind::BadValue);
    }
    Parts::words(value).fold_by(&ChecksStep, checks)
}

/// The order of events: whether it goes by priority.
#[tactic(auto, unfolding(crate::specs::Config::event_order))]
fn event_order(value: &[u8]) -> Option<bool>
    ensures { result ≡ event_order value.now }
{
    if is(value, b"priority") {
        Some(true)
    } else if is(value, b"content_length") {
        Some(false)
    } else {
        None
    }
}

/// One setting of `event_queue`.
#[tactic(auto, unfolding(crate::specs::Config::queue_setting))]
fn queue_setting(
    queue: &mut QueueLimits,
    name: &[u8],
    value: Option<&[u8]>,
) -> Result<(), Stop<ConfKind>>
    ensures { Gives (with_new result queue.new) (queue_setting queue.old name.now (option_copied value.entry)) }
{
    let Some(value) = value else {
        return Err(Stop::Wrong(ConfKind::BadValue));
    };
    if is(name, b"max_queue") {
        put_or_stop(&mut queue.max_queue, number_in(1, 1024, value))
    } else if is(name, b"log") {
        put_or_stop(&mut queue.log, number_in(1, 1024, value))
    } else if is(name, b"order_events") {
        put_or_stop(&mut queue.by_priority, event_order(value))
    } else {
        Err(Stop::Wrong(ConfKind::BadValue))
    }
}

/// The settings of `event_queue`.
#[derive(Drop)]
struct QueueStep;

impl SettingStep<QueueLimits> for QueueStep {
    ghost alone = { λ step name. false };

    ghost next_draft = { λ step queue name value. queue_setting queue name value };

    fn is_alone(&self, _name: &[u8]) -> bool {
        false
    }

    fn change(
        &self,
        queue: &mut QueueLimits,
        name: &[u8],
        value: Option<&[u8]>,
    ) -> Result<(), Stop<ConfKind>> {
        queue_setting(queue, name, value)
    }
}

/// `event_queue`: the limits of the queue after the line.
#[tactic(auto, unfolding(crate::specs::Config::event_queue))]
pub fn event_queue(queue: &mut QueueLimits, value: &[u8]) -> Result<(), Stop<ConfKind>>
    ensures { Gives (with_new result queue.new) (event_queue queue.old value.now) }
{
    change_by_settings(value, &QueueStep, queue)
}

/// `detection`: whether packets whose data are queued are tried themselves, after the line.
#[tactic(auto, unfolding(crate::specs::Config::detection))]
pub fn detection(inserts: bool, value: &[u8]) -> bool
    ensures { result ≡ detection inserts value.now }
{
    inserts && !stops_inserts(value)
}

/// Whether `no_stream_inserts` is among the words.
fn stops_inserts(value: &[u8]) -> bool
    ensures { result ≡ list_any stops_inserts (settings value.now) }
{
    for word in Parts::settings(value) {
        if is(word, b"no_stream_inserts") {
            return true;
        }
    }
    false
}
