//! The texts of a configuration's rules and classes.
ghost use Rattle.std.specs.Prelude.{◌≡◌, ℕ, [], OnOk, IfOk};
ghost use Rattle.std.specs.Ordering.{nat_cmp};
ghost use Rattle.std.specs.BTreeMap.{get};
ghost use Rattle.alert_fast.specs.Line.{text_of};
ghost use Rattle.snort_eve.specs.Texts.{AreTexts, class_text, mark_of, message_in, message_of, texts_of};

use conf_types::{Classes, Config};
use edge_io::{NoMemory, Text};
use rule_types::Rule;
use snort_setup::Setup;
use std::alloc::Global;
use std::collections::BTreeMap;

/// The messages of rules, by the numbers of their generators and their own, and classes in their order.
#[derive(Drop)]
pub(crate) struct Texts {
    messages: BTreeMap<u64, Text>,
    classes: Classes,
}

/// The number under which a rule's message is kept.
fn mark_of(gid: u32, sid: u32) -> u64
    ensures { result ≡ mark_of gid sid }
{
    gid as u64 * 4_294_967_296 + sid as u64
}

/// Keeps the messages of rules, in place of those of their numbers that were kept before.
fn keep_messages(
    alloc: Global,
    rules: &[Rule],
    messages: &mut BTreeMap<u64, Text>,
) -> Result<(), NoMemory>
    ensures { OnOk result ((mark : ℕ)
        → get nat_cmp messages.new mark ≡ message_in rules.now mark (get nat_cmp messages.old mark)) }
{
    for rule in rules {
        let text = Text::copy(alloc, rule.msg.bytes())?;
        messages.insert(mark_of(rule.gid, rule.sid), text)?;
    }
    Ok(())
}

/// The text of the class at this place, empty without one.
fn text_at(classes: &Classes, place: u32) -> &[u8]
    ensures { result.now ≡ text_of classes.now place }
{
    if (place as usize) < classes.len() {
        classes.text(place)
    } else {
        b""
    }
}

impl Texts {
    /// No texts.
    pub(crate) fn none(alloc: Global) -> Texts
        ensures { AreTexts (texts_of result) [] [] }
    {
        Texts {
            messages: BTreeMap::new(alloc),
            classes: Classes::new(alloc),
        }
    }

    /// Those of rules and classes.
    fn of(alloc: Global, rules: &[Rule], classes: Classes) -> Result<Texts, NoMemory>
        ensures { IfOk result (λ texts. AreTexts (texts_of texts) rules.now classes) }
    {
        let mut messages = BTreeMap::new(alloc);
        keep_messages(alloc, rules, &mut messages)?;
        Ok(Texts { messages, classes })
    }

    /// Those of what a configuration gives, of which nothing else is kept.
    pub(crate) fn of_setup<P: Drop>(alloc: Global, setup: Setup<P>) -> Result<Texts, NoMemory>
        ensures { IfOk result (λ texts. AreTexts (texts_of texts) setup.set.rules setup.config.classes) }
    {
        let Setup { config, set, .. } = setup;
        let Config { classes, .. } = config;
        Texts::of(alloc, set.rules(), classes)
    }

    /// The message of the rule of these numbers, empty without one.
    pub(crate) fn message(&self, gid: u32, sid: u32) -> &[u8]
        ensures { result.now ≡ message_of (texts_of self.now) gid sid }
    {
        match self.messages.get(&mark_of(gid, sid)) {
            Some(text) => text.bytes(),
            None => b"",
        }
    }

    /// The text of the class at a place from 1 on, empty without one.
    #[tactic(auto, unfolding(crate::specs::Texts::class_text))]
    pub(crate) fn class_text(&self, place: u32) -> &[u8]
        ensures { result.now ≡ class_text (texts_of self.now) place }
    {
        if place == 0 {
            b""
        } else {
            text_at(&self.classes, place - 1)
        }
    }
}
