//! Options that name a rule: msg, gid, sid, rev, priority and classtype.
ghost use Rattle.std.specs.Prelude.{◌≡◌, MatchResult, Ok, Err};
ghost use Rattle.net_lists.specs.Stops.{Gives};
ghost use Rattle.rule_parser.specs.Texts.{once, gid_option, sid_option, rev_option, priority_option, quoted_whole, message, msg_option, class_named, classtype_option};
ghost use Rattle.conf_types.specs.Classes.{class_place};
ghost use Rattle.rule_parser.specs.Drafts.{with_new};

use crate::draft::{ClassName, RuleDraft};
use crate::fault::Fault;
use crate::quoted::{Style, meaning, quoted};
use conf_types::Classes;
use edge_io::Text;
use net_lists::{Stop, number_in};
use std::alloc::Global;

/// Bytes that a message may have.
const MOST_MESSAGE: usize = 1024;

/// A number from `least` on that may be given once.
#[tactic(auto, unfolding(crate::specs::Texts::once))]
fn once(before: Option<u32>, least: u32, value: &[u8]) -> Result<u32, Fault>
    ensures { result ≡ once before least value.now }
{
    let Some(number) = number_in(least, u32::MAX, value) else {
        return Err(Fault::OptionValue);
    };
    if before.is_some() {
        return Err(Fault::OptionValue);
    }
    Ok(number)
}

#[tactic(auto, unfolding(crate::specs::Texts::gid_option))]
pub(crate) fn gid_option(draft: &mut RuleDraft, value: &[u8]) -> Result<(), Fault>
    ensures { with_new result draft.new ≡ gid_option draft.old value.now }
{
    let gid = once(draft.gid, 1, value)?;
    draft.gid = Some(gid);
    Ok(())
}

#[tactic(auto, unfolding(crate::specs::Texts::sid_option))]
pub(crate) fn sid_option(draft: &mut RuleDraft, value: &[u8]) -> Result<(), Fault>
    ensures { with_new result draft.new ≡ sid_option draft.old value.now }
{
    let sid = once(draft.sid, 1, value)?;
    draft.sid = Some(sid);
    Ok(())
}

#[tactic(auto, unfolding(crate::specs::Texts::rev_option))]
pub(crate) fn rev_option(draft: &mut RuleDraft, value: &[u8]) -> Result<(), Fault>
    ensures { with_new result draft.new ≡ rev_option draft.old value.now }
{
    let rev = once(draft.rev, 0, value)?;
    draft.rev = Some(rev);
    Ok(())
}

#[tactic(auto, unfolding(crate::specs::Texts::priority_option))]
pub(crate) fn priority_option(draft: &mut RuleDraft, value: &[u8]) -> Result<(), Fault>
    ensures { with_new result draft.new ≡ priority_option draft.old value.now }
{
    let priority = once(draft.priority, 0, value)?;
    draft.priority = Some(priority);
    Ok(())
}

/// What is between quotes, after which nothing comes.
#[tactic(auto, unfolding(crate::specs::Texts::quoted_whole))]
pub(crate) fn quoted_whole(value: &[u8]) -> Result<&[u8], Fault>
    ensures { MatchResult result (λ inside. quoted_whole value.now ≡ Ok inside.now) (λ fault. quoted_whole value.now
        ≡ Err fault) }
{
    let Some((inside, after)) = quoted(value) else {
        return Err(Fault::OptionValue);
    };
    if !after.is_empty() {
        return Err(Fault::OptionValue);
    }
    Ok(inside)
}

/// The message of a value, which may be given once.
#[tactic(auto, unfolding(crate::specs::Texts::message))]
fn message(alloc: Global, is_given: bool, value: &[u8]) -> Result<Text, Stop<Fault>>
    ensures { Gives result (message is_given value.now) }
{
    let inside = quoted_whole(value)?;
    let msg = meaning(alloc, Style::Message, inside)?;
    if is_given {
        return Err(Stop::Wrong(Fault::OptionValue));
    }
    if msg.bytes().len() > MOST_MESSAGE {
        return Err(Stop::Wrong(Fault::Limit));
    }
    Ok(msg)
}

#[tactic(auto, unfolding(crate::specs::Texts::msg_option))]
pub(crate) fn msg_option(
    alloc: Global,
    draft: &mut RuleDraft,
    value: &[u8],
) -> Result<(), Stop<Fault>>
    ensures { Gives (with_new result draft.new) (msg_option draft.old value.now) }
{
    let msg = message(alloc, draft.msg.is_some(), value)?;
    draft.msg = Some(msg);
    Ok(())
}

/// The class of a name among the configuration's.
fn class_named(place: Option<u32>) -> ClassName
    ensures { result ≡ class_named place }
{
    match place {
        None => ClassName::Unknown,
        Some(place) => ClassName::Known(place),
    }
}

#[tactic(auto, unfolding(crate::specs::Texts::classtype_option))]
pub(crate) fn classtype_option(
    classes: &Classes,
    draft: &mut RuleDraft,
    value: &[u8],
) -> Result<(), Fault>
    ensures { with_new result draft.new ≡ classtype_option (class_place classes.now) draft.old value.now }
{
    if value.is_empty() || draft.class.is_some() {
        return Err(Fault::OptionValue);
    }
    let class = class_named(classes.find(value));
    draft.class = Some(class);
    Ok(())
}
