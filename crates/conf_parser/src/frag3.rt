//! The frag3 lines.
ghost use Rattle.std.specs.Prelude.{◌≡◌, false, Some, option_copied};
ghost use Rattle.net_lists.specs.Numbers.{number_in};
ghost use Rattle.net_lists.specs.Stops.{Gives, or_kind};
ghost use Rattle.conf_parser.specs.Values.{mapped, with_new};
ghost use Rattle.conf_parser.specs.Frag3.{is_unread_global, global_setting, with_max_frags, frag3_global, is_alone, is_unread, engine_setting, has_default, with_engine, frag3_engine};

use crate::draft::FragDraft;
use crate::line::ConfKind;
use crate::options::{SettingStep, change_by_settings};
use crate::value::{put_addresses, put_or_stop, setting_text};
use crate::word::is;
use conf_types::{DEFAULT_FRAG_ENGINE, FragEngine};
use edge_io::FragPolicy;
use net_lists::{Stop, Vars, number_in};
use std::alloc::Global;

/// Engines that a configuration may have.
const MOST_ENGINES: usize = 1024;

/// Whether this setting of `frag3_global` changes nothing.
#[tactic(auto, unfolding(crate::specs::Frag3::is_unread_global))]
fn is_unread_global(name: &[u8]) -> bool
    ensures { result ≡ is_unread_global name.now }
{
    is(name, b"memcap") || is(name, b"prealloc_memcap") || is(name, b"prealloc_frags")
}

/// One setting of `frag3_global`, on the greatest number of fragments.
#[tactic(auto, unfolding(crate::specs::Frag3::global_setting))]
fn global_setting(frags: &mut u32, name: &[u8], value: Option<&[u8]>) -> Result<(), Stop<ConfKind>>
    ensures { Gives (with_new result frags.new) (global_setting frags.old name.now (option_copied value.entry)) }
{
    let Some(value) = value else {
        return Err(Stop::Wrong(ConfKind::BadValue));
    };
    if is(name, b"max_frags") {
        put_or_stop(frags, number_in(1, 1048576, value))
    } else if is_unread_global(name) {
        past_number(value)
    } else {
        Err(Stop::Wrong(ConfKind::BadValue))
    }
}

/// Reads a number that changes nothing.
fn past_number(value: &[u8]) -> Result<(), Stop<ConfKind>>
    ensures { Gives result (mapped (λ number. tt) (or_kind ConfKind.BadValue (number_in 0 4294967295 value.now))) }
{
    match number_in(0, 4294967295, value) {
        Some(_) => Ok(()),
        None => Err(Stop::Wrong(ConfKind::BadValue)),
    }
}

/// The settings of `frag3_global`.
#[derive(Drop)]
struct FragGlobalStep;

impl SettingStep<u32> for FragGlobalStep {
    ghost alone = { λ step name. false };

    ghost next_draft = { λ step frags name value. global_setting frags name value };

    fn is_alone(&self, _name: &[u8]) -> bool {
        false
    }

    fn change(
        &self,
        frags: &mut u32,
        name: &[u8],
        value: Option<&[u8]>,
    ) -> Result<(), Stop<ConfKind>> {
        global_setting(frags, name, value)
    }
}

/// The global line, which may be given once.
#[tactic(auto, unfolding(crate::specs::Frag3::with_max_frags))]
fn put_max_frags(draft: &mut FragDraft, frags: u32) -> Result<(), Stop<ConfKind>>
    ensures { Gives (with_new result draft.new) (with_max_frags draft.old frags) }
{
    if draft.max_frags.is_some() {
        return Err(Stop::Wrong(ConfKind::Duplicate));
    }
    draft.max_frags = Some(frags);
    Ok(())
}

/// `frag3_global`, by what comes after the name.
#[tactic(auto, unfolding(crate::specs::Frag3::frag3_global))]
pub fn frag3_global(draft: &mut FragDraft, rest: &[u8]) -> Result<(), Stop<ConfKind>>
    ensures { Gives (with_new result draft.new) (frag3_global draft.old rest.now) }
{
    let text = setting_text(rest)?;
    let mut frags = 8192;
    change_by_settings(text, &FragGlobalStep, &mut frags)?;
    put_max_frags(draft, frags)
}

/// Whether this setting of an engine has no value.
fn is_alone(name: &[u8]) -> bool
    ensures { result ≡ is_alone name.now }
{
    is(name, b"detect_anomalies")
}

/// Whether this setting of an engine, with a number, changes nothing.
#[tactic(auto, unfolding(crate::specs::Frag3::is_unread))]
fn is_unread(name: &[u8]) -> bool
    ensures { result ≡ is_unread name.now }
{
    is(name, b"overlap_limit") || is(name, b"min_fragment_length") || is(name, b"ttl_limit")
}

/// The least time to live of fragments.
fn least_ttl(value: &[u8]) -> Option<u8>
    ensures { result ≡ number_in 1 255 value.now }
{
    match number_in(1, 255, value) {
        Some(ttl) => Some(ttl as u8),
        None => None,
    }
}

/// One setting of an engine, with its value.
#[tactic(auto, unfolding(crate::specs::Frag3::engine_setting))]
fn valued_setting(
    alloc: Global,
    vars: &Vars,
    engine: &mut FragEngine,
    name: &[u8],
    value: &[u8],
) -> Result<(), Stop<ConfKind>>
    ensures { Gives (with_new result engine.new) (engine_setting vars.now engine.old name.now (Some value.now)) }
{
    if is(name, b"policy") {
        put_or_stop(&mut engine.policy, FragPolicy::read(value))
    } else if is(name, b"timeout") {
        put_or_stop(&mut engine.timeout, number_in(1, 3600, value))
    } else if is(name, b"min_ttl") {
        put_or_stop(&mut engine.min_ttl, least_ttl(value))
    } else if is(name, b"bind_to") {
        put_addresses(alloc, vars, &mut engine.bind, value)
    } else if is_unread(name) {
        past_number(value)
    } else {
        Err(Stop::Wrong(ConfKind::BadValue))
    }
}

/// The settings of an engine.
#[derive(Drop)]
struct EngineStep<'a> {
    alloc: Global,
    vars: &'a Vars,
}

impl<'a> SettingStep<FragEngine> for EngineStep<'a> {
    ghost alone = { λ step name. is_alone name };

    ghost next_draft = { λ step engine name value. engine_setting step.vars.now engine name value };

    fn is_alone(&self, name: &[u8]) -> bool {
        is_alone(name)
    }

    #[tactic(auto, unfolding(crate::specs::Frag3::engine_setting))]
    fn change(
        &self,
        engine: &mut FragEngine,
        name: &[u8],
        value: Option<&[u8]>,
    ) -> Result<(), Stop<ConfKind>> {
        match value {
            Some(value) => valued_setting(self.alloc, self.vars, engine, name, value),
            None => {
                if is_alone(name) {
                    return Ok(());
                }
                Err(Stop::Wrong(ConfKind::BadValue))
            }
        }
    }
}

/// Whether an engine for all hosts is there.
#[tactic(auto, unfolding(crate::specs::Frag3::has_default))]
fn has_default(engines: &[FragEngine]) -> bool
    ensures { result ≡ has_default engines.now }
{
    engines.iter().any(|engine| engine.bind.is_none())
}

/// Adds one engine more.
#[tactic(auto, unfolding(crate::specs::Frag3::with_engine))]
fn add_engine(draft: &mut FragDraft, engine: FragEngine) -> Result<(), Stop<ConfKind>>
    ensures { Gives (with_new result draft.new) (with_engine draft.old engine) }
{
    if engine.bind.is_none() && has_default(draft.engines.as_slice()) {
        return Err(Stop::Wrong(ConfKind::Duplicate));
    }
    if draft.engines.as_slice().len() >= MOST_ENGINES {
        return Err(Stop::Wrong(ConfKind::Limit));
    }
    draft.engines.push(engine)?;
    Ok(())
}

/// `frag3_engine`, by what comes after the name.
#[tactic(auto, unfolding(crate::specs::Frag3::frag3_engine))]
pub fn frag3_engine(
    alloc: Global,
    vars: &Vars,
    draft: &mut FragDraft,
    rest: &[u8],
) -> Result<(), Stop<ConfKind>>
    ensures { Gives (with_new result draft.new) (frag3_engine vars.now draft.old rest.now) }
{
    let text = setting_text(rest)?;
    let mut engine = DEFAULT_FRAG_ENGINE;
    change_by_settings(text, &EngineStep { alloc, vars }, &mut engine)?;
    add_engine(draft, engine)
}
