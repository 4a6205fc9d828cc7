//! The names of directives.
ghost use Rattle.std.specs.Prelude.{◌≡◌};
ghost use Rattle.conf_parser.specs.Names.{directive_named, is_action, is_skipped, is_outside, config_name, is_unread_config, preprocessor_name};

use crate::word::is;

/// What the first word of a line names.
#[derive(Clone, Copy)]
pub enum Directive {
    Rule,
    Var,
    IpVar,
    PortVar,
    Include,
    Config,
    Preprocessor,
    EventFilter,
    Suppress,
    /// Skipped with a warning.
    Skipped,
    /// Outside this profile.
    Outside,
}

/// The `config` lines that are known.
#[derive(Clone, Copy)]
pub enum ConfigName {
    Classification,
    ChecksumMode,
    EventQueue,
    Detection,
    /// Read, and changes nothing.
    Unread,
}

/// The `preprocessor` lines that are known.
#[derive(Clone, Copy)]
pub enum PreprocessorName {
    FragGlobal,
    FragEngine,
    StreamGlobal,
    StreamTcp,
    StreamUdp,
    /// Outside this profile.
    Outside,
}

/// Whether the word is an action of rules.
#[tactic(auto, unfolding(crate::specs::Names::is_action))]
fn is_action(word: &[u8]) -> bool
    ensures { result ≡ is_action word.now }
{
    is(word, b"alert")
        || is(word, b"pass")
        || is(word, b"log")
        || is(word, b"activate")
        || is(word, b"dynamic")
        || is(word, b"drop")
        || is(word, b"reject")
        || is(word, b"sdrop")
}

/// Whether lines of this directive are skipped with a warning.
#[tactic(auto, unfolding(crate::specs::Names::is_skipped))]
fn is_skipped(word: &[u8]) -> bool
    ensures { result ≡ is_skipped word.now }
{
    is(word, b"output")
        || is(word, b"dynamicpreprocessor")
        || is(word, b"dynamicengine")
        || is(word, b"dynamicdetection")
}

/// Whether lines of this directive are outside this profile.
#[tactic(auto, unfolding(crate::specs::Names::is_outside))]
fn is_outside(word: &[u8]) -> bool
    ensures { result ≡ is_outside word.now }
{
    is(word, b"attribute_table")
        || is(word, b"rate_filter")
        || is(word, b"threshold")
        || is(word, b"ruletype")
        || is(word, b"rule_state")
}

/// The directive that a first word names.
#[tactic(auto, unfolding(crate::specs::Names::directive_named))]
pub fn directive_named(word: &[u8]) -> Option<Directive>
    ensures { result ≡ directive_named word.now }
{
    if is_action(word) {
        Some(Directive::Rule)
    } else if is(word, b"var") {
        Some(Directive::Var)
    } else if is(word, b"ipvar") {
        Some(Directive::IpVar)
    } else if is(word, b"portvar") {
        Some(Directive::PortVar)
    } else if is(word, b"include") {
        Some(Directive::Include)
    } else if is(word, b"config") {
        Some(Directive::Config)
    } else if is(word, b"preprocessor") {
        Some(Directive::Preprocessor)
    } else if is(word, b"event_filter") {
        Some(Directive::EventFilter)
    } else if is(word, b"suppress") {
        Some(Directive::Suppress)
    } else if is_skipped(word) {
        Some(Directive::Skipped)
    } else if is_outside(word) {
        Some(Directive::Outside)
    } else {
        None
    }
}

/// Whether `config` lines of this name are read and change nothing.
#[tactic(auto, unfolding(crate::specs::Names::is_unread_config))]
fn is_unread_config(name: &[u8]) -> bool
    ensures { result ≡ is_unread_config name.now }
{
    is(name, b"reference")
        || is(name, b"pcre_match_limit")
        || is(name, b"pcre_match_limit_recursion")
}

/// The `config` line of this name; any other is skipped with a warning.
#[tactic(auto, unfolding(crate::specs::Names::config_name))]
pub fn config_name(name: &[u8]) -> Option<ConfigName>
    ensures { result ≡ config_name name.now }
{
    if is(name, b"classification") {
        Some(ConfigName::Classification)
    } else if is(name, b"checksum_mode") {
        Some(ConfigName::ChecksumMode)
    } else if is(name, b"event_queue") {
        Some(ConfigName::EventQueue)
    } else if is(name, b"detection") {
        Some(ConfigName::Detection)
    } else if is_unread_config(name) {
        Some(ConfigName::Unread)
    } else {
        None
    }
}

/// The `preprocessor` line of this name; any other is skipped with a warning.
#[tactic(auto, unfolding(crate::specs::Names::preprocessor_name))]
pub fn preprocessor_name(name: &[u8]) -> Option<PreprocessorName>
    ensures { result ≡ preprocessor_name name.now }
{
    if is(name, b"frag3_global") {
        Some(PreprocessorName::FragGlobal)
    } else if is(name, b"frag3_engine") {
        Some(PreprocessorName::FragEngine)
    } else if is(name, b"stream5_global") {
        Some(PreprocessorName::StreamGlobal)
    } else if is(name, b"stream5_tcp") {
        Some(PreprocessorName::StreamTcp)
    } else if is(name, b"stream5_udp") {
        Some(PreprocessorName::StreamUdp)
    } else if is(name, b"stream5_icmp") {
        Some(PreprocessorName::Outside)
    } else {
        None
    }
}
