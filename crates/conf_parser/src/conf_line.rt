//! What one line of a configuration means.
ghost use Rattle.std.specs.Prelude.{Ok};
ghost use Rattle.net_lists.specs.Stops.{Gives};
ghost use Rattle.conf_parser.specs.ConfLine.{definition_line, include_line, config_draft, config_value, config_line, preprocessor_draft, preprocessor_line, filter_line, suppress_line, directive_line, conf_line, given_after};
ghost use Rattle.conf_parser.specs.Values.{with_new};

use crate::config_lines::{checksum_mode, classification, detection, event_queue};
use crate::draft::{Draft, Settings, Spot};
use crate::events::{event_filter, suppress};
use crate::frag3::{frag3_engine, frag3_global};
use crate::given::{LineResult, Onward};
use crate::line::ConfKind;
use crate::name::{
    ConfigName, Directive, PreprocessorName, config_name, directive_named, preprocessor_name,
};
use crate::stream5::{stream5_global, stream5_udp};
use crate::tcp::stream5_tcp;
use crate::value::{after_colon, name_and_rest};
use crate::variables::{ValueForm, definition, include};
use edge_io::Text;
use net_lists::{Stop, Vars, first_word};
use std::alloc::Global;

/// A line that defines a variable.
#[tactic(auto, unfolding(crate::specs::ConfLine::definition_line))]
fn definition_line(
    alloc: Global,
    settings: &mut Settings,
    form: ValueForm,
    rest: &[u8],
) -> Result<LineResult, Stop<ConfKind>>
    ensures { Gives (given_after result settings.new) (definition_line settings.old form rest.now) }
{
    definition(alloc, &mut settings.vars, form, rest)?;
    Ok(LineResult::Nothing)
}

/// An include, before its file is read.
#[tactic(auto, unfolding(crate::specs::ConfLine::include_line))]
fn include_line(
    alloc: Global,
    settings: &Settings,
    spot: &Spot<'_>,
    rest: &[u8],
) -> Result<LineResult, Stop<ConfKind>>
    ensures { Gives (given_after result settings.now) (include_line settings.now spot.now rest.now) }
{
    let name = include(alloc, &settings.vars, spot, rest)?;
    Ok(LineResult::Include(name))
}

/// Changes the draft by a `config` line, by what comes after its colon.
#[tactic(auto, unfolding(crate::specs::ConfLine::config_draft))]
fn config_draft(
    alloc: Global,
    draft: &mut Draft,
    name: ConfigName,
    value: &[u8],
) -> Result<(), Stop<ConfKind>>
    ensures { Gives (with_new result draft.new) (config_draft draft.old name value.now) }
{
    match name {
        ConfigName::Classification => classification(alloc, &mut draft.classes, value),
        ConfigName::ChecksumMode => {
            let checks = checksum_mode(draft.checks, value)?;
            draft.checks = checks;
            Ok(())
        }
        ConfigName::EventQueue => event_queue(&mut draft.queue, value),
        ConfigName::Detection => {
            draft.inserts = detection(draft.inserts, value);
            Ok(())
        }
        ConfigName::Unread => Ok(()),
    }
}

/// Changes the draft by a `config` line, by what comes after its name.
#[tactic(auto, unfolding(crate::specs::ConfLine::config_value))]
fn config_value(
    alloc: Global,
    draft: &mut Draft,
    name: ConfigName,
    rest: &[u8],
) -> Result<(), Stop<ConfKind>>
    ensures { Gives (with_new result draft.new) (config_value draft.old name rest.now) }
{
    if matches!(name, ConfigName::Unread) {
        return Ok(());
    }
    let Some(value) = after_colon(rest) else {
        return Err(Stop::Wrong(ConfKind::BadValue));
    };
    config_draft(alloc, draft, name, value)
}

/// A line that is skipped with a warning.
fn skipped(alloc: Global, word: &[u8], name: &[u8]) -> Result<LineResult, Stop<ConfKind>>
    ensures { Gives result (Ok (LineResult.Skipped word.now name.now)) }
{
    let directive = Text::copy(alloc, word)?;
    let name = Text::copy(alloc, name)?;
    Ok(LineResult::Skipped(directive, name))
}

/// A `config` line, by what comes after the word.
#[tactic(auto, unfolding(crate::specs::ConfLine::config_line))]
fn config_line(
    alloc: Global,
    settings: &mut Settings,
    word: &[u8],
    rest: &[u8],
) -> Result<LineResult, Stop<ConfKind>>
    ensures { Gives (given_after result settings.new) (config_line settings.old word.now rest.now) }
{
    let (name, after) = name_and_rest(rest);
    let Some(known) = config_name(name) else {
        return skipped(alloc, word, name);
    };
    config_value(alloc, &mut settings.draft, known, after)?;
    Ok(LineResult::Nothing)
}

/// Changes the draft by a `preprocessor` line, by what comes after its name.
#[tactic(auto, unfolding(crate::specs::ConfLine::preprocessor_draft))]
fn preprocessor_draft(
    alloc: Global,
    vars: &Vars,
    draft: &mut Draft,
    name: PreprocessorName,
    rest: &[u8],
) -> Result<(), Stop<ConfKind>>
    ensures { Gives (with_new result draft.new) (preprocessor_draft vars.now draft.old name rest.now) }
{
    match name {
        PreprocessorName::FragGlobal => frag3_global(&mut draft.frag, rest),
        PreprocessorName::FragEngine => frag3_engine(alloc, vars, &mut draft.frag, rest),
        PreprocessorName::StreamGlobal => Ok(stream5_global(&mut draft.stream, rest)?),
        PreprocessorName::StreamTcp => stream5_tcp(alloc, vars, &mut draft.stream, rest),
        PreprocessorName::StreamUdp => Ok(stream5_udp(&mut draft.stream, rest)?),
        PreprocessorName::Outside => Err(Stop::Wrong(ConfKind::OutsideProfile)),
    }
}

/// A `preprocessor` line, by what comes after the word.
#[tactic(auto, unfolding(crate::specs::ConfLine::preprocessor_line))]
fn preprocessor_line(
    alloc: Global,
    settings: &mut Settings,
    word: &[u8],
    rest: &[u8],
) -> Result<LineResult, Stop<ConfKind>>
    ensures { Gives (given_after result settings.new) (preprocessor_line settings.old word.now rest.now) }
{
    let (name, after) = name_and_rest(rest);
    let Some(known) = preprocessor_name(name) else {
        return skipped(alloc, word, name);
    };
    preprocessor_draft(alloc, &settings.vars, &mut settings.draft, known, after)?;
    Ok(LineResult::Nothing)
}

/// An `event_filter` line.
#[tactic(auto, unfolding(crate::specs::ConfLine::filter_line))]
fn filter_line(settings: &mut Settings, rest: &[u8]) -> Result<LineResult, Stop<ConfKind>>
    ensures { Gives (given_after result settings.new) (filter_line settings.old rest.now) }
{
    event_filter(&mut settings.draft.filters, rest)?;
    Ok(LineResult::Nothing)
}

/// A `suppress` line.
#[tactic(auto, unfolding(crate::specs::ConfLine::suppress_line))]
fn suppress_line(
    alloc: Global,
    settings: &mut Settings,
    rest: &[u8],
) -> Result<LineResult, Stop<ConfKind>>
    ensures { Gives (given_after result settings.new) (suppress_line settings.old rest.now) }
{
    suppress(alloc, &settings.vars, &mut settings.draft.suppress, rest)?;
    Ok(LineResult::Nothing)
}

/// The table of directives, by the first word and what comes after it: what the line hands on.
#[tactic(auto, unfolding(crate::specs::ConfLine::directive_line))]
fn directive_line(
    alloc: Global,
    spot: &Spot<'_>,
    settings: &mut Settings,
    directive: Directive,
    word: &[u8],
    rest: &[u8],
) -> Result<LineResult, Stop<ConfKind>>
    ensures { Gives (given_after result settings.new) (directive_line spot.now settings.old directive word.now rest.now) }
{
    match directive {
        Directive::Rule => Ok(LineResult::Rule),
        Directive::Var => definition_line(alloc, settings, ValueForm::Any, rest),
        Directive::IpVar => definition_line(alloc, settings, ValueForm::Addresses, rest),
        Directive::PortVar => definition_line(alloc, settings, ValueForm::Ports, rest),
        Directive::Include => include_line(alloc, settings, spot, rest),
        Directive::Config => config_line(alloc, settings, word, rest),
        Directive::Preprocessor => preprocessor_line(alloc, settings, word, rest),
        Directive::EventFilter => filter_line(settings, rest),
        Directive::Suppress => suppress_line(alloc, settings, rest),
        Directive::Skipped => skipped(alloc, word, name_and_rest(rest).0),
        Directive::Outside => Err(Stop::Wrong(ConfKind::OutsideProfile)),
    }
}

/// What comes after a line, and what it hands on. The line is one joined line without the blanks at its
/// ends, and neither empty nor a comment.
#[tactic(auto, unfolding(crate::specs::ConfLine::conf_line))]
pub fn conf_line(
    alloc: Global,
    spot: &Spot<'_>,
    settings: Settings,
    line: &[u8],
) -> Result<Onward, Stop<ConfKind>>
    ensures { Gives result (conf_line spot.now settings line.now) }
{
    let (word, rest) = first_word(line);
    let Some(directive) = directive_named(word) else {
        return Err(Stop::Wrong(ConfKind::UnknownDirective));
    };
    let mut settings = settings;
    let given = directive_line(alloc, spot, &mut settings, directive, word, rest)?;
    Ok(Onward { settings, given })
}
