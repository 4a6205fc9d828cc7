//! Messages: what each refusal says, and the lines that show it.
ghost use Rattle.std.specs.Prelude.{◌≡◌, IfOk, codes};
ghost use Rattle.snort_setup.specs.Texts.{conf_text, rule_text, host_text, told_line, file_at, conf_error, conf_warning, host_error, host_line_of, error_line, warning_line};
ghost use Rattle.snort_setup.specs.Pieces.{reason_text};

use conf_parser::{ConfFault, ConfKind, Warning};
use edge_io::{NoMemory, Text};
use host_table::HostFault;
use itoa::Buffer;
use rule_parser::RuleKind;
use std::alloc::Global;

/// What a line says: words, and after them what the refused line has.
#[derive(Clone, Copy)]
pub(crate) struct Reason<'a> {
    pub words: &'a [u8],
    pub shown: &'a [u8],
}

/// A reason of these words alone.
fn plainly(words: &[u8]) -> Reason<'_>
    ensures { reason_text result ≡ words.now }
{
    Reason { words, shown: b"" }
}

/// Why a line of the configuration is refused.
fn conf_reason(kind: &ConfKind) -> Reason<'_>
    ensures { reason_text result ≡ conf_text kind.now }
{
    match kind {
        ConfKind::UnknownDirective => plainly(b"unknown directive"),
        ConfKind::BadValue => plainly(b"bad value"),
        ConfKind::UnknownVariable(shown) => Reason {
            words: b"undefined variable ",
            shown: shown.bytes(),
        },
        ConfKind::BadAddress => plainly(b"bad address list"),
        ConfKind::BadPort => plainly(b"bad port list"),
        ConfKind::Duplicate => plainly(b"given twice"),
        ConfKind::TooDeep => plainly(b"includes nest too deep"),
        ConfKind::TooLarge => plainly(b"file is too large"),
        ConfKind::OutsideProfile => plainly(b"outside this profile"),
        ConfKind::Limit => plainly(b"too many entries"),
    }
}

/// Why a rule line is refused, of which this is shown where a variable is unknown.
pub(crate) fn rule_reason(kind: RuleKind, shown: &[u8]) -> Reason<'_>
    ensures { reason_text result ≡ rule_text shown.now kind }
{
    match kind {
        RuleKind::Action => plainly(b"unknown action"),
        RuleKind::Protocol => plainly(b"unknown protocol"),
        RuleKind::Address => plainly(b"bad address list"),
        RuleKind::Port => plainly(b"bad port list"),
        RuleKind::Direction => plainly(b"bad direction"),
        RuleKind::OptionSyntax => plainly(b"bad option syntax"),
        RuleKind::UnknownOption => plainly(b"unknown option"),
        RuleKind::OptionValue => plainly(b"bad option value"),
        RuleKind::MisplacedModifier => plainly(b"misplaced modifier"),
        RuleKind::DuplicateSid => plainly(b"duplicate sid"),
        RuleKind::MissingSid => plainly(b"missing sid"),
        RuleKind::UnknownClass => plainly(b"unknown class"),
        RuleKind::UnknownVariable => Reason {
            words: b"undefined variable ",
            shown,
        },
        RuleKind::Limit => plainly(b"limit exceeded"),
        RuleKind::OutsideProfile => plainly(b"outside this profile"),
        RuleKind::PatternRefused => plainly(b"pattern is refused"),
        RuleKind::NoMemory => plainly(b"no memory"),
    }
}

/// Why a line of a host table is refused.
fn host_reason(fault: HostFault) -> Reason<'static>
    ensures { reason_text result ≡ host_text fault }
{
    match fault {
        HostFault::BadLine { .. } => plainly(b"bad host line"),
        HostFault::Twice { .. } => plainly(b"host given twice"),
        HostFault::NoMemory => plainly(b"no memory"),
    }
}

/// A line that tells, after a word, of a line of a file.
#[tactic(auto, unfolding(crate::specs::Texts::told_line), using(crate::proofs::Told::grouped))]
fn told_line(
    alloc: Global,
    word: &[u8],
    file: &[u8],
    line: u32,
    reason: Reason<'_>,
) -> Result<Text, NoMemory>
    ensures { IfOk result (λ text. text ≡ told_line word.now file.now line (reason_text reason.entry)) }
{
    let mut text = Vec::from_slice(alloc, word)?;
    text.extend_from_slice(file)?;
    text.extend_from_slice(b"(")?;
    text.extend_from_slice(Buffer::new().format(line).as_bytes())?;
    text.extend_from_slice(b") ")?;
    text.extend_from_slice(reason.words)?;
    text.extend_from_slice(reason.shown)?;
    text.extend_from_slice(b"\n")?;
    Ok(Text::from_vec(text))
}

/// An error at a line of a file.
pub(crate) fn error_line(
    alloc: Global,
    file: &[u8],
    line: u32,
    reason: Reason<'_>,
) -> Result<Text, NoMemory>
    ensures { IfOk result (λ text. text ≡ error_line file.now line (reason_text reason.entry)) }
{
    told_line(alloc, b"ERROR: ", file, line, reason)
}

/// A warning at a line of a file.
pub(crate) fn warning_line(
    alloc: Global,
    file: &[u8],
    line: u32,
    reason: Reason<'_>,
) -> Result<Text, NoMemory>
    ensures { IfOk result (λ text. text ≡ warning_line file.now line (reason_text reason.entry)) }
{
    told_line(alloc, b"WARNING: ", file, line, reason)
}

/// The name of the file at this place among those read.
pub(crate) fn file_at(files: &[Text], place: u32) -> &[u8]
    ensures { result.now ≡ file_at files.now place }
{
    match files.get(place as usize) {
        Some(name) => name.bytes(),
        None => b"",
    }
}

/// The refusal of a line of the configuration.
pub(crate) fn conf_error(alloc: Global, files: &[Text], fault: &ConfFault) -> Result<Text, NoMemory>
    ensures { IfOk result (λ text. text ≡ conf_error files.now fault.now) }
{
    error_line(
        alloc,
        file_at(files, fault.file),
        fault.line,
        conf_reason(&fault.kind),
    )
}

/// The number of the line that is refused.
fn host_line_of(fault: HostFault) -> u32
    ensures { result ≡ host_line_of fault }
{
    match fault {
        HostFault::BadLine { line } | HostFault::Twice { line } => line,
        HostFault::NoMemory => 0,
    }
}

/// The refusal of a line of the host table of this name.
pub(crate) fn host_error(alloc: Global, name: &[u8], fault: HostFault) -> Result<Text, NoMemory>
    ensures { IfOk result (λ text. text ≡ host_error name.now fault) }
{
    error_line(alloc, name, host_line_of(fault), host_reason(fault))
}

/// The refusal of a file that is too large.
pub(crate) fn large_error(alloc: Global, name: &[u8]) -> Result<Text, NoMemory>
    ensures { IfOk result (λ text. text ≡ error_line name.now 0 (codes "file is too large")) }
{
    error_line(alloc, name, 0, plainly(b"file is too large"))
}

/// The warning of a line of the configuration that was skipped.
pub(crate) fn conf_warning(
    alloc: Global,
    files: &[Text],
    warning: &Warning,
) -> Result<Text, NoMemory>
    ensures { IfOk result (λ text. text ≡ conf_warning files.now warning.now) }
{
    let mut shown = Vec::from_slice(alloc, warning.directive.bytes())?;
    shown.extend_from_slice(b" ")?;
    shown.extend_from_slice(warning.name.bytes())?;
    let reason = Reason {
        words: b"skipped: ",
        shown: &shown,
    };
    warning_line(alloc, file_at(files, warning.file), warning.line, reason)
}
