//! One line of a configuration, and what goes on after it.
ghost use Rattle.std.specs.Prelude.{◌≡◌, true, length, IfOk};
ghost use Rattle.std.specs.Str.{is_utf8};
ghost use Rattle.conf_parser.specs.Reading.{Including, given_read, file_count, with_rule, with_warning};
ghost use Rattle.conf_parser.specs.Steps.{next_read, next_count, MayGive, MayGoOn, StepsTo, line_stop};

use crate::conf_line::conf_line;
use crate::draft::{Settings, Spot};
use crate::given::LineResult;
use crate::line::{ConfFault, ConfKind, Line, Warning};
use crate::reading::{AfterLine, Output, ReadSoFar, Source, Stopped};
use edge_io::{NoMemory, Text};
use net_lists::{NumberedLine, Stop};
use std::alloc::Global;

/// The output with one more rule line.
fn with_rule(
    alloc: Global,
    output: Output,
    source: &Source,
    line: &NumberedLine,
) -> Result<Output, NoMemory>
    ensures { IfOk result (λ next. next ≡ with_rule output source.now line.now) }
{
    let Output {
        files,
        rules,
        warnings,
    } = output;
    let text = Text::copy(alloc, line.text.bytes())?;
    let mut rules = rules;
    rules.push(Line {
        file: source.place,
        line: line.number,
        text,
    })?;
    Ok(Output {
        files,
        rules,
        warnings,
    })
}

/// The output with one more warning.
fn with_warning(
    output: Output,
    source: &Source,
    line: &NumberedLine,
    directive: Text,
    name: Text,
) -> Result<Output, NoMemory>
    ensures { IfOk result (λ next. next ≡ with_warning output source.now line.now directive name) }
{
    let Output {
        files,
        rules,
        warnings,
    } = output;
    let mut warnings = warnings;
    warnings.push(Warning {
        file: source.place,
        line: line.number,
        directive,
        name,
    })?;
    Ok(Output {
        files,
        rules,
        warnings,
    })
}

/// How the reading goes on after what a line hands on.
fn given_next(
    alloc: Global,
    source: &Source,
    line: &NumberedLine,
    settings: Settings,
    output: Output,
    given: LineResult,
) -> Result<AfterLine, NoMemory>
    requires { MayGive (length output.files) given }
    ensures next { IfOk result (λ next. (including : Including)
        → given_read including source.now line.now settings output given ≡ next_read including source.now line.now next) }
    ensures count { IfOk result (λ next. next_count next ≡ length output.files) }
    ensures may { IfOk result MayGoOn }
{
    match given {
        LineResult::Nothing => Ok(AfterLine::Onward(ReadSoFar { settings, output })),
        LineResult::Rule => {
            let output = with_rule(alloc, output, source, line)?;
            Ok(AfterLine::Onward(ReadSoFar { settings, output }))
        }
        LineResult::Skipped(directive, name) => {
            let output = with_warning(output, source, line, directive, name)?;
            Ok(AfterLine::Onward(ReadSoFar { settings, output }))
        }
        LineResult::Include(name) => Ok(AfterLine::Included(name, ReadSoFar { settings, output })),
    }
}

/// Why the reading stops at a line of this file.
fn line_stop(source: &Source, line: &NumberedLine, output: Output, stop: Stop<ConfKind>) -> Stopped
    ensures { result ≡ line_stop source.now line.now output stop }
{
    match stop {
        Stop::Wrong(kind) => {
            let fault = ConfFault {
                file: source.place,
                line: line.number,
                kind,
            };
            Stopped::Refused(fault, output)
        }
        Stop::NoMemory => Stopped::NoMemory,
    }
}

/// How the reading goes on after a line of this file.
pub fn line_step(
    alloc: Global,
    source: &Source,
    line: &NumberedLine,
    read: ReadSoFar,
) -> Result<AfterLine, Stopped>
    requires { is_utf8 source.now.name ≡ true }
    ensures steps { StepsTo source.now line.now read result }
    ensures count { IfOk result (λ next. next_count next ≡ file_count read) }
    ensures may { IfOk result MayGoOn }
{
    let ReadSoFar { settings, output } = read;
    let spot = Spot {
        file: source.name.bytes(),
        depth: source.depth,
        files: output.files.as_slice().len(),
    };
    match conf_line(alloc, &spot, settings, line.text.bytes()) {
        Ok(after) => {
            let next = given_next(alloc, source, line, after.settings, output, after.given)?;
            Ok(next)
        }
        Err(stop) => Err(line_stop(source, line, output, stop)),
    }
}
