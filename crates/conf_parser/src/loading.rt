//! Loading a configuration: its first file, and each included file where its line is.
ghost use Rattle.std.specs.Prelude.{◌≡◌, ◌<◌, ◌≤◌, ◌⊎◌, true, Option, Some, length, IfOk, IfErr, OnOk, IsErrOf};
ghost use Rattle.std.specs.Str.{is_utf8};
ghost use Rattle.edge_io.specs.Told.{Rose};
ghost use Rattle.edge_io.specs.Files.{Files, Lacks, MaySee};
ghost use Rattle.edge_io.specs.Frames.{OnlyLoaded};
ghost use Rattle.conf_parser.specs.Reading.{told, with_file, file_count, file_read, lines_read, line_read, most_bytes, read_files, nothing_read};
ghost use Rattle.conf_parser.specs.Steps.{MayBeRead, most_files};
ghost use Rattle.conf_parser.specs.Loaded.{loaded_of};
ghost use Rattle.conf_parser.specs.Places.{LieInFiles};
ghost use Rattle.conf_types.specs.Sound.{IsSound};
ghost use Rattle.conf_parser.specs.Loading.{GoesOn, HasCause, LoadsFile, StopsAtLarge, StopsAtFile, whole_next, inner, opened_of, opened_count, opened_next, IsLoading, EndsUnlessFailed, HandsOut, HasFailed, UnlessAsks, UnlessHostFailed};

use crate::draft::Settings;
use crate::line::{ConfFault, ConfKind, LoadStop};
use crate::lines::content_lines;
use crate::loaded::Loaded;
use crate::reading::{AfterLine, At, Opened, Output, ReadSoFar, Source, Stopped};
use crate::settings::{config_of, first_draft};
use crate::steps::line_step;
use crate::variables::MOST_DEPTH;
use edge_io::{Host, Items, LoadFault, NoMemory, Text};
use net_lists::{NumberedLine, Vars};
use std::alloc::Global;
use std::mem;

/// The most bytes that a file may have.
const MOST_BYTES: usize = 16_777_216;

/// The bytes of the file of this name.
fn file_bytes<H: Host>(alloc: Global, host: &mut H, name: &[u8]) -> Result<Text, LoadFault>
    requires { is_utf8 name.now ≡ true }
    ensures loads { (seen : Option Files) → MaySee (H.contents host.new) (H.agrees host.new) seen
        → LoadsFile seen name.now result }
    ensures within { IfOk result (λ bytes. length bytes ≤ most_bytes) }
    ensures failed { IsErrOf result LoadFault.Failed
        → Rose (H.faults host.old) (H.faults host.new) ⊎ Lacks (H.contents host.old) name.now }
    ensures quiet { (IsErrOf result LoadFault.Failed → ⊥) → H.faults host.new ≡ H.faults host.old }
    ensures only_loaded { OnlyLoaded H.Host host.old host.new }
{
    let Ok(name) = str::from_utf8(name) else {
        return Err(LoadFault::Failed);
    };
    let mut bytes = Vec::new(alloc);
    host.load(name, MOST_BYTES, &mut bytes)?;
    Ok(Text::from_vec(bytes))
}

/// What the lines so far hand on, with the name of one more file.
fn with_file(alloc: Global, output: Output, name: &[u8]) -> Result<Output, NoMemory>
    ensures { IfOk result (λ next. next ≡ with_file output name.now) }
{
    let mut files = output.files;
    files.push(Text::copy(alloc, name)?)?;
    Ok(Output { files, ..output })
}

/// A file with these bytes, before its lines are read.
fn opened(
    alloc: Global,
    left: usize,
    name: Text,
    read: ReadSoFar,
    bytes: &[u8],
) -> Result<Opened, NoMemory>
    requires few { file_count read < most_files }
    requires within { length bytes.now ≤ most_bytes }
    requires left { left ≤ 16 }
    ensures { IfOk result (λ opened. opened ≡ opened_of left name read bytes.now) }
{
    let place = read.output.files.as_slice().len() as u32;
    let lines = content_lines(alloc, bytes)?;
    let output = with_file(alloc, read.output, name.bytes())?;
    Ok(Opened {
        source: Source {
            name,
            place,
            depth: MOST_DEPTH - left,
        },
        lines,
        read: ReadSoFar { output, ..read },
    })
}

/// Why a file that is too large stops the reading: at the line that includes it; the first file itself is
/// among the files, too.
fn too_large(name: Text, at: At, output: Output) -> Result<Stopped, NoMemory>
    ensures { IfOk result (StopsAtLarge name at output) }
{
    let mut output = output;
    if at.line == 0 {
        output.files.push(name)?;
    }
    let fault = ConfFault {
        file: at.file,
        line: at.line,
        kind: ConfKind::TooLarge,
    };
    Ok(Stopped::Refused(fault, output))
}

/// Why the reading stops at a file that was not loaded.
fn load_stop(name: Text, at: At, output: Output, fault: LoadFault) -> Stopped
    ensures { StopsAtFile name at output fault result }
{
    match fault {
        LoadFault::Failed => Stopped::Asks(name, output),
        LoadFault::NoMemory => Stopped::NoMemory,
        LoadFault::TooLarge => match too_large(name, at, output) {
            Ok(stopped) => stopped,
            Err(NoMemory) => Stopped::NoMemory,
        },
    }
}

/// The file of this name, before its lines are read; the includes in it may nest `left` times more.
fn open_file<H: Host>(
    alloc: Global,
    host: &mut H,
    left: usize,
    name: Text,
    at: At,
    read: ReadSoFar,
) -> Result<Opened, Stopped>
    requires name { MayBeRead (file_count read) name }
    requires left { left ≤ 16 }
    ensures goes { (seen : Option Files) → MaySee (H.contents host.new) (H.agrees host.new) seen
        → GoesOn seen (file_count read) opened_count (opened_next left)
        (λ contents. file_read contents left name at read) result }
    ensures text { IfOk result (λ opened. is_utf8 opened.source.name ≡ true) }
    ensures few { IfOk result (λ opened. file_count opened.read ≤ most_files) }
    ensures cause { IfErr result (HasCause (Rose (H.faults host.old) (H.faults host.new)) (H.contents host.old)) }
    ensures quiet { UnlessAsks (H.faults host.new ≡ H.faults host.old) result }
    ensures only_loaded { OnlyLoaded H.Host host.old host.new }
{
    match file_bytes(alloc, host, name.bytes()) {
        Ok(bytes) => {
            let opened = opened(alloc, left, name, read, bytes.bytes())?;
            Ok(opened)
        }
        Err(fault) => Err(load_stop(name, at, read.output, fault)),
    }
}

/// Reads all lines of a file: the reading after them.
#[cycle(reading)]
fn read_lines<H: Host>(
    alloc: Global,
    host: &mut H,
    left: usize,
    source: &Source,
    lines: &[NumberedLine],
    read: ReadSoFar,
) -> Result<ReadSoFar, Stopped>
    requires name { is_utf8 source.now.name ≡ true }
    requires few { file_count read ≤ most_files }
    requires left { left ≤ 16 }
    ensures goes { (seen : Option Files) → MaySee (H.contents host.new) (H.agrees host.new) seen
        → GoesOn seen (file_count read) file_count whole_next
        (λ contents. lines_read (inner contents left) source.now lines.now read) result }
    ensures few { IfOk result (λ read. file_count read ≤ most_files) }
    ensures cause { IfErr result (HasCause (Rose (H.faults host.old) (H.faults host.new)) (H.contents host.old)) }
    ensures quiet { UnlessAsks (H.faults host.new ≡ H.faults host.old) result }
    ensures only_loaded { OnlyLoaded H.Host host.old host.new }
{
    let mut read = read;
    let mut rest = lines;
    'lines: while let Some((line, after)) = rest.split_first() {
        read = read_line(alloc, host, left, source, line, read)?;
        rest = after;
    }
    Ok(read)
}

/// Reads one line of a file: the reading after it.
#[cycle(reading)]
fn read_line<H: Host>(
    alloc: Global,
    host: &mut H,
    left: usize,
    source: &Source,
    line: &NumberedLine,
    read: ReadSoFar,
) -> Result<ReadSoFar, Stopped>
    requires name { is_utf8 source.now.name ≡ true }
    requires few { file_count read ≤ most_files }
    requires left { left ≤ 16 }
    ensures goes { (seen : Option Files) → MaySee (H.contents host.new) (H.agrees host.new) seen
        → GoesOn seen (file_count read) file_count whole_next
        (λ contents. line_read (inner contents left) source.now line.now read) result }
    ensures few { IfOk result (λ read. file_count read ≤ most_files) }
    ensures cause { IfErr result (HasCause (Rose (H.faults host.old) (H.faults host.new)) (H.contents host.old)) }
    ensures quiet { UnlessAsks (H.faults host.new ≡ H.faults host.old) result }
    ensures only_loaded { OnlyLoaded H.Host host.old host.new }
{
    match line_step(alloc, source, line, read)? {
        AfterLine::Onward(read) => Ok(read),
        AfterLine::Included(name, read) => {
            let at = At {
                file: source.place,
                line: line.number,
            };
            included(alloc, host, left, name, at, read)
        }
    }
}

/// Reads a file that a line includes, where includes may nest `left` times more below
/// that line: the reading after the file.
#[cycle(reading)]
fn included<H: Host>(
    alloc: Global,
    host: &mut H,
    left: usize,
    name: Text,
    at: At,
    read: ReadSoFar,
) -> Result<ReadSoFar, Stopped>
    requires name { MayBeRead (file_count read) name }
    requires left { left ≤ 16 }
    ensures goes { (seen : Option Files) → MaySee (H.contents host.new) (H.agrees host.new) seen
        → GoesOn seen (file_count read) file_count whole_next
        (λ contents. inner contents left name at read) result }
    ensures few { IfOk result (λ read. file_count read ≤ most_files) }
    ensures cause { IfErr result (HasCause (Rose (H.faults host.old) (H.faults host.new)) (H.contents host.old)) }
    ensures quiet { UnlessAsks (H.faults host.new ≡ H.faults host.old) result }
    ensures only_loaded { OnlyLoaded H.Host host.old host.new }
{
    if left == 0 {
        return Ok(read);
    }
    read_file(alloc, host, left - 1, name, at, read)
}

/// Reads a file and all that it includes: the reading after them.
#[cycle(reading)]
fn read_file<H: Host>(
    alloc: Global,
    host: &mut H,
    left: usize,
    name: Text,
    at: At,
    read: ReadSoFar,
) -> Result<ReadSoFar, Stopped>
    requires name { MayBeRead (file_count read) name }
    requires left { left ≤ 16 }
    ensures goes { (seen : Option Files) → MaySee (H.contents host.new) (H.agrees host.new) seen
        → GoesOn seen (file_count read) file_count whole_next
        (λ contents. file_read contents left name at read) result }
    ensures few { IfOk result (λ read. file_count read ≤ most_files) }
    ensures cause { IfErr result (HasCause (Rose (H.faults host.old) (H.faults host.new)) (H.contents host.old)) }
    ensures quiet { UnlessAsks (H.faults host.new ≡ H.faults host.old) result }
    ensures only_loaded { OnlyLoaded H.Host host.old host.new }
{
    let opened = open_file(alloc, host, left, name, at, read)?;
    let source = opened.source;
    let lines = opened.lines;
    read_lines(alloc, host, left, &source, lines.as_slice(), opened.read)
}

/// What is read before the first file.
fn nothing_read(alloc: Global, vars: Vars) -> ReadSoFar
    ensures { result ≡ nothing_read vars }
{
    ReadSoFar {
        settings: Settings {
            vars,
            draft: first_draft(alloc),
        },
        output: Output {
            files: Items::new(alloc),
            rules: Items::new(alloc),
            warnings: Items::new(alloc),
        },
    }
}

/// Hands out what a whole reading gives.
fn hand_out(read: ReadSoFar, vars: &mut Vars, out: &mut Loaded)
    ensures vars { vars.new ≡ read.settings.vars }
    ensures out { out.new ≡ loaded_of read }
{
    let ReadSoFar { settings, output } = read;
    *vars = settings.vars;
    *out = Loaded {
        config: config_of(settings.draft),
        files: output.files,
        rules: output.rules,
        warnings: output.warnings,
    };
}

/// The answer of a stopped reading; hands out what the lines before give.
fn stop_out(stopped: Stopped, out: &mut Loaded) -> LoadStop
    ensures { HandsOut stopped result out.new }
{
    match stopped {
        Stopped::Refused(fault, output) => {
            out.files = output.files;
            out.warnings = output.warnings;
            LoadStop::Conf(fault)
        }
        Stopped::Asks(name, output) => {
            out.files = output.files;
            out.warnings = output.warnings;
            LoadStop::HostFailed { name }
        }
        Stopped::NoMemory => LoadStop::NoMemory,
    }
}

/// Loads the configuration that begins in the file of this name: its lines, and those of the files that it
/// includes where their lines are, from the variables that come before it. What it gives replaces `out`,
/// and the variables after all lines replace `vars`.
///
/// `Conf` is the first line that is refused, or the line whose file has more than 16777216 bytes (line 0 of
/// the first file, if it has itself). `HostFailed` comes where the host failed at a file, or has none of this
/// name. After both, `out.files` and `out.warnings` are those of the lines before, with the file of the fault;
/// the rest of `out`, and `vars`, are not to be used again. (Snort Users Manual 2.9, chapter 2.)
pub fn load<H: Host>(
    alloc: Global,
    host: &mut H,
    name: &str,
    vars: &mut Vars,
    out: &mut Loaded,
) -> Result<(), LoadStop>
    // The answer is that of the reading, over contents that are what may be seen of the host afterwards: what it
    // tells, or files that give all that it answered.
    ensures reading_seen { (seen : Option Files) → MaySee (H.contents host.new) (H.agrees host.new) seen
        → IsLoading seen name.now vars.old result vars.new out.new }
    ensures agreed { (files : Files) → H.agrees host.new files
        → EndsUnlessFailed (Rose (H.faults host.old) (H.faults host.new))
        (read_files (told files) name.now vars.old) result vars.new out.new }

    // The answer is that of the reading, by what the host tells.
    ensures reading { IsLoading (H.contents host.old) name.now vars.old result vars.new out.new }
    ensures told { (files : Files) → H.contents host.old ≡ Some files
        → EndsUnlessFailed (Rose (H.faults host.old) (H.faults host.new))
        (read_files (told files) name.now vars.old) result vars.new out.new }
    ensures failed { IfErr result (HasFailed (Rose (H.faults host.old) (H.faults host.new)) (H.contents host.old)) }
    ensures sound { OnOk result (IsSound out.new.config) }

    // The lines that are handed out, and a fault, are in files that are named there.
    ensures places { LieInFiles result out.new }

    // The host is as before, but for its count.
    ensures only_loaded { OnlyLoaded H.Host host.old host.new }
    ensures quiet { UnlessHostFailed (H.faults host.new ≡ H.faults host.old) result }
{
    let first = match Text::copy(alloc, name.as_bytes()) {
        Ok(first) => first,
        Err(NoMemory) => return Err(LoadStop::NoMemory),
    };
    let at = At { file: 0, line: 0 };
    let before = nothing_read(alloc, mem::replace(vars, Vars::new(alloc)));
    match read_file(alloc, host, MOST_DEPTH, first, at, before) {
        Ok(read) => {
            hand_out(read, vars, out);
            Ok(())
        }
        Err(stopped) => Err(stop_out(stopped, out)),
    }
}
