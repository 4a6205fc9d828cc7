//! What real files, standard streams and gates do, which no clause says.

ghost use Rattle.std.specs.Prelude.{◌<◌, length};

use edge_io::{FileHost, Gate, Host, LoadFault, OpenGate, Sink, StdSink, write_all};
use row_files::{TextParts, cut};
use std::alloc::Global;
use std::fs;
use std::process::Abort;
use std::test::Fail;

/// What the rows call the answer to a load.
fn load_word(answer: &Result<(), LoadFault>) -> &'static str {
    match answer {
        Ok(()) => "loaded",
        Err(LoadFault::TooLarge) => "large",
        Err(LoadFault::Failed) => "failed",
        Err(LoadFault::NoMemory) => "memory",
    }
}

/// Appends what is left of the open capture, read through this buffer.
fn read_out<H: Host>(host: &mut H, buf: &mut [u8], read: &mut Vec<u8>) -> Result<(), Fail>
    requires { 0 < length buf.old }
{
    for _ in 0..8000 {
        let count = host.read(buf)?;
        read.extend_from_slice(&buf[..count])?;
    }
    Ok(())
}

/// What the rows call these bytes.
fn bytes_word(bytes: &[u8], large: &[u8]) -> &'static str {
    if bytes == large {
        "large"
    } else if bytes == b"hello".as_slice() {
        "hello"
    } else if bytes.is_empty() {
        "nothing"
    } else {
        "others"
    }
}

/// What the rows call the bytes that were appended to a `<`.
fn appended_word(out: &[u8], large: &[u8]) -> &'static str {
    match out {
        [b'<', rest @ ..] => bytes_word(rest, large),
        _ => "a front that was changed",
    }
}

/// Names of real files, limits, answers, and the bytes after a load.
const REAL_LOADS: &str = "edge_files/present 5: loaded hello
edge_files/present 4: large nothing
edge_files/empty 0: loaded nothing
edge_files/large 100000: loaded large
edge_files/large 99999: large nothing
edge_files/large 18446744073709551615: loaded large
edge_files/missing 9: failed nothing
edge_files/folder 9: failed nothing
";

/// Loads a real file by its name and limit, and compares the answer and what was appended.
fn check_load<H: Host>(
    rt: &impl Abort,
    alloc: Global,
    host: &mut H,
    row: &str,
    large: &[u8],
) -> Result<(), Fail> {
    let mut words = TextParts::of(row, ' ');
    let (name, limit) = (words.word(), cut(words.word(), ':').0);
    let (answer, appended) = (words.word(), words.word());
    let limit = TextParts::of(limit, ' ').long();
    let mut out = Vec::from_slice(alloc, b"<")?;
    let given = host.load(name, limit as usize, &mut out);
    assert!(rt; load_word(&given) == answer, "{row}");
    assert!(rt; appended_word(&out, large) == appended, "{row}");
    Ok(())
}

/// Names of real files, and the bytes that are read where they can be opened.
const REAL_READS: &str = "edge_files/large large
edge_files/present hello
edge_files/empty nothing
edge_files/missing missing
edge_files/folder missing
";

/// Compares what is read of a real file through this buffer; where it can't be opened nothing is.
fn check_read<H: Host>(
    rt: &impl Abort,
    alloc: Global,
    host: &mut H,
    row: &str,
    buf: &mut [u8],
    large: &[u8],
) -> Result<(), Fail>
    requires { 0 < length buf.old }
{
    let (name, want) = cut(row, ' ');
    let is_there = host.open(name).is_ok();
    let mut read = Vec::new(alloc);
    read_out(host, buf, &mut read)?;
    let given = bytes_word(&read, large);
    let given = if !is_there && given == "nothing" {
        "missing"
    } else {
        given
    };
    assert!(rt; given == want, "{row}");
    Ok(())
}

/// Compares the rows of loads.
fn check_loads<H: Host>(
    rt: &impl Abort,
    alloc: Global,
    host: &mut H,
    large: &[u8],
) -> Result<(), Fail> {
    for row in REAL_LOADS.lines() {
        check_load(rt, alloc, host, row, large)?;
    }
    Ok(())
}

/// Compares the rows of reads through a buffer.
fn check_reads<H: Host>(
    rt: &impl Abort,
    alloc: Global,
    host: &mut H,
    buf: &mut [u8],
    large: &[u8],
) -> Result<(), Fail>
    requires { 0 < length buf.old }
{
    for row in REAL_READS.lines() {
        check_read(rt, alloc, host, row, buf, large)?;
    }
    Ok(())
}

/// Compares all rows; reads through a small buffer, and through one that is larger than the host's own.
fn check_files<H: Host>(
    rt: &impl Abort,
    alloc: Global,
    host: &mut H,
    large: &[u8],
) -> Result<(), Fail> {
    check_loads(rt, alloc, host, large)?;
    check_reads(rt, alloc, host, &mut [0; 16], large)?;
    let mut wide = vec![in alloc; 0; 65536]?;
    check_reads(rt, alloc, host, wide.as_mut_slice(), large)
}

/// Appends the bytes of the large file.
fn push_large(large: &mut Vec<u8>) -> Result<(), Fail> {
    for place in 0..100000u32 {
        large.push((place % 251) as u8)?;
    }
    Ok(())
}

/// Writes the real files.
fn make_files(rt: &HostRuntime, large: &[u8]) -> Result<(), Fail> {
    fs::create_dir_all(rt, "edge_files/folder")?;
    fs::write(rt, "edge_files/present", "hello")?;
    fs::write(rt, "edge_files/empty", "")?;
    fs::write(rt, "edge_files/large", large)?;
    Ok(())
}

#[test]
fn real_files_are_loaded_and_read(rt: HostRuntime) -> Result<(), Fail> {
    let mut large = Vec::new(rt.alloc());
    push_large(&mut large)?;
    make_files(&rt, large.as_slice())?;
    let mut host = FileHost::new(rt.alloc(), rt)?;
    check_files(&rt, rt.alloc(), &mut host, large.as_slice())?;
    fs::remove_dir_all(&rt, "edge_files")?;
    Ok(())
}

#[test]
fn standard_streams_take_what_is_written(rt: HostRuntime) {
    let mut output = StdSink::output(rt.stdout());
    let mut errors = StdSink::errors(rt.stderr());
    assert!(rt; output.write(b"a") == Ok(1));
    assert!(rt; write_all(&mut output, b"n alert\n").is_ok());
    assert!(rt; write_all(&mut errors, b"a message\n").is_ok());
}

/// A gate that says no more than it must.
#[derive(Clone, Copy)]
struct Plain;

impl Gate for Plain {
    fn pass(&self, _lane: u32) {}
}

#[test]
fn a_gate_wants_threads_unless_it_says_otherwise(rt: HostRuntime) {
    OpenGate.pass(3);
    Plain.pass(3);
    assert!(rt; Plain.wants_threads());
    assert!(rt; !OpenGate.wants_threads());
}
