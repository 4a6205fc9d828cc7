//! Alerts as Unified2: the same bytes for every number of lanes, records up to their end, shown as the lines
//! of alerts have them; and a file that is cut at any byte.

use crate::captured::words_of;
use edge_io::{LiteralMaker, MemHost, MemSink, OpenGate};
use snort_engine::{Status, run};
use std::alloc::Global;
use std::test::Fail;
use std::thread::Threads;
use unified2_out::read_records;

/// The records of a datagram's event, from 10.0.0.1 port 1000 to 10.0.0.2 port 2000 at second 0, and of its
/// packet of 45 bytes, by the published layout: 60 bytes and 81.
const RECORDS: &[u8] =
    b"\0\0\0\x07\0\0\0\x34\0\0\0\0\0\0\0\x01\0\0\0\0\0\0\0\0\0\0\0\x01\0\0\0\x01\0\0\0\0\0\0\0\0\
\0\0\0\0\x0a\0\0\x01\x0a\0\0\x02\x03\xe8\x07\xd0\x11\0\0\0\
\0\0\0\x02\0\0\0\x49\0\0\0\0\0\0\0\x01\0\0\0\0\0\0\0\0\0\0\0\0\0\0\0\x01\0\0\0\x2d\
\x02\0\0\0\0\x02\x02\0\0\0\0\x01\x08\0\x45\0\0\x1f\0\x01\0\0\x40\x11\x66\xcb\x0a\0\0\x01\x0a\0\0\x02\
\x03\xe8\x07\xd0\0\x0b\0\0abc";

/// What is shown of the event alone, and of both.
const EVENT_LINE: &[u8] = b"event 1 [1:1:0] 0.000000 10.0.0.1:1000 -> 10.0.0.2:2000\n";

const BOTH_LINES: &[u8] =
    b"event 1 [1:1:0] 0.000000 10.0.0.1:1000 -> 10.0.0.2:2000\npacket 1 45 bytes\n";

/// Streams and packets alert, in flows of both protocols.
const CONFIG: &str = r#"preprocessor stream5_global: track_tcp yes
preprocessor stream5_tcp: ports both 80
alert tcp any any -> any 80 (msg:"attack"; flow:to_server,established; content:"attack"; sid:1; rev:2;)
alert udp any any -> any 53 (msg:"numbered"; content:"gen-1"; sid:2;)
"#;

/// What a command writes to the alerts, over the configuration `r`.
fn alerts_of<R: Threads + Sync>(
    rt: &R,
    alloc: Global,
    command: &str,
) -> Result<(Status, MemSink), Fail> {
    let words = words_of(alloc, command)?;
    let mut host = MemHost::new(alloc);
    host.put("r", CONFIG.as_bytes())?;
    let mut maker = LiteralMaker::new(alloc);
    let mut alerts = MemSink::new(alloc, 65_536, 1_000_000)?;
    let mut errors = MemSink::new(alloc, 4096, 4096)?;
    let status = run(
        rt,
        alloc,
        &words,
        &mut host,
        &mut maker,
        &mut alerts,
        &mut errors,
        &OpenGate,
    );
    Ok((status, alerts))
}

#[test]
fn lanes_write_the_same_records(rt: HostRuntime) -> Result<(), Fail> {
    let alloc = rt.alloc();
    let (status, one) = alerts_of(&rt, alloc, "snort -c r --generate 600 --unified2 --lanes 1")?;
    let mut entries = Vec::new(alloc);
    let are_records = read_records(alloc, one.bytes(), &mut entries).is_ok();
    let count = entries.len();
    assert!(rt;
        status == Status::Done && are_records && count > 20,
        "{count} records"
    );
    for command in [
        "snort -c r --generate 600 --unified2 --lanes 2",
        "snort -c r --generate 600 --unified2 --lanes 64",
    ] {
        let (status, many) = alerts_of(&rt, alloc, command)?;
        assert!(rt;
            status == Status::Done && many.bytes() == one.bytes(),
            "{command}"
        );
    }
    Ok(())
}

/// What a run leaves: its status, its alerts and its errors.
#[derive(Drop)]
struct RunOutput {
    status: Status,
    alerts: MemSink,
    errors: MemSink,
}

/// What showing a file of these bytes leaves.
fn shown<R: Threads + Sync>(rt: &R, alloc: Global, bytes: &[u8]) -> Result<RunOutput, Fail> {
    let words = words_of(alloc, "snort --read-unified2 u")?;
    let mut host = MemHost::new(alloc);
    host.put("u", bytes)?;
    let mut maker = LiteralMaker::new(alloc);
    let mut alerts = MemSink::new(alloc, 65_536, 1_000_000)?;
    let mut errors = MemSink::new(alloc, 4096, 4096)?;
    let status = run(
        rt,
        alloc,
        &words,
        &mut host,
        &mut maker,
        &mut alerts,
        &mut errors,
        &OpenGate,
    );
    Ok(RunOutput {
        status,
        alerts,
        errors,
    })
}

/// The line that shows an event, by its number and its alert line, of a time within the first minute:
/// `01/01-00:00:SS.UUUUUU  [**] [G:S:R] TEXT [**] .. {PROTOCOL} FROM -> TO`.
fn event_of(alloc: Global, number: usize, alert: &str) -> Result<String, Fail> {
    let (front, ends) = alert.rsplit_once("} ").ok_or("no ends")?;
    let (time, rest) = front.split_once("  [**] ").ok_or("no time")?;
    let (mark, _text) = rest.split_once(' ').ok_or("no mark")?;
    let clock = time.strip_prefix("01/01-00:00:").ok_or("another time")?;
    let (seconds, micros) = clock.split_once('.').ok_or("no microseconds")?;
    let second = seconds.parse::<u32>()?;
    Ok(format!(in alloc; "event {number} {mark} {second}.{micros} {ends}")?)
}

/// Whether this line shows a packet of this number.
fn is_packet_of(alloc: Global, number: usize, line: &str) -> Result<bool, Fail> {
    let front = format!(in alloc; "packet {number} ")?;
    let rest = line.strip_prefix(front.as_str()).unwrap_or("");
    let count = rest.strip_suffix(" bytes").unwrap_or("");
    Ok(count.parse::<u32>().is_ok())
}

/// How many alert lines there are, where each has its event and its packet among the lines that are shown,
/// in order, and nothing else is shown.
fn count_agreeing(alloc: Global, alerts: &str, shown: &str) -> Result<usize, Fail> {
    let mut lines = shown.lines();
    let mut count = 0_usize;
    for alert in alerts.lines() {
        count = count.saturating_add(1);
        let event = lines.next().ok_or("an event is not shown")?;
        let packet = lines.next().ok_or("a packet is not shown")?;
        let wanted = event_of(alloc, count, alert)?;
        if event != wanted.as_str() || !is_packet_of(alloc, count, packet)? {
            return Err(Fail::from("another line"));
        }
    }
    match lines.next() {
        None => Ok(count),
        Some(_line) => Err(Fail::from("a line too many")),
    }
}

/// How many events are shown of what a command writes as Unified2, each as its alert line has it.
fn count_read_back<R: Threads + Sync>(
    rt: &R,
    alloc: Global,
    lines: &str,
    command: &str,
) -> Result<usize, Fail> {
    let (status, written) = alerts_of(rt, alloc, command)?;
    if status != Status::Done {
        return Err(Fail::from("the run is cut short"));
    }
    let left = shown(rt, alloc, written.bytes())?;
    if left.status != Status::Done || !left.errors.bytes().is_empty() {
        return Err(Fail::from("the file is refused"));
    }
    count_agreeing(alloc, lines, str::from_utf8(left.alerts.bytes())?)
}

#[test]
fn records_are_shown_as_their_lines(rt: HostRuntime) -> Result<(), Fail> {
    let alloc = rt.alloc();
    let (status, alerts) = alerts_of(&rt, alloc, "snort -c r --generate 600")?;
    assert!(rt; status == Status::Done);
    let lines = str::from_utf8(alerts.bytes())?;
    for command in [
        "snort -c r --generate 600 --unified2 --lanes 1",
        "snort -c r --generate 600 --unified2 --lanes 2",
        "snort -c r --generate 600 --unified2 --lanes 64",
    ] {
        let count = count_read_back(&rt, alloc, lines, command)?;
        assert!(rt; count > 20, "{count} events");
    }
    Ok(())
}

/// What showing the records' first `cut` bytes is to leave.
fn wanted_of(cut: usize) -> (Status, &'static [u8], &'static [u8]) {
    match cut {
        0 => (Status::Done, b"", b""),
        60 => (Status::Done, EVENT_LINE, b""),
        141 => (Status::Done, BOTH_LINES, b""),
        ..60 => (
            Status::BadCapture,
            b"",
            b"ERROR: unified2 file is bad at byte 0\n",
        ),
        _ => (
            Status::BadCapture,
            b"",
            b"ERROR: unified2 file is bad at byte 60\n",
        ),
    }
}

#[test]
fn a_file_is_cut_at_every_byte(rt: HostRuntime) -> Result<(), Fail> {
    let alloc = rt.alloc();
    assert!(rt; RECORDS.len() == 141);
    for cut in 0..142_usize {
        let front = &RECORDS[..cut.min(RECORDS.len())];
        let left = shown(&rt, alloc, front)?;
        let (status, alerts, errors) = wanted_of(cut);
        assert!(rt;
            left.status == status && left.alerts.bytes() == alerts && left.errors.bytes() == errors,
            "cut at {cut}"
        );
    }
    Ok(())
}
