//! Runs over captures of UDP packets in memory.

use crate::watched::{WatchedMaker, Watcher};
use edge_io::{Gate, MemHost, MemSink};
use snort_engine::{Status, run};
use std::alloc::{AllocError, Global};
use std::test::Fail;
use std::thread::Threads;

/// The head of a capture: microseconds, least significant byte first, raw IP.
const HEAD: &[u8] = b"\xd4\xc3\xb2\xa1\x02\0\x04\0\0\0\0\0\0\0\0\0\0\0\x04\0\x65\0\0\0";

/// The bytes of a capture before its first packet.
pub(crate) fn no_packets(alloc: Global) -> Result<Vec<u8>, AllocError> {
    Vec::from_slice(alloc, HEAD)
}

/// Appends numbers, least significant byte first.
fn push_little(bytes: &mut Vec<u8>, numbers: &[u32]) -> Result<(), AllocError> {
    for number in numbers {
        bytes.extend_from_slice(&number.to_le_bytes())?;
    }
    Ok(())
}

/// Appends numbers, most significant byte first.
fn push_big(bytes: &mut Vec<u8>, numbers: &[u16]) -> Result<(), AllocError> {
    for number in numbers {
        bytes.extend_from_slice(&number.to_be_bytes())?;
    }
    Ok(())
}

/// Appends the headers of a packet from 10.0.0.1 to 10.0.0.2 with `size` bytes of UDP: IPv4 (RFC 791) and
/// UDP (RFC 768), without checksums.
fn push_headers(bytes: &mut Vec<u8>, source: u16, size: u16) -> Result<(), AllocError> {
    let whole = size.saturating_add(20);
    push_big(bytes, &[0x4500, whole, 1, 0, 0x4011, 0])?;
    push_big(bytes, &[0x0a00, 1, 0x0a00, 2])?;
    push_big(bytes, &[source, 2000, size, 0])
}

/// Appends the record of a UDP packet from port `source` to port 2000, with up to 65,507 bytes.
pub(crate) fn push_packet(
    capture: &mut Vec<u8>,
    source: u16,
    payload: &[u8],
) -> Result<(), AllocError> {
    let size = u16::try_from(payload.len())
        .unwrap_or(u16::MAX)
        .saturating_add(8);
    let whole = u32::from(size) + 20;
    push_little(capture, &[0, 0, whole, whole])?;
    push_headers(capture, source, size)?;
    capture.extend_from_slice(payload)
}

/// The words of a command, between single blanks.
pub(crate) fn words_of(alloc: Global, command: &str) -> Result<Vec<String>, AllocError> {
    let mut words = Vec::new(alloc);
    for word in command.split(' ') {
        words.push(String::from_str(alloc, word)?)?;
    }
    Ok(words)
}

fn line_count(bytes: &[u8]) -> usize {
    bytes.iter().filter(|byte| **byte == b'\n').count()
}

/// How a run ended, and how many alerts it wrote.
#[derive(Clone, Copy)]
pub(crate) struct RunOutcome {
    pub status: Status,
    pub alerts: usize,
}

/// Runs a command over the configuration `r` and the capture `p`.
pub(crate) fn outcome_of<W: Watcher, G: Gate, R: Threads + Sync>(
    rt: &R,
    alloc: Global,
    command: &str,
    config: &str,
    capture: &[u8],
    watcher: &W,
    gate: &G,
) -> Result<RunOutcome, Fail> {
    let words = words_of(alloc, command)?;
    let mut host = MemHost::new(alloc);
    host.put("r", config.as_bytes())?;
    host.put("p", capture)?;
    let mut maker = WatchedMaker::new(alloc, watcher);
    let mut alerts = MemSink::new(alloc, 4096, 4096)?;
    let mut errors = MemSink::new(alloc, 4096, 4096)?;
    let status = run(
        rt,
        alloc,
        &words,
        &mut host,
        &mut maker,
        &mut alerts,
        &mut errors,
        gate,
    );
    Ok(RunOutcome {
        status,
        alerts: line_count(alerts.bytes()),
    })
}
