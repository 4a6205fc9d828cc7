//! Records taken from the front of bytes, of which more may come.
ghost use Rattle.std.specs.Prelude.{◌≡◌, ◌≤◌, IsTrue, IfOk, drop, length};
ghost use Rattle.snort_eve.specs.Streams.{IsFrameAt, IsFront, IsForeign, Takes};

use byteorder::{BigEndian, ByteOrder};
use edge_io::NoMemory;
use std::alloc::Global;
use unified2_out::{U2, U2Fault, read_records};

const HEADER: usize = 8;

const MAX_BODY: usize = 1_048_576;

/// What the header at the front of bytes tells: how long a record is there, that bytes lack, or that no record is there.
#[derive(Clone, Copy)]
pub(crate) enum FrontHeader {
    Whole { size: usize },
    Waits,
    Foreign,
}

/// What stands at the front of bytes: a record of so many bytes, none yet, or none ever.
#[derive(Clone, Copy)]
pub(crate) enum FrontRecord {
    Record { size: usize },
    Waits,
    Foreign,
}

fn frame_of(bytes: &[u8]) -> FrontHeader
    ensures { IsFrameAt bytes.now result }
{
    if bytes.len() < HEADER {
        return FrontHeader::Waits;
    }
    let len = BigEndian::read_u32(&bytes[4..]) as usize;
    if len > MAX_BODY {
        return FrontHeader::Foreign;
    }
    let after = &bytes[HEADER..];
    if after.len() < len {
        return FrontHeader::Waits;
    }
    FrontHeader::Whole { size: HEADER + len }
}

// The record that is all of these bytes.
fn push_whole(
    alloc: Global,
    bytes: &[u8],
    size: usize,
    entries: &mut Vec<U2>,
) -> Result<FrontRecord, NoMemory>
    requires { IsFrameAt bytes.now (FrontHeader.Whole size) }
    ensures { IfOk result (λ front. IsFront bytes.now entries.old.items entries.new.items front) }
{
    match read_records(alloc, &bytes[..size], entries) {
        Ok(()) => Ok(FrontRecord::Record { size }),
        Err(U2Fault::Bad { .. }) => Ok(FrontRecord::Foreign),
        Err(U2Fault::NoMemory) => Err(NoMemory),
    }
}

fn push_front(alloc: Global, bytes: &[u8], entries: &mut Vec<U2>) -> Result<FrontRecord, NoMemory>
    ensures { IfOk result (λ front. IsFront bytes.now entries.old.items entries.new.items front) }
{
    match frame_of(bytes) {
        FrontHeader::Whole { size } => push_whole(alloc, bytes, size, entries),
        FrontHeader::Waits => Ok(FrontRecord::Waits),
        FrontHeader::Foreign => Ok(FrontRecord::Foreign),
    }
}

/// How far bytes are records, and whether no record can begin there.
#[derive(Clone, Copy)]
pub(crate) struct RecordsTaken {
    pub(crate) size: usize,
    pub(crate) is_foreign: bool,
}

/// Adds the records at the front of bytes to a list.
pub(crate) fn take_records(
    alloc: Global,
    bytes: &[u8],
    entries: &mut Vec<U2>,
) -> Result<RecordsTaken, NoMemory>
    ensures taken { IfOk result (λ taken. Takes bytes.now entries.old.items entries.new.items taken.size) }
    ensures foreign { IfOk result (λ taken. IsTrue taken.is_foreign → IsForeign (drop taken.size bytes.now)) }
    ensures within { IfOk result (λ taken. taken.size ≤ length bytes.now) }
{
    let mut place = 0;
    'places: loop {
        match push_front(alloc, &bytes[place..], entries)? {
            FrontRecord::Record { size } => place += size,
            FrontRecord::Waits => {
                return Ok(RecordsTaken {
                    size: place,
                    is_foreign: false,
                });
            }
            FrontRecord::Foreign => {
                return Ok(RecordsTaken {
                    size: place,
                    is_foreign: true,
                });
            }
        }
    }
}
