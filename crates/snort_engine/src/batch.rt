//! Reading records, a batch at a time.
ghost use Rattle.std.specs.Prelude.{◌≡◌, ◌≢◌, ◌+◌, ◌-◌, ◌<◌, ◌≤◌, [], vec_len};
ghost use Rattle.pcap_input.specs.Savefile.{most_records};
ghost use Rattle.snort_engine.specs.Steps.Reader.{HasGoneOn, IsFresh, IsNext, number_of};
ghost use Rattle.snort_engine.specs.Steps.Batch.{HasReason, IsFilled, ReadsOn, lacks_memory, more_of, place};
ghost use Rattle.edge_io.specs.Frames.{OnlyRead};
ghost use Rattle.snort_engine.specs.Outside.{by};
ghost use Rattle.snort_engine.specs.Steps.Seen.{OfSeen};
ghost use Rattle.snort_engine.specs.Steps.Showing.{most_at, room_after};

use crate::reader::RecordReader;
use crate::stop::RunStop;
use alert_lines::LinkedRecord;
use edge_io::Host;
use pcapng_input::ReadFault;
use std::alloc::{AllocError, AllocFailed, Global};

/// How many records are read before their lines are offered.
const BATCH: usize = 256;

/// What comes after the records that were read.
#[derive(Clone, Copy, Debug)]
pub(crate) enum BatchEnd {
    /// More records may be there.
    More,
    /// The capture ends there.
    End,
    /// The capture is refused there, or can't be read on.
    Fault(ReadFault),
}

/// Reads one record after those that were read. Want of memory is nothing else: what the reader refuses is answered.
#[tactic(auto, using(crate::proofs::Prefixes::reading))]
fn read_one<H: Host>(
    alloc: Global,
    host: &mut H,
    reader: &mut RecordReader,
    records: &mut Vec<LinkedRecord>,
) -> BatchEnd
    requires { IsFresh reader.old }
    ensures reads { OfSeen H.Host host.new (λ seen. ReadsOn
        (place (by seen H.Host) reader.old records.old.items host.old)
        (place (by seen H.Host) reader.new records.new.items host.new) result) }
    ensures one { result ≡ BatchEnd.More → vec_len records.new ≡ vec_len records.old + 1 }
    ensures none { result ≢ BatchEnd.More → vec_len records.new ≡ vec_len records.old }
    ensures next { result ≡ BatchEnd.More → IsFresh reader.new × IsNext reader.old reader.new }
    ensures reason { HasReason reader.new (H.faults host.old) (H.faults host.new) result }
    ensures host { OnlyRead H.Host host.old host.new }
{
    // Room comes first, so that no record is lost that was taken.
    match records.reserve(1) {
        Ok(()) => {}
        Err(AllocError) => return BatchEnd::Fault(ReadFault::NoMemory),
    }
    match reader.next(alloc, host) {
        Ok(Some(given)) => match records.push(given) {
            Ok(()) => BatchEnd::More,
            Err(AllocFailed { value: _full }) => BatchEnd::Fault(ReadFault::NoMemory),
        },
        Ok(None) => BatchEnd::End,
        Err(why) => BatchEnd::Fault(why),
    }
}

/// How many records the next batch has at most, where `room` may still be read.
pub(crate) fn most_at(room: Option<u32>) -> usize
    ensures { result ≡ most_at room }
{
    match room {
        Some(left) => BATCH.min(left as usize),
        None => BATCH,
    }
}

/// How many records may still be read after a batch of `count`.
pub(crate) fn room_after(room: Option<u32>, count: usize) -> Option<u32>
    requires { count ≤ most_at room }
    ensures { result ≡ room_after room count }
{
    match room {
        Some(left) => Some(left - count as u32),
        None => None,
    }
}

/// Reads a batch of `most` records, or fewer where the capture ends, is refused or can't be read on
/// after them. These are still to be shown.
#[tactic(auto, using(crate::proofs::Prefixes::reading))]
pub(crate) fn read_batch<H: Host>(
    alloc: Global,
    host: &mut H,
    reader: &mut RecordReader,
    most: usize,
    records: &mut Vec<LinkedRecord>,
) -> BatchEnd
    requires fresh { IsFresh reader.old }
    requires some { 0 < most }
    requires empty { records.old.items ≡ [] }
    ensures reads { OfSeen H.Host host.new (λ seen. ReadsOn
        (place (by seen H.Host) reader.old [] host.old)
        (place (by seen H.Host) reader.new records.new.items host.new) result) }
    ensures filled { IsFilled most (vec_len records.new) result }
    ensures goes_on { result ≡ BatchEnd.More → HasGoneOn reader.old reader.new (vec_len records.new) }
    ensures within { 0 < vec_len records.new → number_of reader.old + vec_len records.new ≤ most_records }
    ensures reason { HasReason reader.new (H.faults host.old) (H.faults host.new) result }
    ensures host { OnlyRead H.Host host.old host.new }
{
    'batch: while records.len() < most {
        match read_one(alloc, host, reader, records) {
            BatchEnd::More => {}
            stop => return stop,
        }
    }
    BatchEnd::More
}

/// Whether reading stopped for want of memory.
pub(crate) fn lacks_memory(reached: BatchEnd) -> bool
    ensures { result ≡ lacks_memory reached }
{
    match reached {
        BatchEnd::Fault(ReadFault::NoMemory) => true,
        _ => false,
    }
}

/// Whether more records may follow, or how what was reached stops a run.
pub(crate) fn more(reached: BatchEnd) -> Result<bool, RunStop>
    ensures { result ≡ more_of reached }
{
    match reached {
        BatchEnd::More => Ok(true),
        BatchEnd::End => Ok(false),
        BatchEnd::Fault(why) => Err(RunStop::from(why)),
    }
}

/// Gives the memory of the records that were shown back to the reader, for later ones.
pub(crate) fn give_back(alloc: Global, reader: &mut RecordReader, records: &mut Vec<LinkedRecord>)
    ensures same { reader.new ≡ reader.old }
    ensures emptied { records.new.items ≡ [] }
{
    'batch: while let Some(shown) = records.pop() {
        reader.take_back(alloc, shown);
    }
}
