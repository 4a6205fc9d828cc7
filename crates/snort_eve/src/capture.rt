//! The first record of a capture, when it was captured, and the year that follows from it.
ghost use Rattle.std.specs.Prelude.{◌≡◌, ◌≢◌, ◌⊎◌, true, false, ℕ, List, None, Some, IsErrOf};
ghost use Rattle.std.specs.FinMap.{get};
ghost use Rattle.edge_io.specs.Files.{Files, Lacks};
ghost use Rattle.edge_io.specs.Told.{Rose};
ghost use Rattle.pcap_input.specs.Savefile.{next_of};
ghost use Rattle.pcapng_input.specs.Blocks.{ng_records};
ghost use Rattle.snort_eve.specs.Captures.{GivesFirst, Meets, after_moment, first_found, first_next, first_of_blocks};

use alert_fast::utc_time;
use alert_json::YearFrom;
use edge_io::{Host, Moment};
use pcap_input::{CaptureFault, CaptureReader};
use pcapng_input::{Found, ReadFault, read_up_to};
use std::alloc::Global;

/// Why the first record of a capture isn't told.
#[derive(Clone, Copy, Debug)]
pub(crate) enum CaptureStop {
    /// The capture ends before one.
    Empty,
    /// It is not read, or not read on.
    Fault(ReadFault),
}

/// The moment of the first record of a savefile whose head was read, and no more.
fn first_of_savefile<H: Host>(
    alloc: Global,
    host: &mut H,
    reader: CaptureReader,
) -> Result<Moment, CaptureStop>
    requires { reader.refused ≡ None }
    ensures gives { (files : Files) → H.agrees host.new files → (rest : List ℕ) → H.left_of host.old files ≡ Some rest
        → Meets result (first_next (next_of reader.head reader.number reader.at rest)) }
    ensures earlier { (files : Files) → H.agrees host.new files → H.agrees host.old files }
    ensures same_contents { H.contents host.new ≡ H.contents host.old }
    ensures unread { IsErrOf result (CaptureStop.Fault ReadFault.Failed) → Rose (H.faults host.old) (H.faults host.new) }
    ensures quiet { (IsErrOf result (CaptureStop.Fault ReadFault.Failed) → ⊥) → H.faults host.new ≡ H.faults host.old }
{
    let mut reader = reader;
    match reader.next(alloc, host) {
        Ok(Some(given)) => Ok(given.moment),
        Ok(None) => Err(CaptureStop::Empty),
        Err(why) => Err(CaptureStop::Fault(ReadFault::from(why))),
    }
}

/// The moment of the first of these records, or why there is none.
fn first_found(found: &Found) -> Result<Moment, CaptureStop>
    ensures { result ≡ first_found found.now }
{
    if let Some(why) = found.refused {
        return Err(CaptureStop::Fault(ReadFault::from(why)));
    }
    match found.records.as_slice() {
        [] => Err(CaptureStop::Empty),
        [first, ..] => Ok(first.item.moment),
    }
}

/// The moment of the first record of a file of blocks.
fn first_of_blocks<H: Host>(alloc: Global, host: &mut H, name: &str) -> Result<Moment, CaptureStop>
    ensures gives { (files : Files) → H.agrees host.new files → (bytes : List ℕ) → get files name.now ≡ Some bytes
        → Meets result (first_of_blocks (ng_records bytes (Some 1))) }
    ensures earlier { (files : Files) → H.agrees host.new files → H.agrees host.old files }
    ensures same_contents { H.contents host.new ≡ H.contents host.old }
    ensures unread { IsErrOf result (CaptureStop.Fault ReadFault.Failed)
        → Rose (H.faults host.old) (H.faults host.new) ⊎ Lacks (H.contents host.old) name.now }
    ensures quiet { (IsErrOf result (CaptureStop.Fault ReadFault.Failed) → ⊥) → H.faults host.new ≡ H.faults host.old }
{
    match read_up_to(alloc, host, name, 1) {
        Ok(found) => first_found(&found),
        Err(why) => Err(CaptureStop::Fault(ReadFault::from(why))),
    }
}

/// Whether a file was refused since it begins as no savefile does.
fn begins_otherwise(why: CaptureFault) -> bool
    ensures otherwise { result ≡ true → why ≡ CaptureFault.NotPcap }
    ensures not_otherwise { result ≡ false → why ≢ CaptureFault.NotPcap }
{
    match why {
        CaptureFault::NotPcap => true,
        CaptureFault::LinkType(_)
        | CaptureFault::Truncated { .. }
        | CaptureFault::TooLong { .. }
        | CaptureFault::TooMany
        | CaptureFault::Failed
        | CaptureFault::NoMemory => false,
    }
}

/// The moment of the first record of the capture of this name, of which no more is read.
///
/// A file that begins as no savefile does is opened once more, as blocks.
pub(crate) fn first_moment<H: Host>(
    alloc: Global,
    host: &mut H,
    name: &str,
) -> Result<Moment, CaptureStop>
    ensures gives { (files : Files) → H.agrees host.new files → GivesFirst files name.now result }
    ensures earlier { (files : Files) → H.agrees host.new files → H.agrees host.old files }
    ensures same_contents { H.contents host.new ≡ H.contents host.old }
    ensures unread { IsErrOf result (CaptureStop.Fault ReadFault.Failed)
        → Rose (H.faults host.old) (H.faults host.new) ⊎ Lacks (H.contents host.old) name.now }
    ensures quiet { (IsErrOf result (CaptureStop.Fault ReadFault.Failed) → ⊥) → H.faults host.new ≡ H.faults host.old }
{
    match CaptureReader::open(host, name) {
        Ok(reader) => first_of_savefile(alloc, host, reader),
        Err(why) => {
            if begins_otherwise(why) {
                first_of_blocks(alloc, host, name)
            } else {
                Err(CaptureStop::Fault(ReadFault::from(why)))
            }
        }
    }
}

/// What the year of a line follows from that comes after this moment: the moment's date in UTC.
#[tactic(auto, unfolding(crate::specs::Captures::after_moment))]
pub(crate) fn after_moment(moment: Moment) -> YearFrom
    ensures { result ≡ after_moment moment.nanos }
{
    let utc = utc_time(moment);
    YearFrom::After {
        year: utc.year,
        month: utc.month,
        day: utc.day,
    }
}
