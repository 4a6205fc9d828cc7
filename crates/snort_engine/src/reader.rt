//! The reader of a run's capture, in either format.
ghost use Rattle.std.specs.Prelude.{◌≡◌, ◌≢◌, ◌⊎◌, true, false, Some, None, IfOk, IfErr, IsErrOf};
ghost use Rattle.std.specs.FinMap.{get};
ghost use Rattle.edge_io.specs.Files.{Files, Lacks, left_by};
ghost use Rattle.snort_engine.specs.declared.reader.RecordReader.TheVariants.{Savefile, Blocks};
ghost use Rattle.edge_io.specs.Frames.{OnlyRead};
ghost use Rattle.snort_engine.specs.Trace.{no_record};
ghost use Rattle.snort_engine.specs.Steps.Reader.{IsFresh, number_of, refusal_of, Gives, Opens, OpensSo};
ghost use Rattle.snort_engine.specs.Steps.Seen.{HostRose, OfSeen, OnlyOpened};

use alert_lines::LinkedRecord;
use edge_io::{Host, Link, Moment, Text};
use pcap_input::{CaptureFault, CaptureReader, Record};
use pcapng_input::{NgReader, NgRecord, ReadFault};
use std::alloc::Global;

/// A reader of the host's open capture.
#[derive(Debug, Drop)]
pub(crate) enum RecordReader {
    /// A reader of a libpcap savefile.
    Savefile(CaptureReader),
    /// A reader of pcapng blocks.
    Blocks(NgReader),
}

impl RecordReader {
    /// Opens a file of the host as its capture and reads its head. Where the file begins as no savefile
    /// does, it is opened once more, as blocks.
    pub fn open<H: Host>(alloc: Global, host: &mut H, name: &str) -> Result<RecordReader, ReadFault>
        ensures opens { (files : Files) → H.agrees host.new files
            → Opens (get files name.now) result (H.left_of host.new files) }
        ensures fresh { IfOk result (λ reader. IsFresh reader × (number_of reader ≡ 0)) }
        ensures failed { IsErrOf result ReadFault.Failed
            → HostRose H.Host host.old host.new ⊎ Lacks (H.contents host.old) name.now }
        ensures quiet { (IsErrOf result ReadFault.Failed → ⊥) → H.faults host.new ≡ H.faults host.old }
        ensures opened { OfSeen H.Host host.new (λ seen.
            OpensSo seen name.now (HostRose H.Host host.old host.new) (H.opens host.old) (H.opens host.new)) }
        ensures host { OnlyOpened H.Host host.old host.new }
    {
        let why = match CaptureReader::open(host, name) {
            Ok(reader) => return Ok(RecordReader::Savefile(reader)),
            Err(why) => why,
        };
        if !begins_otherwise(why) {
            return Err(ReadFault::from(why));
        }
        let reader = NgReader::open(alloc, host, name)?;
        Ok(RecordReader::Blocks(reader))
    }

    /// Reads the next record, or None where none is left.
    pub fn next<H: Host>(
        &mut self,
        alloc: Global,
        host: &mut H,
    ) -> Result<Option<LinkedRecord>, ReadFault>
        requires { IsFresh self.old }
        ensures gives { OfSeen H.Host host.new (λ seen.
            Gives self.old self.new result (left_by (H.left_of host.old) seen) (left_by (H.left_of host.new) seen)) }
        ensures refused { IfErr result (λ why. refusal_of self.new ≡ Some why) }
        ensures failed { IsErrOf result ReadFault.Failed → HostRose H.Host host.old host.new }
        ensures quiet { (IsErrOf result ReadFault.Failed → ⊥) → H.faults host.new ≡ H.faults host.old }
        ensures host { OnlyRead H.Host host.old host.new }
    {
        match self {
            RecordReader::Savefile(reader) => next_of_savefile(alloc, host, reader),
            RecordReader::Blocks(reader) => next_of_blocks(alloc, host, reader),
        }
    }

    /// Takes back the bytes of a record that is done with: a later record is read into their memory. The
    /// reader stays where it was.
    pub fn take_back(&mut self, alloc: Global, shown: LinkedRecord)
        ensures { self.new ≡ self.old }
    {
        let bytes: Text = shown.into_captured().bytes;
        match self {
            RecordReader::Savefile(reader) => reader.take_back(alloc, bytes),
            RecordReader::Blocks(reader) => reader.take_back(alloc, bytes),
        }
    }
}

/// What takes the place of the last record where none was captured: no flow lives then that could end. Takes no memory.
pub(crate) fn no_record(alloc: Global) -> LinkedRecord
    ensures { result ≡ no_record }
{
    LinkedRecord::new(
        Link::Ethernet,
        Record {
            number: 0,
            moment: Moment { nanos: 0 },
            original: 0,
            bytes: Text::from_vec(Vec::new(alloc)),
        },
    )
}

/// Whether a file was refused since it begins as no savefile does.
fn begins_otherwise(why: CaptureFault) -> bool
    ensures otherwise { result ≡ true → why ≡ CaptureFault.NotPcap }
    ensures not_otherwise { result ≡ false → why ≢ CaptureFault.NotPcap }
{
    match why {
        CaptureFault::NotPcap => true,
        CaptureFault::LinkType(_)
        | CaptureFault::Truncated { .. }
        | CaptureFault::TooLong { .. }
        | CaptureFault::TooMany
        | CaptureFault::Failed
        | CaptureFault::NoMemory => false,
    }
}

/// Reads the next record of a savefile.
fn next_of_savefile<H: Host>(
    alloc: Global,
    host: &mut H,
    reader: &mut CaptureReader,
) -> Result<Option<LinkedRecord>, ReadFault>
    requires { reader.old.refused ≡ None }
    ensures gives { OfSeen H.Host host.new (λ seen. Gives (Savefile reader.old) (Savefile reader.new) result
        (left_by (H.left_of host.old) seen) (left_by (H.left_of host.new) seen)) }
    ensures refused { IfErr result (λ why. refusal_of (Savefile reader.new) ≡ Some why) }
    ensures failed { IsErrOf result ReadFault.Failed → HostRose H.Host host.old host.new }
    ensures quiet { (IsErrOf result ReadFault.Failed → ⊥) → H.faults host.new ≡ H.faults host.old }
    ensures host { OnlyRead H.Host host.old host.new }
{
    let link = reader.head().link;
    match reader.next(alloc, host) {
        Ok(Some(captured)) => Ok(Some(LinkedRecord::new(link, captured))),
        Ok(None) => Ok(None),
        Err(why) => Err(ReadFault::from(why)),
    }
}

/// Reads the next record of blocks.
fn next_of_blocks<H: Host>(
    alloc: Global,
    host: &mut H,
    reader: &mut NgReader,
) -> Result<Option<LinkedRecord>, ReadFault>
    requires { reader.old.refused ≡ None }
    ensures gives { OfSeen H.Host host.new (λ seen. Gives (Blocks reader.old) (Blocks reader.new) result
        (left_by (H.left_of host.old) seen) (left_by (H.left_of host.new) seen)) }
    ensures refused { IfErr result (λ why. refusal_of (Blocks reader.new) ≡ Some why) }
    ensures failed { IsErrOf result ReadFault.Failed → HostRose H.Host host.old host.new }
    ensures quiet { (IsErrOf result ReadFault.Failed → ⊥) → H.faults host.new ≡ H.faults host.old }
    ensures host { OnlyRead H.Host host.old host.new }
{
    match reader.next(alloc, host) {
        Ok(Some(NgRecord { link, item })) => Ok(Some(LinkedRecord::new(link, item))),
        Ok(None) => Ok(None),
        Err(why) => Err(ReadFault::from(why)),
    }
}
