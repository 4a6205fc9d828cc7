//! Reading a savefile record by record.
ghost use Rattle.std.specs.Prelude.{◌≡◌, ◌+◌, ◌*◌, ◌<◌, ◌≤◌, ◌⊎◌, List, ℕ, Option, None, Some, length, drop, Result, IfOk, IfErr, IfSome, IfNone, OnOk, Err, IsErrOf};
ghost use Rattle.edge_io.specs.Frames.{OnlyRead};
ghost use Rattle.edge_io.specs.Told.{before, one_more, Rose};
ghost use Rattle.edge_io.specs.Files.{Files, Lacks, IsUnopened, MaySee, left_by};
ghost use Rattle.pcap_input.specs.Cut.{Clean};
ghost use Rattle.pcap_input.specs.Savefile.{file_header, record_header, longest, most_records, IsReachable, Ends, head_of, next_of, next_after};
ghost use Rattle.pcap_input.specs.Reader.{reader_at, after_next, after_refusal, Opens, Tells, TakesHead, IsOfHead, Gives, TakesRecord, TakesNone};
ghost use Rattle.pcap_input.specs.Pieces.{Reads, TakesFileHeader, GivesOne, TakesBytes, TakesFewer, TakesLess};

use crate::fill::fill;
use crate::header::{FILE_HEADER, RECORD_HEADER, read_head};
use crate::spares::{Spares, resized};
use crate::{CaptureFault, CaptureHead, Record};
use edge_io::{Host, Text};
use std::alloc::Global;
use std::marker::Model;

/// The most bytes that a record may have.
const LONGEST: u32 = 262_144;

/// A reader of the host's open capture. Contracts see its head, how many records it has given,
/// where it is, and what it has refused.
#[derive(Debug, Drop)]
pub struct CaptureReader {
    head: CaptureHead,
    number: u32,
    at: u64,
    refused: Option<CaptureFault>,
    spares: Spares,
}

impl Model for CaptureReader {
    ghost use Rattle.pcap_input.specs.Reader.{Reading};
    ghost use Rattle.pcap_input.specs.Savefile.{IsReachable};

    ghost Value = { Reading };

    ghost view = { λ r. record { head = r.head; number = r.number; at = r.at; refused = r.refused } };

    ghost invariant = { λ r. IsReachable r.number r.at };
}

impl CaptureReader {
    /// Opens a file of the host as its capture and reads the file header. Takes no memory.
    pub fn open<H: Host>(host: &mut H, name: &str) -> Result<CaptureReader, CaptureFault>
        // Where contents are told, the head is that of the file's bytes, or its refusal.
        ensures gives { (bytes : List ℕ) → Tells (H.contents host.old) name.now bytes → Opens result (head_of bytes) }
        ensures rest { (bytes : List ℕ) → Tells (H.contents host.old) name.now bytes
            → OnOk result (H.left host.new ≡ Some (drop file_header bytes)) }

        // At most 24 bytes are taken; where the opening itself failed, nothing is open.
        ensures takes { TakesHead (H.contents host.old) name.now result (H.left host.new)
            ⊎ (IsErrOf result CaptureFault.Failed × (H.left host.new ≡ None)) }

        ensures kinds { IfErr result IsOfHead }
        ensures failed { IsErrOf result CaptureFault.Failed
            → Rose (H.faults host.old) (H.faults host.new) ⊎ Lacks (H.contents host.old) name.now }
        ensures same_contents { H.contents host.new ≡ H.contents host.old }
        ensures counted { H.opens host.new ≡ one_more (H.opens host.old) }
        ensures quiet { (IsErrOf result CaptureFault.Failed → ⊥) → H.faults host.new ≡ H.faults host.old }
        ensures later { H.faults host.old ≤ H.faults host.new }

        // What `open` gives and takes, by whatever may be seen of the host afterwards: what it tells, or files
        // that give all that it answered.
        ensures seen_gives { (seen : Option Files) → MaySee (H.contents host.new) (H.agrees host.new) seen
            → (bytes : List ℕ) → Tells seen name.now bytes → Opens result (head_of bytes) }
        ensures seen_rest { (seen : Option Files) → MaySee (H.contents host.new) (H.agrees host.new) seen
            → (bytes : List ℕ) → Tells seen name.now bytes
            → OnOk result (left_by (H.left_of host.new) seen ≡ Some (drop file_header bytes)) }
        ensures seen_takes { (seen : Option Files) → MaySee (H.contents host.new) (H.agrees host.new) seen
            → TakesHead seen name.now result (left_by (H.left_of host.new) seen)
            ⊎ (IsErrOf result CaptureFault.Failed × (left_by (H.left_of host.new) seen ≡ None)) }
        ensures earlier { (seen : Option Files) → MaySee (H.contents host.new) (H.agrees host.new) seen
            → MaySee (H.contents host.old) (H.agrees host.old) seen }
    {
        CaptureReader::open_seen(host, name)
    }

    /// What `open` does, by whatever may be seen of the host afterwards.
    fn open_seen<H: Host>(host: &mut H, name: &str) -> Result<CaptureReader, CaptureFault>
        // Where contents are told, the head is that of the file's bytes, or its refusal.
        ensures gives { (seen : Option Files) → MaySee (H.contents host.new) (H.agrees host.new) seen
            → (bytes : List ℕ) → Tells seen name.now bytes → Opens result (head_of bytes) }
        ensures rest { (seen : Option Files) → MaySee (H.contents host.new) (H.agrees host.new) seen
            → (bytes : List ℕ) → Tells seen name.now bytes
            → OnOk result (left_by (H.left_of host.new) seen ≡ Some (drop file_header bytes)) }

        // At most 24 bytes are taken; where the opening itself failed, nothing is open.
        ensures takes { (seen : Option Files) → MaySee (H.contents host.new) (H.agrees host.new) seen
            → TakesHead seen name.now result (left_by (H.left_of host.new) seen)
            ⊎ (IsErrOf result CaptureFault.Failed × (left_by (H.left_of host.new) seen ≡ None)) }

        ensures kinds { IfErr result IsOfHead }
        ensures failed { IsErrOf result CaptureFault.Failed
            → Rose (H.faults host.old) (H.faults host.new) ⊎ Lacks (H.contents host.old) name.now }
        ensures same_contents { H.contents host.new ≡ H.contents host.old }
        ensures earlier { (seen : Option Files) → MaySee (H.contents host.new) (H.agrees host.new) seen
            → MaySee (H.contents host.old) (H.agrees host.old) seen }
        ensures counted { H.opens host.new ≡ one_more (H.opens host.old) }
        ensures quiet { (IsErrOf result CaptureFault.Failed → ⊥) → H.faults host.new ≡ H.faults host.old }
        ensures later { H.faults host.old ≤ H.faults host.new }
    {
        host.open(name)?;
        let head = opened_head(host)?;
        Ok(CaptureReader::resume(head, 0, FILE_HEADER as u64))
    }

    /// The head that `open` read, or that `resume` was given. Takes no memory.
    pub fn head(&self) -> CaptureHead
        ensures { result ≡ self.now.head }
    {
        self.head
    }

    /// A reader that has given `number` records and is at the byte `at` of the capture. Takes
    /// no memory.
    pub fn resume(head: CaptureHead, number: u32, at: u64) -> CaptureReader
        requires after_header { file_header ≤ at }
        requires within_records { IsReachable number at }
        ensures { result ≡ reader_at head number at }
    {
        CaptureReader {
            head,
            number,
            at,
            refused: None,
            spares: Spares::new(),
        }
    }

    /// Takes back the bytes of a record that is done with: a later record is read into their memory.
    /// The reader is where it was. Where memory is lacking to keep the bytes, they are freed.
    pub fn take_back(&mut self, alloc: Global, bytes: Text)
        ensures { self.new ≡ self.old }
    {
        self.spares.push(alloc, bytes.into_vec());
    }

    /// Reads the next record, or None where no byte is left. A record's bytes are read into memory
    /// that was taken back, or that is reserved once. After a refusal the reader answers that refusal,
    /// without reading.
    pub fn next<H: Host>(
        &mut self,
        alloc: Global,
        host: &mut H,
    ) -> Result<Option<Record>, CaptureFault>
        // Where the bytes left are told, the answer is what comes next in them; where nothing is
        // open, it is the end.
        ensures gives { self.old.refused ≡ None → (rest : List ℕ) → H.left host.old ≡ Some rest
            → Gives result (next_of self.old.head self.old.number self.old.at rest) }
        ensures unopened { self.old.refused ≡ None → IsUnopened (H.contents host.old) (H.left host.old)
            → Gives result (Ends Clean) }

        // What is taken: the bytes of the record that is given and none after it. Before a refusal
        // no record is whole within what is taken.
        ensures takes { IfOk result (λ given. IfSome given (λ r. TakesRecord self.old r (H.left host.old) (H.left host.new))) }
        ensures ended { IfOk result (λ given. IfNone given (H.left host.new ≡ H.left host.old)) }
        ensures partial { self.old.refused ≡ None
            → IfErr result (λ why. TakesNone self.old why (H.left host.old) (H.left host.new)) }

        // Where the reader is afterwards.
        ensures holds { IfOk result (λ given. self.new ≡ after_next self.old given) }
        ensures refused { IfErr result (λ why. self.new ≡ after_refusal self.old why) }

        // A refusal is repeated, and nothing is read.
        ensures again { (why : CaptureFault) → self.old.refused ≡ Some why → result ≡ Err why }
        ensures untouched { (why : CaptureFault) → self.old.refused ≡ Some why → host.new ≡ host.old }

        ensures failed { IsErrOf result CaptureFault.Failed
            → Rose (H.faults host.old) (H.faults host.new) ⊎ (self.old.refused ≡ Some CaptureFault.Failed) }
        ensures same_contents { H.contents host.new ≡ H.contents host.old }
        ensures same_opens { H.opens host.new ≡ H.opens host.old }
        ensures quiet { (IsErrOf result CaptureFault.Failed → ⊥) → H.faults host.new ≡ H.faults host.old }
        ensures later { H.faults host.old ≤ H.faults host.new }

        // What `next` gives and takes, by whatever may be seen of the host afterwards: what it tells, or files
        // that give all that it answered.
        ensures seen_gives { (seen : Option Files) → MaySee (H.contents host.new) (H.agrees host.new) seen
            → self.old.refused ≡ None → (rest : List ℕ) → left_by (H.left_of host.old) seen ≡ Some rest
            → Gives result (next_of self.old.head self.old.number self.old.at rest) }
        ensures seen_unopened { (seen : Option Files) → MaySee (H.contents host.new) (H.agrees host.new) seen
            → self.old.refused ≡ None → IsUnopened seen (left_by (H.left_of host.old) seen)
            → Gives result (Ends Clean) }
        ensures seen_takes { (seen : Option Files) → MaySee (H.contents host.new) (H.agrees host.new) seen
            → IfOk result (λ given. IfSome given (λ r. TakesRecord self.old r
            (left_by (H.left_of host.old) seen) (left_by (H.left_of host.new) seen))) }
        ensures seen_ended { (seen : Option Files) → MaySee (H.contents host.new) (H.agrees host.new) seen
            → IfOk result (λ given. IfNone given (left_by (H.left_of host.new) seen ≡ left_by (H.left_of host.old) seen)) }
        ensures seen_partial { (seen : Option Files) → MaySee (H.contents host.new) (H.agrees host.new) seen
            → self.old.refused ≡ None
            → IfErr result (λ why. TakesNone self.old why
            (left_by (H.left_of host.old) seen) (left_by (H.left_of host.new) seen)) }
        ensures earlier { (seen : Option Files) → MaySee (H.contents host.new) (H.agrees host.new) seen
            → MaySee (H.contents host.old) (H.agrees host.old) seen }
    {
        self.next_seen(alloc, host)
    }

    /// What `next` does, by whatever may be seen of the host afterwards.
    fn next_seen<H: Host>(
        &mut self,
        alloc: Global,
        host: &mut H,
    ) -> Result<Option<Record>, CaptureFault>
        // Where the bytes left are told, the answer is what comes next in them; where nothing is
        // open, it is the end.
        ensures gives { (seen : Option Files) → MaySee (H.contents host.new) (H.agrees host.new) seen
            → self.old.refused ≡ None → (rest : List ℕ) → left_by (H.left_of host.old) seen ≡ Some rest
            → Gives result (next_of self.old.head self.old.number self.old.at rest) }
        ensures unopened { (seen : Option Files) → MaySee (H.contents host.new) (H.agrees host.new) seen
            → self.old.refused ≡ None → IsUnopened seen (left_by (H.left_of host.old) seen)
            → Gives result (Ends Clean) }

        // What is taken: the bytes of the record that is given and none after it. Before a refusal
        // no record is whole within what is taken.
        ensures takes { (seen : Option Files) → MaySee (H.contents host.new) (H.agrees host.new) seen
            → IfOk result (λ given. IfSome given (λ r. TakesRecord self.old r
            (left_by (H.left_of host.old) seen) (left_by (H.left_of host.new) seen))) }
        ensures ended { (seen : Option Files) → MaySee (H.contents host.new) (H.agrees host.new) seen
            → IfOk result (λ given. IfNone given (left_by (H.left_of host.new) seen ≡ left_by (H.left_of host.old) seen)) }
        ensures partial { (seen : Option Files) → MaySee (H.contents host.new) (H.agrees host.new) seen
            → self.old.refused ≡ None
            → IfErr result (λ why. TakesNone self.old why
            (left_by (H.left_of host.old) seen) (left_by (H.left_of host.new) seen)) }

        // Where the reader is afterwards.
        ensures holds { IfOk result (λ given. self.new ≡ after_next self.old given) }
        ensures refused { IfErr result (λ why. self.new ≡ after_refusal self.old why) }

        // A refusal is repeated, and nothing is read.
        ensures again { (why : CaptureFault) → self.old.refused ≡ Some why → result ≡ Err why }
        ensures untouched { (why : CaptureFault) → self.old.refused ≡ Some why → host.new ≡ host.old }

        ensures failed { IsErrOf result CaptureFault.Failed
            → Rose (H.faults host.old) (H.faults host.new) ⊎ (self.old.refused ≡ Some CaptureFault.Failed) }
        ensures quiet { (IsErrOf result CaptureFault.Failed → ⊥) → H.faults host.new ≡ H.faults host.old }
        ensures only_read { OnlyRead H.Host host.old host.new }
    {
        if let Some(why) = self.refused {
            return Err(why);
        }
        let block = self.spares.pop(alloc);
        match read_record(host, self.head, self.number, self.at, block) {
            Ok(None) => Ok(None),
            Ok(Some(given)) => {
                self.number += 1;
                self.at += (RECORD_HEADER + given.bytes.bytes().len()) as u64;
                Ok(Some(given))
            }
            Err(why) => {
                self.refused = Some(why);
                Err(why)
            }
        }
    }
}

/// Reads the file header of the capture that was opened.
fn opened_head<H: Host>(host: &mut H) -> Result<CaptureHead, CaptureFault>
    ensures gives { (seen : Option Files) → MaySee (H.contents host.new) (H.agrees host.new) seen
        → (bytes : List ℕ) → left_by (H.left_of host.old) seen ≡ Some bytes → Reads result (head_of bytes) }
    ensures rest { (seen : Option Files) → MaySee (H.contents host.new) (H.agrees host.new) seen
        → (bytes : List ℕ) → left_by (H.left_of host.old) seen ≡ Some bytes
        → OnOk result (left_by (H.left_of host.new) seen ≡ Some (drop file_header bytes)) }
    ensures takes { (seen : Option Files) → MaySee (H.contents host.new) (H.agrees host.new) seen
        → TakesFileHeader result (left_by (H.left_of host.old) seen) (left_by (H.left_of host.new) seen) }
    ensures kinds { IfErr result IsOfHead }
    ensures failed { IsErrOf result CaptureFault.Failed → Rose (H.faults host.old) (H.faults host.new) }
    ensures quiet { (IsErrOf result CaptureFault.Failed → ⊥) → H.faults host.new ≡ H.faults host.old }
    ensures only_read { OnlyRead H.Host host.old host.new }
{
    let mut header = [0; FILE_HEADER];
    let Ok(count) = fill(host, &mut header) else {
        return Err(CaptureFault::Failed);
    };
    if count < FILE_HEADER {
        return Err(CaptureFault::Truncated { at: 0 });
    }
    read_head(&header)
}

/// Reads the record that is at `at` after `number` records, into a block of any length.
fn read_record<H: Host>(
    host: &mut H,
    head: CaptureHead,
    number: u32,
    at: u64,
    block: Vec<u8>,
) -> Result<Option<Record>, CaptureFault>
    ensures gives { (seen : Option Files) → MaySee (H.contents host.new) (H.agrees host.new) seen
        → (rest : List ℕ) → left_by (H.left_of host.old) seen ≡ Some rest → Gives result (next_of head number at rest) }
    ensures unopened { (seen : Option Files) → MaySee (H.contents host.new) (H.agrees host.new) seen
        → IsUnopened seen (left_by (H.left_of host.old) seen) → Gives result (Ends Clean) }
    ensures takes { (seen : Option Files) → MaySee (H.contents host.new) (H.agrees host.new) seen
        → IfOk result (λ given. IfSome given
        (λ r. TakesRecord (reader_at head number at) r (left_by (H.left_of host.old) seen) (left_by (H.left_of host.new) seen))) }
    ensures ended { (seen : Option Files) → MaySee (H.contents host.new) (H.agrees host.new) seen
        → IfOk result (λ given. IfNone given (left_by (H.left_of host.new) seen ≡ left_by (H.left_of host.old) seen)) }
    ensures partial { (seen : Option Files) → MaySee (H.contents host.new) (H.agrees host.new) seen
        → IfErr result (λ why. TakesNone (reader_at head number at) why
        (left_by (H.left_of host.old) seen) (left_by (H.left_of host.new) seen)) }
    ensures fits { IfOk result (λ given. IfSome given (λ r. (length r.bytes ≤ longest) × (number < most_records))) }
    ensures failed { IsErrOf result CaptureFault.Failed → Rose (H.faults host.old) (H.faults host.new) }
    ensures quiet { (IsErrOf result CaptureFault.Failed → ⊥) → H.faults host.new ≡ H.faults host.old }
    ensures only_read { OnlyRead H.Host host.old host.new }
{
    let mut header = [0; RECORD_HEADER];
    let Ok(count) = fill(host, &mut header) else {
        return Err(CaptureFault::Failed);
    };
    if count == 0 {
        return Ok(None);
    }
    if number == u32::MAX {
        return Err(CaptureFault::TooMany);
    }
    if count < RECORD_HEADER {
        return Err(CaptureFault::Truncated { at });
    }
    let given = read_after(host, head, number, at, &header, block)?;
    Ok(Some(given))
}

/// Reads the captured bytes after a record header that is at `at`.
fn read_after<H: Host>(
    host: &mut H,
    head: CaptureHead,
    number: u32,
    at: u64,
    header: &[u8],
    block: Vec<u8>,
) -> Result<Record, CaptureFault>
    requires { length header.now ≡ record_header }
    ensures gives { (seen : Option Files) → MaySee (H.contents host.new) (H.agrees host.new) seen
        → (rest : List ℕ) → left_by (H.left_of host.old) seen ≡ Some rest
        → GivesOne result (next_after head number at header.now rest) }
    ensures takes { (seen : Option Files) → MaySee (H.contents host.new) (H.agrees host.new) seen
        → IfOk result (λ given. TakesBytes head number at header.now given
        (left_by (H.left_of host.old) seen) (left_by (H.left_of host.new) seen)) }
    ensures partial { (seen : Option Files) → MaySee (H.contents host.new) (H.agrees host.new) seen
        → IfErr result (λ why. TakesFewer head number at header.now why
        (left_by (H.left_of host.old) seen) (left_by (H.left_of host.new) seen)) }
    ensures fits { IfOk result (λ given. length given.bytes ≤ longest) }
    ensures failed { IsErrOf result CaptureFault.Failed → Rose (H.faults host.old) (H.faults host.new) }
    ensures quiet { (IsErrOf result CaptureFault.Failed → ⊥) → H.faults host.new ≡ H.faults host.old }
    ensures only_read { OnlyRead H.Host host.old host.new }
{
    let len = head.captured(header);
    if len > LONGEST {
        return Err(CaptureFault::TooLong { at, len });
    }
    let bytes = read_bytes(host, at, len as usize, block)?;
    Ok(Record {
        number,
        moment: head.moment(header),
        original: head.original(header),
        bytes: Text::from_vec(bytes),
    })
}

/// Reads `len` captured bytes of the record that is at `at`, into a block of any length.
fn read_bytes<H: Host>(
    host: &mut H,
    at: u64,
    len: usize,
    block: Vec<u8>,
) -> Result<Vec<u8>, CaptureFault>
    ensures size { IfOk result (λ bytes. length bytes.items ≡ len) }
    ensures whole { (seen : Option Files) → MaySee (H.contents host.new) (H.agrees host.new) seen
        → IfOk result (λ bytes. (length bytes.items ≡ len) × (left_by (H.left_of host.old) seen
        ≡ before bytes.items (left_by (H.left_of host.new) seen))) }
    ensures partial { (seen : Option Files) → MaySee (H.contents host.new) (H.agrees host.new) seen
        → IfErr result (λ why. TakesLess at len why (left_by (H.left_of host.old) seen) (left_by (H.left_of host.new) seen)) }
    ensures failed { IsErrOf result CaptureFault.Failed → Rose (H.faults host.old) (H.faults host.new) }
    ensures quiet { (IsErrOf result CaptureFault.Failed → ⊥) → H.faults host.new ≡ H.faults host.old }
    ensures only_read { OnlyRead H.Host host.old host.new }
{
    let mut bytes = resized(block, len)?;
    let Ok(count) = fill(host, &mut bytes) else {
        return Err(CaptureFault::Failed);
    };
    if count < len {
        return Err(CaptureFault::Truncated { at });
    }
    Ok(bytes)
}
