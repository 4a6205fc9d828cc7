//! A capture that was made in memory, as a host that can't fail.
ghost use Rattle.std.specs.Prelude.{◌≡◌, ◌≤◌, Some, length, drop};
ghost use Rattle.pcap_input.specs.Generated.{made_head};
ghost use Rattle.pcap_input.specs.Savefile.{file_header};
ghost use Rattle.pcap_input.specs.Reader.{new_reader};
ghost use Rattle.snort_engine.specs.declared.reader.RecordReader.TheVariants.{Savefile};
ghost use Rattle.snort_engine.specs.Steps.MadeCapture.{left_of};

use crate::reader::RecordReader;
use edge_io::{Failed, Host, Link, LoadFault};
use pcap_input::{CaptureHead, CaptureReader};

/// The bytes of the file header of a capture.
const FILE_HEADER: usize = 24;

/// The head of a capture that is made.
const HEAD: CaptureHead = CaptureHead {
    link: Link::Ethernet,
    swapped: false,
    nanos: false,
};

/// A reader of a capture that is made, which has given no record.
pub(crate) fn made_reader() -> RecordReader
    ensures { result ≡ Savefile (new_reader made_head) }
{
    RecordReader::Savefile(CaptureReader::resume(HEAD, 0, FILE_HEADER as u64))
}

/// A capture that was made, from its first record on. As a host it has no file, and counts no fault, since
/// a read of it can't fail.
#[derive(Drop)]
pub(crate) struct MadeCapture<'a> {
    /// What is left of it, while it is open.
    rest: Option<&'a [u8]>,
    /// How often something else was to be opened in its place.
    opens: u64,
}

impl<'a> MadeCapture<'a> {
    /// The capture of these bytes, of which the file header was read.
    pub fn new(bytes: &'a [u8]) -> Self
        requires { file_header ≤ length bytes.now }
        ensures { left_of result ≡ Some (drop file_header bytes.entry.now) }
    {
        MadeCapture {
            rest: Some(&bytes[FILE_HEADER..]),
            opens: 0,
        }
    }
}

impl Host for MadeCapture<'_> {
    ghost use Rattle.std.specs.Prelude.{◌≡◌, Some, refl};
    ghost use Rattle.std.specs.FinMap.{empty};
    ghost use Rattle.snort_engine.specs.Steps.MadeCapture.{left_of};

    ghost contents = { λ _. Some empty };

    ghost left = { left_of };

    ghost agrees = { λ _ files. files ≡ empty };

    ghost left_of = { λ made _. left_of made };

    ghost faults = { λ _. 0 };

    ghost opens = { λ made. made.opens };

    ghost as_told = { λ _. record { agree = refl; alone = λ _ same. same; left_is = refl } };

    fn load(&mut self, _name: &str, _limit: usize, _out: &mut Vec<u8>) -> Result<(), LoadFault> {
        Err(LoadFault::Failed)
    }

    fn open(&mut self, _name: &str) -> Result<(), Failed> {
        self.opens = self.opens.saturating_add(1);
        self.rest = None;
        Err(Failed)
    }

    #[tactic(auto, unfolding(edge_io::specs::Told::before))]
    fn read(&mut self, buf: &mut [u8]) -> Result<usize, Failed> {
        let Some(rest) = self.rest else {
            return Ok(0);
        };
        let count = rest.len().min(buf.len());
        buf[..count].copy_from_slice(&rest[..count]);
        self.rest = Some(&rest[count..]);
        Ok(count)
    }
}
