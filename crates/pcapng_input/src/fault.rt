//! Why a capture is not read, or not read on, in either format, and the message of one that is refused.
ghost use Rattle.std.specs.Prelude.{◌≡◌, ◌++◌, OnOk, decimal};
ghost use Rattle.pcapng_input.specs.Faults.{bad_capture_text, numbered_line};

use crate::NgFault;
use edge_io::NoMemory;
use itoa::Buffer;
use pcap_input::CaptureFault;

/// Why a capture is refused. Places are bytes of the file, counted from 0: where the record or the block begins that can't
/// be read.
#[derive(Clone, Copy, Debug, PartialEq, Eq)]
pub enum BadCapture {
    /// It begins neither as a savefile of version 2 nor with a section header and its byte-order magic.
    NotPcap,
    /// A link type other than 1, 101 and 113.
    LinkType { link: u32 },
    /// It ends inside its header, or inside the record or the block that begins at this place.
    Truncated { at: u64 },
    /// The block that begins at this place is not as the format has it.
    BadBlock { at: u64 },
    /// The record at this place says that more than 262144 bytes were captured.
    TooLong { at: u64, len: u32 },
    /// It goes on after 4294967295 records, or, as blocks, after 2^62 bytes.
    TooMany,
}

/// Why a capture is not read, or not read on.
#[derive(Clone, Copy, Debug, PartialEq, Eq)]
pub enum ReadFault {
    /// It is refused.
    Bad(BadCapture),
    /// The host failed, or has no such file.
    Failed,
    /// Memory ran out.
    NoMemory,
}

/// Appends a text.
fn push_text(out: &mut Vec<u8>, text: &[u8]) -> Result<(), NoMemory>
    ensures { OnOk result (out.new.items ≡ out.old.items ++ text.now) }
{
    out.extend_from_slice(text)?;
    Ok(())
}

/// Appends a text and a number.
fn push_number(out: &mut Vec<u8>, text: &[u8], number: u64) -> Result<(), NoMemory>
    ensures { OnOk result (out.new.items ≡ out.old.items ++ (text.now ++ decimal number)) }
{
    out.extend_from_slice(text)?;
    out.extend_from_slice(Buffer::new().format(number).as_bytes())?;
    Ok(())
}

/// Appends a text, a number and the end of their line.
fn push_line(out: &mut Vec<u8>, text: &[u8], number: u64) -> Result<(), NoMemory>
    ensures { OnOk result (out.new.items ≡ out.old.items ++ numbered_line text.now number) }
{
    push_number(out, text, number)?;
    push_text(out, b"\n")
}

/// Appends a text and a number, and a line of a text and a number.
fn push_numbers(
    out: &mut Vec<u8>,
    front: &[u8],
    first: u64,
    text: &[u8],
    second: u64,
) -> Result<(), NoMemory>
    ensures { OnOk result (out.new.items ≡ out.old.items ++ (front.now ++ (decimal first ++ numbered_line text.now second))) }
{
    push_number(out, front, first)?;
    push_line(out, text, second)
}

impl BadCapture {
    /// Appends the message, with a line feed at its end. Where memory is lacking, a part of it may be appended.
    #[tactic(auto, unfolding(crate::specs::Faults::bad_capture_text))]
    pub fn push(self, out: &mut Vec<u8>) -> Result<(), NoMemory>
        ensures { OnOk result (out.new.items ≡ out.old.items ++ bad_capture_text self) }
    {
        match self {
            BadCapture::NotPcap => push_text(out, b"ERROR: capture is not a pcap file\n"),
            BadCapture::LinkType { link } => {
                push_line(out, b"ERROR: capture has link type ", link as u64)
            }
            BadCapture::Truncated { at } => {
                push_line(out, b"ERROR: capture is truncated at byte ", at)
            }
            BadCapture::BadBlock { at } => {
                push_line(out, b"ERROR: capture has a bad block at byte ", at)
            }
            BadCapture::TooLong { at, len } => push_numbers(
                out,
                b"ERROR: capture has a record of ",
                len as u64,
                b" bytes at byte ",
                at,
            ),
            BadCapture::TooMany => push_text(out, b"ERROR: capture has too many records\n"),
        }
    }
}

impl From<CaptureFault> for ReadFault {
    ghost use Rattle.pcapng_input.specs.Faults.{of_savefile};

    ghost from_gives = { λ why fault. fault ≡ of_savefile why };

    fn from(why: CaptureFault) -> ReadFault {
        match why {
            CaptureFault::NotPcap => ReadFault::Bad(BadCapture::NotPcap),
            CaptureFault::LinkType(link) => ReadFault::Bad(BadCapture::LinkType { link }),
            CaptureFault::Truncated { at } => ReadFault::Bad(BadCapture::Truncated { at }),
            CaptureFault::TooLong { at, len } => ReadFault::Bad(BadCapture::TooLong { at, len }),
            CaptureFault::TooMany => ReadFault::Bad(BadCapture::TooMany),
            CaptureFault::Failed => ReadFault::Failed,
            CaptureFault::NoMemory => ReadFault::NoMemory,
        }
    }
}

impl From<NgFault> for ReadFault {
    ghost use Rattle.pcapng_input.specs.Faults.{of_blocks};

    ghost from_gives = { λ why fault. fault ≡ of_blocks why };

    fn from(why: NgFault) -> ReadFault {
        match why {
            NgFault::NotPcapng => ReadFault::Bad(BadCapture::NotPcap),
            NgFault::Truncated { at } => ReadFault::Bad(BadCapture::Truncated { at }),
            NgFault::BadBlock { at } => ReadFault::Bad(BadCapture::BadBlock { at }),
            NgFault::LinkType { at: _, link } => ReadFault::Bad(BadCapture::LinkType { link }),
            NgFault::TooLong { at, len } => ReadFault::Bad(BadCapture::TooLong { at, len }),
            NgFault::TooMany => ReadFault::Bad(BadCapture::TooMany),
            NgFault::Failed => ReadFault::Failed,
            NgFault::NoMemory => ReadFault::NoMemory,
        }
    }
}
