//! The head of a savefile, and its records.
use edge_io::{Failed, Link, Moment, Text};
use std::alloc::AllocError;
use thiserror::Error;

/// What the file header of a capture tells.
#[derive(Clone, Copy, Debug, PartialEq, Eq)]
pub struct CaptureHead {
    /// The link layer that each record begins with.
    pub link: Link,
    /// The file's numbers are written with their most significant byte first.
    pub swapped: bool,
    /// The fractions of a second are nanoseconds, not microseconds.
    pub nanos: bool,
}

/// One packet of a capture.
#[derive(Debug, Drop)]
pub struct Record {
    /// How many records come before it in the capture.
    pub number: u32,
    /// When the packet was captured: its seconds and their fraction.
    pub moment: Moment,
    /// How many bytes the packet had on the wire, as its record says. They may be more than were captured.
    pub original: u32,
    /// The bytes that were captured, at most 262144.
    pub bytes: Text,
}

/// Why a capture is not read, or not read on. Places are bytes of the file, counted from 0.
#[derive(Clone, Copy, Debug, PartialEq, Eq, Error)]
pub enum CaptureFault {
    /// The file is not a classic pcap capture of version 2.
    #[error("capture is not a pcap file")]
    NotPcap,
    /// A link type other than 1, 101 and 113.
    #[error("capture has link type {0}")]
    LinkType(u32),
    /// The file ends inside its header, or inside the record that begins at this place.
    #[error("capture is truncated at byte {at}")]
    Truncated { at: u64 },
    /// The record that begins at this place says that more than 262144 bytes were captured.
    #[error("capture has a record of {len} bytes at byte {at}")]
    TooLong { at: u64, len: u32 },
    /// The file goes on after 4294967295 records.
    #[error("capture has too many records")]
    TooMany,
    /// The host failed, or has no such file.
    #[error("cannot read the capture")]
    Failed,
    /// Memory ran out.
    #[error("no memory")]
    NoMemory,
}

impl From<AllocError> for CaptureFault {
    ghost use Rattle.std.specs.Prelude.{◌≡◌};
    ghost use Rattle.pcap_input.specs.declared.capture.CaptureFault.TheVariants.{NoMemory as out_of_memory};

    ghost from_gives = { λ _ fault. fault ≡ out_of_memory };

    fn from(_error: AllocError) -> CaptureFault {
        CaptureFault::NoMemory
    }
}

impl From<Failed> for CaptureFault {
    ghost use Rattle.std.specs.Prelude.{◌≡◌};
    ghost use Rattle.pcap_input.specs.declared.capture.CaptureFault.TheVariants.{Failed as host_failed};

    ghost from_gives = { λ _ fault. fault ≡ host_failed };

    fn from(_error: Failed) -> CaptureFault {
        CaptureFault::Failed
    }
}
