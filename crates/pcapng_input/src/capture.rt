//! A packet of a pcapng capture, with its link layer.
use edge_io::{Failed, Link, NoMemory};
use pcap_input::Record;
use std::alloc::AllocError;
use thiserror::Error;

/// One packet of a pcapng capture.
#[derive(Debug, Drop)]
pub struct NgRecord {
    /// The link layer that the packet begins with: that of its interface.
    pub link: Link,
    /// The packet, its number counted over the whole file.
    pub item: Record,
}

/// Why a capture is not read, or not read on. Places are bytes of the file, counted from 0: where the
/// block begins that can't be read.
#[derive(Clone, Copy, Debug, PartialEq, Eq, Error)]
pub enum NgFault {
    /// The file does not begin with a section header.
    #[error("capture is not a pcapng file")]
    NotPcapng,
    /// The file ends inside the block that begins at this place.
    #[error("capture is truncated at byte {at}")]
    Truncated { at: u64 },
    /// The block that begins at this place is not as the format has it.
    #[error("capture has a bad block at byte {at}")]
    BadBlock { at: u64 },
    /// The packet's interface has a link type other than 1, 101 and 113.
    #[error("capture has link type {link}")]
    LinkType { at: u64, link: u32 },
    /// More than 262144 bytes of the packet were captured.
    #[error("capture has a record of {len} bytes at byte {at}")]
    TooLong { at: u64, len: u32 },
    /// The file goes on after 4294967295 records, or after 2 ^ 62 bytes.
    #[error("capture has too many records")]
    TooMany,
    /// The host failed, or has no such file.
    #[error("cannot read the capture")]
    Failed,
    /// Memory ran out.
    #[error("no memory")]
    NoMemory,
}

impl From<AllocError> for NgFault {
    ghost use Rattle.std.specs.Prelude.{◌≡◌};
    ghost use Rattle.pcapng_input.specs.declared.capture.NgFault.TheVariants.{NoMemory as out_of_memory};

    ghost from_gives = { λ _ fault. fault ≡ out_of_memory };

    fn from(_error: AllocError) -> NgFault {
        NgFault::NoMemory
    }
}

impl From<NoMemory> for NgFault {
    ghost use Rattle.std.specs.Prelude.{◌≡◌};
    ghost use Rattle.pcapng_input.specs.declared.capture.NgFault.TheVariants.{NoMemory as lacked_memory};

    ghost from_gives = { λ _ fault. fault ≡ lacked_memory };

    fn from(_error: NoMemory) -> NgFault {
        NgFault::NoMemory
    }
}

impl From<Failed> for NgFault {
    ghost use Rattle.std.specs.Prelude.{◌≡◌};
    ghost use Rattle.pcapng_input.specs.declared.capture.NgFault.TheVariants.{Failed as host_failed};

    ghost from_gives = { λ _ fault. fault ≡ host_failed };

    fn from(_error: Failed) -> NgFault {
        NgFault::Failed
    }
}
