//! The headers of a savefile and of its records, as bytes.
ghost use Rattle.std.specs.Prelude.{◌≡◌, ℕ, ◌+◌, ◌<◌, ◌≤◌, ◌^◌, false, List, length, Err};
ghost use Rattle.pcap_input.specs.Savefile.{file_header, record_header, number_at, head_with, head_after, head_of, captured_length, moment_of};

use crate::number::{u16_at, u32_at};
use crate::{CaptureFault, CaptureHead};
use edge_io::{Link, Moment};

/// The bytes of a file header.
pub const FILE_HEADER: usize = 24;

/// The bytes of a record header.
pub const RECORD_HEADER: usize = 16;

/// The magic number of a capture whose fractions are microseconds.
const MICROSECONDS: u32 = 0xa1b2_c3d4;

/// The magic number of a capture whose fractions are nanoseconds.
const NANOSECONDS: u32 = 0xa1b2_3c4d;

/// The major version of the format.
const MAJOR: u16 = 2;

/// What a capture's magic number tells of its numbers.
#[derive(Clone, Copy)]
struct Order {
    /// The most significant byte comes first.
    swapped: bool,
    /// The fractions of a second are nanoseconds, not microseconds.
    nanos: bool,
}

/// The head with this link type, where it is one that is read.
#[tactic(auto, unfolding(crate::specs::Savefile::head_with))]
fn with_link(order: Order, link_type: u32) -> Result<CaptureHead, CaptureFault>
    ensures { result ≡ head_with order.swapped order.nanos link_type }
{
    let link = match link_type {
        1 => Link::Ethernet,
        101 => Link::RawIp,
        113 => Link::Cooked,
        other => return Err(CaptureFault::LinkType(other)),
    };
    Ok(CaptureHead {
        link,
        swapped: order.swapped,
        nanos: order.nanos,
    })
}

/// The head of a file header, by what its magic number told.
#[tactic(auto, unfolding(crate::specs::Savefile::head_after))]
fn after_magic(order: Order, bytes: &[u8]) -> Result<CaptureHead, CaptureFault>
    requires { length bytes.now ≡ file_header }
    ensures { result ≡ head_after order.swapped order.nanos bytes.now }
{
    if u16_at(order.swapped, bytes, 4) != MAJOR {
        return Err(CaptureFault::NotPcap);
    }
    with_link(order, u32_at(order.swapped, bytes, 20) % 65536)
}

/// The head of a file header.
#[tactic(auto, unfolding(crate::specs::Savefile::head_of))]
pub fn read_head(bytes: &[u8]) -> Result<CaptureHead, CaptureFault>
    requires { length bytes.now ≡ file_header }
    ensures { result ≡ head_of bytes.now }
{
    let least_first = u32_at(false, bytes, 0);
    let most_first = u32_at(true, bytes, 0);
    if least_first == MICROSECONDS {
        after_magic(
            Order {
                swapped: false,
                nanos: false,
            },
            bytes,
        )
    } else if least_first == NANOSECONDS {
        after_magic(
            Order {
                swapped: false,
                nanos: true,
            },
            bytes,
        )
    } else if most_first == MICROSECONDS {
        after_magic(
            Order {
                swapped: true,
                nanos: false,
            },
            bytes,
        )
    } else if most_first == NANOSECONDS {
        after_magic(
            Order {
                swapped: true,
                nanos: true,
            },
            bytes,
        )
    } else {
        Err(CaptureFault::NotPcap)
    }
}

impl CaptureHead {
    /// How many bytes a record header says were captured.
    #[tactic(auto, unfolding(crate::specs::Savefile::captured_length))]
    pub(crate) fn captured(self, header: &[u8]) -> u32
        requires { length header.now ≡ record_header }
        ensures { result ≡ captured_length self header.now }
    {
        u32_at(self.swapped, header, 8)
    }

    /// How many bytes a record header says that the packet had.
    pub(crate) fn original(self, header: &[u8]) -> u32
        requires { length header.now ≡ record_header }
        ensures { result ≡ number_at self.swapped 12 4 header.now }
    {
        u32_at(self.swapped, header, 12)
    }

    /// A record header's moment. It never wraps: both parts are below 2 ^ 32.
    #[tactic(auto, unfolding(crate::specs::Savefile::moment_of))]
    pub(crate) fn moment(self, header: &[u8]) -> Moment
        requires { length header.now ≡ record_header }
        ensures { result.nanos ≡ moment_of self header.now }
    {
        let seconds = u64::from(u32_at(self.swapped, header, 0));
        let fraction = u64::from(u32_at(self.swapped, header, 4));
        let nanos_each = if self.nanos { 1 } else { 1000 };
        Moment {
            nanos: seconds * 1_000_000_000 + fraction * nanos_each,
        }
    }
}

/// A law for callers: a file that begins with 0a0d0d0a, as a section header of pcapng does
/// (draft-ietf-opsawg-pcapng), is no savefile.
pub fn sections_are_no_savefiles()
    ensures { (bytes : List ℕ) → file_header ≤ length bytes → number_at false 0 4 bytes ≡ 0x0a0d_0d0a
        → head_of bytes ≡ Err CaptureFault.NotPcap }
{}
