//! The options of an interface description.
ghost use Rattle.std.specs.Prelude.{◌≡◌};
ghost use Rattle.pcapng_input.specs.Options.{padded, found_in, resolution_told};

use crate::resolution::{MICROSECONDS, Resolution};
use pcap_input::number::u16_at;

/// The bytes of an option's code and length.
const OPTION_HEADER: usize = 4;

/// The option that ends a list.
const END: u16 = 0;

/// The option if_tsresol.
const RESOLUTION: u16 = 9;

/// `size` bytes, and those that fill up the last four.
fn padded(size: u16) -> usize
    ensures { result ≡ padded size }
{
    (usize::from(size) + 3) / 4 * 4
}

/// The resolution that an interface's options tell, or None where an option passes the end or is no
/// resolution. Of several the last holds.
pub fn resolution_told(swapped: bool, options: &[u8]) -> Option<Resolution>
    ensures { result ≡ resolution_told swapped options.now }
{
    let mut found = MICROSECONDS;
    let mut rest = options;
    while rest.len() >= OPTION_HEADER {
        let code = u16_at(swapped, rest, 0);
        if code == END {
            return Some(found);
        }
        let size = u16_at(swapped, rest, 2);
        let end = OPTION_HEADER + padded(size);
        if rest.len() < end {
            return None;
        }
        let value = &rest[OPTION_HEADER..OPTION_HEADER + usize::from(size)];
        found = found_in(found, code, value)?;
        rest = &rest[end..];
    }
    Some(found)
}

/// The resolution after an option of this code and value: what it tells, where it tells it, or that
/// so far.
fn found_in(so_far: Resolution, code: u16, value: &[u8]) -> Option<Resolution>
    ensures { result ≡ found_in so_far code value.now }
{
    if code == RESOLUTION {
        Resolution::of_option(value)
    } else {
        Some(so_far)
    }
}
