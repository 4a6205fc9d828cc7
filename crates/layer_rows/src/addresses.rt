//! The addresses of the rows.

use edge_io::Addr;
use row_files::TextParts;
use std::net::{Ipv4Addr, Ipv6Addr};

/// The address that hexadecimal digits say.
fn of_digits(parts: &mut TextParts<'_>, digits: &str) -> Addr {
    match u128::from_str_radix(digits, 16) {
        Ok(bits) => Addr::V6(bits),
        Err(_) => {
            parts.refuse();
            Addr::V6(0)
        }
    }
}

/// The address of version 6 that a text says, as std reads it.
fn of_version_6(parts: &mut TextParts<'_>, text: &str) -> Addr {
    match text.parse::<Ipv6Addr>() {
        Ok(address) => Addr::V6(address.to_bits()),
        Err(_) => {
            parts.refuse();
            Addr::V4(0)
        }
    }
}

/// The address of version 4 that a text says, as std reads it.
fn of_version_4(parts: &mut TextParts<'_>, text: &str) -> Addr {
    match text.parse::<Ipv4Addr>() {
        Ok(address) => Addr::V4(address.to_bits()),
        Err(_) => {
            parts.refuse();
            Addr::V4(0)
        }
    }
}

/// The address that the next part says, as std reads it, or by its hexadecimal digits after `0x`.
pub(crate) fn address(parts: &mut TextParts<'_>) -> Addr {
    let text = parts.word();
    match text.strip_prefix("0x") {
        Some(digits) => of_digits(parts, digits),
        None if text.contains(':') => of_version_6(parts, text),
        None => of_version_4(parts, text),
    }
}
