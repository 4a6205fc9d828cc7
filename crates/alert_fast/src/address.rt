//! Addresses as text: dotted decimal, and RFC 5952 for version 6.
ghost use Rattle.std.specs.Prelude.{◌≡◌, ◌++◌, ◌+◌, ◌≤◌, OnOk, OnErr, nat_lt, take, length};
ghost use Rattle.std.specs.Net.Text.{groups_text, hex_groups_text, longest_zero_run};
ghost use Rattle.alert_fast.specs.Line.{address_text, colon_text, dotted_text};
ghost use Rattle.alert_fast.specs.Pieces.{later_groups_text};

use crate::pieces::TextPiece::{Bytes, Hex, Number};
use crate::pieces::push_pieces;
use edge_io::{Addr, NoMemory};
use std::net::Ipv6Addr;

/// Appends an address: in dotted decimal, or by RFC 5952 in version 6. Where memory is lacking, nothing is
/// appended.
#[tactic(auto, unfolding(crate::specs::Line::address_text))]
pub fn push_address(address: Addr, out: &mut Vec<u8>) -> Result<(), NoMemory>
    ensures appended { OnOk result (out.new.items ≡ out.old.items ++ address_text address) }
    ensures unchanged { OnErr result (out.new.items ≡ out.old.items) }
{
    match address {
        Addr::V4(address) => push_dotted(address, out),
        Addr::V6(address) => push_colons(address, out),
    }
}

fn push_dotted(address: u32, out: &mut Vec<u8>) -> Result<(), NoMemory>
    ensures appended { OnOk result (out.new.items ≡ out.old.items ++ dotted_text address) }
    ensures unchanged { OnErr result (out.new.items ≡ out.old.items) }
{
    let [a, b, c, d] = address.to_be_bytes();
    push_pieces(
        out,
        &[
            Number(a as u64),
            Bytes(b"."),
            Number(b as u64),
            Bytes(b"."),
            Number(c as u64),
            Bytes(b"."),
            Number(d as u64),
        ],
    )
}

#[tactic(auto, unfolding(crate::specs::Line::colon_text, std::specs::Net::Addr::IsIpv6OfBits))]
fn push_colons(address: u128, out: &mut Vec<u8>) -> Result<(), NoMemory>
    ensures appended { OnOk result (out.new.items ≡ out.old.items ++ colon_text address) }
    ensures unchanged { OnErr result (out.new.items ≡ out.old.items) }
{
    let length = out.len();
    let segments = Ipv6Addr::from_bits(address).segments();
    match push_segments(&segments, out) {
        Ok(()) => Ok(()),
        Err(error) => {
            out.truncate(length);
            Err(error)
        }
    }
}

// Whether a run of this many zero groups is written as a gap.
fn is_gap(len: usize) -> bool
    ensures { result ≡ nat_lt 1 len }
{
    len > 1
}

// Where memory is lacking, a part of the text may be left after what was there.
#[tactic(auto, unfolding(std::specs::Net::Text::hex_groups_text))]
fn push_segments(segments: &[u16], out: &mut Vec<u8>) -> Result<(), NoMemory>
    ensures appended { OnOk result (out.new.items ≡ out.old.items ++ hex_groups_text segments.now) }
    ensures kept { OnErr result (take (length out.old.items) out.new.items ≡ out.old.items) }
{
    let (start, len) = longest_zero_run(segments);
    if is_gap(len) {
        push_groups(&segments[..start], out)?;
        push_pieces(out, &[Bytes(b"::")])?;
        push_groups(&segments[start + len..], out)
    } else {
        push_groups(segments, out)
    }
}

// Where memory is lacking, a part of the text may be left after what was there.
fn push_groups(groups: &[u16], out: &mut Vec<u8>) -> Result<(), NoMemory>
    ensures appended { OnOk result (out.new.items ≡ out.old.items ++ groups_text groups.now) }
    ensures kept { OnErr result (take (length out.old.items) out.new.items ≡ out.old.items) }
{
    match groups {
        [] => Ok(()),
        [first, rest @ ..] => {
            push_pieces(out, &[Hex(*first)])?;
            push_later_groups(rest, out)
        }
    }
}

// Groups, a colon before each.
fn push_later_groups(groups: &[u16], out: &mut Vec<u8>) -> Result<(), NoMemory>
    ensures appended { OnOk result (out.new.items ≡ out.old.items ++ later_groups_text groups.now) }
    ensures unchanged { OnErr result (out.new.items ≡ out.old.items) }
{
    let length = out.len();
    for group in groups {
        match push_pieces(out, &[Bytes(b":"), Hex(*group)]) {
            Ok(()) => {}
            Err(error) => {
                out.truncate(length);
                return Err(error);
            }
        }
    }
    Ok(())
}

// The start and the length of the longest run of zero groups, the first one of that length.
fn longest_zero_run(segments: &[u16]) -> (usize, usize)
    ensures value { result ≡ longest_zero_run segments.now }
    ensures within { result.0 + result.1 ≤ length segments.now }
{
    let mut start = segments.len();
    let mut len = 0;
    let mut run = 0;
    for i in (0..segments.len()).rev() {
        run = if segments[i] == 0 { run + 1 } else { 0 };
        if run >= len {
            start = i;
            len = run;
        }
    }
    (start, len)
}
