//! Bytes made into texts.
ghost use Rattle.std.specs.Prelude.{◌≡◌, ◌++◌, IfOk, OnOk, IsAscii, decimal, string_bytes};
ghost use Rattle.std.specs.Str.{encode_utf8_all};
ghost use Rattle.alert_fast.specs.Line.{dotted_text};
ghost use Rattle.alert_json.specs.Texts.{is_printable, printable, printable_text};

use std::alloc::{AllocError, Global};

/// The text that bytes are in Latin-1.
pub(crate) fn latin1(alloc: Global, bytes: &[u8]) -> Result<String, AllocError>
    ensures { IfOk result (λ text. string_bytes text ≡ encode_utf8_all bytes.now) }
{
    let mut text = String::new(alloc);
    for byte in bytes {
        text.push(*byte as char)?;
    }
    Ok(text)
}

/// The printable form of a payload.
pub(crate) fn printed(alloc: Global, payload: &[u8]) -> Result<Vec<u8>, AllocError>
    ensures text { IfOk result (λ text. text.items ≡ printable_text payload.now) }
    ensures ascii { IfOk result (λ text. IsAscii text.items) }
{
    let text = printed_bytes(alloc, payload)?;
    Ok(text)
}

fn printed_bytes(alloc: Global, payload: &[u8]) -> Result<Vec<u8>, AllocError>
    ensures { IfOk result (λ text. text.items ≡ printable_text payload.now) }
{
    let mut text = Vec::from_slice(alloc, payload)?;
    print_over(&mut text);
    Ok(text)
}

fn print_over(text: &mut [u8])
    ensures { text.new ≡ printable_text text.old }
{
    for at in 0..text.len() {
        text[at] = printable(text[at]);
    }
}

#[tactic(auto, unfolding(crate::specs::Texts::printable))]
fn printable(byte: u8) -> u8
    ensures { result ≡ printable byte }
{
    if is_printable(byte) { byte } else { b'.' }
}

#[tactic(auto, unfolding(crate::specs::Texts::is_printable))]
fn is_printable(byte: u8) -> bool
    ensures { result ≡ is_printable byte }
{
    (32 <= byte && byte < 127) || (byte == b'\n' || byte == b'\r')
}

// Appends the decimal digits of a byte.
fn push_octet(text: &mut Vec<u8>, octet: u8) -> Result<(), AllocError>
    ensures { OnOk result (text.new.items ≡ text.old.items ++ decimal octet) }
{
    if octet < 10 {
        text.extend_from_slice(&[b'0' + octet])?;
        return Ok(());
    }
    if octet < 100 {
        text.extend_from_slice(&[b'0' + octet / 10, b'0' + octet % 10])?;
        return Ok(());
    }
    text.extend_from_slice(&[
        b'0' + octet / 100,
        b'0' + octet / 10 % 10,
        b'0' + octet % 10,
    ])?;
    Ok(())
}

/// Appends an address of version 4 in dotted decimal.
pub(crate) fn push_dots(text: &mut Vec<u8>, address: u32) -> Result<(), AllocError>
    ensures { OnOk result (text.new.items ≡ text.old.items ++ dotted_text address) }
{
    let [a, b, c, d] = address.to_be_bytes();
    push_octet(text, a)?;
    text.extend_from_slice(b".")?;
    push_octet(text, b)?;
    text.extend_from_slice(b".")?;
    push_octet(text, c)?;
    text.extend_from_slice(b".")?;
    push_octet(text, d)?;
    Ok(())
}
