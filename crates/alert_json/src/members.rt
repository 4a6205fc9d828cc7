//! Members of an object, written one after another.
ghost use Rattle.std.specs.Prelude.{◌≡◌, ◌++◌, OnOk, IsAscii, decimal};
ghost use Rattle.std.specs.Str.{encode_utf8_all};
ghost use Rattle.alert_json.specs.Texts.{text_of};
ghost use Rattle.alert_json.specs.Value.{text_field, number_field, maybe_number};
ghost use Rattle.alert_json.specs.Tokens.{Adds};

use crate::texts::latin1;
use json::Writer;
use std::alloc::{AllocError, Global};
use std::str::from_utf8;

/// Writes a member whose value is a text.
pub(crate) fn push_text(writer: &mut Writer, key: &str, text: &str) -> Result<(), AllocError>
    ensures added { OnOk result (Adds writer.old.tokens writer.new.tokens (text_field key.now text.now)) }
    ensures before { writer.new.before ≡ writer.old.before }
{
    writer.key(key)?;
    writer.string(text)
}

/// Writes a member whose value is a text of ASCII alone.
pub(crate) fn push_ascii(writer: &mut Writer, key: &str, text: &[u8]) -> Result<(), AllocError>
    requires { IsAscii text.now }
    ensures added { OnOk result (Adds writer.old.tokens writer.new.tokens (text_field key.now text.now)) }
    ensures before { writer.new.before ≡ writer.old.before }
{
    match from_utf8(text) {
        Ok(text) => push_text(writer, key, text),
        Err(_) => unreachable!(),
    }
}

/// Writes a member whose value is the text of bytes: UTF-8, or else Latin-1.
pub(crate) fn push_bytes(
    alloc: Global,
    writer: &mut Writer,
    key: &str,
    bytes: &[u8],
) -> Result<(), AllocError>
    ensures added { OnOk result (Adds writer.old.tokens writer.new.tokens
        (text_field key.now (text_of bytes.now))) }
    ensures before { writer.new.before ≡ writer.old.before }
{
    match from_utf8(bytes) {
        Ok(text) => push_text(writer, key, text),
        Err(_) => push_latin1(alloc, writer, key, bytes),
    }
}

fn push_latin1(
    alloc: Global,
    writer: &mut Writer,
    key: &str,
    bytes: &[u8],
) -> Result<(), AllocError>
    ensures added { OnOk result (Adds writer.old.tokens writer.new.tokens
        (text_field key.now (encode_utf8_all bytes.now))) }
    ensures before { writer.new.before ≡ writer.old.before }
{
    let text = latin1(alloc, bytes)?;
    push_text(writer, key, text.as_str())
}

/// Writes a member whose value is a number.
pub(crate) fn push_number(writer: &mut Writer, key: &str, value: u64) -> Result<(), AllocError>
    ensures added { OnOk result (Adds writer.old.tokens writer.new.tokens (number_field key.now value)) }
    ensures before { writer.new.before ≡ writer.old.before }
{
    writer.key(key)?;
    writer.u64(value)
}

/// Writes a member whose value is a number's digits, as a text.
pub(crate) fn push_digits(writer: &mut Writer, key: &str, value: u64) -> Result<(), AllocError>
    ensures added { OnOk result (Adds writer.old.tokens writer.new.tokens
        (text_field key.now (decimal value))) }
    ensures before { writer.new.before ≡ writer.old.before }
{
    writer.key(key)?;
    writer.quoted_u64(value)
}

/// Writes a member whose value is a number, where there is one.
pub(crate) fn push_maybe_number(
    writer: &mut Writer,
    key: &str,
    value: Option<u64>,
) -> Result<(), AllocError>
    ensures added { OnOk result (Adds writer.old.tokens writer.new.tokens (maybe_number key.now value)) }
    ensures before { writer.new.before ≡ writer.old.before }
{
    match value {
        None => Ok(()),
        Some(value) => push_number(writer, key, value),
    }
}
