//! Texts put together of pieces, and digits.
ghost use Rattle.std.specs.Prelude.{◌≡◌, ◌++◌, ◌<◌, OnOk, OnErr};
ghost use Rattle.std.specs.Char.{digit_char};
ghost use Rattle.std.specs.Net.Text.{hex, leading_zero_digits};
ghost use Rattle.alert_fast.specs.Pieces.{digits, piece_text, pieces_text};

use edge_io::NoMemory;
use itoa::Buffer;
use std::alloc::AllocError;

/// A piece of a text: bytes as they are, a number in decimal digits, or 16 bits in lower-case hex
/// digits without leading zeros.
#[derive(Clone, Copy)]
pub enum TextPiece<'a> {
    Bytes(&'a [u8]),
    Number(u64),
    Hex(u16),
}

/// Appends the pieces, one after another.
pub fn push_pieces(out: &mut Vec<u8>, pieces: &[TextPiece<'_>]) -> Result<(), NoMemory>
    ensures appended { OnOk result (out.new.items ≡ out.old.items ++ pieces_text pieces.now) }
    ensures unchanged { OnErr result (out.new.items ≡ out.old.items) }
{
    let length = out.len();
    for piece in pieces {
        match push_piece(out, *piece) {
            Ok(()) => {}
            Err(error) => {
                out.truncate(length);
                return Err(error.into());
            }
        }
    }
    Ok(())
}

fn push_piece(out: &mut Vec<u8>, piece: TextPiece<'_>) -> Result<(), AllocError>
    ensures appended { OnOk result (out.new.items ≡ out.old.items ++ piece_text piece.entry) }
    ensures unchanged { OnErr result (out.new.items ≡ out.old.items) }
{
    match piece {
        TextPiece::Bytes(bytes) => out.extend_from_slice(bytes),
        TextPiece::Number(value) => out.extend_from_slice(Buffer::new().format(value).as_bytes()),
        TextPiece::Hex(group) => push_hex(out, group),
    }
}

#[tactic(auto, unfolding(std::specs::Net::Text::hex))]
fn push_hex(out: &mut Vec<u8>, group: u16) -> Result<(), AllocError>
    ensures appended { OnOk result (out.new.items ≡ out.old.items ++ hex group) }
    ensures unchanged { OnErr result (out.new.items ≡ out.old.items) }
{
    let digits = [
        hex_digit(group / 0x1000),
        hex_digit(group / 0x100 % 16),
        hex_digit(group / 0x10 % 16),
        hex_digit(group % 16),
    ];
    out.extend_from_slice(&digits[leading_zeros(group)..])
}

fn hex_digit(digit: u16) -> u8
    requires { digit < 16 }
    ensures { result ≡ digit_char digit }
{
    if digit < 10 {
        b'0' + digit as u8
    } else {
        b'a' + (digit - 10) as u8
    }
}

// How many of the four digits are zeros in front, the last one apart.
fn leading_zeros(group: u16) -> usize
    ensures value { result ≡ leading_zero_digits group }
    ensures within { result < 4 }
{
    match group {
        0x1000.. => 0,
        0x100.. => 1,
        0x10.. => 2,
        _ => 3,
    }
}

/// A number below 100 in two digits.
pub fn two_digits(number: u8) -> [u8; 2]
    requires { number < 100 }
    ensures { result ≡ digits 2 number }
{
    [b'0' + number / 10, b'0' + number % 10]
}

/// A number below 1000 in three digits.
pub(crate) fn three_digits(number: u16) -> [u8; 3]
    requires { number < 1000 }
    ensures { result ≡ digits 3 number }
{
    let hundreds = (number / 100) as u8;
    let rest = (number % 100) as u8;
    [b'0' + hundreds, b'0' + rest / 10, b'0' + rest % 10]
}

/// A number below 1,000,000 in six digits.
pub fn six_digits(number: u32) -> [u8; 6]
    requires { number < 1_000_000 }
    ensures { result ≡ digits 6 number }
{
    let [a, b, c] = three_digits((number / 1000) as u16);
    let [d, e, f] = three_digits((number % 1000) as u16);
    [a, b, c, d, e, f]
}
