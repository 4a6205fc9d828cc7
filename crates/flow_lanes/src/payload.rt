//! The bytes of a packet that a job comes with.

ghost use Rattle.std.specs.Prelude.{◌≡◌};

use edge_io::Text;
use std::marker::Model;

/// Who owns the bytes.
#[derive(Debug, Drop)]
enum PayloadBytes<'a> {
    Lent(&'a [u8]),
    Own(Text),
}

/// The bytes of a packet: lent by the record that has them, or its own. Contracts see the list of the bytes.
#[derive(Debug, Drop)]
pub struct Payload<'a> {
    held: PayloadBytes<'a>,
}

impl<'a> Model for Payload<'a> {
    ghost use Rattle.std.specs.Prelude.{List, ℕ};

    ghost Value = { List ℕ };

    ghost use Rattle.flow_lanes.specs.Payloads.{bytes_held};

    ghost view = { λ payload. bytes_held payload.held };
}

impl<'a> Payload<'a> {
    /// A payload of these bytes, lent.
    pub fn lent(bytes: &'a [u8]) -> Payload<'a>
        ensures { result ≡ bytes.now }
    {
        Payload {
            held: PayloadBytes::Lent(bytes),
        }
    }

    /// A payload of these bytes, its own.
    pub fn own(bytes: Text) -> Payload<'a>
        ensures { result ≡ bytes }
    {
        Payload {
            held: PayloadBytes::Own(bytes),
        }
    }

    /// The bytes, lent on.
    pub fn bytes(&self) -> &[u8]
        ensures { result.now ≡ self.now }
    {
        match &self.held {
            PayloadBytes::Lent(bytes) => bytes,
            PayloadBytes::Own(bytes) => bytes.bytes(),
        }
    }
}
