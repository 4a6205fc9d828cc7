//! A port or a range of ports.
ghost use Rattle.std.specs.Prelude.{◌≡◌, ◌<◌};
ghost use Rattle.net_lists.specs.Numbers.{number_in};
ghost use Rattle.net_lists.specs.Parts.{port_end, between_ends, port_bounds};

use crate::number::number_in;
use crate::part::{Spelled, ValueBounds};
use crate::split::cut;

/// One port.
pub fn port(text: &[u8]) -> Option<u16>
    ensures { result ≡ number_in 0 65535 text.now }
{
    let number = number_in(0, 65535, text)?;
    Some(number as u16)
}

/// The port before or after a colon, which may lack.
#[tactic(auto, unfolding(crate::specs::Parts::port_end))]
fn port_end(text: &[u8], lacking: u16) -> Option<u16>
    ensures { result ≡ port_end lacking text.now }
{
    if text.is_empty() {
        return Some(lacking);
    }
    port(text)
}

/// Two ends, with a colon between them.
#[tactic(auto, unfolding(crate::specs::Parts::between_ends))]
fn between_ends(front: &[u8], back: &[u8]) -> Option<ValueBounds<u16>>
    ensures { result ≡ between_ends (front.now, back.now) }
{
    let low = port_end(front, 0)?;
    let high = port_end(back, 65535)?;
    let is_part = low <= high && (!front.is_empty() || !back.is_empty());
    is_part.then_some(ValueBounds { low, high })
}

/// What a port part spells.
#[tactic(auto, unfolding(crate::specs::Parts::port_bounds))]
fn port_bounds(text: &[u8]) -> Option<ValueBounds<u16>>
    ensures { result ≡ port_bounds text.now }
{
    match cut(text, b':') {
        Some((front, back)) => between_ends(front, back),
        None => {
            let port = port(text)?;
            Some(ValueBounds {
                low: port,
                high: port,
            })
        }
    }
}

impl Spelled for ValueBounds<u16> {
    ghost bounds_of = { port_bounds };

    fn read(text: &[u8]) -> Option<ValueBounds<u16>> {
        port_bounds(text)
    }
}
