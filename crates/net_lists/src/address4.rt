//! Addresses of both versions, and those that share a prefix.
ghost use Rattle.std.specs.Prelude.{◌≡◌, ◌<◌, ◌≤◌, ◌^◌, ◌+◌, IfSome, option_map};
ghost use Rattle.net_lists.specs.Addresses.{octet, dotted};

use crate::decimal::digits_upto;
use crate::split::cut;

/// One of the four numbers of an address.
#[tactic(auto, unfolding(crate::specs::Addresses::octet))]
fn octet(text: &[u8]) -> Option<u32>
    ensures value { result ≡ octet text.now }
    ensures small { IfSome result (λ number. number < 256) }
{
    if text.len() > 3 {
        return None;
    }
    digits_upto(text, 255)
}

/// Four numbers with dots between them, as one number in network order.
#[tactic(auto, unfolding(crate::specs::Addresses::dotted))]
pub fn dotted(text: &[u8]) -> Option<u32>
    ensures { result ≡ dotted text.now }
{
    let (first, rest) = cut(text, b'.')?;
    let (second, rest) = cut(rest, b'.')?;
    let (third, fourth) = cut(rest, b'.')?;
    let a = octet(first)?;
    let b = octet(second)?;
    let c = octet(third)?;
    let d = octet(fourth)?;
    Some(((a * 256 + b) * 256 + c) * 256 + d)
}
