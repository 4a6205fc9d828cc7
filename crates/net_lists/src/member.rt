//! Whether a list has a value: one pass over its parts.
ghost use Rattle.std.specs.Prelude.{◌≡◌, ℕ, Bool, false, nat_le, ◌&&◌};
ghost use Rattle.net_lists.specs.Verdicts.{is_within, has_address, is_listed};

use crate::part::{AddrBounds, Part, ValueBounds};
use edge_io::Addr;

/// Bounds that may have a value.
pub trait Ranged<X> {
    ghost has: { X → Self → Bool };

    fn has(&self, value: X) -> bool
        ensures { result ≡ has value self.now };
}

impl Ranged<u16> for ValueBounds<u16> {
    ghost has = { is_within };

    fn has(&self, value: u16) -> bool {
        self.low <= value && value <= self.high
    }
}

impl Ranged<u32> for ValueBounds<u32> {
    ghost has = { is_within };

    fn has(&self, value: u32) -> bool {
        self.low <= value && value <= self.high
    }
}

/// Bounds of version 4 have no address of version 6.
impl Ranged<u128> for ValueBounds<u32> {
    ghost has = { λ _ _. false };

    fn has(&self, _value: u128) -> bool {
        false
    }
}

impl Ranged<Addr> for AddrBounds {
    ghost has = { has_address };

    fn has(&self, value: Addr) -> bool {
        match (self, value) {
            (AddrBounds::V4(bounds), Addr::V4(value)) => {
                bounds.low <= value && value <= bounds.high
            }
            (AddrBounds::V6(bounds), Addr::V6(value)) => {
                bounds.low <= value && value <= bounds.high
            }
            _ => false,
        }
    }
}

/// Whether some positive part has the value, or there is none; and no negated part has it.
#[tactic(auto, using(crate::proofs::Membership::Listed::verdict_steps))]
pub fn is_listed<X: Copy, B: Ranged<X>>(parts: &[Part<B>], value: X) -> bool
    ensures { result ≡ is_listed (B.has value) parts.now }
{
    let mut found = false;
    let mut positive = false;
    for part in parts {
        let has = part.bounds.has(value);
        if has & part.negated {
            return false;
        }
        found = found | has;
        positive = positive | !part.negated;
    }
    found | !positive
}
