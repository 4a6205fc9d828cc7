//! The parts of a list of addresses, one after another.
ghost use Rattle.std.specs.Iterator.{YieldsFirst, item_count};

use crate::compact::{Addr4Part, with_version};
use crate::part::AddrPart;
use std::marker::Model;

/// Parts that are left, lent, as the list keeps them.
#[derive(Clone, Copy, Debug)]
pub enum Left<'a> {
    V4(&'a [Addr4Part]),
    Mixed(&'a [AddrPart]),
}

/// The parts of a list of addresses from the front on. Contracts see the list of those that are left.
#[derive(Debug, Drop)]
pub struct AddrParts<'a> {
    pub(crate) left: Left<'a>,
}

impl<'a> Model for AddrParts<'a> {
    ghost use Rattle.std.specs.Prelude.{List};
    ghost use Rattle.net_lists.specs.declared.part.AddrBounds.{AddrBounds};
    ghost use Rattle.net_lists.specs.declared.part.Part.{Part};

    ghost Value = { List (Part AddrBounds) };

    ghost use Rattle.net_lists.specs.Compact.{parts_left};

    ghost view = { λ parts. parts_left parts.left };
}

impl<'a> Iterator for AddrParts<'a> {
    type Item = AddrPart;

    ghost next_gives = { YieldsFirst (λ left. left) };

    ghost remaining = { item_count (λ left. left) };

    #[tactic(auto, using(crate::proofs::Membership::Compacted::leaving))]
    fn next(&mut self) -> Option<AddrPart> {
        match self.left {
            Left::V4(parts) => {
                let (first, rest) = parts.split_first()?;
                self.left = Left::V4(rest);
                Some(with_version(*first))
            }
            Left::Mixed(parts) => {
                let (first, rest) = parts.split_first()?;
                self.left = Left::Mixed(rest);
                Some(*first)
            }
        }
    }
}
