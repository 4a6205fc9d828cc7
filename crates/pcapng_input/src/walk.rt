//! What is known while blocks are walked over: the section's byte order and its interfaces.
ghost use Rattle.std.specs.Prelude.{◌≡◌, slice_get};
ghost use Rattle.pcapng_input.specs.Blocks.{new_section, first_walk, bad_block, is_full};

use crate::NgFault;
use crate::resolution::Resolution;
use edge_io::{Items, Moment};
use std::alloc::Global;

/// What an interface description tells of the packets that name it.
#[derive(Clone, Copy, Debug, PartialEq, Eq)]
pub struct Interface {
    /// The number of its link type.
    pub link: u16,
    /// The most bytes that it captures of a packet; 0 where there is no limit.
    pub snaplen: u32,
    /// How long its ticks are.
    pub resolution: Resolution,
}

/// What is known of the section that is read.
#[derive(Debug, Drop)]
pub struct Section {
    /// The section's numbers are written with their most significant byte first.
    pub swapped: bool,
    /// The section's interfaces, in order.
    pub interfaces: Items<Interface>,
}

/// How far the blocks of a file were read.
#[derive(Debug, Drop)]
pub struct Walk {
    /// The section that the next block belongs to.
    pub section: Section,
    /// How many records were given.
    pub number: u32,
    /// The moment of the last of them, or 0.
    pub last: Moment,
    /// Where the next block begins.
    pub at: u64,
}

/// Where no block is read any more: 2 ^ 62.
const LAST_PLACE: u64 = 4_611_686_018_427_387_904;

impl Walk {
    /// The walk before anything was read.
    pub fn new(alloc: Global) -> Walk
        ensures { result ≡ first_walk }
    {
        Walk {
            section: Section {
                swapped: false,
                interfaces: Items::new(alloc),
            },
            number: 0,
            last: Moment { nanos: 0 },
            at: 0,
        }
    }

    /// Begins another section, which has no interface.
    pub fn begin_section(&mut self, alloc: Global, swapped: bool)
        ensures { self.new ≡ new_section self.old swapped }
    {
        self.section = Section {
            swapped,
            interfaces: Items::new(alloc),
        };
    }

    /// The interface of this number in the section, where it has one.
    pub fn interface(&self, number: u32) -> Option<Interface>
        ensures { result ≡ slice_get self.now.section.interfaces number }
    {
        self.section
            .interfaces
            .as_slice()
            .get(number as usize)
            .copied()
    }

    /// That the block that begins here is not as the format has it.
    pub fn bad_block(&self) -> NgFault
        ensures { result ≡ bad_block self.now }
    {
        NgFault::BadBlock { at: self.at }
    }

    /// As many records were given as may be, or as many bytes were read.
    pub fn is_full(&self) -> bool
        ensures { result ≡ is_full self.now }
    {
        self.number == u32::MAX || self.at >= LAST_PLACE
    }
}
