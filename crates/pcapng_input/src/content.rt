//! What the blocks of packets say before the packet's bytes.
ghost use Rattle.std.specs.Prelude.{◌≡◌, IsTrue, IfOk, IsErrOf, length};
ghost use Rattle.pcapng_input.specs.Blocks.{front_length, is_sized, link_of, packet_of, enhanced_of, simple_of, interface_of, section_of, content_of, simple_length, ticks_of};
ghost use Rattle.pcapng_input.specs.Steps.{FitsIn, IsPlain};

use crate::NgFault;
use crate::block::{Block, BlockKind};
use crate::walk::{Interface, Walk};
use edge_io::{Link, Moment};
use pcap_input::number::{u16_at, u32_at};

/// What a packet's block tells of it.
#[derive(Clone, Copy, Debug, PartialEq, Eq)]
pub struct PacketBlock {
    pub link: Link,
    pub moment: Moment,
    /// How many bytes the packet had.
    pub original: u32,
    /// How many bytes of it are in the block.
    pub captured: u32,
}

/// What the fixed front of a block tells.
#[derive(Clone, Copy, Debug, PartialEq, Eq)]
pub enum BlockContent {
    /// Nothing is read from what follows.
    Skipped,
    /// An interface, whose options follow.
    Interface { link: u16, snaplen: u32 },
    /// A packet, whose bytes follow.
    Packet(PacketBlock),
}

/// The most bytes of a packet that a record may have.
const LONGEST: u32 = 262_144;

/// The most interfaces of a section.
const MOST_INTERFACES: usize = 4096;

/// The link layer of a link type, where it is one of the three.
fn link_of(number: u16) -> Option<Link>
    ensures { result ≡ link_of number }
{
    match number {
        1 => Some(Link::Ethernet),
        101 => Some(Link::RawIp),
        113 => Some(Link::Cooked),
        _ => None,
    }
}

/// How many bytes of a simple packet were captured.
fn simple_length(interface: Interface, original: u32) -> u32
    ensures { result ≡ simple_length interface original }
{
    if interface.snaplen == 0 {
        original
    } else {
        original.min(interface.snaplen)
    }
}

/// The packet of an interface, where its moment is one that 64 bits tell.
#[tactic(auto, unfolding(crate::specs::Blocks::packet_of))]
fn packet_content(
    walk: &Walk,
    block: Block,
    interface: Interface,
    moment: Option<Moment>,
    original: u32,
    captured: u32,
) -> Result<BlockContent, NgFault>
    requires { IsTrue (is_sized block) }
    ensures told { result ≡ packet_of walk.now block interface moment original captured }
    ensures fits { IfOk result (λ told. FitsIn block told) }
    ensures unfailed { IsErrOf result NgFault.Failed → ⊥ }
{
    let Some(link) = link_of(interface.link) else {
        return Err(NgFault::LinkType {
            at: walk.at,
            link: u32::from(interface.link),
        });
    };
    if captured > LONGEST {
        return Err(NgFault::TooLong {
            at: walk.at,
            len: captured,
        });
    }
    if captured > block.inner() {
        return Err(walk.bad_block());
    }
    let Some(moment) = moment else {
        return Err(walk.bad_block());
    };
    Ok(BlockContent::Packet(PacketBlock {
        link,
        moment,
        original,
        captured,
    }))
}

/// What an enhanced packet's front tells.
#[tactic(auto, unfolding(crate::specs::Blocks::enhanced_of))]
fn enhanced_content(walk: &Walk, block: Block, front: &[u8]) -> Result<BlockContent, NgFault>
    requires sized { IsTrue (is_sized block) }
    requires fits { length front.now ≡ 20 }
    ensures told { result ≡ enhanced_of walk.now block front.now }
    ensures fits { IfOk result (λ told. FitsIn block told) }
    ensures unfailed { IsErrOf result NgFault.Failed → ⊥ }
{
    let swapped = walk.section.swapped;
    let Some(interface) = walk.interface(u32_at(swapped, front, 0)) else {
        return Err(walk.bad_block());
    };
    let moment = interface.resolution.moment(ticks(swapped, front));
    let original = u32_at(swapped, front, 16);
    packet_content(
        walk,
        block,
        interface,
        moment,
        original,
        u32_at(swapped, front, 12),
    )
}

/// The ticks that an enhanced packet's front tells.
fn ticks(swapped: bool, front: &[u8]) -> u64
    requires { length front.now ≡ 20 }
    ensures { result ≡ ticks_of swapped front.now }
{
    let upper = u64::from(u32_at(swapped, front, 4));
    upper * 4_294_967_296 + u64::from(u32_at(swapped, front, 8))
}

/// What a simple packet's front tells.
#[tactic(auto, unfolding(crate::specs::Blocks::simple_of))]
fn simple_content(walk: &Walk, block: Block, front: &[u8]) -> Result<BlockContent, NgFault>
    requires sized { IsTrue (is_sized block) }
    requires fits { length front.now ≡ 4 }
    ensures told { result ≡ simple_of walk.now block front.now }
    ensures fits { IfOk result (λ told. FitsIn block told) }
    ensures unfailed { IsErrOf result NgFault.Failed → ⊥ }
{
    let Some(interface) = walk.interface(0) else {
        return Err(walk.bad_block());
    };
    let original = u32_at(walk.section.swapped, front, 0);
    let captured = simple_length(interface, original);
    packet_content(walk, block, interface, Some(walk.last), original, captured)
}

/// What an interface's front tells.
#[tactic(auto, unfolding(crate::specs::Blocks::interface_of))]
fn interface_content(walk: &Walk, front: &[u8]) -> Result<BlockContent, NgFault>
    requires { length front.now ≡ 8 }
    ensures told { result ≡ interface_of walk.now front.now }
    ensures plain { IfOk result IsPlain }
    ensures unfailed { IsErrOf result NgFault.Failed → ⊥ }
{
    if walk.section.interfaces.as_slice().len() >= MOST_INTERFACES {
        return Err(walk.bad_block());
    }
    let swapped = walk.section.swapped;
    Ok(BlockContent::Interface {
        link: u16_at(swapped, front, 0),
        snaplen: u32_at(swapped, front, 4),
    })
}

/// What a section header's front tells.
#[tactic(auto, unfolding(crate::specs::Blocks::section_of))]
fn section_content(walk: &Walk, front: &[u8]) -> Result<BlockContent, NgFault>
    requires { length front.now ≡ 12 }
    ensures told { result ≡ section_of walk.now front.now }
    ensures plain { IfOk result IsPlain }
    ensures unfailed { IsErrOf result NgFault.Failed → ⊥ }
{
    if u16_at(walk.section.swapped, front, 0) == 1 {
        Ok(BlockContent::Skipped)
    } else {
        Err(walk.bad_block())
    }
}

/// What the fixed front of a block tells.
#[tactic(auto, unfolding(crate::specs::Blocks::content_of))]
pub fn front_content(walk: &Walk, block: Block, front: &[u8]) -> Result<BlockContent, NgFault>
    requires sized { IsTrue (is_sized block) }
    requires fits { length front.now ≡ front_length block.kind }
    ensures told { result ≡ content_of walk.now block front.now }
    ensures fits { IfOk result (λ told. FitsIn block told) }
    ensures unfailed { IsErrOf result NgFault.Failed → ⊥ }
{
    match block.kind {
        BlockKind::Section => section_content(walk, front),
        BlockKind::Interface => interface_content(walk, front),
        BlockKind::Simple => simple_content(walk, block, front),
        BlockKind::Enhanced => enhanced_content(walk, block, front),
        BlockKind::Other => Ok(BlockContent::Skipped),
    }
}
