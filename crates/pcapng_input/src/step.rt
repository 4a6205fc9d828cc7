//! Reading one block, whichever kind it has.
ghost use Rattle.std.specs.Prelude.{◌≡◌, ◌<◌, ◌≤◌, Option, IsTrue, length, IfOk, IsErrOf};
ghost use Rattle.edge_io.specs.Files.{Files, IsUnopened, MaySee, left_by};
ghost use Rattle.edge_io.specs.Frames.{OnlyRead};
ghost use Rattle.edge_io.specs.Told.{Rose};
ghost use Rattle.pcapng_input.specs.declared.content.BlockContent.TheVariants as content;
ghost use Rattle.pcapng_input.specs.Blocks.{is_sized, inner_length, order_of, closing, known, section_begun, begun, step_of};
ghost use Rattle.pcapng_input.specs.Steps.{Shows, FitsIn, IsAtEnd, HasRoom};

use crate::block::{Block, BlockKind};
use crate::content::{BlockContent, PacketBlock, front_content};
use crate::last::is_closed;
use crate::options::resolution_told;
use crate::piece::{read_bytes, read_piece};
use crate::walk::{Interface, Walk};
use crate::{NgFault, NgRecord};
use edge_io::{Host, Text};
use pcap_input::Record;
use pcap_input::fill::fill;
use pcap_input::number::u32_at;
use pcap_input::spares::Spares;
use std::alloc::Global;

/// The type of a section header, the same in both byte orders.
pub const SECTION: u32 = 0x0a0d_0d0a;

/// The byte-order magic of a section header.
const MAGIC: u32 = 0x1a2b_3c4d;

/// What reading one block gave.
#[derive(Debug, Drop)]
pub enum BlockRead {
    /// No byte is left.
    End,
    /// A block that is no record.
    Skipped,
    /// A record.
    Record(NgRecord),
}

/// The byte order that a byte-order magic tells: whether the most significant byte comes first.
#[tactic(auto, unfolding(crate::specs::Blocks::order_of))]
pub fn order_of(magic: &[u8]) -> Option<bool>
    requires { length magic.now ≡ 4 }
    ensures { result ≡ order_of magic.now }
{
    if u32_at(false, magic, 0) == MAGIC {
        Some(false)
    } else if u32_at(true, magic, 0) == MAGIC {
        Some(true)
    } else {
        None
    }
}

/// Passes over what follows the fixed front of a block that is skipped.
fn pass_over<H: Host>(walk: &mut Walk, host: &mut H, block: Block) -> Result<BlockRead, NgFault>
    requires sized { IsTrue (is_sized block) }
    requires room { HasRoom walk.old }
    ensures shows { (seen : Option Files) → MaySee (H.contents host.new) (H.agrees host.new) seen
        → Shows (closing walk.old block content.Skipped) walk.new result
        (left_by (H.left_of host.old) seen) (left_by (H.left_of host.new) seen) }
    ensures failed { IsErrOf result NgFault.Failed → Rose (H.faults host.old) (H.faults host.new) }
    ensures quiet { (IsErrOf result NgFault.Failed → ⊥) → H.faults host.new ≡ H.faults host.old }
    ensures only_read { OnlyRead H.Host host.old host.new }
{
    let swapped = walk.section.swapped;
    let closed = is_closed(host, walk.at, block.inner(), swapped, block.total)?;
    if !closed {
        return Err(walk.bad_block());
    }
    walk.at += u64::from(block.total);
    Ok(BlockRead::Skipped)
}

/// Reads the options of an interface, and adds it to its section.
fn read_interface<H: Host>(
    walk: &mut Walk,
    alloc: Global,
    host: &mut H,
    block: Block,
    link: u16,
    snaplen: u32,
) -> Result<BlockRead, NgFault>
    requires sized { IsTrue (is_sized block) }
    requires room { HasRoom walk.old }
    ensures shows { (seen : Option Files) → MaySee (H.contents host.new) (H.agrees host.new) seen
        → Shows (closing walk.old block (content.Interface link snaplen)) walk.new result
        (left_by (H.left_of host.old) seen) (left_by (H.left_of host.new) seen) }
    ensures failed { IsErrOf result NgFault.Failed → Rose (H.faults host.old) (H.faults host.new) }
    ensures quiet { (IsErrOf result NgFault.Failed → ⊥) → H.faults host.new ≡ H.faults host.old }
    ensures only_read { OnlyRead H.Host host.old host.new }
{
    let swapped = walk.section.swapped;
    let options = read_bytes(host, walk.at, block.inner(), Vec::new(alloc))?;
    let closed = is_closed(host, walk.at, 0, swapped, block.total)?;
    if !closed {
        return Err(walk.bad_block());
    }
    match resolution_told(swapped, options.as_slice()) {
        None => Err(walk.bad_block()),
        Some(resolution) => {
            let interface = Interface {
                link,
                snaplen,
                resolution,
            };
            walk.section.interfaces.push(interface)?;
            walk.at += u64::from(block.total);
            Ok(BlockRead::Skipped)
        }
    }
}

/// Reads the captured bytes of a packet, and passes over the rest of its block.
fn read_packet<H: Host>(
    walk: &mut Walk,
    spares: &mut Spares,
    alloc: Global,
    host: &mut H,
    block: Block,
    packet: PacketBlock,
) -> Result<BlockRead, NgFault>
    requires sized { IsTrue (is_sized block) }
    requires room { HasRoom walk.old }
    requires fits { packet.captured ≤ inner_length block }
    ensures shows { (seen : Option Files) → MaySee (H.contents host.new) (H.agrees host.new) seen
        → Shows (closing walk.old block (content.Packet packet)) walk.new result
        (left_by (H.left_of host.old) seen) (left_by (H.left_of host.new) seen) }
    ensures failed { IsErrOf result NgFault.Failed → Rose (H.faults host.old) (H.faults host.new) }
    ensures quiet { (IsErrOf result NgFault.Failed → ⊥) → H.faults host.new ≡ H.faults host.old }
    ensures only_read { OnlyRead H.Host host.old host.new }
{
    let bytes = read_bytes(host, walk.at, packet.captured, spares.pop(alloc))?;
    let after = block.inner() - packet.captured;
    let closed = is_closed(host, walk.at, after, walk.section.swapped, block.total)?;
    if !closed {
        return Err(walk.bad_block());
    }
    let item = Record {
        number: walk.number,
        moment: packet.moment,
        original: packet.original,
        bytes: Text::from_vec(bytes),
    };
    walk.number += 1;
    walk.last = packet.moment;
    walk.at += u64::from(block.total);
    Ok(BlockRead::Record(NgRecord {
        link: packet.link,
        item,
    }))
}

/// Reads what follows the fixed front of a block, which told this.
fn read_closing<H: Host>(
    walk: &mut Walk,
    spares: &mut Spares,
    alloc: Global,
    host: &mut H,
    block: Block,
    told: BlockContent,
) -> Result<BlockRead, NgFault>
    requires sized { IsTrue (is_sized block) }
    requires room { HasRoom walk.old }
    requires fits { FitsIn block told }
    ensures shows { (seen : Option Files) → MaySee (H.contents host.new) (H.agrees host.new) seen
        → Shows (closing walk.old block told) walk.new result
        (left_by (H.left_of host.old) seen) (left_by (H.left_of host.new) seen) }
    ensures failed { IsErrOf result NgFault.Failed → Rose (H.faults host.old) (H.faults host.new) }
    ensures quiet { (IsErrOf result NgFault.Failed → ⊥) → H.faults host.new ≡ H.faults host.old }
    ensures only_read { OnlyRead H.Host host.old host.new }
{
    match told {
        BlockContent::Skipped => pass_over(walk, host, block),
        BlockContent::Interface { link, snaplen } => {
            read_interface(walk, alloc, host, block, link, snaplen)
        }
        BlockContent::Packet(packet) => read_packet(walk, spares, alloc, host, block, packet),
    }
}

/// Reads a block from its fixed front on.
pub fn read_known<H: Host>(
    walk: &mut Walk,
    spares: &mut Spares,
    alloc: Global,
    host: &mut H,
    block: Block,
) -> Result<BlockRead, NgFault>
    requires room { HasRoom walk.old }
    ensures shows { (seen : Option Files) → MaySee (H.contents host.new) (H.agrees host.new) seen
        → Shows (known walk.old block) walk.new result (left_by (H.left_of host.old) seen) (left_by (H.left_of host.new) seen) }
    ensures failed { IsErrOf result NgFault.Failed → Rose (H.faults host.old) (H.faults host.new) }
    ensures quiet { (IsErrOf result NgFault.Failed → ⊥) → H.faults host.new ≡ H.faults host.old }
    ensures only_read { OnlyRead H.Host host.old host.new }
{
    let sized = block.is_sized();
    if !sized {
        return Err(walk.bad_block());
    }
    let mut buffer = [0; 20];
    let front = &mut buffer[..block.kind.front_length()];
    read_piece(host, walk.at, front)?;
    let told = front_content(walk, block, front)?;
    read_closing(walk, spares, alloc, host, block, told)
}

/// Reads a section header from its byte-order magic on.
fn read_section<H: Host>(
    walk: &mut Walk,
    spares: &mut Spares,
    alloc: Global,
    host: &mut H,
    first: &[u8],
) -> Result<BlockRead, NgFault>
    requires eight { length first.now ≡ 8 }
    requires room { HasRoom walk.old }
    ensures shows { (seen : Option Files) → MaySee (H.contents host.new) (H.agrees host.new) seen
        → Shows (section_begun walk.old first.now) walk.new result
        (left_by (H.left_of host.old) seen) (left_by (H.left_of host.new) seen) }
    ensures failed { IsErrOf result NgFault.Failed → Rose (H.faults host.old) (H.faults host.new) }
    ensures quiet { (IsErrOf result NgFault.Failed → ⊥) → H.faults host.new ≡ H.faults host.old }
    ensures only_read { OnlyRead H.Host host.old host.new }
{
    let mut magic = [0; 4];
    read_piece(host, walk.at, &mut magic)?;
    match order_of(&magic) {
        None => Err(walk.bad_block()),
        Some(swapped) => {
            walk.begin_section(alloc, swapped);
            let block = Block {
                kind: BlockKind::Section,
                total: u32_at(swapped, first, 4),
            };
            read_known(walk, spares, alloc, host, block)
        }
    }
}

/// Reads a block that begins with these eight bytes.
fn read_begun<H: Host>(
    walk: &mut Walk,
    spares: &mut Spares,
    alloc: Global,
    host: &mut H,
    first: &[u8],
) -> Result<BlockRead, NgFault>
    requires eight { length first.now ≡ 8 }
    requires room { HasRoom walk.old }
    ensures shows { (seen : Option Files) → MaySee (H.contents host.new) (H.agrees host.new) seen
        → Shows (begun walk.old first.now) walk.new result
        (left_by (H.left_of host.old) seen) (left_by (H.left_of host.new) seen) }
    ensures failed { IsErrOf result NgFault.Failed → Rose (H.faults host.old) (H.faults host.new) }
    ensures quiet { (IsErrOf result NgFault.Failed → ⊥) → H.faults host.new ≡ H.faults host.old }
    ensures only_read { OnlyRead H.Host host.old host.new }
{
    let kind = u32_at(false, first, 0);
    if kind == SECTION {
        return read_section(walk, spares, alloc, host, first);
    }
    let swapped = walk.section.swapped;
    let block = Block {
        kind: BlockKind::of(u32_at(swapped, first, 0)),
        total: u32_at(swapped, first, 4),
    };
    read_known(walk, spares, alloc, host, block)
}

/// Reads the block that comes next, if a byte is left.
pub fn read_block<H: Host>(
    walk: &mut Walk,
    spares: &mut Spares,
    alloc: Global,
    host: &mut H,
) -> Result<BlockRead, NgFault>
    ensures shows { (seen : Option Files) → MaySee (H.contents host.new) (H.agrees host.new) seen
        → Shows (step_of walk.old) walk.new result (left_by (H.left_of host.old) seen) (left_by (H.left_of host.new) seen) }
    ensures unopened { (seen : Option Files) → MaySee (H.contents host.new) (H.agrees host.new) seen
        → IsUnopened seen (left_by (H.left_of host.old) seen) → IsAtEnd result }
    ensures failed { IsErrOf result NgFault.Failed → Rose (H.faults host.old) (H.faults host.new) }
    ensures quiet { (IsErrOf result NgFault.Failed → ⊥) → H.faults host.new ≡ H.faults host.old }
    ensures only_read { OnlyRead H.Host host.old host.new }
{
    let mut first = [0; 8];
    let Ok(count) = fill(host, &mut first) else {
        return Err(NgFault::Failed);
    };
    if count == 0 {
        return Ok(BlockRead::End);
    }
    let full = walk.is_full();
    if full {
        return Err(NgFault::TooMany);
    }
    if count < first.len() {
        return Err(NgFault::Truncated { at: walk.at });
    }
    read_begun(walk, spares, alloc, host, &first)
}
