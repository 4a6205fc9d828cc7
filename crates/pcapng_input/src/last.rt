//! The last four bytes of a block, which repeat its length.
ghost use Rattle.std.specs.Prelude.{◌≡◌, ◌+◌, Option, IfOk, IfErr, IsErrOf};
ghost use Rattle.edge_io.specs.Files.{Files, MaySee, left_by};
ghost use Rattle.edge_io.specs.Frames.{OnlyRead};
ghost use Rattle.edge_io.specs.Told.{Rose};
ghost use Rattle.pcapng_input.specs.Steps.{TakesLess, TakesLast};

use crate::NgFault;
use crate::piece::{read_piece, skip};
use edge_io::Host;
use pcap_input::number::u32_at;

/// Passes over `count` bytes of the block that begins at `at`, reads its last four, and tells whether they
/// are its total length again.
pub fn is_closed<H: Host>(
    host: &mut H,
    at: u64,
    count: u32,
    swapped: bool,
    total: u32,
) -> Result<bool, NgFault>
    ensures whole { (seen : Option Files) → MaySee (H.contents host.new) (H.agrees host.new) seen
        → IfOk result (λ same. TakesLast swapped total count same
        (left_by (H.left_of host.old) seen) (left_by (H.left_of host.new) seen)) }
    ensures partial { (seen : Option Files) → MaySee (H.contents host.new) (H.agrees host.new) seen
        → IfErr result (λ why. TakesLess at (count + 4) why
        (left_by (H.left_of host.old) seen) (left_by (H.left_of host.new) seen)) }
    ensures failed { IsErrOf result NgFault.Failed → Rose (H.faults host.old) (H.faults host.new) }
    ensures quiet { (IsErrOf result NgFault.Failed → ⊥) → H.faults host.new ≡ H.faults host.old }
    ensures only_read { OnlyRead H.Host host.old host.new }
{
    skip(host, at, count)?;
    let mut last = [0; 4];
    read_piece(host, at, &mut last)?;
    Ok(u32_at(swapped, &last, 0) == total)
}
