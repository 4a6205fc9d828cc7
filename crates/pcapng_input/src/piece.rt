//! Reading and passing over pieces of a block.
ghost use Rattle.std.specs.Prelude.{◌≡◌, Option, length, IfOk, IfErr, OnOk, IsErrOf};
ghost use Rattle.edge_io.specs.Files.{Files, MaySee, left_by};
ghost use Rattle.edge_io.specs.Frames.{OnlyRead};
ghost use Rattle.edge_io.specs.Told.{before, Rose};
ghost use Rattle.pcapng_input.specs.Steps.{TakesLess, TakesBytes};

use crate::NgFault;
use edge_io::Host;
use pcap_input::fill::fill;
use pcap_input::spares::resized;

/// The most bytes that are passed over at once.
const PIECE: usize = 512;

/// Reads a piece of the block that begins at `at`, as long as `piece` is.
pub fn read_piece<H: Host>(host: &mut H, at: u64, piece: &mut [u8]) -> Result<(), NgFault>
    ensures whole { (seen : Option Files) → MaySee (H.contents host.new) (H.agrees host.new) seen
        → OnOk result (left_by (H.left_of host.old) seen ≡ before piece.new (left_by (H.left_of host.new) seen)) }
    ensures partial { (seen : Option Files) → MaySee (H.contents host.new) (H.agrees host.new) seen
        → IfErr result (λ why. TakesLess at (length piece.old) why
        (left_by (H.left_of host.old) seen) (left_by (H.left_of host.new) seen)) }
    ensures failed { IsErrOf result NgFault.Failed → Rose (H.faults host.old) (H.faults host.new) }
    ensures quiet { (IsErrOf result NgFault.Failed → ⊥) → H.faults host.new ≡ H.faults host.old }
    ensures only_read { OnlyRead H.Host host.old host.new }
{
    let Ok(count) = fill(host, piece) else {
        return Err(NgFault::Failed);
    };
    if count < piece.len() {
        return Err(NgFault::Truncated { at });
    }
    Ok(())
}

/// Reads `len` bytes of the block that begins at `at`, into a block of memory of any length.
pub fn read_bytes<H: Host>(
    host: &mut H,
    at: u64,
    len: u32,
    memory: Vec<u8>,
) -> Result<Vec<u8>, NgFault>
    ensures whole { (seen : Option Files) → MaySee (H.contents host.new) (H.agrees host.new) seen
        → IfOk result (λ bytes. (length bytes.items ≡ len)
        × (left_by (H.left_of host.old) seen ≡ before bytes.items (left_by (H.left_of host.new) seen))) }
    ensures partial { (seen : Option Files) → MaySee (H.contents host.new) (H.agrees host.new) seen
        → IfErr result (λ why. TakesLess at len why (left_by (H.left_of host.old) seen) (left_by (H.left_of host.new) seen)) }
    ensures failed { IsErrOf result NgFault.Failed → Rose (H.faults host.old) (H.faults host.new) }
    ensures quiet { (IsErrOf result NgFault.Failed → ⊥) → H.faults host.new ≡ H.faults host.old }
    ensures only_read { OnlyRead H.Host host.old host.new }
{
    let mut bytes = resized(memory, len as usize)?;
    let Ok(count) = fill(host, &mut bytes) else {
        return Err(NgFault::Failed);
    };
    if count < len as usize {
        return Err(NgFault::Truncated { at });
    }
    Ok(bytes)
}

/// Passes over `count` bytes of the block that begins at `at`, piece by piece, and keeps none.
pub fn skip<H: Host>(host: &mut H, at: u64, count: u32) -> Result<(), NgFault>
    ensures whole { (seen : Option Files) → MaySee (H.contents host.new) (H.agrees host.new) seen
        → OnOk result (TakesBytes count (left_by (H.left_of host.old) seen) (left_by (H.left_of host.new) seen)) }
    ensures partial { (seen : Option Files) → MaySee (H.contents host.new) (H.agrees host.new) seen
        → IfErr result (λ why. TakesLess at count why (left_by (H.left_of host.old) seen) (left_by (H.left_of host.new) seen)) }
    ensures failed { IsErrOf result NgFault.Failed → Rose (H.faults host.old) (H.faults host.new) }
    ensures quiet { (IsErrOf result NgFault.Failed → ⊥) → H.faults host.new ≡ H.faults host.old }
    ensures only_read { OnlyRead H.Host host.old host.new }
{
    let mut piece = [0; PIECE];
    let mut left = count as usize;
    while left > 0 {
        let size = left.min(PIECE);
        read_piece(host, at, &mut piece[..size])?;
        left -= size;
    }
    Ok(())
}
