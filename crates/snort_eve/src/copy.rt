//! An open file, copied as the lines that it has.
ghost use Rattle.std.specs.Prelude.{◌≡◌, ◌+◌, ◌^◌, ◌<◌, ◌≤◌, List, [], ℕ, Option, Ok, true, false, IfOk, OnOk, OnErr, IsErrOf, length};
ghost use Rattle.edge_io.specs.Told.{Rose};
ghost use Rattle.edge_io.specs.Files.{Files};
ghost use Rattle.snort_eve.specs.Copies.{BreaksIn, BreaksLast, Comes, Copies, Counts, GoesOn, IsLong, IsLongAfter, IsOver, Stays, Stops, StopsAfter, Tells, point};
ghost use Rattle.snort_eve.specs.Forms.{Closes, Gives};

use crate::form::{Ending, InputForm};
use edge_io::{Failed, Host, NoMemory, Sink, WriteStop, write_all};
use std::alloc::{AllocError, Global};

/// How many bytes are read at once.
const BLOCK: usize = 65536;

/// Why copying stopped.
#[derive(Clone, Copy)]
pub(crate) enum CopyStop {
    /// A read failed.
    Unread,
    /// A write failed.
    Unwritten,
    /// The file has 2^64 bytes or more.
    TooLong,
    /// Memory ran out.
    NoMemory,
}

impl From<NoMemory> for CopyStop {
    ghost use Rattle.std.specs.Prelude.{◌≡◌};
    ghost use Rattle.snort_eve.specs.declared.copy.CopyStop.TheVariants.{NoMemory as out_of_memory};

    ghost from_gives = { λ _ stop. stop ≡ out_of_memory };

    fn from(_error: NoMemory) -> CopyStop {
        CopyStop::NoMemory
    }
}

impl From<AllocError> for CopyStop {
    ghost use Rattle.std.specs.Prelude.{◌≡◌};
    ghost use Rattle.snort_eve.specs.declared.copy.CopyStop.TheVariants.{NoMemory as out_of_memory};

    ghost from_gives = { λ _ stop. stop ≡ out_of_memory };

    fn from(_error: AllocError) -> CopyStop {
        CopyStop::NoMemory
    }
}

impl From<Failed> for CopyStop {
    ghost use Rattle.std.specs.Prelude.{◌≡◌};
    ghost use Rattle.snort_eve.specs.declared.copy.CopyStop.TheVariants.{Unread as unread};

    ghost from_gives = { λ _ stop. stop ≡ unread };

    fn from(_error: Failed) -> CopyStop {
        CopyStop::Unread
    }
}

impl From<WriteStop> for CopyStop {
    ghost use Rattle.std.specs.Prelude.{◌≡◌};
    ghost use Rattle.snort_eve.specs.declared.copy.CopyStop.TheVariants.{Unwritten as unwritten};

    ghost from_gives = { λ _ stop. stop ≡ unwritten };

    fn from(_error: WriteStop) -> CopyStop {
        CopyStop::Unwritten
    }
}

// Writes the lines of a piece, and tells whether more may come.
fn pass_piece<F: InputForm, A: Sink>(
    alloc: Global,
    form: &F,
    piece: &[u8],
    state: &mut F::State,
    alerts: &mut A,
) -> Result<bool, CopyStop>
    ensures passes { OnOk result (Tells (A.written alerts.old) (A.written alerts.new)
        (Gives (F.came form.now state.old) (F.came form.now state.new) (F.means form.now) piece.now)) }
    ensures breaks { OnErr result (Tells (A.written alerts.old) (A.written alerts.new)
        (BreaksIn (F.came form.now state.old) (F.means form.now) piece.now)) }
    ensures over { result ≡ Ok false → F.foreign form.now state.new }
    ensures unwritten { IsErrOf result CopyStop.Unwritten → Rose (A.faults alerts.old) (A.faults alerts.new) }
    ensures read { IsErrOf result CopyStop.Unread → ⊥ }
    ensures short { IsErrOf result CopyStop.TooLong → ⊥ }
    ensures quiet { (IsErrOf result CopyStop.Unwritten → ⊥) → A.faults alerts.new ≡ A.faults alerts.old }
{
    let mut lines = Vec::new(alloc);
    let more = form.feed(alloc, state, piece, &mut lines)?;
    write_all(alerts, &lines)?;
    Ok(more)
}

// Adds to how many bytes were read.
fn count_bytes(read: u64, more: usize) -> Result<u64, CopyStop>
    ensures counted { IfOk result (λ now. now ≡ read + more) }
    ensures long { OnErr result (IsErrOf result CopyStop.TooLong) }
    ensures large { OnErr result (2 ^ 64 ≤ read + more) }
{
    match read.checked_add(more as u64) {
        Some(now) => Ok(now),
        None => Err(CopyStop::TooLong),
    }
}

/// Reads a piece of the open file, and writes its lines: false where the file is at its end, or where whatever follows makes
/// no difference.
fn next_piece<H: Host, F: InputForm, A: Sink>(
    alloc: Global,
    host: &mut H,
    form: &F,
    block: &mut [u8],
    state: &mut F::State,
    read: &mut u64,
    alerts: &mut A,
) -> Result<bool, CopyStop>
    requires { 0 < length block.old }
    ensures comes { OnOk result (GoesOn (F.means form.now)
        (point (F.came form.now state.old) (H.agrees host.old) (H.left_of host.old) read.old (A.written alerts.old))
        (point (F.came form.now state.new) (H.agrees host.new) (H.left_of host.new) read.new (A.written alerts.new))) }
    ensures stops { OnErr result (StopsAfter (F.means form.now)
        (point (F.came form.now state.old) (H.agrees host.old) (H.left_of host.old) read.old (A.written alerts.old))
        (H.agrees host.new) (A.written alerts.new)) }
    ensures over { result ≡ Ok false → IsOver (F.foreign form.now state.new) (H.agrees host.new) (H.left_of host.new) }
    ensures long { IsErrOf result CopyStop.TooLong → IsLongAfter (F.means form.now)
        (point (F.came form.now state.old) (H.agrees host.old) (H.left_of host.old) read.old (A.written alerts.old))
        (H.agrees host.new) }
    ensures further { result ≡ Ok true → (read.old < read.new) × (read.new < 2 ^ 64) }
    ensures room { length block.new ≡ length block.old }
    ensures stays { Stays H.Host host.old host.new }
    ensures counts { Counts result (H.faults host.old) (H.faults host.new) (A.faults alerts.old) (A.faults alerts.new) }
{
    let count = host.read(block)?;
    if count == 0 {
        return Ok(false);
    }
    *read = count_bytes(*read, count)?;
    pass_piece(alloc, form, &block[..count], state, alerts)
}

/// Copies the open file piece by piece, and gives how many bytes were read.
fn copy_pieces<H: Host, F: InputForm, A: Sink>(
    alloc: Global,
    host: &mut H,
    form: &F,
    block: &mut [u8],
    state: &mut F::State,
    alerts: &mut A,
) -> Result<u64, CopyStop>
    requires room { 0 < length block.old }
    requires nothing { F.came form.now state.old [] [] }
    ensures comes { IfOk result (λ read. Comes (F.means form.now) (H.left_of host.old) (A.written alerts.old)
        (point (F.came form.now state.new) (H.agrees host.new) (H.left_of host.new) read (A.written alerts.new))) }
    ensures stops { OnErr result
        (Stops (F.means form.now) (H.agrees host.new) (H.left_of host.old) (A.written alerts.old) (A.written alerts.new)) }
    ensures over { OnOk result (IsOver (F.foreign form.now state.new) (H.agrees host.new) (H.left_of host.new)) }
    ensures long { IsErrOf result CopyStop.TooLong → IsLong (H.agrees host.new) (H.left_of host.old) }
    ensures stays { Stays H.Host host.old host.new }
    ensures counts { Counts result (H.faults host.old) (H.faults host.new) (A.faults alerts.old) (A.faults alerts.new) }
{
    let mut read = 0;
    'pieces: while next_piece(alloc, host, form, block, state, &mut read, alerts)? {}
    Ok(read)
}

/// Writes the last lines, behind so many bytes, and tells how far the file is of its form.
fn finish_copy<F: InputForm, A: Sink>(
    alloc: Global,
    form: &F,
    state: &F::State,
    read: u64,
    alerts: &mut A,
) -> Result<Ending, CopyStop>
    ensures ends { IfOk result (λ ending. Tells (A.written alerts.old) (A.written alerts.new)
        (Closes (F.came form.now state.now) (F.foreign form.now state.now) (F.means form.now) read ending)) }
    ensures breaks { OnErr result (Tells (A.written alerts.old) (A.written alerts.new)
        (BreaksLast (F.came form.now state.now) (F.foreign form.now state.now) (F.means form.now))) }
    ensures unwritten { IsErrOf result CopyStop.Unwritten → Rose (A.faults alerts.old) (A.faults alerts.new) }
    ensures read { IsErrOf result CopyStop.Unread → ⊥ }
    ensures short { IsErrOf result CopyStop.TooLong → ⊥ }
    ensures quiet { (IsErrOf result CopyStop.Unwritten → ⊥) → A.faults alerts.new ≡ A.faults alerts.old }
{
    let mut lines = Vec::new(alloc);
    let ending = form.finish(alloc, state, read, &mut lines)?;
    write_all(alerts, &lines)?;
    Ok(ending)
}

/// Copies what is left of the open file as lines, and tells how far it is of its form.
pub(crate) fn copy_records<H: Host, F: InputForm, A: Sink>(
    alloc: Global,
    host: &mut H,
    form: &F,
    alerts: &mut A,
) -> Result<Ending, CopyStop>
    ensures copies { IfOk result (λ ending. Copies (F.means form.now) (H.agrees host.new) (H.left_of host.old)
        (A.written alerts.old) (A.written alerts.new) ending) }
    ensures stops { OnErr result
        (Stops (F.means form.now) (H.agrees host.new) (H.left_of host.old) (A.written alerts.old) (A.written alerts.new)) }
    ensures long { IsErrOf result CopyStop.TooLong → IsLong (H.agrees host.new) (H.left_of host.old) }
    ensures earlier { (files : Files) → H.agrees host.new files → H.agrees host.old files }
    ensures same_contents { H.contents host.new ≡ H.contents host.old }
    ensures unread { IsErrOf result CopyStop.Unread → Rose (H.faults host.old) (H.faults host.new) }
    ensures unwritten { IsErrOf result CopyStop.Unwritten → Rose (A.faults alerts.old) (A.faults alerts.new) }
    ensures quiet { (IsErrOf result CopyStop.Unread → ⊥) → H.faults host.new ≡ H.faults host.old }
    ensures quiet_alerts { (IsErrOf result CopyStop.Unwritten → ⊥) → A.faults alerts.new ≡ A.faults alerts.old }
{
    let mut block = vec![in alloc; 0; BLOCK]?;
    let mut state = form.start(alloc);
    match copy_pieces(alloc, host, form, &mut block, &mut state, alerts) {
        Ok(read) => finish_copy(alloc, form, &state, read, alerts),
        Err(stop) => Err(stop),
    }
}
