//! Reading on until a buffer is full.
ghost use Rattle.std.specs.Prelude.{◌≡◌, ◌<◌, ◌≤◌, Option, length, take, IfOk, IfErr, OnOk, OnErr};
ghost use Rattle.edge_io.specs.Files.{Files, IsUnopened, MaySee, left_by};
ghost use Rattle.edge_io.specs.Frames.{OnlyRead};
ghost use Rattle.edge_io.specs.Told.{before, NothingLeft, Rose};

use edge_io::{Failed, Host};

/// Where the filling of a buffer stopped, as the host failed: its first `done` bytes were read.
#[derive(Clone, Copy, Debug, PartialEq, Eq)]
pub struct FillStop {
    pub done: usize,
}

/// Reads from the open capture until `buf` is full or nothing is left, and tells how many bytes of
/// it were filled. Takes no memory.
#[inline(always)]
pub fn fill<H: Host>(host: &mut H, buf: &mut [u8]) -> Result<usize, FillStop>
    ensures within { IfOk result (λ count. count ≤ length buf.old) }
    ensures taken { IfOk result (λ count. H.left host.old ≡ before (take count buf.new) (H.left host.new)) }
    ensures ended { IfOk result (λ count. count < length buf.old → NothingLeft (H.left host.new)) }
    ensures unopened { IsUnopened (H.contents host.old) (H.left host.old) → IfOk result (λ count. count ≡ 0) }
    ensures stopped { IfErr result (λ stop. H.left host.old ≡ before (take stop.done buf.new) (H.left host.new)) }
    ensures short { IfErr result (λ stop. stop.done < length buf.old) }
    ensures failed { OnErr result (Rose (H.faults host.old) (H.faults host.new)) }
    ensures same_contents { H.contents host.new ≡ H.contents host.old }
    ensures same_opens { H.opens host.new ≡ H.opens host.old }
    ensures quiet { OnOk result (H.faults host.new ≡ H.faults host.old) }
    ensures later { H.faults host.old ≤ H.faults host.new }

    // What is taken, by whatever may be seen of the host afterwards: what it tells, or files that give all
    // that it answered.
    ensures seen_taken { (seen : Option Files) → MaySee (H.contents host.new) (H.agrees host.new) seen
        → IfOk result (λ count. left_by (H.left_of host.old) seen
        ≡ before (take count buf.new) (left_by (H.left_of host.new) seen)) }
    ensures seen_ended { (seen : Option Files) → MaySee (H.contents host.new) (H.agrees host.new) seen
        → IfOk result (λ count. count < length buf.old → NothingLeft (left_by (H.left_of host.new) seen)) }
    ensures seen_unopened { (seen : Option Files) → MaySee (H.contents host.new) (H.agrees host.new) seen
        → IsUnopened seen (left_by (H.left_of host.old) seen) → IfOk result (λ count. count ≡ 0) }
    ensures seen_stopped { (seen : Option Files) → MaySee (H.contents host.new) (H.agrees host.new) seen
        → IfErr result (λ stop. left_by (H.left_of host.old) seen
        ≡ before (take stop.done buf.new) (left_by (H.left_of host.new) seen)) }
    ensures earlier { (seen : Option Files) → MaySee (H.contents host.new) (H.agrees host.new) seen
        → MaySee (H.contents host.old) (H.agrees host.old) seen }
{
    fill_seen(host, buf)
}

/// What `fill` does, by whatever may be seen of the host afterwards.
#[inline(always)]
#[tactic(auto, using(crate::proofs::Pieces::Filling::filling))]
fn fill_seen<H: Host>(host: &mut H, buf: &mut [u8]) -> Result<usize, FillStop>
    ensures within { IfOk result (λ count. count ≤ length buf.old) }
    ensures taken { (seen : Option Files) → MaySee (H.contents host.new) (H.agrees host.new) seen
        → IfOk result (λ count. left_by (H.left_of host.old) seen
        ≡ before (take count buf.new) (left_by (H.left_of host.new) seen)) }
    ensures ended { (seen : Option Files) → MaySee (H.contents host.new) (H.agrees host.new) seen
        → IfOk result (λ count. count < length buf.old → NothingLeft (left_by (H.left_of host.new) seen)) }
    ensures unopened { (seen : Option Files) → MaySee (H.contents host.new) (H.agrees host.new) seen
        → IsUnopened seen (left_by (H.left_of host.old) seen) → IfOk result (λ count. count ≡ 0) }
    ensures stopped { (seen : Option Files) → MaySee (H.contents host.new) (H.agrees host.new) seen
        → IfErr result (λ stop. left_by (H.left_of host.old) seen
        ≡ before (take stop.done buf.new) (left_by (H.left_of host.new) seen)) }
    ensures short { IfErr result (λ stop. stop.done < length buf.old) }
    ensures failed { OnErr result (Rose (H.faults host.old) (H.faults host.new)) }
    ensures quiet { OnOk result (H.faults host.new ≡ H.faults host.old) }
    ensures only_read { OnlyRead H.Host host.old host.new }
{
    let mut done = 0;
    while done < buf.len() {
        match host.read(&mut buf[done..]) {
            Ok(0) => return Ok(done),
            Ok(count) => done += count,
            Err(Failed) => return Err(FillStop { done }),
        }
    }
    Ok(done)
}
