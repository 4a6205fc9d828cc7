//! A whole pcapng capture as a list of its records, read by the calls of the reader one after another.

ghost use Rattle.std.specs.Prelude.{◌≡◌, ◌≤◌, ◌⊎◌, Option, List, ℕ, length, IfOk};
ghost use Rattle.edge_io.specs.Told.{one_more, Rose};
ghost use Rattle.edge_io.specs.Files.{Files, Lacks, MaySee};
ghost use Rattle.pcap_input.specs.Reader.{Tells};
ghost use Rattle.pcapng_input.specs.Calls.{AreFirst};
ghost use Rattle.pcapng_input.specs.Whole.{IsHeld, HasFailed};

use crate::{NgFault, NgReader, NgRecord};
use edge_io::{Host, Items};
use std::alloc::Global;

/// What was read of a capture.
#[derive(Debug, Drop)]
pub struct Found {
    /// The capture's records, in order.
    pub records: Items<NgRecord>,
    /// The refusal after the records; None at the capture's end and at the limit.
    pub refused: Option<NgFault>,
}

impl Found {
    fn new(records: Items<NgRecord>, refused: Option<NgFault>) -> Found
        ensures { result ≡ record { records = records; refused = refused } }
    {
        Found { records, refused }
    }
}

/// Opens a file of the host as its capture, and reads at most `limit` records of it. Where the host fails or memory
/// lacks, the records found are the first of the capture.
pub fn read_up_to<H: Host>(
    alloc: Global,
    host: &mut H,
    name: &str,
    limit: usize,
) -> Result<Found, NgFault>
    ensures held { (bytes : List ℕ) → Tells (H.contents host.old) name.now bytes → IsHeld result limit bytes }
    ensures first { (bytes : List ℕ) → Tells (H.contents host.old) name.now bytes
        → IfOk result (λ found. AreFirst found.records bytes) }
    ensures failed { HasFailed result → Rose (H.faults host.old) (H.faults host.new) ⊎ Lacks (H.contents host.old) name.now }
    ensures within { IfOk result (λ found. length found.records ≤ limit) }
    ensures same_contents { H.contents host.new ≡ H.contents host.old }
    ensures counted { H.opens host.new ≡ one_more (H.opens host.old) }
    ensures quiet { (HasFailed result → ⊥) → H.faults host.new ≡ H.faults host.old }
    ensures later { H.faults host.old ≤ H.faults host.new }

    // What is held, by whatever may be seen of the host afterwards: what it tells, or files that give all
    // that it answered.
    ensures seen_held { (seen : Option Files) → MaySee (H.contents host.new) (H.agrees host.new) seen
        → (bytes : List ℕ) → Tells seen name.now bytes → IsHeld result limit bytes }
    ensures seen_first { (seen : Option Files) → MaySee (H.contents host.new) (H.agrees host.new) seen
        → (bytes : List ℕ) → Tells seen name.now bytes
        → IfOk result (λ found. AreFirst found.records bytes) }
    ensures earlier { (seen : Option Files) → MaySee (H.contents host.new) (H.agrees host.new) seen
        → MaySee (H.contents host.old) (H.agrees host.old) seen }
{
    read_seen(alloc, host, name, limit)
}

/// What `read_up_to` does, by whatever may be seen of the host afterwards.
fn read_seen<H: Host>(
    alloc: Global,
    host: &mut H,
    name: &str,
    limit: usize,
) -> Result<Found, NgFault>
    ensures held { (seen : Option Files) → MaySee (H.contents host.new) (H.agrees host.new) seen
        → (bytes : List ℕ) → Tells seen name.now bytes → IsHeld result limit bytes }
    ensures first { (seen : Option Files) → MaySee (H.contents host.new) (H.agrees host.new) seen
        → (bytes : List ℕ) → Tells seen name.now bytes
        → IfOk result (λ found. AreFirst found.records bytes) }
    ensures failed { HasFailed result → Rose (H.faults host.old) (H.faults host.new) ⊎ Lacks (H.contents host.old) name.now }
    ensures within { IfOk result (λ found. length found.records ≤ limit) }
    ensures same_contents { H.contents host.new ≡ H.contents host.old }
    ensures earlier { (seen : Option Files) → MaySee (H.contents host.new) (H.agrees host.new) seen
        → MaySee (H.contents host.old) (H.agrees host.old) seen }
    ensures counted { H.opens host.new ≡ one_more (H.opens host.old) }
    ensures quiet { (HasFailed result → ⊥) → H.faults host.new ≡ H.faults host.old }
    ensures later { H.faults host.old ≤ H.faults host.new }
{
    let mut reader = NgReader::open(alloc, host, name)?;
    let mut records = Items::new(alloc);
    'each: while records.as_slice().len() < limit {
        match reader.next(alloc, host) {
            Ok(Some(given)) => records.push(given)?,
            Ok(None) => return Ok(Found::new(records, None)),
            Err(why) => return Ok(Found::new(records, Some(why))),
        }
    }
    Ok(Found::new(records, None))
}
