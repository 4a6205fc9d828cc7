//! Reading a pcapng capture packet by packet.
ghost use Rattle.std.specs.Prelude.{◌≡◌, ◌≤◌, ◌⊎◌, List, ℕ, Option, None, Some, IfOk, IfErr, IfSome, IfNone, Err, IsErrOf};
ghost use Rattle.edge_io.specs.Frames.{OnlyRead};
ghost use Rattle.edge_io.specs.Told.{one_more, Rose};
ghost use Rattle.edge_io.specs.Files.{Files, Lacks, IsUnopened, MaySee, left_by};
ghost use Rattle.pcap_input.specs.Cut.{Clean};
ghost use Rattle.pcapng_input.specs.Blocks.{Ends, opening, first_walk, next_of};
ghost use Rattle.pcapng_input.specs.Steps.{Shows};
ghost use Rattle.pcap_input.specs.Reader.{Tells};
ghost use Rattle.pcapng_input.specs.Reader.{Opens, TakesHead, IsOfHead, Answers, TakesRecord, TakesBlocks, TakesNone, Goes, IsHeadAnswer, IsNothing};

use crate::block::{Block, BlockKind};
use crate::piece::read_piece;
use crate::step::{BlockRead, SECTION, order_of, read_block, read_known};
use crate::walk::Walk;
use crate::{NgFault, NgRecord};
use edge_io::{Host, Text};
use pcap_input::fill::fill;
use pcap_input::number::u32_at;
use pcap_input::spares::Spares;
use std::alloc::Global;
use std::marker::Model;

/// The bytes of a block's type.
const TYPE: usize = 4;

/// A reader of the host's open pcapng capture. Contracts see how far it has walked over the blocks, and
/// what it has refused.
#[derive(Debug, Drop)]
pub struct NgReader {
    walk: Walk,
    refused: Option<NgFault>,
    spares: Spares,
}

impl Model for NgReader {
    ghost use Rattle.pcapng_input.specs.Reader.{Reading};

    ghost Value = { Reading };

    ghost view = { λ r. record { walk = r.walk; refused = r.refused } };
}

impl NgReader {
    /// Opens a file of the host as its capture and reads the first section header.
    pub fn open<H: Host>(alloc: Global, host: &mut H, name: &str) -> Result<NgReader, NgFault>
        // Where contents are told, the answer is what the file's first block gives.
        ensures gives { (bytes : List ℕ) → Tells (H.contents host.old) name.now bytes → Opens result (opening bytes) }

        // What is taken: the first block and nothing after it. Before a refusal it isn't whole within
        // what is taken; where the opening itself failed, nothing is open.
        ensures takes { TakesHead (H.contents host.old) name.now result (H.left host.new)
            ⊎ (IsErrOf result NgFault.Failed × (H.left host.new ≡ None)) }

        ensures fresh { IfOk result (λ reader. reader.refused ≡ None) }
        ensures kinds { IfErr result IsOfHead }
        ensures failed { IsErrOf result NgFault.Failed
            → Rose (H.faults host.old) (H.faults host.new) ⊎ Lacks (H.contents host.old) name.now }
        ensures same_contents { H.contents host.new ≡ H.contents host.old }
        ensures counted { H.opens host.new ≡ one_more (H.opens host.old) }
        ensures quiet { (IsErrOf result NgFault.Failed → ⊥) → H.faults host.new ≡ H.faults host.old }
        ensures later { H.faults host.old ≤ H.faults host.new }

        // What `open` gives and takes, by whatever may be seen of the host afterwards: what it tells, or files
        // that give all that it answered.
        ensures seen_gives { (seen : Option Files) → MaySee (H.contents host.new) (H.agrees host.new) seen
            → (bytes : List ℕ) → Tells seen name.now bytes → Opens result (opening bytes) }
        ensures seen_takes { (seen : Option Files) → MaySee (H.contents host.new) (H.agrees host.new) seen
            → TakesHead seen name.now result (left_by (H.left_of host.new) seen)
            ⊎ (IsErrOf result NgFault.Failed × (left_by (H.left_of host.new) seen ≡ None)) }
        ensures earlier { (seen : Option Files) → MaySee (H.contents host.new) (H.agrees host.new) seen
            → MaySee (H.contents host.old) (H.agrees host.old) seen }
    {
        NgReader::open_seen(alloc, host, name)
    }

    /// What `open` does, by whatever may be seen of the host afterwards.
    fn open_seen<H: Host>(alloc: Global, host: &mut H, name: &str) -> Result<NgReader, NgFault>
        // Where contents are told, the answer is what the file's first block gives.
        ensures gives { (seen : Option Files) → MaySee (H.contents host.new) (H.agrees host.new) seen
            → (bytes : List ℕ) → Tells seen name.now bytes → Opens result (opening bytes) }

        // What is taken: the first block and nothing after it. Before a refusal it isn't whole within
        // what is taken; where the opening itself failed, nothing is open.
        ensures takes { (seen : Option Files) → MaySee (H.contents host.new) (H.agrees host.new) seen
            → TakesHead seen name.now result (left_by (H.left_of host.new) seen)
            ⊎ (IsErrOf result NgFault.Failed × (left_by (H.left_of host.new) seen ≡ None)) }

        ensures fresh { IfOk result (λ reader. reader.refused ≡ None) }
        ensures kinds { IfErr result IsOfHead }
        ensures failed { IsErrOf result NgFault.Failed
            → Rose (H.faults host.old) (H.faults host.new) ⊎ Lacks (H.contents host.old) name.now }
        ensures same_contents { H.contents host.new ≡ H.contents host.old }
        ensures earlier { (seen : Option Files) → MaySee (H.contents host.new) (H.agrees host.new) seen
            → MaySee (H.contents host.old) (H.agrees host.old) seen }
        ensures counted { H.opens host.new ≡ one_more (H.opens host.old) }
        ensures quiet { (IsErrOf result NgFault.Failed → ⊥) → H.faults host.new ≡ H.faults host.old }
        ensures later { H.faults host.old ≤ H.faults host.new }
    {
        host.open(name)?;
        let mut walk = Walk::new(alloc);
        let mut spares = Spares::new();
        read_first(&mut walk, &mut spares, alloc, host)?;
        Ok(NgReader {
            walk,
            refused: None,
            spares,
        })
    }

    /// Takes back the bytes of a record that is done with: a later record is read into their memory.
    /// The reader is where it was. Where memory is lacking to keep the bytes, they are freed.
    pub fn take_back(&mut self, alloc: Global, bytes: Text)
        ensures { self.new ≡ self.old }
    {
        self.spares.push(alloc, bytes.into_vec());
    }

    /// Reads the next record, or None where no byte is left. Blocks that are no record are passed over.
    /// A record's bytes are read into memory that was taken back, or that is reserved once. After a
    /// refusal the reader answers that refusal, without reading.
    pub fn next<H: Host>(
        &mut self,
        alloc: Global,
        host: &mut H,
    ) -> Result<Option<NgRecord>, NgFault>
        // Where the bytes left are told, the answer is what comes next in them; where nothing is
        // open, it is the end.
        ensures gives { self.old.refused ≡ None → (rest : List ℕ) → H.left host.old ≡ Some rest
            → Answers result (next_of self.old.walk rest) }
        ensures unopened { self.old.refused ≡ None → IsUnopened (H.contents host.old) (H.left host.old)
            → Answers result (Ends Clean) }

        // What is taken: the bytes up to the end of the record's block and none after them, or the blocks
        // that no record follows. Before a refusal no record is whole within what is taken.
        ensures takes { IfOk result (λ given. IfSome given
            (λ r. TakesRecord self.old self.new r (H.left host.old) (H.left host.new))) }
        ensures ended { IfOk result (λ given. IfNone given (TakesBlocks self.old self.new (H.left host.old) (H.left host.new))) }
        ensures partial { self.old.refused ≡ None
            → IfErr result (λ why. TakesNone self.old why (H.left host.old) (H.left host.new)) }

        // A refusal is kept and repeated, and then nothing is read.
        ensures refused { IfErr result (λ why. self.new.refused ≡ Some why) }
        ensures again { (why : NgFault) → self.old.refused ≡ Some why → result ≡ Err why }
        ensures untouched { (why : NgFault) → self.old.refused ≡ Some why → host.new ≡ host.old }

        ensures failed { IsErrOf result NgFault.Failed
            → Rose (H.faults host.old) (H.faults host.new) ⊎ (self.old.refused ≡ Some NgFault.Failed) }
        ensures same_contents { H.contents host.new ≡ H.contents host.old }
        ensures same_opens { H.opens host.new ≡ H.opens host.old }
        ensures quiet { (IsErrOf result NgFault.Failed → ⊥) → H.faults host.new ≡ H.faults host.old }
        ensures later { H.faults host.old ≤ H.faults host.new }

        // What `next` gives and takes, by whatever may be seen of the host afterwards: what it tells, or files
        // that give all that it answered.
        ensures seen_gives { (seen : Option Files) → MaySee (H.contents host.new) (H.agrees host.new) seen
            → self.old.refused ≡ None → (rest : List ℕ) → left_by (H.left_of host.old) seen ≡ Some rest
            → Answers result (next_of self.old.walk rest) }
        ensures seen_unopened { (seen : Option Files) → MaySee (H.contents host.new) (H.agrees host.new) seen
            → self.old.refused ≡ None → IsUnopened seen (left_by (H.left_of host.old) seen)
            → Answers result (Ends Clean) }
        ensures seen_takes { (seen : Option Files) → MaySee (H.contents host.new) (H.agrees host.new) seen
            → IfOk result (λ given. IfSome given
            (λ r. TakesRecord self.old self.new r (left_by (H.left_of host.old) seen) (left_by (H.left_of host.new) seen))) }
        ensures seen_ended { (seen : Option Files) → MaySee (H.contents host.new) (H.agrees host.new) seen
            → IfOk result (λ given. IfNone given (TakesBlocks self.old self.new
            (left_by (H.left_of host.old) seen) (left_by (H.left_of host.new) seen))) }
        ensures seen_partial { (seen : Option Files) → MaySee (H.contents host.new) (H.agrees host.new) seen
            → self.old.refused ≡ None
            → IfErr result (λ why. TakesNone self.old why
            (left_by (H.left_of host.old) seen) (left_by (H.left_of host.new) seen)) }
        ensures earlier { (seen : Option Files) → MaySee (H.contents host.new) (H.agrees host.new) seen
            → MaySee (H.contents host.old) (H.agrees host.old) seen }
    {
        self.next_seen(alloc, host)
    }

    /// What `next` does, by whatever may be seen of the host afterwards.
    fn next_seen<H: Host>(
        &mut self,
        alloc: Global,
        host: &mut H,
    ) -> Result<Option<NgRecord>, NgFault>
        // Where the bytes left are told, the answer is what comes next in them; where nothing is
        // open, it is the end.
        ensures gives { (seen : Option Files) → MaySee (H.contents host.new) (H.agrees host.new) seen
            → self.old.refused ≡ None → (rest : List ℕ) → left_by (H.left_of host.old) seen ≡ Some rest
            → Answers result (next_of self.old.walk rest) }
        ensures unopened { (seen : Option Files) → MaySee (H.contents host.new) (H.agrees host.new) seen
            → self.old.refused ≡ None → IsUnopened seen (left_by (H.left_of host.old) seen)
            → Answers result (Ends Clean) }

        // What is taken: the bytes up to the end of the record's block and none after them, or the blocks
        // that no record follows. Before a refusal no record is whole within what is taken.
        ensures takes { (seen : Option Files) → MaySee (H.contents host.new) (H.agrees host.new) seen
            → IfOk result (λ given. IfSome given
            (λ r. TakesRecord self.old self.new r (left_by (H.left_of host.old) seen) (left_by (H.left_of host.new) seen))) }
        ensures ended { (seen : Option Files) → MaySee (H.contents host.new) (H.agrees host.new) seen
            → IfOk result (λ given. IfNone given (TakesBlocks self.old self.new
            (left_by (H.left_of host.old) seen) (left_by (H.left_of host.new) seen))) }
        ensures partial { (seen : Option Files) → MaySee (H.contents host.new) (H.agrees host.new) seen
            → self.old.refused ≡ None
            → IfErr result (λ why. TakesNone self.old why
            (left_by (H.left_of host.old) seen) (left_by (H.left_of host.new) seen)) }

        // A refusal is kept and repeated, and then nothing is read.
        ensures refused { IfErr result (λ why. self.new.refused ≡ Some why) }
        ensures again { (why : NgFault) → self.old.refused ≡ Some why → result ≡ Err why }
        ensures untouched { (why : NgFault) → self.old.refused ≡ Some why → host.new ≡ host.old }

        ensures failed { IsErrOf result NgFault.Failed
            → Rose (H.faults host.old) (H.faults host.new) ⊎ (self.old.refused ≡ Some NgFault.Failed) }
        ensures quiet { (IsErrOf result NgFault.Failed → ⊥) → H.faults host.new ≡ H.faults host.old }
        ensures only_read { OnlyRead H.Host host.old host.new }
    {
        if let Some(why) = self.refused {
            return Err(why);
        }
        match read_next(&mut self.walk, &mut self.spares, alloc, host) {
            Ok(given) => Ok(given),
            Err(why) => {
                self.refused = Some(why);
                Err(why)
            }
        }
    }
}

/// Reads the first block of the capture that was opened, for a walk that has read nothing.
fn read_first<H: Host>(
    walk: &mut Walk,
    spares: &mut Spares,
    alloc: Global,
    host: &mut H,
) -> Result<BlockRead, NgFault>
    requires { walk.old ≡ first_walk }
    ensures shows { (seen : Option Files) → MaySee (H.contents host.new) (H.agrees host.new) seen
        → Shows opening walk.new result (left_by (H.left_of host.old) seen) (left_by (H.left_of host.new) seen) }
    ensures kinds { IsHeadAnswer result }
    ensures failed { IsErrOf result NgFault.Failed → Rose (H.faults host.old) (H.faults host.new) }
    ensures quiet { (IsErrOf result NgFault.Failed → ⊥) → H.faults host.new ≡ H.faults host.old }
    ensures only_read { OnlyRead H.Host host.old host.new }
{
    let mut first = [0; 8];
    let Ok(count) = fill(host, &mut first) else {
        return Err(NgFault::Failed);
    };
    if count < TYPE {
        return Err(NgFault::NotPcapng);
    }
    let kind = u32_at(false, &first, 0);
    if kind != SECTION {
        return Err(NgFault::NotPcapng);
    }
    if count < first.len() {
        return Err(NgFault::Truncated { at: 0 });
    }
    let mut magic = [0; 4];
    read_piece(host, 0, &mut magic)?;
    match order_of(&magic) {
        None => Err(NgFault::NotPcapng),
        Some(swapped) => {
            walk.begin_section(alloc, swapped);
            let block = Block {
                kind: BlockKind::Section,
                total: u32_at(swapped, &first, 4),
            };
            read_known(walk, spares, alloc, host, block)
        }
    }
}

/// Reads the record that comes next after the blocks that are no record, if there is one.
fn read_next<H: Host>(
    walk: &mut Walk,
    spares: &mut Spares,
    alloc: Global,
    host: &mut H,
) -> Result<Option<NgRecord>, NgFault>
    ensures goes { (seen : Option Files) → MaySee (H.contents host.new) (H.agrees host.new) seen
        → Goes walk.old walk.new result (left_by (H.left_of host.old) seen) (left_by (H.left_of host.new) seen) }
    ensures unopened { (seen : Option Files) → MaySee (H.contents host.new) (H.agrees host.new) seen
        → IsUnopened seen (left_by (H.left_of host.old) seen) → IsNothing result }
    ensures failed { IsErrOf result NgFault.Failed → Rose (H.faults host.old) (H.faults host.new) }
    ensures quiet { (IsErrOf result NgFault.Failed → ⊥) → H.faults host.new ≡ H.faults host.old }
    ensures only_read { OnlyRead H.Host host.old host.new }
{
    'each: loop {
        let block = read_block(walk, spares, alloc, host)?;
        match block {
            BlockRead::End => return Ok(None),
            BlockRead::Skipped => {}
            BlockRead::Record(given) => return Ok(Some(given)),
        }
    }
}
