//! What a run counts.
ghost use Rattle.std.specs.Prelude.{◌≡◌, ◌++◌, OnOk};
ghost use Rattle.snort_engine.specs.Counts.{count_line, counts_text};

use edge_io::NoMemory;
use itoa::Buffer;
use record_jobs::RecordCounts;

/// What a run counts of a capture.
#[derive(Clone, Copy, Debug)]
pub(crate) struct Counts {
    /// What its records are counted as.
    pub seen: RecordCounts,
    /// Items: packets, fragments and stretches of streams.
    pub items: u128,
    /// Rules that match, over all items.
    pub hits: u128,
    /// Lines.
    pub alerts: u128,
    /// Rules that were worth being tried, over all items.
    pub tries: u128,
}

/// Appends the line of a count.
fn push_count(out: &mut Vec<u8>, name: &[u8], count: u128) -> Result<(), NoMemory>
    ensures { OnOk result (out.new.items ≡ out.old.items ++ count_line name.now count) }
{
    out.extend_from_slice(name)?;
    out.extend_from_slice(b": ")?;
    out.extend_from_slice(Buffer::new().format(count).as_bytes())?;
    out.extend_from_slice(b"\n")?;
    Ok(())
}

impl Counts {
    /// Nothing was counted.
    pub const NONE: Counts = Counts {
        seen: RecordCounts::NONE,
        items: 0,
        hits: 0,
        alerts: 0,
        tries: 0,
    };

    /// Appends the counts, each on its line.
    #[tactic(auto, unfolding(crate::specs::Counts::counts_text))]
    pub fn push(&self, out: &mut Vec<u8>) -> Result<(), NoMemory>
        ensures { OnOk result (out.new.items ≡ out.old.items ++ counts_text self.now) }
    {
        push_count(out, b"records", self.seen.records as u128)?;
        push_count(out, b"short", self.seen.short as u128)?;
        push_count(out, b"other", self.seen.other as u128)?;
        push_count(out, b"checksum", self.seen.checksum as u128)?;
        push_count(out, b"malformed", self.seen.malformed as u128)?;
        push_count(out, b"fragments", self.seen.fragments as u128)?;
        push_count(out, b"rebuilt", self.seen.rebuilt as u128)?;
        push_count(out, b"flows", self.seen.flows as u128)?;
        push_count(out, b"items", self.items)?;
        push_count(out, b"hits", self.hits)?;
        push_count(out, b"alerts", self.alerts)?;
        push_count(out, b"tries", self.tries)
    }
}
