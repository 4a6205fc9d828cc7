//! How much working memory the patterns of one maker keep together.

use edge_io::NoMemory;
use std::sync::Arc;
use std::sync::atomic::AtomicU64;
use std::sync::atomic::Ordering::SeqCst;

/// What patterns keep together, and how much they may. Memory counts by what it reports of itself.
#[derive(Debug, Drop)]
pub(crate) struct MemoryTally {
    most: u64,
    counted: AtomicU64,
}

impl MemoryTally {
    pub(crate) fn new(most: u64) -> MemoryTally {
        MemoryTally {
            most,
            counted: AtomicU64::new(0),
        }
    }

    /// How many bytes are counted at present.
    pub(crate) fn counted(&self) -> u64 {
        self.counted.load(SeqCst)
    }

    /// Counts `bytes` bytes more, unless all would be too many then.
    fn add(&self, bytes: u64) -> bool {
        let before = self.counted.fetch_add(bytes, SeqCst);
        if before.saturating_add(bytes) <= self.most {
            return true;
        }
        self.subtract(bytes);
        false
    }

    fn subtract(&self, bytes: u64) {
        self.counted.fetch_sub(bytes, SeqCst);
    }
}

/// What one memory counts for. When it is dropped, its bytes count no longer.
pub(crate) struct MemoryCount {
    tally: Arc<MemoryTally>,
    bytes: u64,
}

impl MemoryCount {
    /// A part that counts for nothing yet.
    pub(crate) fn new(tally: &Arc<MemoryTally>) -> Result<MemoryCount, NoMemory> {
        let tally = Arc::try_clone(tally)?;
        Ok(MemoryCount { tally, bytes: 0 })
    }

    /// Counts this many bytes, where it counts fewer. Whether there was room for them: if not, it
    /// counts what it did before. Where it has not grown, nothing is written that others read.
    pub(crate) fn grow(&mut self, bytes: u64) -> bool {
        let more = bytes.saturating_sub(self.bytes);
        if more == 0 {
            return true;
        }
        if !self.tally.add(more) {
            return false;
        }
        self.bytes = bytes;
        true
    }
}

impl Drop for MemoryCount {
    fn drop(self) {
        let MemoryCount { tally, bytes } = self;
        tally.subtract(bytes);
    }
}
