//! What a search of a text takes.

/// How much of a text was looked at, and by what: from it a caller can tell about how long the search took, which
/// depends on the text as much as on the patterns. No contract speaks of it.
#[derive(Clone, Copy, Debug)]
pub struct Effort {
    /// Over how many bytes the sieve went: none where there is no sieve.
    pub sieved: u64,
    /// How many walks of the automaton began.
    pub walks: u64,
    /// How many bytes the walks went past.
    pub walked: u64,
}

impl Effort {
    /// The text wasn't looked at.
    pub const NONE: Effort = Effort {
        sieved: 0,
        walks: 0,
        walked: 0,
    };

    /// The sieve went over this many bytes.
    pub(crate) fn add_sieved(&mut self, bytes: usize) {
        self.sieved = self.sieved.saturating_add(bytes as u64);
    }

    /// A walk went from one place to another.
    pub(crate) fn add_walk(&mut self, from: usize, to: usize) {
        self.walks = self.walks.saturating_add(1);
        self.walked = self.walked.saturating_add(to.saturating_sub(from) as u64);
    }
}
