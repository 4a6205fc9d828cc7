//! What is counted of items.
ghost use Rattle.std.specs.Prelude.{◌≡◌, ◌+◌, IfOk};

use edge_io::NoMemory;

/// What was counted of the items so far.
#[derive(Clone, Copy, Debug)]
pub struct Tally {
    pub items: u128,
    /// Rules that match, over all items.
    pub hits: u128,
    /// Alerts.
    pub alerts: u128,
}

impl Tally {
    /// One item more, with this many rules that match it and this many alerts.
    pub(crate) fn with(self, hits: usize, alerts: usize) -> Result<Tally, NoMemory>
        ensures { IfOk result (λ tally. tally ≡ record {
          items = self.items + 1;
          hits = self.hits + hits;
          alerts = self.alerts + alerts;
        }) }
    {
        Ok(Tally {
            items: sum(self.items, 1)?,
            hits: sum(self.hits, hits as u128)?,
            alerts: sum(self.alerts, alerts as u128)?,
        })
    }
}

/// A sum. None passes its type, for which want of memory would stand: a capture has fewer than 2^32 records of at
/// most 2^18 bytes, of which each is in at most one packet, one datagram and one stretch of a stream; so there are
/// fewer than 2^52 items, and at most 2^16 rules are tried on each.
pub fn sum(total: u128, more: u128) -> Result<u128, NoMemory>
    ensures { IfOk result (λ sum. sum ≡ total + more) }
{
    match total.checked_add(more) {
        Some(sum) => Ok(sum),
        None => Err(NoMemory),
    }
}
