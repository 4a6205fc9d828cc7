//! The jobs of a batch and their records.
ghost use Rattle.std.specs.Prelude.{◌≡◌};
ghost use Rattle.snort_engine.specs.Steps.Sourcing.{last_after};

use alert_lines::LinkedRecord;
use flow_lanes::Job;
use std::mem::swap;

/// The jobs of records, lent by these, and for each the place of its record among these.
#[derive(Drop)]
pub(crate) struct MadeJobs<'a> {
    pub jobs: Vec<Job<'a>>,
    pub places: Vec<usize>,
}

/// Keeps the last of these records, if there is one, in place of the one that was kept, which takes its
/// place: nothing is copied.
pub(crate) fn keep_last(records: &mut Vec<LinkedRecord>, last: &mut LinkedRecord)
    ensures { last.new ≡ last_after last.old records.old.items }
{
    if let Some(newest) = records.last_mut() {
        swap(newest, last);
    }
}
