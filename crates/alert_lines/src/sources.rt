//! The records that the jobs of a batch were made of.
ghost use Rattle.std.specs.Prelude.{◌≡◌, option_and_then, option_map, slice_get};
ghost use Rattle.alert_lines.specs.Sourcing.{lent_record, source_by};

use crate::record::LinkedRecord;

/// The records that the jobs of a batch were made of, and the last one before these.
#[derive(Clone, Copy)]
pub struct Sources<'a> {
    pub records: &'a [LinkedRecord],
    /// The place of each job's record among these. A job without one is of the last record before.
    pub places: &'a [usize],
    pub last: &'a LinkedRecord,
}

impl<'a> Sources<'a> {
    /// The record of the job at this place of the batch, if it is one of these.
    fn record(self, job: usize) -> Option<&'a LinkedRecord>
        ensures { option_map lent_record result
            ≡ option_and_then (slice_get self.entry.records.now) (slice_get self.entry.places.now job) }
    {
        let place = self.places.get(job)?;
        self.records.get(*place)
    }

    /// The record of the job at this place of the batch.
    pub(crate) fn of(self, job: usize) -> &'a LinkedRecord
        ensures { result.now ≡ source_by self.entry job }
    {
        match self.record(job) {
            Some(found) => found,
            None => self.last,
        }
    }
}
