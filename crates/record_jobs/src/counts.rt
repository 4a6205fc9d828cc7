//! What records are counted as.
ghost use Rattle.std.specs.Prelude.{◌≡◌, ◌+◌, ◌<◌, ◌^◌};
ghost use Rattle.record_jobs.specs.Steps.{counts_after, is_fresh, with_content, with_skip, AreFew, AreUpTo};

use crate::content::RecordContent;
use packet_decode::Skip;
use stream5_sessions::Touch;

/// What the records of a capture are counted as.
#[derive(Clone, Copy, Debug, PartialEq, Eq)]
pub struct RecordCounts {
    /// All records.
    pub records: u64,
    /// Records and rebuilt datagrams that are skipped: bytes are missing.
    pub short: u64,
    /// Records and rebuilt datagrams that are skipped: they carry another protocol than either version of IP.
    pub other: u64,
    /// Records and rebuilt datagrams that are skipped: a checksum is wrong.
    pub checksum: u64,
    /// Records and rebuilt datagrams that are skipped: a header contradicts itself.
    pub malformed: u64,
    /// Fragments.
    pub fragments: u64,
    /// Datagrams that were put together.
    pub rebuilt: u64,
    /// Flows that began.
    pub flows: u64,
}

impl RecordCounts {
    /// No record yet.
    pub const NONE: RecordCounts = RecordCounts {
        records: 0,
        short: 0,
        other: 0,
        checksum: 0,
        malformed: 0,
        fragments: 0,
        rebuilt: 0,
        flows: 0,
    };

    /// One reason more, if there is one.
    fn with_skip(self, skip: Option<Skip>) -> RecordCounts
        requires room { self.records < 2 ^ 32 }
        requires few { AreFew self }
        ensures value { result ≡ with_skip self skip }
        ensures few { AreUpTo (result.records + 1) result.records result }
        ensures records { result.records ≡ self.records }
    {
        match skip {
            None => self,
            Some(Skip::Short) => RecordCounts {
                short: self.short + 1,
                ..self
            },
            Some(Skip::OtherProtocol) => RecordCounts {
                other: self.other + 1,
                ..self
            },
            Some(Skip::Checksum) => RecordCounts {
                checksum: self.checksum + 1,
                ..self
            },
            Some(Skip::Malformed) => RecordCounts {
                malformed: self.malformed + 1,
                ..self
            },
        }
    }

    /// What else a record is counted as.
    fn with_content(self, content: &RecordContent, touch: Option<Touch>) -> RecordCounts
        requires room { self.records < 2 ^ 32 }
        requires few { AreUpTo (self.records + 1) self.records self }
        ensures value { result ≡ with_content self content.now touch }
        ensures few { AreFew result }
        ensures records { result.records ≡ self.records + 1 }
    {
        RecordCounts {
            records: self.records + 1,
            fragments: self.fragments + u64::from(content.fragment.is_some()),
            rebuilt: self.rebuilt + u64::from(content.rebuilt),
            flows: self.flows + u64::from(is_fresh(touch)),
            ..self
        }
    }

    /// One record more, which brought this, and whose touch found this.
    #[tactic(auto, unfolding(crate::specs::Steps::counts_after))]
    pub(crate) fn with_record(self, content: &RecordContent, touch: Option<Touch>) -> RecordCounts
        requires room { self.records < 2 ^ 32 }
        requires few { AreFew self }
        ensures value { result ≡ counts_after self content.now touch }
        ensures few { AreFew result }
        ensures records { result.records ≡ self.records + 1 }
    {
        self.with_skip(content.skip).with_content(content, touch)
    }
}

/// Whether a touch begins a flow.
pub(crate) fn is_fresh(touch: Option<Touch>) -> bool
    ensures { result ≡ is_fresh touch }
{
    match touch {
        Some(touch) => touch.fresh,
        None => false,
    }
}
