//! The record that an item's job was made of.
ghost use Rattle.std.specs.Prelude.{◌≡◌};

use edge_io::Link;
use pcap_input::Record;
use std::marker::Model;

/// A record of a capture, and the link layer that its bytes begin with.
#[derive(Debug, Drop)]
pub struct LinkedRecord {
    link: Link,
    captured: Record,
}

impl Model for LinkedRecord {
    ghost use Rattle.record_jobs.specs.Way.{LinkedRecord as Linked};

    ghost Value = { Linked };

    ghost view = { λ r. record { link = r.link; captured = r.captured } };
}

impl LinkedRecord {
    ghost use Rattle.record_jobs.specs.Way.{linked};

    /// A record of this link layer.
    pub fn new(link: Link, captured: Record) -> LinkedRecord
        ensures { result ≡ linked link captured }
    {
        LinkedRecord { link, captured }
    }

    /// The link layer that its bytes begin with.
    pub fn link(&self) -> Link
        ensures { result ≡ self.now.link }
    {
        self.link
    }

    /// The record as the capture has it.
    pub fn captured(&self) -> &Record
        ensures { result.now ≡ self.now.captured }
    {
        &self.captured
    }

    /// The record as the capture has it, without its link layer.
    pub fn into_captured(self) -> Record
        ensures { result ≡ self.captured }
    {
        self.captured
    }
}
