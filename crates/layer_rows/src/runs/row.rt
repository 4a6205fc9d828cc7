//! A row of a whole run: the run, and what it must leave.

use crate::page::Page;
use crate::row::Row;
use std::alloc::Global;

/// A run, and what it must leave.
#[derive(Drop)]
pub(crate) struct RunRow {
    /// The label, the files, and the calls of the host and of the maker of patterns that fail.
    pub given: Row,
    /// The words of the command, between single blanks; empty for `snort -c r -r p`.
    pub words: String,
    /// How many records the capture has, and the moment of the next one where it is told.
    pub records: u32,
    pub moment: Option<(u32, u32)>,
    /// How many bytes a sink takes at a call.
    pub step: u32,
    /// The calls of the sinks that fail, counted from 0.
    pub alerts: Vec<u32>,
    pub errors: Vec<u32>,
    /// What must be left: the status, the bytes in both sinks, and the bytes left of the capture.
    pub status: u32,
    pub alert_bytes: Vec<u8>,
    pub error_bytes: Vec<u8>,
    pub left: Option<u32>,
}

impl RunRow {
    /// A row without a label.
    pub fn new(alloc: Global) -> RunRow {
        RunRow {
            given: Row::new(alloc),
            words: String::new(alloc),
            records: 0,
            moment: None,
            step: 10,
            alerts: Vec::new(alloc),
            errors: Vec::new(alloc),
            status: 0,
            alert_bytes: Vec::new(alloc),
            error_bytes: Vec::new(alloc),
            left: None,
        }
    }

    /// Becomes a row with a label that is given what it was, but for the calls that fail; nothing must be left.
    pub fn again(&mut self, page: &mut Page, label: &str) {
        page.clear();
        self.given.again(page, label);
        self.moment = None;
        self.status = 0;
        self.left = None;
        self.alerts.clear();
        self.errors.clear();
        self.alert_bytes.clear();
        self.error_bytes.clear();
    }

    /// Becomes a row with a label and nothing else.
    pub fn begin(&mut self, page: &mut Page, label: &str) {
        self.again(page, label);
        self.given.begin(page, label);
        self.words.clear();
        self.records = 0;
        self.step = 10;
    }
}
