//! A row: what its calls are given.

use crate::page::Page;
use edge_io::{LiteralMaker, MemHost, NoMemory};
use row_files::Files;
use std::alloc::Global;

/// What the calls of a row are given.
#[derive(Drop)]
pub(crate) struct Row {
    pub label: String,
    /// The files; the configuration is `r`, the host table `h`.
    pub files: Files,
    /// The words of the item that headers, alerts and candidates speak of.
    pub item: String,
    /// The calls of the host and of the maker of patterns that fail, counted from 0.
    pub host: Vec<u32>,
    pub maker: Vec<u32>,
    /// What comes before what the next call is given.
    pub front: String,
    /// Lines for the next call, and the lines that it must give for them.
    pub steps: String,
    pub wanted: String,
}

impl Row {
    /// A row without a label.
    pub fn new(alloc: Global) -> Row {
        Row {
            label: String::new(alloc),
            files: Files::new(alloc),
            item: String::new(alloc),
            host: Vec::new(alloc),
            maker: Vec::new(alloc),
            front: String::new(alloc),
            steps: String::new(alloc),
            wanted: String::new(alloc),
        }
    }

    /// Becomes a row with a label that has the files of the one before.
    pub fn again(&mut self, page: &mut Page, label: &str) {
        self.host.clear();
        self.maker.clear();
        self.label.clear();
        page.note(self.label.push_str(label));
    }

    /// Becomes a row with a label and nothing else.
    pub fn begin(&mut self, page: &mut Page, label: &str) {
        self.again(page, label);
        self.files = Files::new(page.alloc);
        self.item.clear();
        self.close_call();
    }

    /// Drops what was given to one call alone.
    pub fn close_call(&mut self) {
        self.front.clear();
        self.steps.clear();
        self.wanted.clear();
    }

    /// A host that has the row's files, with its failing calls.
    pub fn host(&self, page: &mut Page) -> MemHost {
        match self.files.host(&self.host) {
            Ok(host) => host,
            Err(NoMemory) => {
                page.lacks_memory = true;
                MemHost::new(page.alloc)
            }
        }
    }

    /// A maker of patterns with its failing calls.
    pub fn maker(&self, page: &mut Page) -> LiteralMaker {
        let mut maker = LiteralMaker::new(page.alloc);
        page.note(maker.fail_calls(&self.maker));
        maker
    }
}
