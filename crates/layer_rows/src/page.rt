//! What a call gives, as a row writes it.

use row_files::RowLine;
use std::alloc::{AllocError, Global};
use std::fmt;

/// A text that is written bit by bit. Where memory is lacking the rest is left out and that is noted, so
/// that what writes on it goes on in a straight line.
#[derive(Drop)]
pub(crate) struct Page {
    pub alloc: Global,
    pub text: String,
    pub lacks_memory: bool,
}

impl Page {
    /// A page with nothing on it.
    pub fn new(alloc: Global) -> Page {
        Page {
            alloc,
            text: String::new(alloc),
            lacks_memory: false,
        }
    }

    /// Becomes a page with nothing on it.
    pub fn clear(&mut self) {
        self.text.clear();
        self.lacks_memory = false;
    }

    /// Whether nothing was written, and no memory lacked.
    pub fn is_empty(&self) -> bool {
        self.text.is_empty() && !self.lacks_memory
    }

    /// What is said of memory that was lacking.
    pub fn lack(&self) -> &'static str {
        if self.lacks_memory {
            " memory is lacking"
        } else {
            ""
        }
    }

    /// Notes whether memory was lacking where there is a fault.
    pub fn note<E: Drop>(&mut self, done: Result<(), E>) {
        if done.is_err() {
            self.lacks_memory = true;
        }
    }

    /// Writes a text.
    pub fn put(&mut self, text: &str) {
        if self.text.push_str(text).is_err() {
            self.lacks_memory = true;
        }
    }

    /// Writes a value.
    pub fn show<D: fmt::Display + Drop>(&mut self, value: D) {
        if write!(self.text, "{value}").is_err() {
            self.lacks_memory = true;
        }
    }

    /// Writes a value with its names.
    pub fn debug<D: fmt::Debug>(&mut self, value: &D) {
        if write!(self.text, "{value:?}").is_err() {
            self.lacks_memory = true;
        }
    }

    /// Writes bytes that are a text.
    pub fn bytes(&mut self, bytes: &[u8]) {
        self.put(str::from_utf8(bytes).unwrap_or("(no text)"));
    }

    /// Writes bytes, and a sign for those that are no text.
    pub fn lossy(&mut self, bytes: &[u8]) {
        match String::from_utf8_lossy(self.alloc, bytes) {
            Ok(text) => self.put(&text),
            Err(_) => self.lacks_memory = true,
        }
    }

    /// Writes the places of rules, with blanks between them.
    pub fn places(&mut self, places: &[u32]) {
        let mut between = "";
        for place in places {
            self.put(between);
            self.show(*place);
            between = " ";
        }
    }

    /// A text that was made, or an empty one.
    pub fn made(&mut self, made: Result<String, AllocError>) -> String {
        match made {
            Ok(text) => text,
            Err(_) => {
                self.lacks_memory = true;
                String::new(self.alloc)
            }
        }
    }

    /// A text this many times; nothing where this is no number.
    pub fn repeated(&mut self, text: &str, count: &str) -> String {
        self.made(text.repeat(self.alloc, count.parse::<usize>().unwrap_or(0)))
    }

    /// A text after another.
    pub fn joined(&mut self, front: &str, after: &str) -> String {
        let mut text = self.copied(front);
        self.note(text.push_str(after));
        text
    }

    /// A copy of a text.
    pub fn copied(&mut self, text: &str) -> String {
        self.made(String::from_str(self.alloc, text))
    }

    /// A text with another in place of each sign.
    pub fn replaced(&mut self, text: &str, sign: &str, other: &str) -> String {
        self.made(text.replace(self.alloc, sign, other))
    }

    /// The line of a turn.
    pub fn line_at(&mut self, line: RowLine<'_>, turn: u32) -> String {
        self.made(line.at(self.alloc, turn))
    }

    /// The line of a rule with this header, and with these options in front of others.
    pub fn rule_line(&mut self, header: &str, options: &str, after: &str) -> String {
        self.made(format!(in self.alloc; "alert {header} ({options}{after})"))
    }

    /// The words of a line, between single blanks.
    pub fn words(&mut self, line: &str) -> Vec<String> {
        let mut words = Vec::new(self.alloc);
        for word in line.split(' ') {
            let word = self.copied(word);
            self.note(words.push(word));
        }
        words
    }
}
