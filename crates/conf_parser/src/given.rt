//! What one line gives.

use crate::draft::Settings;
use edge_io::Text;

/// What a line hands on.
#[derive(Drop)]
pub enum LineResult {
    Nothing,
    /// The line is a rule.
    Rule,
    /// The line is skipped with a warning of its first word and the name after it.
    Skipped(Text, Text),
    /// The file of this name is read here.
    Include(Text),
}

/// What comes after a line.
#[derive(Drop)]
pub struct Onward {
    pub settings: Settings,
    pub given: LineResult,
}
