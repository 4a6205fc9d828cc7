//! A law about the lines of a capture, for callers.

ghost use Rattle.snort_engine.specs.Lines.{PrefixLaw};

/// The lines of a capture's first records, whose flows haven't ended, begin those of more of its records, whether
/// their flows have ended or not.
pub fn first_lines_stay()
    ensures { PrefixLaw }
{}
