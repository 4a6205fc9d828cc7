//! For a test of calls that are interrupted: what real files and streams go through, over any reader and writer.

ghost use Rattle.std.specs.Prelude.{◌≡◌, ◌≤◌, length, IfOk};
ghost use Rattle.std.specs.Io.KnownBytes.{ReadConsumes};

use crate::fault::FaultCount;
use crate::file_host::read_once;
use crate::{Failed, StdSink};
use std::io::{Read, Write};

/// Reads once as from a real file, and again after an interruption.
pub fn read_as_file<F: Read>(file: &mut F, buf: &mut [u8]) -> Result<usize, Failed>
    ensures within { IfOk result (λ count. count ≤ length buf.old) }
    ensures taken { ReadConsumes (F.remaining file.old) (F.remaining file.new) result buf.new }
{
    read_once(file, buf, &mut FaultCount::new())
}

/// A sink of a stream, with no fault.
pub fn sink_over<W: Write>(stream: W) -> StdSink<W>
    ensures over { result ≡ record { stream = stream; faults = 0 } }
{
    StdSink::over(stream)
}
