//! What no clause says: that an interrupted call goes on.

ghost use Rattle.std.specs.Prelude.{◌≤◌, IfOk};

use edge_io::interrupted::{read_as_file, sink_over};
use edge_io::{Failed, Sink};
use row_files::{TextParts, cut};
use std::io;
use std::io::{ErrorKind, Read, Write};

/// A stream that is interrupted so often, and then gives or takes bytes as far as there is room,
/// or fails.
#[derive(Drop)]
struct Unsteady {
    interruptions: u32,
    room: usize,
    fails: bool,
}

impl Unsteady {
    fn take(&mut self, len: usize) -> io::Result<usize>
        ensures { IfOk result (λ count. count ≤ len) }
    {
        if 0 < self.interruptions {
            self.interruptions -= 1;
            return Err(io::Error::from(ErrorKind::Interrupted));
        }
        if self.fails {
            return Err(io::Error::from(ErrorKind::PermissionDenied));
        }
        let count = len.min(self.room);
        self.room -= count;
        Ok(count)
    }
}

impl Read for Unsteady {
    fn read(&mut self, buf: &mut [u8]) -> io::Result<usize> {
        let count = self.take(buf.len())?;
        buf[..count].fill(7);
        Ok(count)
    }
}

impl Write for Unsteady {
    fn write(&mut self, buf: &[u8]) -> io::Result<usize> {
        self.take(buf.len())
    }

    fn flush(&mut self) -> io::Result<()> {
        Ok(())
    }
}

/// How often a stream is interrupted, its room, whether it fails, and what reading and writing give.
/// The end of a file is no failure; a stream that takes nothing has failed.
const UNSTEADY: &str = "0 9 steady: 4 4
3 9 steady: 4 4
3 2 steady: 2 2
3 0 steady: 0 failed
3 9 failing: failed failed
";

/// The stream of these words.
fn stream_of(words: &str) -> Unsteady {
    let mut words = TextParts::of(words, ' ');
    Unsteady {
        interruptions: words.number(),
        room: words.number() as usize,
        fails: words.word() == "failing",
    }
}

/// What reading gives.
fn given(words: &str) -> Result<usize, Failed> {
    let mut file = stream_of(words);
    read_as_file(&mut file, &mut [0; 4])
}

/// What writing gives.
fn taken(words: &str) -> Result<usize, Failed> {
    let mut sink = sink_over(stream_of(words));
    sink.write(b"line")
}

/// Whether an answer is a count, or `failed`.
fn is_answer(answer: Result<usize, Failed>, want: &str) -> bool {
    let mut want = TextParts::of(want, ' ');
    match answer {
        Ok(count) => want.number() as usize == count && want.is_read(),
        Err(Failed) => want.word() == "failed",
    }
}

#[test]
fn an_interrupted_call_goes_on(rt: HostRuntime) {
    for row in UNSTEADY.lines() {
        let (words, want) = row.split_once(": ").unwrap_or((row, ""));
        let (read, written) = cut(want, ' ');
        assert!(rt; is_answer(given(words), read), "{row}");
        assert!(rt; is_answer(taken(words), written), "{row}");
    }
}
