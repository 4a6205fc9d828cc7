//! The program `snort`: the real files, streams and words around the proved call `run`.
//!
//! It makes the host over real files, the sinks over standard output and standard error, a maker of
//! regular expressions, and ends with the code of the status. What the words, the configuration and the capture
//! mean, and what is written, is the contract of `run_on_system` (snort_system).
#![tactic(auto)]

use edge_io::{FileHost, HeardHost, HeardSink, StdSink, write_all};
use regex_maker::RegexMaker;
use snort_engine::Status;
use snort_system::run_on_system;
use std::process::ExitCode;
use std::rt::Env;
use std::{env, io};

/// The words of the command. There are none where one of them isn't text: no command has such a word.
fn words(rt: &(impl Env + AllocGlobal)) -> io::Result<Vec<String>> {
    match env::args(rt) {
        Ok(args) => Ok(args.collect(rt.alloc())?),
        Err(error) if error.kind() == io::ErrorKind::InvalidData => Ok(Vec::new(rt.alloc())),
        Err(error) => Err(error),
    }
}

fn main(rt: HostRuntime) -> ExitCode {
    let alloc = rt.alloc();
    let mut alerts = HeardSink::over(StdSink::output(rt.stdout()));
    let mut errors = HeardSink::over(StdSink::errors(rt.stderr()));
    let (Ok(words), Ok(host)) = (words(&rt), FileHost::new(alloc, &rt)) else {
        // Memory is lacking before the run. A fault of the error stream changes nothing.
        match write_all(&mut errors, b"ERROR: no memory\n") {
            Ok(()) | Err(_) => {}
        }
        return ExitCode::from(Status::NoMemory.code());
    };
    let status = run_on_system(
        &rt,
        alloc,
        &words,
        &mut HeardHost::over(host),
        &mut RegexMaker::new(alloc),
        &mut alerts,
        &mut errors,
    );
    ExitCode::from(status.code())
}
