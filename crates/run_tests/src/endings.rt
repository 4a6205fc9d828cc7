//! Runs that end for want of memory, which no row of data can bring about; and that types cross threads.

ghost use Rattle.std.specs.Prelude.{◌≡◌, ◌<◌};

use edge_io::crossing::{sendable, shareable};
use edge_io::{Failed, Host, LiteralMaker, LoadFault, MemHost, MemSink, NoMemory, OpenGate};
use snort_engine::{Status, run};
use std::alloc::Global;
use std::test::Fail;
use std::thread::Threads;

/// A host that has no memory for what it loads.
#[derive(Drop)]
struct Poor<H> {
    host: H,
}

impl<H: Host> Host for Poor<H> {
    ghost contents = { λ poor. H.contents poor.host };

    ghost left = { λ poor. H.left poor.host };

    ghost agrees = { λ poor. H.agrees poor.host };

    ghost left_of = { λ poor. H.left_of poor.host };

    ghost faults = { λ poor. H.faults poor.host };

    ghost opens = { λ poor. H.opens poor.host };

    ghost as_told = { λ poor. H.as_told poor.host };

    fn load(&mut self, _name: &str, _limit: usize, _out: &mut Vec<u8>) -> Result<(), LoadFault> {
        Err(LoadFault::NoMemory)
    }

    fn open(&mut self, name: &str) -> Result<(), Failed> {
        self.host.open(name)
    }

    fn read(&mut self, buf: &mut [u8]) -> Result<usize, Failed> {
        self.host.read(buf)
    }
}

/// The words of a command.
fn words_of(alloc: Global, command: &str) -> Result<Vec<String>, NoMemory> {
    let mut words = Vec::new(alloc);
    for word in command.split(' ') {
        words.push(String::from_str(alloc, word)?)?;
    }
    Ok(words)
}

/// The status of a command over a host that has no memory, and what it writes to the errors.
fn poor_run<R: Threads + Sync>(
    rt: &R,
    alloc: Global,
    command: &str,
) -> Result<(Status, MemSink), Fail> {
    let words = words_of(alloc, command)?;
    let mut host = Poor {
        host: MemHost::new(alloc),
    };
    let mut maker = LiteralMaker::new(alloc);
    let mut alerts = MemSink::new(alloc, 100, 100)?;
    let mut errors = MemSink::new(alloc, 100, 100)?;
    let status = run(
        rt,
        alloc,
        words.as_slice(),
        &mut host,
        &mut maker,
        &mut alerts,
        &mut errors,
        &OpenGate,
    );
    Ok((status, errors))
}

#[test]
fn want_of_memory_has_its_message(rt: HostRuntime) -> Result<(), Fail> {
    let (status, errors) = poor_run(&rt, rt.alloc(), "snort -c r -r p")?;
    assert!(rt; status == Status::NoMemory && errors.bytes() == b"ERROR: no memory\n".as_slice());
    Ok(())
}

#[test]
fn types_cross_threads() {
    sendable::<Status>();
    shareable::<Status>();
}
