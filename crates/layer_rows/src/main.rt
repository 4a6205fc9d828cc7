//! The calls of the layers below a run, and whole runs, as rows of data: each row has what calls or a run are given, and
//! what they must give.
//!
//! The files of rows are named by the program's words, those of whole runs after `--runs`; the README.md of this crate
//! has their notation. A call or a run that gives something else is named, with what it gives, and the last lines say how
//! many gave what they must. The program's own rows lie in its data folder, in files that are named as the crates, and
//! in the folder runs, and anybody can add one.
#![tactic(auto)]

mod addresses;
mod batches;
mod bytes;
mod calls;
mod candidates;
mod captures;
mod commands;
mod configurations;
mod counted;
mod course;
mod crossing;
mod dialogues;
mod events;
mod fields;
mod flags;
mod flows;
mod hosts;
mod items;
mod lists;
mod notation;
mod outside;
mod packets;
mod page;
mod payloads;
mod row;
mod rules;
mod runs;
mod sessions;
mod setups;
mod shown;
mod trial;

use crate::runs::run_rows;
use crate::trial::try_rows;
use row_files::{PassCount, RowWords, words_of};
use std::process::ExitCode;
use std::rt::Files;
use std::thread::Threads;
use std::{fs, io};

/// The word after which files have rows of whole runs.
const RUNS: &str = "--runs";

/// How many calls and how many whole runs gave what they must.
#[derive(Clone, Copy)]
struct PassCounts {
    calls: PassCount,
    runs: PassCount,
}

impl PassCounts {
    /// The status of the program: 1 where a call or a run differed, else 0.
    fn status(&self) -> ExitCode {
        if self.calls.differed > 0 {
            self.calls.status()
        } else {
            self.runs.status()
        }
    }
}

/// Tries the rows of a file: of calls, or of whole runs.
fn try_file<R: Files + AllocGlobal + Print + Threads + Sync>(
    rt: &R,
    name: &str,
    only: &str,
    are_runs: bool,
    counts: &mut PassCounts,
) -> io::Result<()> {
    let text = fs::read_to_string(rt, name)?;
    if are_runs {
        run_rows(rt, rt.alloc(), &text, only, &mut counts.runs)
    } else {
        try_rows(rt, rt.alloc(), &text, only, &mut counts.calls)
    }
}

/// Tries the rows of all files.
fn try_files<R: Files + AllocGlobal + Print + Threads + Sync>(
    rt: &R,
    words: &RowWords,
    counts: &mut PassCounts,
) -> io::Result<()> {
    let mut are_runs = false;
    for name in &words.files {
        if name.as_str() == RUNS {
            are_runs = true;
        } else {
            try_file(rt, name.as_str(), words.only.as_str(), are_runs, counts)?;
        }
    }
    Ok(())
}

/// Says how many calls and runs gave what they must.
fn tell<R: Print>(rt: &R, counts: &PassCounts) -> io::Result<()> {
    let PassCounts { calls, runs } = counts;
    println!(rt;
        "{} calls passed, {} differed",
        calls.passed, calls.differed
    )?;
    println!(rt; "{} rows passed, {} differed", runs.passed, runs.differed)
}

fn main(rt: HostRuntime) -> io::Result<ExitCode> {
    crossing::types_cross_threads();
    let words = words_of(&rt)?;
    let mut counts = PassCounts {
        calls: PassCount::new(),
        runs: PassCount::new(),
    };
    try_files(&rt, &words, &mut counts)?;
    tell(&rt, &counts)?;
    Ok(counts.status())
}
