//! The words of a command: the call of command_words.

use crate::page::Page;
use command_words::{AlertForm, Command, Words, WordsFault, read_words};

/// The letter of a flag that is there.
fn mark(is_there: bool, letter: &'static str) -> &'static str {
    if is_there { letter } else { "." }
}

/// The files, checks, limit and variable of a run.
fn show_given(page: &mut Page, words: &Words) {
    let capture = words.capture.unwrap_or("none");
    let host_table = words.host_table.unwrap_or("none");
    page.show(format_args!(
        "{} {} {:?} {:?} {:?} {}",
        words.conf, capture, words.checks, words.limit, words.defined, host_table
    ));
}

/// The numbers of a run.
fn show_numbers(page: &mut Page, words: &Words) {
    page.show(format_args!(
        " {} {} {:?} {} ",
        words.lanes, words.flush_point, words.generate, words.seed
    ));
}

/// The flags of a run.
fn show_flags(page: &mut Page, words: &Words) {
    page.put(mark(words.quiet, "q"));
    page.put(mark(words.test, "T"));
    page.put(mark(words.skip_refused, "r"));
    page.put(mark(words.stats, "s"));
    page.put(mark(words.form == AlertForm::Unified2, "u"));
}

/// Shows what a run is given.
fn show_run(page: &mut Page, words: &Words) {
    show_given(page, words);
    show_numbers(page, words);
    show_flags(page, words);
}

/// Shows what words ask for.
fn show_command(page: &mut Page, command: &Command) {
    match command {
        Command::Run(words) => show_run(page, words),
        Command::Help => page.put("help"),
        Command::Version => page.put("version"),
        Command::ReadUnified2(file) => page.show(format_args!("records of {file}")),
    }
}

/// `command WORDS`: what they ask for.
pub(crate) fn command(page: &mut Page, line: &str) {
    let words = page.words(line);
    match read_words(page.alloc, words.as_slice()) {
        Ok(command) => show_command(page, &command),
        Err(WordsFault::CommandLine) => page.put("refused"),
        Err(WordsFault::NoMemory) => page.lacks_memory = true,
    }
}
