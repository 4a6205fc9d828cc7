//! The words of a program that tries rows.
use std::rt::Env;
use std::{env, io};

/// Which rows are tried.
#[derive(Drop)]
pub struct RowWords {
    /// The names of the files of rows.
    pub files: Vec<String>,
    /// What a row that is tried must have in it; empty for all rows.
    pub only: String,
}

/// What the program's words say: the names of files, and after `--only` a text.
pub fn words_of(rt: &(impl Env + AllocGlobal)) -> io::Result<RowWords> {
    let alloc = rt.alloc();
    let mut files = Vec::new(alloc);
    let mut only = String::new(alloc);
    let mut is_only = false;
    for word in env::args(rt)?.skip(1) {
        if is_only {
            only = word;
            is_only = false;
        } else if word.as_str() == "--only" {
            is_only = true;
        } else {
            files.push(word)?;
        }
    }
    Ok(RowWords { files, only })
}
