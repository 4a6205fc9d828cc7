//! The detector as one call: `run` reads the words of a command, the configuration, the rules, the host
//! table and the capture that they name, and writes a line for each rule that alerts.
//!
//! Its contract is the detector's theorem, from bytes to bytes (`specs/Headline`): where the host tells
//! its files, the alert bytes, the error bytes and the status are those of the answer (`specs/Answer`),
//! which tries every rule on each packet and each stretch of a stream of the whole capture, on one list
//! of jobs, and keeps the events that the configuration says; after a fault or want of memory the alert
//! bytes are a stated beginning, and the message is a stated one (`specs/Ending`); one batch of records at
//! most is read ahead of the lines (`specs/ReadAhead`). What is to be done is the course of the words and
//! files (`specs/Course`); a capture's records (`specs/Records`), what is shown of them (`specs/Trace`), its
//! lines (`specs/Lines`) and what is counted (`specs/Counts`) are a definition each. How many lanes do the
//! work is no part of any of them. The layers below are used by their public contracts and the laws about
//! these alone: the words, the setup, the reader, the front that makes jobs of records, the lanes, the
//! filters of events, the lines, the host and the sinks. The program rests on this crate.
#![tactic(auto)]

mod batch;
mod capture;
mod context;
mod counts;
mod course_laws;
mod detect;
mod detector;
mod laws;
mod listing;
mod made;
mod plan;
mod prepare;
mod reader;
mod report;
mod run_laws;
mod show;
mod sources;
mod split_laws;
mod status;
mod stop;

pub use course_laws::words_have_a_course;
pub use detector::run;
pub use laws::first_lines_stay;
pub use run_laws::{limits_cut_captures, written_records_read_back};
pub use split_laws::parts_show_their_own;
pub use status::Status;
