//! The words of a command line, read into a job. `read_words` is the public call: its contract says that the job is exactly
//! what `job_of` in `specs/Commands.antt` gives for the words, and that `Usage` comes exactly where that gives none.
//!
//! `words` tests the form of the words, `options` has `clap` read those that pass, `numbers` and `schedule` test the values
//! that it found, and `arguments` makes them into what a command is given.
#![tactic(auto)]

mod arguments;
mod job;
mod numbers;
mod options;
mod read;
mod schedule;
mod words;

pub use job::{GenArgs, Job, Names, RunArgs, SimArgs, WordsError};
pub use read::read_words;
