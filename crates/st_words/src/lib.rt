//! The board: words and slots that workers share, by single atomic steps.
//!
//! - `board::Board` is the contract of a board, over one view for each worker; `view::View` is what a view keeps.
//! - `calls` has steps as calls of their own, for those who are generic over their board.
//! - `run` has what a program means to a board, and that each step of a right worker may be made.
//! - `laws` has what is known of the view after a step, for those who name it.
//! - `words::Words` has the words and slots as a plain value, and what each step does to them.
//! - `zeroed::ZeroedWords` has words that are 0 until they are stored, whose memory is touched late: those of the output.
//! - `plain::PlainBoard` is the board over vectors, which serves all workers, one step at a time.
#![tactic(auto)]

pub mod board;
pub mod calls;
pub mod kept;
pub mod laws;
pub mod plain;
pub mod run;
#[cfg(test)]
mod tests;
pub mod view;
pub mod words;
pub mod zeroed;
