//! Boards for a program.
//!
//! - `run` has the trait, whose laws hold for any program, input and limits, and what a caller that is generic over such a board owes and has.
//! - `plain` has the board over vectors, which is one, and opens it for a program.
//!
//! What a program means to a board is `meaning` (`specs/Meanings.antt`), and when a board over vectors is for it `PlainIsFor` (`specs/OfPlain.antt`).
//! What a board tells of a worker's threads is `Behind` (`specs/Behind.antt`); of a board over vectors it is proved in `specs/PlainBehind.antt`.
//! What a worker finds where it looks at an exported frame is `Looks` (`specs/Looking.antt`).
#![tactic(auto)]

pub mod plain;
pub mod run;
