//! Instructions of RV64I and M as data: their table, their words both ways, and their results.
//!
//! - `rows::ROWS` is the one table: each operation's form, and the mask and bits by which its words are known.
//!   `check_rows` is true exactly where no two rows at different places give a common word, and so it is for `ROWS`.
//! - `code::encode` gives a word exactly where it is a word of the instruction by the table, and `code::decode` gives
//!   an instruction exactly where the word is its word; so each undoes the other, by their clauses `some` and `only`.
//!   `encode` is `None` exactly where the immediate is out of its row's range or a field that the row doesn't use
//!   isn't 0, and `decode` exactly where no row gives the word.
//! - `results::alu` is the manual's whole-number formula modulo 2^64, of each operation that computes;
//!   `results::is_taken` says whether a branch goes to its target, and `access_size` and `extended` are what loads and
//!   stores access.
//!
//! Nothing here takes memory. `decode` goes over the rows of the table; who runs an instruction many times had better
//! keep it decoded.
#![tactic(auto)]

pub mod code;
mod decoding;
mod encoding;
pub mod ins;
pub mod results;
pub mod rows;
