//! Each step and each move of a worker keeps the names of cells, and what the words of a cell show of the heap-frame machine behind a board.
//!
//! `laws` has what is kept; the definition is in st_names.
#![tactic(auto)]

pub mod laws;
