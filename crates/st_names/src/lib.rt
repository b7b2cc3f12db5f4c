//! The names of cells, and what the words of a cell show of the heap-frame machine behind a board.
//!
//! `laws` has what follows; `specs/Naming.antt` has the definition, over worlds with a heap behind, and `proofs` the lemmas of it, which st_named takes for the steps.
#![tactic(auto)]

pub mod laws;
