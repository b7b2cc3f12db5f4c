//! The Out words show what the root has printed in the heap-frame machine behind a board.
//!
//! `laws` has what is kept; `specs/Showing.antt` has the definition, over worlds with a heap behind.
#![tactic(auto)]

pub mod laws;
