//! Who holds each thread of the heap-frame machine behind a board.
//!
//! `laws` has what is kept; `specs/Behind.antt` has the heap after each step and move, `specs/Holding.antt` who holds each thread.
#![tactic(auto)]

pub mod laws;
