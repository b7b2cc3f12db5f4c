//! The active count: the sum of the workers' shares and of the chains in slots that count, kept by every step of a board.
//!
//! `laws` has what is kept and what follows; `specs/Counting.antt` has the definition, over worlds.
#![tactic(auto)]

pub mod laws;
