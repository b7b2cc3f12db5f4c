//! What goes with a chain that a worker puts into a slot.
//!
//! `specs/Cargo.antt` has it as a function of the worker's view; `laws` has that the chain may be put with it.
#![tactic(auto)]

pub mod laws;
