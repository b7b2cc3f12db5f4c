//! Where each thread is: gone, named for a child, in the slot of its cell, in mail, in a turn, or on a stack.
//!
//! `laws` has what follows, and that a worker keeps it between steps; `specs/Placing.antt` has the definition, over worlds with their lists.
#![tactic(auto)]

pub mod laws;
