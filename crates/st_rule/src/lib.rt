//! The lease rule of all workers, once, whatever a board is made of.
//!
//! `laws` has what is kept and what follows; `specs/Rule.antt` has the rule, over worlds with a heap of the heap-frame machine behind.
#![tactic(auto)]

pub mod laws;
