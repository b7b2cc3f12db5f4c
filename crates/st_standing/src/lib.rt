//! The threads of a worker on its machine.
//!
//! `specs/Standing.antt` says when the top thread stands on the machine at an item, when it has just been forked, when it is at an entry of the runtime, or
//! at the one that ends it, with the threads below it, and where their frames lie. `laws` has what is read for that.
#![tactic(auto)]

pub mod laws;
