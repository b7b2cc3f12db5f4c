//! No item of a worker's top thread stores a 0 where a frame has its return word.
//!
//! `specs/Sparing.antt` says it, and `laws` has the law.
#![tactic(auto)]

pub mod laws;
