//! The chains in slots walk to the threads that go with them.
//!
//! `laws` has what is kept; `specs/Walking.antt` has the definition, over worlds.
#![tactic(auto)]

pub mod laws;
