//! Limits: what workers have begun, made and drawn is that of a run of the heap-frame machine, and a stop code means that a run passes that limit.
//!
//! `laws` has what is kept; `specs/Stopping.antt` has the definition, over worlds with a run behind.
#![tactic(auto)]

pub mod laws;
