//! How a thread leaves a worker's machine as a chain, and how a chain's thread comes to it.
//!
//! `laws` has the laws; `specs/Moving.antt` has what they say.
#![tactic(auto)]

pub mod laws;
