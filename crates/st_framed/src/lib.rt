//! Where the frames of a worker's threads lie.
//!
//! `specs/Framed.antt` says it, and `laws` what it means and what keeps it.
#![tactic(auto)]

pub mod laws;
