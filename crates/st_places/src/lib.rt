//! The places of threads, which st_seats defines, are kept by each step of a worker.
//!
//! `laws` has that; `specs/Steps.antt` has what a step is told of for it.
#![tactic(auto)]

pub mod laws;
