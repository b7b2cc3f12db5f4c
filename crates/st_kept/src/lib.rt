//! What steps of the board leave of a worker's threads, of a worker that fits its board's view: laws without code.
#![tactic(auto)]

pub mod laws;
