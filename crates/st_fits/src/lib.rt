//! A worker that fits its board's view: what is so of a worker between two turns, beside what its board tells of it.
#![tactic(auto)]
