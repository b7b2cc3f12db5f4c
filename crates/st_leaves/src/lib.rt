//! A thread that leaves its worker, which fits its board's view: it may make each step of these phases, and fits the view after it. Laws without code.
#![tactic(auto)]

pub mod laws;
