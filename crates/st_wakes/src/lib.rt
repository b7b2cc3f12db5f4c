//! A worker with waiters in hand, which fits its board's view: it may make each step of its phases, and fits the view after it.
#![tactic(auto)]

mod laws;

pub use laws::waiters_fit;
