//! What all phases of a worker stand on, which fits its board's view: laws without code.
#![tactic(auto)]

mod laws;

pub use laws::{late_keeps, settled_view, turns_tick, unread_stays};
