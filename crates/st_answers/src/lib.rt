//! What the phases of a worker that polls and answers have to show: laws without code.
#![tactic(auto)]

mod laws;

pub use laws::answers_keep;
