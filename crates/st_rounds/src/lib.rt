//! What the phases of a worker without a thread have to show, and those of a chain that comes to run: laws without code.
#![tactic(auto)]

mod laws;

pub use laws::{chains_come, chains_taken, rounds_keep};
