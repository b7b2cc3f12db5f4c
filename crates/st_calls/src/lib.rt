//! What the phases have to show of a worker whose top thread has called an entry of the runtime, or ends: laws without code.
#![tactic(auto)]

pub mod laws;
