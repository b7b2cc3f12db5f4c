//! What the runtime makes of a worker's top thread at the entries that it calls.
//!
//! `laws` has the laws; `specs/Serving.antt` has what they say of each entry.
#![tactic(auto)]

pub mod laws;
