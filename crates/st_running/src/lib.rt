//! What the items of a worker's top thread do on its machine.
//!
//! `laws` has the law; `specs/Running.antt` has what it says of an item.
#![tactic(auto)]

pub mod laws;
