//! What a program means: the ordinary-call run, in which every fork runs at once as a call.
#![tactic(auto)]

pub mod code;
pub mod effect;
pub mod laws;
pub mod memory;
pub mod ordinary;
pub mod output;
pub mod plain;
pub mod program;
