//! The postprocessor: lays out the code of an accepted unit. Epilogues are augmented, so that a frame is freed only where its worker
//! may, each function gets a pure copy of its epilogue, and a fork is three jumps.
//!
//! `postprocess` gives the postprocessed code with what the runtime knows of it; `lay_out` gives the code in either layout: word by word
//! and row by row what the definition of the layout says of the unit's program (`IsCode`).
#![tactic(auto)]

mod frames;
mod instructions;
mod items;
mod layout;
mod li;
mod posted;
mod processing;
mod rows;
mod saved;
mod sizes;
mod words;

pub use layout::{Code, lay_out};
pub use posted::{Posted, PostedFunction};
pub use processing::postprocess;
pub use st_model::code::{Layout, PostedIns, PostedWord};
