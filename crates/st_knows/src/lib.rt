//! What views have seen of the words of cells is so still.
//!
//! `laws` has what is kept; `specs/Knowing.antt` has the definition, over worlds.
#![tactic(auto)]

pub mod laws;
