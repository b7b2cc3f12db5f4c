//! Drawn numbers: each is drawn once, and names one cell.
//!
//! `laws` has what is kept; `specs/Drawing.antt` has the definition, over worlds.
#![tactic(auto)]

pub mod laws;
