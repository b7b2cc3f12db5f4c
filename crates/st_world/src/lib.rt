//! Worlds: all that workers share and what each of them holds, as functions of numbers.
//!
//! `specs/World.antt` has the definition; `laws` says that a board over vectors answers and leaves what its world does.
#![tactic(auto)]

pub mod laws;
