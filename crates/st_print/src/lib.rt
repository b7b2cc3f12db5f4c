//! What is printed: the canonical text of a unit, which reads back as the unit, and the texts of faults.
#![tactic(auto)]

mod canonical;
mod fault;
mod instructions;
mod labels;
pub mod laws;
mod output;
mod pieces;
mod spots;
mod telling;

pub use canonical::unit_text;
pub use fault::Fault;
pub use output::{put_all, put_pieces};
pub use telling::write_fault;
