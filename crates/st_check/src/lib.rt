//! Acceptance of units: the faults F1 to F12, exact, and the program of an accepted unit.
#![tactic(auto)]

mod accept;
mod body;
mod epilogue;
mod error;
mod fault;
mod faults;
mod instruction;
mod least;
mod names;
mod program;
mod prologue;
mod reads;
mod registers;
mod shape;
mod slots;
mod unit;

pub use accept::{Checked, check};
pub use error::FormError;
pub use fault::FormFault;
pub use program::program_of;
pub use unit::first_form_fault;
