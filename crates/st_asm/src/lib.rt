//! Assembly text, whole: the unit that the texts of all files make, or their first fault.
//!
//! `read_unit` is the grammar of units (`specs/Assembly.antt`): labels over all files, the sections and functions of their
//! lines, the faults E1 to E8 by line and least kind. A `Unit` keeps what every unit has (`specs/Unit.antt`).
#![tactic(auto)]

mod assembly;
mod entries;
mod error;
mod labels;
mod lines;
mod places;
mod reader;
mod statements;
mod unit;
mod whole;

pub use entries::{entry_at, is_entry, is_local};
pub use error::AsmError;
pub use reader::read_unit;
pub use st_line::{AsmFault, AsmKind, SourceIns, Target, Token, tokens};
pub use unit::{Function, SourceLine};
pub use whole::Unit;
