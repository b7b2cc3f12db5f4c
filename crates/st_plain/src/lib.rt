//! Runs the unchanged code of an accepted program on one stack: the bounded ordinary-call run, computed by the instruction machine.
#![tactic(auto)]

mod cells;
mod entries;
mod reserved;
mod run;
mod stop;
mod threads;
mod whole;

pub use cells::{Cell, Note};
pub use run::PlainRun;
pub use stop::Ending;
pub use whole::{PlainEnd, plain};
