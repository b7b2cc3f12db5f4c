//! A worker as a state machine: each turn of it goes through one phase, and makes one step of the board, or none. Read `Automaton::turn`.
#![tactic(auto)]

mod answering;
mod automaton;
mod calling;
mod coming;
mod ending;
mod entries;
mod idle;
mod leaving;
mod opening;
mod phase;
mod polling;
mod running;
mod turn;
mod turning;
mod waking;

pub use automaton::Automaton;
pub use phase::{Behind, Leaving, Phase, Rest, Settling};
pub use turn::{Point, Turn};
