//! The instruction machine: runs one instruction of an image at a time, for one worker of a board.
//!
//! `Machine::step` is one instruction by the manual's results (`specs/Moves`), or half of a store of less than eight bytes. Loads and
//! stores through s0, sp and tp are steps of the board; other loads see exactly the read-only data and the input. Nothing here takes memory.
//!
//! A step takes the instruction at the pc from the image (`stepping`), finds what it is to the machine (`decoded`), chooses what it does
//! as an `Act` (`choose`, which only looks at the machine), and carries that out on the machine in place and on the board (`carry`). Who
//! has decoded an instruction before may have it carried out alone. A caller that is generic over its board has both as calls of their
//! own (`calls`). What stretches of laid out code do, as prologues and epilogues, stands in `laws`.
//!
//! Contracts see a machine as its `State`. They say of the board that a step may be asked (`Asked` of st_words), and that one was made
//! with its answer (`StepMade`); where none is made the board is as it was.
#![tactic(auto)]

mod access;
mod act;
mod bytes;
pub mod calls;
mod carry;
mod choose;
mod decoded;
pub mod laws;
mod machine;
mod state;
mod stepping;

pub use decoded::{Decoded, Role};
pub use machine::{Machine, StepEnd};
pub use state::State;

#[cfg(test)]
mod tests;
