//! What a worker does by itself between two steps of a board, and the item that goes with a step, as items of the heap-frame machine.
//!
//! - `Made` (`specs/Moves.antt`): a view is brought forward by single moves.
//! - `Event` (`specs/Events.antt`): the item that a step makes, or none.
//! - `AreIn` and `HasSeen` (`specs/Runs.antt`): the heap of the machine has the threads of a view, and what the view has seen.
//! - `laws`: what is made is a run of the machine, and so is the item that goes with a step; what no move changes; which item goes with which step.
//!
//! An empty body has nothing that an edit could turn wrong, so there are no must-fail edits here.
#![tactic(auto)]

pub mod laws;
