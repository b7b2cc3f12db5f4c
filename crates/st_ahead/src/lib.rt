//! What a worker's view comes to by what the worker does by itself, as functions of the view.
//!
//! `specs/Ahead.antt` has the private items of the top thread, one behind the other, and `specs/Naming.antt` the other moves; `laws` has that
//! each is made by the worker itself, and that the items are just those that lead there.
#![tactic(auto)]

pub mod laws;
