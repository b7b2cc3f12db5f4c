//! Threads on one worker and chains of frames: a thread that is taken out leaves its frames where they lie, and goes on from there.
//!
//! A thread stands in memory as its activations with their frames, wherever these lie, over the words that one worker or one chain holds
//! (`FromNewest` in `specs/Walk`). What is older than an activation is a `Context` of st_items: the activations below it (`Below`), and behind
//! the first one the threads below one another (`Lower` in `specs/Threads`) or nothing (`AtEnd`). A chain stands for the thread that goes with
//! it by `Walks` (`specs/Chains`): that is what boards and workers mean by it.
//!
//! - `logical` has the threads on one worker, and the restart of a chain.
//! - `walk` has an instruction of a pure copy, by which a walk goes from a frame to the older one.
//! - `laws` says what is read of threads in memory, and what stays of that where one is cut from what lies below it or a chain goes on.
//!
//! Laws over contexts and namings of any kind are lemmas: `below_same`, `newest_same` and `lower_same` (`proofs/Frames`), `sees_outside`
//! (`Outside`), `newest_cut` (`Cutting`), `copy_begins` and `copy_leads` (`Copying`), `stands_same` (`Restarting`).
#![tactic(auto)]

pub mod forks;
pub mod laws;
pub mod logical;
pub mod walk;
