//! Shared types: registers, names, places in files, paths and event keys, register files, activations and threads, the
//! program as it is run, limits, answers and failures. `key_cmp` is exactly the order of event keys.
//!
//! `outside` has the traits of the world outside; their forms are `outside_memory`, with calls that are to fail,
//! `outside_sure`, without such calls, and `outside_real`.
#![tactic(auto)]

pub mod answer;
pub mod chain;
pub mod entry;
pub mod failure;
mod fault_count;
pub mod form;
pub mod image;
pub mod key;
pub mod limits;
pub mod line;
pub mod lists;
pub mod map;
pub mod name;
pub mod outside;
pub mod outside_memory;
pub mod outside_real;
pub mod outside_sure;
pub mod path;
pub mod reg;
pub mod registers;
pub mod slots;
pub mod thread;
