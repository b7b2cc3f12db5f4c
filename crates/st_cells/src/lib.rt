//! Futures and counters: what is done with the words of a cell, with one step of the board a call, and without memory.
//!
//! A cell is drawn (`draw`), named (`set_owner`) as a thread's or a counter's, and read back by anyone (`owner`). A future is looked at
//! (`look`), waited for (`park`) and made full once (`set_value`, `fill`); a counter is counted up (`done`), read (`count`) and waited for
//! (`park_join`). Waiters are linked by their Next words (`set_next`, `next`).
//!
//! `calls` has each with what the view after it is named by.
//!
//! Each call names the step that it makes and says how its result is read from the step's answer. `laws` says what no step of any worker does.
#![tactic(auto)]

pub mod calls;
pub mod cells;
mod encodings;
pub mod found;
pub mod laws;
#[cfg(test)]
mod tests;
