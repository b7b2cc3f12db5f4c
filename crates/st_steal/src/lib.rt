//! Requests, mail and ready threads: how a worker without a thread asks another for one, with one step of the board a call, and without memory.
//!
//! A request stands at a worker (`ask`) until it is withdrawn (`withdraw`) or answered. The worker that finds it (`asked`) begins its answer
//! (`begin_answer`), from when on it can't be withdrawn, puts a chain into the asker's mail if it has one to give (`put_mail`), tells the answer
//! (`tell_mail`) and ends the request (`clear`). The asker says that it waits (`set_mail`), reads its mail (`mail`) and takes the chain
//! (`take_mail`). The numbers of threads that a worker has made ready wait in a `ReadyList`, first in, first out.
//!
//! - `requests` has the calls: each names the step that it makes, and says how its result is read from the step's answer.
//! - `calls` has each with what the view after it is named by.
//! - `ready` has the list of ready numbers.
//! - `laws` says what no step of any worker does: a chain in mail has one place, and only one of an answer and a withdrawal succeeds.
#![tactic(auto)]

pub mod calls;
pub mod found;
pub mod laws;
pub mod ready;
pub mod requests;
#[cfg(test)]
mod tests;
