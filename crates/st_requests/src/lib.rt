//! Requests and mail: how far the request of each worker is, kept by every step of a board.
//!
//! `laws` has what is kept and what follows; `specs/Mailing.antt` has the definition, over worlds.
#![tactic(auto)]

pub mod laws;
