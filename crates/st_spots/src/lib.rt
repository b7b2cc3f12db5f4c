//! Where the number of each thread that doesn't run is, over functions: in a waiter list, in a hand, ready, or nowhere.
//!
//! `laws` has what follows for each view; `specs/Listing.antt` has the definition, and `proofs` how a change of one word, hand or list keeps it, which st_lists takes for the steps.
#![tactic(auto)]

pub mod laws;
