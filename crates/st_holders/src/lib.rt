//! Who holds each word of the stacks, and which frames are leased, over functions.
//!
//! `laws` has what follows for held words and leased frames; `specs/Leasing.antt` has the definition, and `proofs` each change that keeps it, which st_leases takes for the steps.
#![tactic(auto)]

pub mod laws;
