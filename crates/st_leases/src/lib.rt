//! Who holds each word of the stacks, and which frames are leased: the part of the rule of all workers that no step breaks.
//!
//! `laws` has what is kept and what follows; st_holders' `specs/Leasing.antt` has the definition, over worlds.
#![tactic(auto)]

pub mod laws;
