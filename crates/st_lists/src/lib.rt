//! Where the number of each thread that doesn't run is: in a waiter list, in a hand, ready, or nowhere.
//!
//! `laws` has what is kept; st_spots' `specs/Listing.antt` has the definition, over worlds, and `specs/Going.antt` how numbers move by each kind of step.
#![tactic(auto)]

pub mod laws;
