//! That the conditions of the lease rule are needed: what is wrong in one of them is refuted.
//!
//! - `laws` has the refutations of groups that no heap is behind; `specs/Refutations.antt` says of each which step or view is wrong.
//! - `unbacked` has those of groups over the heap-frame machine, and of the chains in slots; `specs/Unbacked.antt` says which step or world no
//!   heap is behind.
#![tactic(auto)]

pub mod laws;
pub mod unbacked;
