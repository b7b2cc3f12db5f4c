//! What the items of laid out code do to a machine that stands for a thread, once for both layouts: unchanged and postprocessed.
//!
//! A machine with its stack words (`Situation` of st_step) stands at an item of an activation (`IsAtLine` in `specs/Body`): registers and
//! slots are what the thread has, by a naming, and what is older than the activation stands beyond its frame, whatever that is (`Context`).
//! From there the item leads on (`Leads` in `specs/Ways`), through words at which no item begins, to where the machine stands for what the
//! thread is behind the item. The laws are lemmas, since they hold for all contexts:
//!
//! - `line_goes`: instructions, slots, `li`, branches and jumps;
//! - `enters` and `prologue_stops`: prologues;
//! - `leaves`: epilogues, as written and augmented; `leaves_split`: those that mark their frame, split at the mark; `returns`: back in the caller;
//! - `call_enters`: calls of functions; `entry_leads` and `entry_back`: those of the runtime;
//! - `fork_back`, `fork_enters`, `forked_ends` and `parent_goes_on`: forks, and the end of a child;
//! - `copies` and `copy_stands`: pure copies.
//!
//! Those that name no context stand as the contracts of `laws`. Where things are: the words of items in `proofs/Words`, `Addresses` and
//! `Jumps`, frames in `FrameWords`, slots in `SlotBytes`, `SlotPlaces` and `Slots`.
//!
//! `code` has what a run keeps of an image: its instructions, decoded once, and the handle registers of its forks.
#![tactic(auto)]

pub mod code;
pub mod laws;
