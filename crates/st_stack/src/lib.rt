//! The exported frames of a worker's stack, and shrinking: how far sp may rise again.
//!
//! A frame is exported when its thread is taken off its worker: it stays where it lies, and no code of the worker runs in it. Such frames
//! hold sp down. A frame whose return word has become 0 was left for ever, and is taken back.
//!
//! - `stack::PhysStack` keeps the exported frames of one stack; `export`, `is_exported` and `limit` are those of its list, and `is_on` tells whether a
//!   frame lies on it.
//! - `stack::PhysStack::shrink_step` takes one frame back, or tells where sp may lie, with at most one step of the board.
//! - `calls` has `shrink_step` with what the view after it is named by.
//!
//! What they keep of the law of frames on one stack is `FrameLaw` in `specs/`. Nothing after `open` takes memory.
#![tactic(auto)]

pub mod calls;
#[cfg(test)]
mod full;
mod list;
pub mod stack;
#[cfg(test)]
mod tests;
