//! Laws of the heap-frame machine, for every program: each is the contract of a public function with an empty body.
//!
//! - `steps`: the order in which threads step does not matter. All runs from one start that come to a quiet heap come to the same one, with
//!   one answer and one list of counted bytes; any two runs from one start can be led together.
//! - `changes`: what one item changes, in one record, and what a fork makes of the heap; so the bytes and cells of a reached heap are counted.
//! - `stays`: what a run leaves as it is. A value that was seen stays and a count does not fall, so what was seen enables an item.
//! - `agreement`: each step of the ordinary-call run is a step of the newest thread, and each thread of each heap that a run reaches agrees
//!   with the ordinary-call run.
//! - `quiet`: where the ordinary-call run never waits at a join, the answer and the counted bytes of a quiet heap are its end; where it is
//!   Done, each of its threads has ended with its value, and there are no others.
//! - `begun`: what workers have begun between them is what some run makes, so a limit that this passes is passed by a run; and no run begins
//!   more, or makes more frames or cells, than one to a quiet heap, as the ordinary-call run that is Done is.
//! - `names`: a touch of the ordinary-call run finds its value, and the names that threads hold are of threads and counters that are there.
//! - `defined`: in the runs of an accepted program no thread reads what is undefined.
//!
//! An empty body has nothing that an edit could turn wrong, so there are no must-fail edits here.
#![tactic(auto)]

pub mod agreement;
pub mod begun;
pub mod changes;
pub mod defined;
pub mod names;
pub mod quiet;
pub mod stays;
pub mod steps;
