//! Whether a function of a program reads something undefined along a path of items: `first_undefined` finds the first item that does
//! on some path, the place that it reads and a path to it, or says that there is none. Its contract is exact on single paths of items
//! (`Leads` and `defined_after` of st_model), though the work goes by sets of 64 places and is near linear in the items.
//!
//! - `graph`: bits that travel along the edges of a graph; `order`: in which order its nodes are looked at.
//! - `search`: a path for one bit.
//! - `places`: what an item gives, takes and reads, as words; `tables`: the same for all items of a function.
//! - `flow`: the first item that reads a place which some path leaves undefined; `path`: that path.
#![tactic(auto)]

ghost use Rattle.std.specs.Prelude.{◌≡◌, ◌≤◌, ℕ, IfOk, IfSome, IfNone};
ghost use Rattle.st_model.specs.Accepted.{IsFormed};
ghost use Rattle.st_model.specs.Flow.{UndefinedRead};
ghost use Rattle.st_flow.specs.Undefined.{ReadsPlace, LeavesUndefined, PassesOnce};

pub mod flow;
pub mod graph;
pub mod order;
pub mod path;
pub mod places;
pub mod search;
pub mod tables;

use crate::flow::first;
use crate::path::joined_path;
use crate::tables::map_of;
use st_base::lists::Listed;
use st_model::program::{Program, ProgramFunction};
use std::alloc::{AllocError, Global};

/// A read of something undefined.
#[derive(Drop)]
pub struct BadRead {
    /// The place of the item in its function.
    pub item: usize,
    /// What it reads: a register by its number, or the byte b of the frame as 32 + b.
    pub place: usize,
    /// The places of the items of a path that leaves it undefined, the prologue's first and the reading item's last.
    pub path: Listed<usize>,
}

/// The first item of a function, by its place, that reads something undefined on some path from the prologue; `None` where there is
/// none.
pub fn first_undefined(
    alloc: Global,
    program: &Program,
    function: &ProgramFunction,
) -> Result<Option<BadRead>, AllocError>
    requires { IsFormed program.now function.now }
    ensures reads { IfOk result (λ r. IfSome r (λ bad. ReadsPlace program.now function.now bad.item bad.place)) }
    ensures undefined { IfOk result (λ r. IfSome r (λ bad. LeavesUndefined function.now bad.place bad.item bad.path)) }
    ensures shape { IfOk result (λ r. IfSome r (λ bad. PassesOnce function.now bad.place bad.path)) }
    ensures first { IfOk result (λ r. IfSome r (λ bad. (read : UndefinedRead program.now function.now) → bad.item ≤ read.at)) }
    ensures none { IfOk result (λ r. IfNone r (UndefinedRead program.now function.now → ⊥)) }
{
    let map = map_of(alloc, function)?;
    let Some(hit) = first(alloc, program, function, &map)? else {
        return Ok(None);
    };
    let mut path = joined_path(alloc, function, &map, hit.item, hit.place)?;
    path.reverse();
    Ok(Some(BadRead {
        item: hit.item,
        place: hit.place,
        path: Listed::from_vec(path),
    }))
}
