//! A path to an item that reads something undefined: since the place was taken last, and before.
ghost use Rattle.std.specs.Prelude.{◌≡◌, ◌<◌, ◌/◌, ◌^◌, ◌⊎◌, ◌↔◌, ◌∷◌, ℕ, Some, List, length, IfOk, IfSome, IfNone, IsTrue};
ghost use Rattle.st_flow.specs.declared.graph.Node.{Node};
ghost use Rattle.st_flow.specs.Graph.{HasBit};
ghost use Rattle.st_flow.specs.Tables.{IsMap, IsTable, IsUndefined};
ghost use Rattle.st_flow.specs.Joined.{origin, IsLate, IsWalk, PutsTo, IsJoined};

use crate::graph::Node;
use crate::places::Change;
use crate::search::{has_bit, trail};
use crate::tables::{Map, everywhere, first_alone, starts, table};
use st_model::program::ProgramFunction;
use std::alloc::{AllocError, Global};

/// The first item of a path that has its newest first.
fn origin(path: &[usize]) -> usize
    requires { 0 < length path.now }
    ensures { (at : ℕ) (back : List ℕ) → path.now ≡ at ∷ back → result ≡ origin at back }
{
    path[path.len() - 1]
}

/// A path to an item from where the place begins to be undefined, the item first.
fn late_path(
    alloc: Global,
    function: &ProgramFunction,
    map: &Map,
    puts: &[u64],
    item: usize,
    place: usize,
) -> Result<Vec<usize>, AllocError>
    requires map { IsMap function.now map.now.nodes.items map.now.ranks.items map.now.reach.items }
    requires long { length puts.now ≡ length function.now.items }
    requires puts { IsTable Change.TakenAway function.now (place / 64) puts.now }
    requires place { place < 2 ^ 38 }
    requires undefined { IsUndefined function.now place item }
    ensures { IfOk result (λ path. IsLate function.now place item path.items) }
{
    let g = place / 64;
    let keeps = table(alloc, function, Change::Spared, g)?;
    let seeds = starts(alloc, function, map, puts, g)?;
    match trail(alloc, &map.nodes, &seeds, &keeps, (place % 64) as u32, item)? {
        Some(path) => Ok(path),
        None => unreachable!(),
    }
}

/// Whether the node has an edge to the target.
fn leads_to(node: Node, target: usize) -> bool
    ensures { IsTrue result ↔ ((node.next ≡ Some target) ⊎ (node.to ≡ Some target)) }
{
    node.next == Some(target) || node.to == Some(target)
}

/// Whether the node at j is reached, has an edge to the target and puts the bit out.
fn puts_to(map: &Map, puts: &[u64], k: u32, target: usize, j: usize) -> bool
    requires bit { k < 64 }
    requires at { j < length map.now.nodes.items }
    requires reach { length map.now.reach.items ≡ length map.now.nodes.items }
    requires puts { length puts.now ≡ length map.now.nodes.items }
    ensures { IsTrue result ↔ PutsTo map.now.nodes.items map.now.reach.items puts.now k target j }
{
    has_bit(map.reach[j], 0) && leads_to(map.nodes[j], target) && has_bit(puts[j], k)
}

/// A node that is reached, has an edge to the target and puts the bit out.
fn taker(map: &Map, puts: &[u64], k: u32, target: usize) -> Option<usize>
    requires bit { k < 64 }
    requires reach { length map.now.reach.items ≡ length map.now.nodes.items }
    requires puts { length puts.now ≡ length map.now.nodes.items }
    ensures some { IfSome result (λ j. PutsTo map.now.nodes.items map.now.reach.items puts.now k target j) }
    ensures none { IfNone result ((j : ℕ) → j < length map.now.nodes.items → PutsTo map.now.nodes.items map.now.reach.items puts.now k target j → ⊥) }
{
    for j in 0..map.nodes.len() {
        if puts_to(map, puts, k, target, j) {
            return Some(j);
        }
    }
    None
}

/// A path to an item from the prologue, the item first.
fn early_path(
    alloc: Global,
    function: &ProgramFunction,
    map: &Map,
    j: usize,
) -> Result<Vec<usize>, AllocError>
    requires map { IsMap function.now map.now.nodes.items map.now.ranks.items map.now.reach.items }
    requires reached { HasBit map.now.reach.items j 0 }
    ensures { IfOk result (λ path. IsWalk map.now.nodes.items j path.items) }
{
    let seeds = first_alone(alloc, map.nodes.len())?;
    let keeps = everywhere(alloc, map.nodes.len())?;
    match trail(alloc, &map.nodes, &seeds, &keeps, 0, j)? {
        Some(path) => Ok(path),
        None => unreachable!(),
    }
}

/// A path to an item that reads the place, which the path leaves undefined; the item first.
pub fn joined_path(
    alloc: Global,
    function: &ProgramFunction,
    map: &Map,
    item: usize,
    place: usize,
) -> Result<Vec<usize>, AllocError>
    requires map { IsMap function.now map.now.nodes.items map.now.ranks.items map.now.reach.items }
    requires place { place < 2 ^ 38 }
    requires undefined { IsUndefined function.now place item }
    ensures { IfOk result (λ path. IsJoined function.now place item path.items) }
{
    let puts = table(alloc, function, Change::TakenAway, place / 64)?;
    let mut path = late_path(alloc, function, map, &puts, item, place)?;
    let Some(j) = taker(map, &puts, (place % 64) as u32, origin(&path)) else {
        return Ok(path);
    };
    let early = early_path(alloc, function, map, j)?;
    path.extend_from_slice(&early)?;
    Ok(path)
}
