//! The first item of a function that reads something undefined.
ghost use Rattle.std.specs.Prelude.{◌≡◌, ◌<◌, ◌≤◌, ◌+◌, ◌*◌, ◌^◌, ℕ, Some, true, false, length, IfOk, IfSome, IfNone, slice_get};
ghost use Rattle.std.specs.Int.{bit_at};
ghost use Rattle.st_model.specs.declared.program.Item.{Item};
ghost use Rattle.st_model.specs.Accepted.{IsFormed};
ghost use Rattle.st_flow.specs.Undefined.{ReadsPlace};
ghost use Rattle.st_flow.specs.Tables.{IsMap, AreUndefined, IsBad, callee_argument};

use crate::graph::spread;
use crate::places::{Change, reads};
use crate::tables::{Map, kind_at, starts, table};
use st_model::program::{ItemKind, Program, ProgramFunction};
use std::alloc::{AllocError, Global};

/// An item that reads a place which some path leaves undefined.
#[derive(Clone, Copy)]
pub struct Hit {
    pub item: usize,
    pub place: usize,
}

/// Which of the 64 places of a group some path leaves undefined, before each item.
fn undefined_in(
    alloc: Global,
    function: &ProgramFunction,
    map: &Map,
    g: usize,
) -> Result<Vec<u64>, AllocError>
    requires group { g < 2 ^ 32 }
    requires map { IsMap function.now map.now.nodes.items map.now.ranks.items map.now.reach.items }
    ensures long { IfOk result (λ sets. length sets.items ≡ length function.now.items) }
    ensures exact { IfOk result (λ sets. AreUndefined function.now g sets.items) }
{
    let keeps = table(alloc, function, Change::Spared, g)?;
    let puts = table(alloc, function, Change::TakenAway, g)?;
    let seeds = starts(alloc, function, map, &puts, g)?;
    spread(alloc, &map.nodes, &map.ranks, &seeds, &keeps)
}

/// The place of the lowest bit that two words of a group share.
fn shared(set: u64, read: u64, g: usize) -> Option<usize>
    requires { g < 2 ^ 32 }
    ensures there { IfSome result (λ x. (b : ℕ) × (b < 64) × (x ≡ 64 * g + b) × (bit_at set b ≡ 1) × (bit_at read b ≡ 1)) }
    ensures none { IfNone result ((b : ℕ) → bit_at set b ≡ 1 → bit_at read b ≡ 1 → ⊥) }
{
    let both = set & read;
    if both == 0 {
        return None;
    }
    Some(64 * g + both.trailing_zeros() as usize)
}

/// The first item before `limit` that reads a place of a group where the sets have it as undefined.
fn first_among(
    program: &Program,
    function: &ProgramFunction,
    sets: &[u64],
    g: usize,
    limit: usize,
) -> Option<Hit>
    requires group { g < 2 ^ 32 }
    requires long { length sets.now ≡ length function.now.items }
    requires limit { limit ≤ length function.now.items }
    requires exact { AreUndefined function.now g sets.now }
    ensures bad { IfSome result (λ hit. (hit.item < limit) × (hit.place < 2 ^ 38) × IsBad program.now function.now hit.item hit.place) }
    ensures first { IfSome result (λ hit. (i b : ℕ) → b < 64 → i < hit.item → IsBad program.now function.now i (64 * g + b) → ⊥) }
    ensures none { IfNone result ((i b : ℕ) → b < 64 → i < limit → IsBad program.now function.now i (64 * g + b) → ⊥) }
{
    for i in 0..limit {
        let kind = kind_at(function, i);
        let read = reads(program, function.frame_bytes as usize, kind, g);
        if let Some(place) = shared(sets[i], read, g) {
            return Some(Hit { item: i, place });
        }
    }
    None
}

/// Whether an item before `limit` reads a place of a group.
fn are_read(program: &Program, function: &ProgramFunction, g: usize, limit: usize) -> bool
    requires group { g < 2 ^ 32 }
    requires limit { limit ≤ length function.now.items }
    ensures { result ≡ false → (i b : ℕ) → b < 64 → i < limit → ReadsPlace program.now function.now i (64 * g + b) → ⊥ }
{
    for i in 0..limit {
        let kind = kind_at(function, i);
        if reads(program, function.frame_bytes as usize, kind, g) != 0 {
            return true;
        }
    }
    false
}

/// The first item before `limit` that reads a place of a group which some path leaves undefined.
fn first_in(
    alloc: Global,
    program: &Program,
    function: &ProgramFunction,
    map: &Map,
    g: usize,
    limit: usize,
) -> Result<Option<Hit>, AllocError>
    requires group { g < 2 ^ 32 }
    requires map { IsMap function.now map.now.nodes.items map.now.ranks.items map.now.reach.items }
    requires limit { limit ≤ length function.now.items }
    ensures bad { IfOk result (λ r. IfSome r (λ hit. (hit.item < limit) × (hit.place < 2 ^ 38) × IsBad program.now function.now hit.item hit.place)) }
    ensures first { IfOk result (λ r. IfSome r (λ hit. (i b : ℕ) → b < 64 → i < hit.item → IsBad program.now function.now i (64 * g + b) → ⊥)) }
    ensures none { IfOk result (λ r. IfNone r ((i b : ℕ) → b < 64 → i < limit → IsBad program.now function.now i (64 * g + b) → ⊥)) }
{
    if !are_read(program, function, g, limit) {
        return Ok(None);
    }
    let sets = undefined_in(alloc, function, map, g)?;
    Ok(first_among(program, function, &sets, g, limit))
}

/// Where the arguments end that an item reads for the function that it calls.
fn arguments_end(program: &Program, kind: ItemKind) -> usize
    ensures within { (x : ℕ) → callee_argument program.now kind x ≡ true → x < result }
    ensures most { result < 2 ^ 33 }
{
    let (ItemKind::Call { function } | ItemKind::Fork { function, .. }) = kind else {
        return 0;
    };
    match program.functions.as_slice().get(function as usize) {
        None => 0,
        Some(callee) => (10 + callee.ints as usize).max(16 + callee.handles as usize),
    }
}

/// Where the places end that a function's items read.
fn places_end(program: &Program, function: &ProgramFunction) -> usize
    ensures frame { 32 + function.now.frame_bytes ≤ result }
    ensures arguments { (i x : ℕ) (item : Item) → slice_get function.now.items i ≡ Some item → callee_argument program.now item.kind x ≡ true → x < result }
    ensures most { result < 2 ^ 33 }
{
    let mut end = 32 + function.frame_bytes as usize;
    for i in 0..function.items.len() {
        end = end.max(arguments_end(program, kind_at(function, i)));
    }
    end
}

/// The first item that reads a place which some path leaves undefined.
pub fn first(
    alloc: Global,
    program: &Program,
    function: &ProgramFunction,
    map: &Map,
) -> Result<Option<Hit>, AllocError>
    requires formed { IsFormed program.now function.now }
    requires map { IsMap function.now map.now.nodes.items map.now.ranks.items map.now.reach.items }
    ensures bad { IfOk result (λ r. IfSome r (λ hit. (hit.place < 2 ^ 38) × IsBad program.now function.now hit.item hit.place)) }
    ensures first { IfOk result (λ r. IfSome r (λ hit. (i x : ℕ) → i < hit.item → IsBad program.now function.now i x → ⊥)) }
    ensures none { IfOk result (λ r. IfNone r ((i x : ℕ) → IsBad program.now function.now i x → ⊥)) }
{
    let groups = (places_end(program, function) + 63) / 64;
    let mut best = None;
    let mut limit = function.items.len();
    for g in 0..groups {
        if let Some(hit) = first_in(alloc, program, function, map, g, limit)? {
            best = Some(hit);
            limit = hit.item;
        }
    }
    Ok(best)
}
