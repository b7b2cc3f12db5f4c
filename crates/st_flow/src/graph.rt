//! A graph of nodes with at most two edges each, and the bits that come to its nodes along paths.
ghost use Rattle.std.specs.Prelude.{◌≡◌, ◌<◌, ℕ, length, IfOk, IfSome};
ghost use Rattle.st_flow.specs.Graph.{InRange, IsSpread, IsMerged, IsAdded, IsBegun};

use std::alloc::{AllocError, Global};
use std::collections::BTreeSet;

/// The edges of a node, each to the node of that number.
#[derive(Clone, Copy)]
pub struct Node {
    pub next: Option<usize>,
    pub to: Option<usize>,
}

/// Adds bits at a node, and gives the node where it had not all of them.
pub fn merge(sets: &mut Vec<u64>, to: Option<usize>, carry: u64) -> Option<usize>
    requires { IfSome to (λ i. i < length sets.old.items) }
    ensures { IsMerged to carry sets.old.items sets.new.items result }
{
    let i = to?;
    let before = sets[i];
    let after = before | carry;
    sets[i] = after;
    if after == before { None } else { Some(i) }
}

/// Adds bits at a node, which then waits if it had not all of them.
fn add(
    sets: &mut Vec<u64>,
    waiting: &mut BTreeSet<(usize, usize)>,
    ranks: &[usize],
    to: Option<usize>,
    carry: u64,
) -> Result<(), AllocError>
    requires target { IfSome to (λ i. i < length sets.old.items) }
    requires ranks { length ranks.now ≡ length sets.old.items }
    ensures { IfOk result (λ _. IsAdded ranks.now to carry sets.old.items sets.new.items waiting.old.keys waiting.new.keys) }
{
    if let Some(i) = merge(sets, to, carry) {
        waiting.insert((ranks[i], i))?;
    }
    Ok(())
}

/// The nodes that have a seed, each under its rank.
fn seeded(
    alloc: Global,
    ranks: &[usize],
    seeds: &[u64],
) -> Result<BTreeSet<(usize, usize)>, AllocError>
    requires { length ranks.now ≡ length seeds.now }
    ensures { IfOk result (λ waiting. IsBegun ranks.now seeds.now (length seeds.now) waiting.keys) }
{
    let mut waiting = BTreeSet::new(alloc);
    for i in 0..seeds.len() {
        if seeds[i] != 0 {
            waiting.insert((ranks[i], i))?;
        }
    }
    Ok(waiting)
}

/// The bits that come to each node. The waiting node of the least rank is looked at first, and a node waits again only after it got
/// a bit that it had not: so ranks decide how long the work takes, and not what it gives.
pub fn spread(
    alloc: Global,
    nodes: &[Node],
    ranks: &[usize],
    seeds: &[u64],
    keeps: &[u64],
) -> Result<Vec<u64>, AllocError>
    requires ranks { length ranks.now ≡ length nodes.now }
    requires seeds { length seeds.now ≡ length nodes.now }
    requires keeps { length keeps.now ≡ length nodes.now }
    requires edges { InRange nodes.now }
    ensures { IfOk result (λ sets. IsSpread nodes.now seeds.now keeps.now sets.items) }
{
    let mut sets = Vec::from_slice(alloc, seeds)?;
    let mut waiting = seeded(alloc, ranks, seeds)?;
    while let Some((_, j)) = waiting.pop_first() {
        let node = nodes[j];
        let carry = sets[j] & keeps[j];
        add(&mut sets, &mut waiting, ranks, node.next, carry)?;
        add(&mut sets, &mut waiting, ranks, node.to, carry)?;
    }
    Ok(sets)
}
