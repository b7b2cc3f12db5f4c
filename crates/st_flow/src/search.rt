//! A path along which one bit comes to a node: a search by levels, and the way back from the node.
ghost use Rattle.std.specs.Prelude.{◌≡◌, ◌<◌, ◌↔◌, ◌⊎◌, ℕ, Some, length, IfOk, IfSome, IfNone, IsTrue, slice_get};
ghost use Rattle.std.specs.Int.{bit_at};
ghost use Rattle.st_flow.specs.declared.graph.Node.{Node};
ghost use Rattle.st_flow.specs.declared.search.Found.{Found};
ghost use Rattle.st_flow.specs.Graph.{InRange, IsEdge, HasBit, Reaches};
ghost use Rattle.st_flow.specs.Search.{Visits, IsSearched, IsFound, LinksBack, IsTrace, IsTrail};

use crate::graph::Node;
use std::alloc::{AllocError, Global};

/// A node that was found, and the place of the one from which it was.
#[derive(Clone, Copy)]
pub struct Found {
    pub node: usize,
    pub from: Option<usize>,
}

/// Whether a word has a bit.
#[tactic(auto, using(std::proofs::lemmas::Nat::Bits::shr_and_one))]
pub fn has_bit(word: u64, k: u32) -> bool
    requires { k < 64 }
    ensures { IsTrue result ↔ (bit_at word k ≡ 1) }
{
    (word >> k) & 1 == 1
}

/// Marks a node as found, if it wasn't yet.
fn visit(
    found: &mut Vec<Found>,
    seen: &mut Vec<bool>,
    from: Option<usize>,
    to: Option<usize>,
) -> Result<(), AllocError>
    requires { IfSome to (λ i. i < length seen.old.items) }
    ensures { IfOk result (λ _. Visits from to found.old.items found.new.items seen.old.items seen.new.items) }
{
    if let Some(i) = to {
        if !seen[i] {
            seen[i] = true;
            found.push(Found { node: i, from })?;
        }
    }
    Ok(())
}

/// The node itself where the seeds have the bit there.
fn seed_at(seeds: &[u64], k: u32, i: usize) -> Option<usize>
    requires at { i < length seeds.now }
    requires bit { k < 64 }
    ensures { (j : ℕ) → (result ≡ Some j) ↔ ((j ≡ i) × HasBit seeds.now i k) }
{
    if has_bit(seeds[i], k) { Some(i) } else { None }
}

/// The edges of a node along which it passes the bit on.
fn kept_edges(nodes: &[Node], keeps: &[u64], k: u32, j: usize) -> Node
    requires at { j < length nodes.now }
    requires keeps { length keeps.now ≡ length nodes.now }
    requires bit { k < 64 }
    ensures { (i : ℕ) → ((result.next ≡ Some i) ⊎ (result.to ≡ Some i)) ↔ (IsEdge nodes.now j i × HasBit keeps.now j k) }
{
    if has_bit(keeps[j], k) {
        nodes[j]
    } else {
        Node {
            next: None,
            to: None,
        }
    }
}

/// All nodes to which the bit comes, in the order in which a search by levels finds them.
fn search(
    alloc: Global,
    nodes: &[Node],
    seeds: &[u64],
    keeps: &[u64],
    k: u32,
) -> Result<Vec<Found>, AllocError>
    requires seeds { length seeds.now ≡ length nodes.now }
    requires keeps { length keeps.now ≡ length nodes.now }
    requires edges { InRange nodes.now }
    requires bit { k < 64 }
    ensures { IfOk result (λ found. IsSearched nodes.now seeds.now keeps.now k found.items) }
{
    let mut found = Vec::new(alloc);
    let mut seen = vec![in alloc; false; nodes.len()]?;
    for i in 0..nodes.len() {
        visit(&mut found, &mut seen, None, seed_at(seeds, k, i))?;
    }
    let mut head = 0;
    while head < found.len() {
        let edges = kept_edges(nodes, keeps, k, found[head].node);
        visit(&mut found, &mut seen, Some(head), edges.next)?;
        visit(&mut found, &mut seen, Some(head), edges.to)?;
        head += 1;
    }
    Ok(found)
}

/// The place of a node among those found.
fn place_of(found: &[Found], node: usize) -> Option<usize>
    ensures there { IfSome result (λ q. (f : Found) × (slice_get found.now q ≡ Some f) × (f.node ≡ node)) }
    ensures none { IfNone result (IsFound found.now node → ⊥) }
{
    for (q, f) in found.iter().enumerate() {
        if f.node == node {
            return Some(q);
        }
    }
    None
}

/// The nodes from the one at a place back to a seed.
fn trace(alloc: Global, found: &[Found], place: usize) -> Result<Vec<usize>, AllocError>
    requires links { LinksBack found.now }
    requires place { place < length found.now }
    ensures { IfOk result (λ path. IsTrace found.now (Some place) path.items) }
{
    let mut path = Vec::new(alloc);
    let mut at = place;
    loop {
        let f = found[at];
        path.push(f.node)?;
        match f.from {
            None => return Ok(path),
            Some(from) => at = from,
        }
    }
}

/// A path along which the bit k comes to the target, the target first; none where it doesn't come.
pub fn trail(
    alloc: Global,
    nodes: &[Node],
    seeds: &[u64],
    keeps: &[u64],
    k: u32,
    target: usize,
) -> Result<Option<Vec<usize>>, AllocError>
    requires seeds { length seeds.now ≡ length nodes.now }
    requires keeps { length keeps.now ≡ length nodes.now }
    requires edges { InRange nodes.now }
    requires bit { k < 64 }
    ensures path { IfOk result (λ r. IfSome r (λ path. IsTrail nodes.now seeds.now keeps.now k target path.items)) }
    ensures none { IfOk result (λ r. IfNone r (Reaches nodes.now seeds.now keeps.now k target → ⊥)) }
{
    let found = search(alloc, nodes, seeds, keeps, k)?;
    match place_of(&found, target) {
        None => Ok(None),
        Some(place) => Ok(Some(trace(alloc, &found, place)?)),
    }
}
