//! A function's items as a graph, and for a group of 64 places what each item does to them and where they begin to be undefined.
ghost use Rattle.std.specs.Prelude.{◌≡◌, ◌<◌, ◌-◌, ◌^◌, ◌⊎◌, ◌↔◌, ℕ, Some, length, IfOk, slice_get};
ghost use Rattle.std.specs.Int.{bit_at};
ghost use Rattle.st_model.specs.declared.program.Item.{Item};
ghost use Rattle.st_model.specs.Flow.{IsNext, IsNextOfPlain};
ghost use Rattle.st_flow.specs.declared.graph.Node.{Node};
ghost use Rattle.st_flow.specs.Graph.{InRange, HasBit, IsWalked, IsSeed};
ghost use Rattle.st_flow.specs.Tables.{IsGraphOf, Stays, IsTable, AreStarts, IsMap};

use crate::graph::{Node, merge, spread};
use crate::order::ranks_of;
use crate::places::{Change, absent, changed};
use crate::search::has_bit;
use st_model::program::{ItemKind, ProgramFunction};
use st_rv::ins::OpKind;
use std::alloc::{AllocError, Global};

/// The graph of a function: its successors, a rank for each item, and at bit 0 whether some path reaches it.
#[derive(Drop)]
pub struct Map {
    pub nodes: Vec<Node>,
    pub ranks: Vec<usize>,
    pub reach: Vec<u64>,
}

/// What the item at a place is.
pub fn kind_at(function: &ProgramFunction, i: usize) -> ItemKind
    requires { i < length function.now.items }
    ensures { (item : Item) × (slice_get function.now.items i ≡ Some item) × (result ≡ item.kind) }
{
    function.items.as_slice()[i].kind
}

/// Whether control goes on to the next item after an instruction of this kind.
fn node_after(kind: OpKind, i: usize) -> Node
    requires { i < 2 ^ 64 - 1 }
    ensures { (j : ℕ) → ((result.next ≡ Some j) ⊎ (result.to ≡ Some j)) ↔ IsNextOfPlain kind i j }
{
    match kind {
        OpKind::Break => Node {
            next: None,
            to: None,
        },
        _ => Node {
            next: Some(i + 1),
            to: None,
        },
    }
}

/// Where control goes from the item at i.
fn node_of(kind: ItemKind, i: usize) -> Node
    requires { i < 2 ^ 64 - 1 }
    ensures { (j : ℕ) → ((result.next ≡ Some j) ⊎ (result.to ≡ Some j)) ↔ IsNext kind i j }
{
    match kind {
        ItemKind::Epilogue => Node {
            next: None,
            to: None,
        },
        ItemKind::Plain(ins) => node_after(ins.op.kind(), i),
        ItemKind::Branch {
            op: _,
            rs1: _,
            rs2: _,
            to,
        } => Node {
            next: Some(i + 1),
            to: Some(to as usize),
        },
        ItemKind::Jump { to } => Node {
            next: None,
            to: Some(to as usize),
        },
        _ => Node {
            next: Some(i + 1),
            to: None,
        },
    }
}

/// The successors of a function's items.
fn nodes_of(alloc: Global, function: &ProgramFunction) -> Result<Vec<Node>, AllocError>
    ensures graph { IfOk result (λ nodes. IsGraphOf function.now nodes.items) }
    ensures long { IfOk result (λ nodes. length nodes.items ≡ length function.now.items) }
{
    let mut nodes = Vec::new(alloc);
    for i in 0..function.items.len() {
        nodes.push(node_of(kind_at(function, i), i))?;
    }
    Ok(nodes)
}

/// What each item does to the 64 places of a group.
pub fn table(
    alloc: Global,
    function: &ProgramFunction,
    change: Change,
    g: usize,
) -> Result<Vec<u64>, AllocError>
    requires { g < 2 ^ 32 }
    ensures long { IfOk result (λ words. length words.items ≡ length function.now.items) }
    ensures bits { IfOk result (λ words. IsTable change function.now g words.items) }
{
    let mut words = Vec::new(alloc);
    for i in 0..function.items.len() {
        let kind = kind_at(function, i);
        words.push(changed(change, function.frame_bytes as usize, kind, g))?;
    }
    Ok(words)
}

/// Bit 0 at node 0 alone.
pub fn first_alone(alloc: Global, n: usize) -> Result<Vec<u64>, AllocError>
    requires { 0 < n }
    ensures long { IfOk result (λ words. length words.items ≡ n) }
    ensures bits { IfOk result (λ words. (i : ℕ) → HasBit words.items i 0 ↔ (i ≡ 0)) }
{
    let mut words = vec![in alloc; 0u64; n]?;
    words[0] = 1;
    Ok(words)
}

/// Bit 0 at each node.
pub fn everywhere(alloc: Global, n: usize) -> Result<Vec<u64>, AllocError>
    ensures long { IfOk result (λ words. length words.items ≡ n) }
    ensures bits { IfOk result (λ words. (i : ℕ) → i < n → HasBit words.items i 0) }
{
    vec![in alloc; 1u64; n]
}

/// Which nodes some path reaches from node 0: the bit 0.
fn reached(alloc: Global, nodes: &[Node], ranks: &[usize]) -> Result<Vec<u64>, AllocError>
    requires some { 0 < length nodes.now }
    requires ranks { length ranks.now ≡ length nodes.now }
    requires edges { InRange nodes.now }
    ensures long { IfOk result (λ reach. length reach.items ≡ length nodes.now) }
    ensures bits { IfOk result (λ reach. (i : ℕ) → HasBit reach.items i 0 ↔ IsWalked nodes.now i) }
{
    let seeds = first_alone(alloc, nodes.len())?;
    let keeps = everywhere(alloc, nodes.len())?;
    spread(alloc, nodes, ranks, &seeds, &keeps)
}

/// The graph of a function.
pub fn map_of(alloc: Global, function: &ProgramFunction) -> Result<Map, AllocError>
    requires some { 0 < length function.now.items }
    requires stays { Stays function.now }
    ensures { IfOk result (λ map. IsMap function.now map.nodes.items map.ranks.items map.reach.items) }
{
    let nodes = nodes_of(alloc, function)?;
    let ranks = ranks_of(alloc, &nodes)?;
    let reach = reached(alloc, &nodes, &ranks)?;
    Ok(Map {
        nodes,
        ranks,
        reach,
    })
}

/// What a node that is reached puts out.
fn put_at(reach: &[u64], puts: &[u64], j: usize) -> u64
    requires reach { j < length reach.now }
    requires puts { j < length puts.now }
    ensures { (k : ℕ) → (bit_at result k ≡ 1) ↔ (HasBit reach.now j 0 × HasBit puts.now j k) }
{
    if has_bit(reach[j], 0) { puts[j] } else { 0 }
}

/// Where bits begin: some at the first node, others after a node that is reached and puts them out.
fn seeds_of(
    alloc: Global,
    nodes: &[Node],
    reach: &[u64],
    puts: &[u64],
    first: u64,
) -> Result<Vec<u64>, AllocError>
    requires some { 0 < length nodes.now }
    requires reach { length reach.now ≡ length nodes.now }
    requires puts { length puts.now ≡ length nodes.now }
    requires edges { InRange nodes.now }
    ensures long { IfOk result (λ seeds. length seeds.items ≡ length nodes.now) }
    ensures bits { IfOk result (λ seeds. (i k : ℕ) → HasBit seeds.items i k ↔ IsSeed nodes.now reach.now puts.now first i k) }
{
    let mut seeds = vec![in alloc; 0u64; nodes.len()]?;
    seeds[0] = first;
    for j in 0..nodes.len() {
        let carry = put_at(reach, puts, j);
        let node = nodes[j];
        merge(&mut seeds, node.next, carry);
        merge(&mut seeds, node.to, carry);
    }
    Ok(seeds)
}

/// Where the 64 places of a group begin to be undefined: at entry, or after an item that is reached and takes their definition away.
pub fn starts(
    alloc: Global,
    function: &ProgramFunction,
    map: &Map,
    puts: &[u64],
    g: usize,
) -> Result<Vec<u64>, AllocError>
    requires group { g < 2 ^ 32 }
    requires map { IsMap function.now map.now.nodes.items map.now.ranks.items map.now.reach.items }
    requires long { length puts.now ≡ length function.now.items }
    requires puts { IsTable Change.TakenAway function.now g puts.now }
    ensures long { IfOk result (λ seeds. length seeds.items ≡ length function.now.items) }
    ensures bits { IfOk result (λ seeds. AreStarts function.now g seeds.items) }
{
    seeds_of(alloc, &map.nodes, &map.reach, puts, absent(function, g))
}
