//! In which order nodes are best looked at: each before those to which its edges lead, where the graph has no circles. Nothing but the
//! time of the work depends on it, so what is proved of the ranks is that each node has one.
ghost use Rattle.std.specs.Prelude.{◌≡◌, ◌<◌, ◌≤◌, ◌+◌, ◌*◌, ℕ, length, IfOk, OnOk};
ghost use Rattle.st_flow.specs.declared.order.Visit.{Visit};
ghost use Rattle.st_flow.specs.Graph.{InRange};
ghost use Rattle.st_flow.specs.Search.{unseen};
ghost use Rattle.st_flow.specs.Order.{node_of, AreVisits, AreNodes, Notes};

use crate::graph::Node;
use std::alloc::{AllocError, Global};

/// What a search by depth has still to do at a node.
#[derive(Clone, Copy)]
pub enum Visit {
    Enter(usize),
    Leave(usize),
}

/// Notes that a node is to be entered.
fn note(stack: &mut Vec<Visit>, to: Option<usize>) -> Result<(), AllocError>
    ensures { OnOk result (Notes to stack.old.items stack.new.items) }
{
    if let Some(i) = to {
        stack.push(Visit::Enter(i))?;
    }
    Ok(())
}

/// Notes that a node is to be left after those to which its edges lead.
fn enter(nodes: &[Node], stack: &mut Vec<Visit>, j: usize) -> Result<(), AllocError>
    requires node { j < length nodes.now }
    requires edges { InRange nodes.now }
    requires stack { AreVisits (length nodes.now) stack.old.items }
    ensures stack { OnOk result (AreVisits (length nodes.now) stack.new.items) }
    ensures few { OnOk result (length stack.new.items ≤ length stack.old.items + 3) }
{
    let node = nodes[j];
    stack.push(Visit::Leave(j))?;
    note(stack, node.next)?;
    note(stack, node.to)?;
    Ok(())
}

/// One visit. A node is left after all that could be entered from it.
fn act(
    nodes: &[Node],
    visit: Visit,
    stack: &mut Vec<Visit>,
    seen: &mut Vec<bool>,
    left: &mut Vec<usize>,
) -> Result<(), AllocError>
    requires visit { node_of visit < length nodes.now }
    requires edges { InRange nodes.now }
    requires stack { AreVisits (length nodes.now) stack.old.items }
    requires seen { length seen.old.items ≡ length nodes.now }
    requires left { AreNodes (length nodes.now) left.old.items }
    ensures stack { OnOk result (AreVisits (length nodes.now) stack.new.items) }
    ensures seen { OnOk result (length seen.new.items ≡ length nodes.now) }
    ensures left { OnOk result (AreNodes (length nodes.now) left.new.items) }
    ensures less { OnOk result (3 * unseen seen.new.items + length stack.new.items ≤ 3 * unseen seen.old.items + length stack.old.items) }
{
    match visit {
        Visit::Leave(j) => {
            left.push(j)?;
            Ok(())
        }
        Visit::Enter(j) => {
            if seen[j] {
                return Ok(());
            }
            seen[j] = true;
            enter(nodes, stack, j)
        }
    }
}

/// The nodes to which paths lead from node 0, each after all that are first entered from it.
fn left_in_turn(alloc: Global, nodes: &[Node]) -> Result<Vec<usize>, AllocError>
    requires some { 0 < length nodes.now }
    requires edges { InRange nodes.now }
    ensures { IfOk result (λ left. AreNodes (length nodes.now) left.items) }
{
    let mut left = Vec::new(alloc);
    let mut seen = vec![in alloc; false; nodes.len()]?;
    let mut stack = Vec::new(alloc);
    stack.push(Visit::Enter(0))?;
    while let Some(visit) = stack.pop() {
        act(nodes, visit, &mut stack, &mut seen, &mut left)?;
    }
    Ok(left)
}

/// A rank for each node: those that are left last come first.
pub fn ranks_of(alloc: Global, nodes: &[Node]) -> Result<Vec<usize>, AllocError>
    requires some { 0 < length nodes.now }
    requires edges { InRange nodes.now }
    ensures { IfOk result (λ ranks. length ranks.items ≡ length nodes.now) }
{
    let left = left_in_turn(alloc, nodes)?;
    let mut ranks = vec![in alloc; 0usize; nodes.len()]?;
    for turn in 0..left.len() {
        ranks[left[turn]] = left.len() - turn;
    }
    Ok(ranks)
}
