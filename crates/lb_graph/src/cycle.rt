// The first node on a cycle.
ghost use Rattle.std.specs.Prelude.{ℕ, ◌≡◌, ◌<◌, [], ◌∷◌, length, IfOk, IfSome, IfNone, OnOk};
ghost use Rattle.lb_graph.specs.Paths.{IsOnCycle, NoneBelowOnCycle, IsAcyclic};
ghost use Rattle.lb_graph.specs.InternalSearch.{IsMarked, MarksReached, IsOrderOf, Finds};

use crate::graph::Graph;
use std::alloc::{AllocError, Global};

/// The least node from which a path of one or more edges leads back to it, `None` where there is no such node.
/// The error comes only for want of memory.
pub fn first_on_cycle(alloc: Global, graph: &Graph) -> Result<Option<usize>, AllocError>
    ensures found { IfOk result (λ first. IfSome first (λ v. IsOnCycle graph.now.calls v)) }
    ensures least { IfOk result (λ first. IfSome first (NoneBelowOnCycle graph.now.calls)) }
    ensures none { IfOk result (λ first. IfNone first (IsAcyclic graph.now.calls)) }
{
    for v in 0..graph.calls.len() {
        let marks = reached_from(alloc, graph, v)?;
        if marks[v] {
            return Ok(Some(v));
        }
    }
    Ok(None)
}

// A mark at each node that a path of one or more edges leads to from `start`.
fn reached_from(alloc: Global, graph: &Graph, start: usize) -> Result<Vec<bool>, AllocError>
    requires { start < length graph.now.calls }
    ensures length { IfOk result (λ marks. length marks.items ≡ length graph.now.calls) }
    ensures marks { IfOk result (λ marks. MarksReached graph.now.calls start marks.items) }
{
    let calls = graph.calls.as_slice();
    let mut found = Found::new(alloc, calls.len())?;
    found.add(calls[start].as_slice())?;
    let mut at = 0;
    while at < found.order.len() {
        let node = usize::from(found.order[at]);
        found.add(calls[node].as_slice())?;
        at += 1;
    }
    let Found { marks, order: _ } = found;
    Ok(marks)
}

// The nodes that a search has found: a mark at each, and the order in which it found them.
#[derive(Drop)]
struct Found {
    marks: Vec<bool>,
    order: Vec<u16>,
}

impl Found {
    fn new(alloc: Global, nodes: usize) -> Result<Found, AllocError>
        ensures length { IfOk result (λ f. length f.marks.items ≡ nodes) }
        ensures marks { IfOk result (λ f. (v : ℕ) → ¬ (IsMarked f.marks.items v)) }
        ensures is_order { IfOk result (λ f. IsOrderOf f.marks.items f.order.items) }
    {
        Ok(Found {
            marks: vec![in alloc; false; nodes]?,
            order: Vec::new(alloc),
        })
    }

    // Finds these nodes.
    fn add(&mut self, calls: &[u16]) -> Result<(), AllocError>
        requires { IsOrderOf self.old.marks.items self.old.order.items }
        ensures { OnOk result (Finds calls.now self.old self.new) }
    {
        for node in calls {
            self.add_one(*node)?;
        }
        Ok(())
    }

    // Finds this node, if it is one and isn't found yet.
    fn add_one(&mut self, node: u16) -> Result<(), AllocError>
        requires { IsOrderOf self.old.marks.items self.old.order.items }
        ensures { OnOk result (Finds (node ∷ []) self.old self.new) }
    {
        let at = usize::from(node);
        if at < self.marks.len() && !self.marks[at] {
            self.marks[at] = true;
            self.order.push(node)?;
        }
        Ok(())
    }
}
