// The greatest weight of a path.
ghost use Rattle.std.specs.Prelude.{ℕ, ◌≡◌, ◌+◌, ◌^◌, ◌<◌, ◌≤◌, length, slice_index, IfOk};
ghost use Rattle.lb_graph.specs.Paths.{IsAcyclic, IsGreatestWeight};
ghost use Rattle.lb_graph.specs.InternalBest.{IsGreatestAmong, IsGreatest, IsWholeStep, IsBest};

use crate::graph::Graph;
use std::alloc::{AllocError, Global};

/// The greatest sum of weights over a path of a graph without cycles, where `weights[i]` is the weight of node `i`.
/// It is 0 for a graph without nodes. The graph has at most 2^16 nodes, and a weight for each. The error comes only for want of memory.
pub fn greatest_weight(alloc: Global, graph: &Graph, weights: &[u32]) -> Result<u64, AllocError>
    requires few { length graph.now.calls ≤ 2 ^ 16 }
    requires weighed { length weights.now ≡ length graph.now.calls }
    requires acyclic { IsAcyclic graph.now.calls }
    ensures { IfOk result (λ n. IsGreatestWeight graph.now.calls weights.now n) }
{
    let best = best_from_each(alloc, graph, weights)?;
    Ok(greatest(best.as_slice()))
}

// For each node the greatest weight of a path from there. Each round looks one edge further.
fn best_from_each(alloc: Global, graph: &Graph, weights: &[u32]) -> Result<Vec<u64>, AllocError>
    requires few { length graph.now.calls ≤ 2 ^ 16 }
    requires weighed { length weights.now ≡ length graph.now.calls }
    requires acyclic { IsAcyclic graph.now.calls }
    ensures { IfOk result (λ best. IsBest graph.now.calls weights.now best.items) }
{
    let mut best: Vec<u64> = weights.iter().map(|w| u64::from(*w)).collect(alloc)?;
    for _round in 0..weights.len() {
        let next = one_edge_more(alloc, graph, weights, best.as_slice())?;
        if next.as_slice() == best.as_slice() {
            return Ok(best);
        }
        best = next;
    }
    Ok(best)
}

// Each node's weight and the greatest that `best` has where the node leads to.
fn one_edge_more(
    alloc: Global,
    graph: &Graph,
    weights: &[u32],
    best: &[u64],
) -> Result<Vec<u64>, AllocError>
    requires weighed { length weights.now ≡ length graph.now.calls }
    requires room { (v : ℕ) → slice_index best.now v + 2 ^ 32 < 2 ^ 64 }
    ensures { IfOk result (λ next. IsWholeStep graph.now.calls weights.now best.now next.items) }
{
    let mut next = Vec::with_capacity(alloc, weights.len())?;
    for (node, calls) in graph.calls.as_slice().iter().enumerate() {
        next.push(u64::from(weights[node]) + greatest_among(best, calls.as_slice()))?;
    }
    Ok(next)
}

// The greatest of what `best` has at these places, 0 where it has nothing there.
fn greatest_among(best: &[u64], calls: &[u16]) -> u64
    ensures { IsGreatestAmong best.now calls.now result }
{
    let mut most = 0;
    for c in calls {
        most = most.max(best.get(usize::from(*c)).copied().unwrap_or(0));
    }
    most
}

// The greatest of the numbers, 0 where there are none.
fn greatest(best: &[u64]) -> u64
    ensures { IsGreatest best.now result }
{
    let mut most = 0;
    for b in best {
        most = most.max(*b);
    }
    most
}
