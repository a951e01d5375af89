//! Nodes that lead back to themselves.
ghost use Rattle.std.specs.Prelude.{◌≡◌, ◌↔◌, ◌<◌, ℕ, IfOk, IsTrue, Some, length, slice_get};
ghost use Rattle.cu_cycles.specs.Graph.{AreOnCycles, IsWhole, rows_in};

use crate::components::find_components;
use std::alloc::{AllocError, Global};

/// Whether one of some nodes has a number.
fn has_rank(ranks: &[usize], nodes: &[usize], rank: usize) -> bool
    requires { (k v : ℕ) → slice_get nodes.now k ≡ Some v → v < length ranks.now }
    ensures { IsTrue result ↔ ((k : ℕ) × (v : ℕ) × (slice_get nodes.now k ≡ Some v)
        × (slice_get ranks.now v ≡ Some rank)) }
{
    for node in nodes {
        if ranks[*node] == rank {
            return true;
        }
    }
    false
}

/// Whether each node of a graph lies on a cycle, in time about proportional to
/// the size of the graph.
///
/// # Errors
///
/// Out of memory.
pub fn on_cycles(alloc: Global, graph: &[Vec<usize>]) -> Result<Vec<bool>, AllocError>
    requires { IsWhole (rows_in graph.now) }
    ensures { IfOk result (λ flags. AreOnCycles (rows_in graph.now) flags.items) }
{
    let found = find_components(alloc, graph)?;
    let mut flags = Vec::new(alloc);
    for node in 0..graph.len() {
        flags.push(has_rank(
            found.ranks.as_slice(),
            graph[node].as_slice(),
            found.ranks[node],
        ))?;
    }
    Ok(flags)
}
