//! The components of a graph.

ghost use Rattle.std.specs.Prelude.{◌≡◌, ◌+◌, ◌<◌, IfOk};
ghost use Rattle.strong_components.specs.Graph.{IsGraph, AreComponents};

use crate::search::Search;
use auto_core::Memory;
use std::alloc::Global;

/// The number of each node's component. The arcs out of node v lead to the targets from `starts[v]`
/// up to `starts[v + 1]`.
pub fn components_of(
    alloc: Global,
    nodes: u32,
    starts: &[usize],
    targets: &[u32],
) -> Result<Vec<u32>, Memory>
    requires { IsGraph starts.now targets.now nodes }
    ensures { IfOk result (λ numbers. AreComponents starts.now targets.now nodes numbers.items) }
{
    let mut search = Search::new(alloc, nodes, starts)?;
    for root in 0..nodes {
        search.search_from(starts, targets, root)?;
    }
    Ok(search.finish())
}
