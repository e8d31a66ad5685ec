// The components of a graph.
ghost use Rattle.std.specs.Prelude.{◌≡◌, ◌↔◌, ℕ, ◌<◌, ◌≤◌, IfOk, length, slice_index};
ghost use Rattle.p8_constants.specs.Graphs.{IsEdge, HasItsTargets, Reaches};

use crate::directed_graph::Graph;
use crate::search::Search;
use p8_words::NoMemory;
use std::alloc::Global;

/// The number of each node's strongly connected component: two nodes have the same number exactly where each leads to the
/// other. No edge leads to a greater number, so what a node leads to comes no later than it in their order.
///
/// It takes time and memory in proportion to the nodes and edges.
pub fn components(alloc: Global, graph: &Graph) -> Result<Vec<usize>, NoMemory>
    requires { HasItsTargets graph.now }
    ensures size { IfOk result (λ numbers. length numbers.items ≡ length graph.now) }
    ensures falls { IfOk result (λ numbers. (a b : ℕ) → IsEdge graph.now a b → slice_index numbers.items b ≤ slice_index numbers.items a) }
    ensures same { IfOk result (λ numbers. (a b : ℕ) → a < length graph.now → b < length graph.now →
        (slice_index numbers.items a ≡ slice_index numbers.items b) ↔ (Reaches graph.now a b × Reaches graph.now b a)) }
{
    let mut search = Search::new(alloc, graph.len())?;
    for node in 0..graph.len() {
        search.explore(node, graph)?;
    }
    let numbers = search.numbers(alloc)?;
    Ok(numbers)
}
