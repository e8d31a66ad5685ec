// The components of a small graph.
use p8_constants::{Graph, components, in_order};
use std::alloc::Global;

// Whether a graph in which 0 leads to 1, which makes a ring with 2, and 2 leads to 3, has three components and this order; None
// where there is no memory.
fn has_three(alloc: Global) -> Option<bool> {
    let mut graph = Graph::new(alloc);
    graph.push(vec![in alloc; 1].ok()?).ok()?;
    graph.push(vec![in alloc; 2].ok()?).ok()?;
    graph.push(vec![in alloc; 1, 3].ok()?).ok()?;
    graph.push(Vec::new(alloc)).ok()?;
    let is_there = graph.len() == 4 && graph.targets(2) == [1, 3].as_slice();
    let numbers = components(alloc, &graph).ok()?;
    let order = in_order(alloc, &numbers).ok()?;
    let is_numbered = numbers.as_slice() == [2, 1, 1, 0].as_slice();
    Some(is_there && is_numbered && order.as_slice() == [3, 1, 2, 0].as_slice())
}

#[test]
fn numbers_a_ring_and_two_others(rt: HostRuntime) {
    assert!(rt; has_three(rt.alloc()) == Some(true));
}
