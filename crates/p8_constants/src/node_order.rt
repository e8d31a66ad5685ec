// Nodes by their numbers.
ghost use Rattle.std.specs.Prelude.{◌≡◌, ◌↔◌, ℕ, ◌<◌, ◌≤◌, IfOk, length, map, Contains, slice_index};
ghost use Rattle.p8_constants.specs.Orders.{ComesNoLater, pair_at};

use p8_words::NoMemory;
use std::alloc::{AllocError, Global};

/// The nodes by their numbers, the lowest first, and those of one number in ascending order; each node once.
pub fn in_order(alloc: Global, numbers: &[usize]) -> Result<Vec<usize>, NoMemory>
    ensures size { IfOk result (λ nodes. length nodes.items ≡ length numbers.now) }
    ensures nodes { IfOk result (λ nodes. (a : ℕ) → Contains nodes.items a ↔ (a < length numbers.now)) }
    ensures order { IfOk result (λ nodes. (i j : ℕ) → i ≤ j → j < length nodes.items →
        ComesNoLater numbers.now (slice_index nodes.items i) (slice_index nodes.items j)) }
{
    let mut places = places_of(alloc, numbers)?;
    places.sort()?;
    let nodes = nodes_of(alloc, &places)?;
    Ok(nodes)
}

// Each node with its number, the number first.
fn places_of(alloc: Global, numbers: &[usize]) -> Result<Vec<(usize, usize)>, AllocError>
    ensures size { IfOk result (λ places. length places.items ≡ length numbers.now) }
    ensures each { IfOk result (λ places. (k : ℕ) → k < length numbers.now → pair_at places.items k ≡ (slice_index numbers.now k, k)) }
{
    let mut places = Vec::new(alloc);
    for (node, number) in numbers.iter().enumerate() {
        places.push((*number, node))?;
    }
    Ok(places)
}

// The nodes of places.
fn nodes_of(alloc: Global, places: &[(usize, usize)]) -> Result<Vec<usize>, AllocError>
    ensures { IfOk result (λ nodes. nodes.items ≡ map (λ p. p.1) places.now) }
{
    places.iter().map(|place| place.1).collect(alloc)
}
