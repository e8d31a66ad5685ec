// The graph of a file's constants.
ghost use Rattle.std.specs.Prelude.{◌≡◌, ℕ, ◌+◌, ◌*◌, ◌<◌, ◌^◌, List, [], ◌∷◌, ◌++◌, OnOk, IfOk, length, Option, option_map};
ghost use Rattle.std.specs.Option.{option_to_list};
ghost use Rattle.std.specs.List.{filter_map};
ghost use Rattle.p8_tree.specs.Views.{constant_of, tree_of};
ghost use Rattle.p8_fold.specs.ConstantEntries.{at_bytes};
ghost use Rattle.p8_constants.specs.Rows.{rows_from, nodes_by, nodes_behind, nodes_of_counter, IsGraphBy};

use crate::directed_graph::Graph;
use crate::index::Index;
use crate::mentions::{Names, names_in};
use crate::rows::{Move, Rows, move_of};
use p8_tree::{ConItem, Expr};
use p8_words::NoMemory;
use std::alloc::{AllocError, Global};

/// The graph of the expressions of a file's items, each item's value and then its step, and after them of the counters as
/// they come to each item. Each leads to what its value is made of.
pub(crate) fn graph_of(alloc: Global, rows: &Rows, index: &Index) -> Result<Graph, NoMemory>
    requires { 2 * length rows.now + length rows.now < 2 ^ 64 }
    ensures { IfOk result (λ g. IsGraphBy (λ n. at_bytes n index.now.names) (rows_from rows.now) (length rows.now) (length rows.now) g) }
{
    let mut graph = Graph::new(alloc);
    for k in 0..rows.len() {
        add_item(alloc, rows.item(k), index, &mut graph)?;
    }
    add_counters(alloc, rows, &mut graph)?;
    Ok(graph)
}

// Adds the nodes of an item's value and step.
fn add_item(alloc: Global, item: &ConItem, index: &Index, graph: &mut Graph) -> Result<(), NoMemory>
    ensures { OnOk result (graph.new ≡ graph.old ++ nodes_by (λ n. at_bytes n index.now.names) (constant_of item.now).value ∷
        [] ++ nodes_by (λ n. at_bytes n index.now.names) (constant_of item.now).step ∷ []) }
{
    graph.push(nodes_of(alloc, &item.value, index)?)?;
    graph.push(nodes_of(alloc, &item.step, index)?)?;
    Ok(())
}

// The nodes of the constants that an expression mentions.
fn nodes_of(alloc: Global, expr: &Option<Expr>, index: &Index) -> Result<Vec<usize>, NoMemory>
    ensures { IfOk result (λ nodes. nodes.items ≡ nodes_by (λ n. at_bytes n index.now.names) (option_map tree_of expr.now)) }
{
    match expr {
        None => Ok(Vec::new(alloc)),
        Some(expr) => {
            let names = names_in(alloc, expr)?;
            let nodes = nodes_at(alloc, &names, index)?;
            Ok(nodes)
        }
    }
}

// The nodes of names, of those that are constants.
fn nodes_at(alloc: Global, names: &Names, index: &Index) -> Result<Vec<usize>, AllocError>
    ensures { IfOk result (λ nodes. nodes.items ≡ filter_map (λ n. at_bytes n index.now.names) names.now) }
{
    let mut nodes = Vec::new(alloc);
    for name in names.as_slice() {
        add_node(&mut nodes, index.get(name))?;
    }
    Ok(nodes)
}

fn add_node(nodes: &mut Vec<usize>, node: Option<usize>) -> Result<(), AllocError>
    ensures { OnOk result (nodes.new.items ≡ nodes.old.items ++ option_to_list node) }
{
    if let Some(node) = node {
        nodes.push(node)?;
    }
    Ok(())
}

// Adds the nodes of the counters.
fn add_counters(alloc: Global, rows: &Rows, graph: &mut Graph) -> Result<(), NoMemory>
    requires { 2 * length rows.now + length rows.now < 2 ^ 64 }
    ensures { (find : List ℕ → Option ℕ) → IsGraphBy find (rows_from rows.now) (length rows.now) 0 graph.old →
        OnOk result (IsGraphBy find (rows_from rows.now) (length rows.now) (length rows.now) graph.new) }
{
    for k in 0..rows.len() {
        graph.push(before(alloc, rows, k)?)?;
    }
    Ok(())
}

// The nodes to which the counter leads that comes to an item.
fn before(alloc: Global, rows: &Rows, k: usize) -> Result<Vec<usize>, AllocError>
    requires within { k < length rows.now }
    requires room { 2 * length rows.now + length rows.now < 2 ^ 64 }
    ensures { IfOk result (λ nodes. nodes.items ≡ nodes_of_counter (rows_from rows.now) k) }
{
    if k == 0 || rows.is_first(k) {
        return Ok(Vec::new(alloc));
    }
    behind(alloc, rows.len(), k - 1, move_of(rows.item(k - 1)))
}

// The nodes to which a counter leads after an item.
fn behind(alloc: Global, count: usize, k: usize, movement: Move) -> Result<Vec<usize>, AllocError>
    requires within { k < count }
    requires room { 2 * count + count < 2 ^ 64 }
    ensures { IfOk result (λ nodes. nodes.items ≡ nodes_behind count k movement) }
{
    match movement {
        Move::Sets => [2 * k].to_vec(alloc),
        Move::Stays => [2 * count + k].to_vec(alloc),
        Move::Counts => [2 * count + k].to_vec(alloc),
        Move::Steps => [2 * count + k, 2 * k + 1].to_vec(alloc),
    }
}
