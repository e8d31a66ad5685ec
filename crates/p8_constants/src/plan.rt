// In which order a file's constants are found.
ghost use Rattle.std.specs.Prelude.{◌≡◌, ℕ, ◌+◌, ◌*◌, ◌<◌, ◌^◌, List, IfOk, length};
ghost use Rattle.p8_tree.specs.Views.{source_of};
ghost use Rattle.p8_fold.specs.ConstantEntries.{setting_of, at_bytes};
ghost use Rattle.p8_constants.specs.Rows.{rows_from, rows_of, IsPlan};

use crate::constant_graph::graph_of;
use crate::index::Index;
use crate::node_order::in_order;
use crate::numbering::components;
use crate::rows::Rows;
use p8_fold::Consts;
use p8_tree::SourceFile;
use p8_words::NoMemory;
use std::alloc::Global;

/// A file's items, and the order in which the nodes of their graph are evaluated.
#[derive(Drop)]
pub(crate) struct Plan<'a> {
    pub(crate) rows: Rows<'a>,
    pub(crate) index: Index,
    /// The number of each node's component.
    pub(crate) numbers: Vec<usize>,
    /// The nodes by these numbers.
    pub(crate) order: Vec<usize>,
}

/// The plan of a file, in which other names mean what they do outside.
pub(crate) fn plan_of<'a>(
    alloc: Global,
    file: &'a SourceFile,
    outside: &Consts,
) -> Result<Plan<'a>, NoMemory>
    ensures rows { IfOk result (λ plan. rows_from plan.rows ≡ rows_of (source_of file.now)) }
    ensures plan { IfOk result (λ plan. IsPlan (setting_of outside.now) (rows_from plan.rows)
        (λ n. at_bytes n plan.index.names) plan.numbers.items plan.order.items) }
{
    let rows = Rows::of_file(alloc, file)?;
    if rows.len() > usize::MAX / 3 {
        return Err(NoMemory);
    }
    let index = Index::of_rows(alloc, &rows, outside)?;
    let graph = graph_of(alloc, &rows, &index)?;
    let numbers = components(alloc, &graph)?;
    let order = in_order(alloc, &numbers)?;
    Ok(Plan {
        rows,
        index,
        numbers,
        order,
    })
}
