// The graph of a project's mentions.
ghost use Rattle.std.specs.Prelude.{◌≡◌, ◌++◌, OnOk, IfOk};
ghost use Rattle.std.specs.Option.{option_to_list};
ghost use Rattle.std.specs.List.{filter_map};
ghost use Rattle.p8_tree.specs.Views.{named_sources_of, source_of};
ghost use Rattle.p8_fold.specs.ConstantEntries.{at_bytes};
ghost use Rattle.p8_constants.specs.Standing.{item_of};
ghost use Rattle.p8_names.specs.Kinds.{object_in};
ghost use Rattle.p8_names.specs.Mentions.{mentions, HaveMentioned};
ghost use Rattle.p8_names.specs.Finding.{IsGraphOf};

use crate::numbers::Numbers;
use p8_constants::{Graph, Item, items_of};
use p8_tree::{Project, SourceFile};
use p8_words::NoMemory;
use std::alloc::{AllocError, Global};

/// The graph of a project's files, by their numbers: an edge leads from each to each that an item of `OBJ` names.
pub(crate) fn graph_of(alloc: Global, project: &Project) -> Result<Graph, NoMemory>
    requires { HaveMentioned (named_sources_of project.now) }
    ensures { IfOk result (λ g. IsGraphOf (named_sources_of project.now) g) }
{
    let numbers = Numbers::of_project(alloc, project)?;
    let mut graph = Graph::new(alloc);
    for file in project.files.as_slice() {
        graph.push(targets_of(alloc, &file.tree, &numbers)?)?;
    }
    Ok(graph)
}

// The numbers of the files that a file mentions, item by item.
fn targets_of(alloc: Global, file: &SourceFile, numbers: &Numbers) -> Result<Vec<usize>, AllocError>
    ensures { IfOk result (λ targets. targets.items ≡ filter_map (λ x. at_bytes x.file numbers.now.names) (mentions (source_of file.now))) }
{
    let items = items_of(alloc, file)?;
    let mut targets = Vec::new(alloc);
    for item in items.as_slice() {
        add_target(&mut targets, *item, numbers)?;
    }
    Ok(targets)
}

// Adds the number of the file that an item names, if it is one of OBJ.
fn add_target(targets: &mut Vec<usize>, item: Item<'_>, numbers: &Numbers) -> Result<(), AllocError>
    ensures { OnOk result (targets.new.items ≡ targets.old.items ++ filter_map (λ x. at_bytes x.file numbers.now.names) (object_in (item_of item.entry))) }
{
    match item {
        Item::Object(object) => add(targets, numbers.of(&object.file)),
        _ => Ok(()),
    }
}

fn add(targets: &mut Vec<usize>, target: Option<usize>) -> Result<(), AllocError>
    ensures { OnOk result (targets.new.items ≡ targets.old.items ++ option_to_list target) }
{
    if let Some(target) = target {
        targets.push(target)?;
    }
    Ok(())
}
