// The children of all files of a project.
ghost use Rattle.std.specs.Prelude.{◌≡◌, ◌<◌, All, OnOk, IfOk, length};
ghost use Rattle.p8_tree.specs.Views.{named_sources_of, source_of};
ghost use Rattle.p8_names.specs.Mentions.{HaveMentioned, HaveNoRing};
ghost use Rattle.p8_names.specs.Children.{AreChildren};
ghost use Rattle.p8_names.specs.Finding.{AreDone, IsLookedAt, NoneLeadsOn};

use crate::child::child_of;
use crate::copies::children_at;
use crate::mention_graph::graph_of;
use p8_constants::{Graph, components, in_order};
use p8_kinds::{Child, Children};
use p8_tree::{List, Project, SourceFile};
use p8_words::NoMemory;
use std::alloc::{AllocError, Global};

/// What is found of the files of a project, at their numbers.
#[derive(Drop)]
struct SeenFiles {
    /// What each file sees of the files of its objects.
    children: Vec<Children>,
    /// What is seen of each file.
    seen: Vec<Child>,
}

/// What each file of a project sees of the files of its objects, in the order of the project's files: for each item of `OBJ` the
/// PUBs of its file and the file's constants, of several definitions of one name the first.
///
/// Each file is looked at once, after those that it mentions. It takes time and memory in proportion to the files and to what
/// they see, but for look-ups of names, which take the logarithm of their number.
pub fn children_of(alloc: Global, project: &Project) -> Result<Vec<Children>, NoMemory>
    requires mentioned { HaveMentioned (named_sources_of project.now) }
    requires no_ring { HaveNoRing (named_sources_of project.now) }
    ensures { IfOk result (λ children. AreChildren (named_sources_of project.now) children.items) }
{
    let graph = graph_of(alloc, project)?;
    let numbers = components(alloc, &graph)?;
    let order = in_order(alloc, &numbers)?;
    let SeenFiles { children, .. } = find(alloc, project, &graph, &order)?;
    Ok(children)
}

// Looks at the files in an order in which none leads to itself or to a later one.
fn find(
    alloc: Global,
    project: &Project,
    graph: &Graph,
    order: &[usize],
) -> Result<SeenFiles, NoMemory>
    requires size { length graph.now ≡ length (named_sources_of project.now) }
    requires nodes { All (λ a. a < length (named_sources_of project.now)) order.now }
    requires behind { NoneLeadsOn graph.now order.now }
    ensures { IfOk result (λ found. AreDone (named_sources_of project.now) graph.now order.now (length order.now) found.children.items found.seen.items) }
{
    let files = project.files.as_slice();
    let mut found = nothing_found(alloc, files.len())?;
    for place in 0..order.len() {
        let node = order[place];
        found.look_at(alloc, &files[node].tree, node, graph.targets(node))?;
    }
    Ok(found)
}

// Nothing, for so many files.
fn nothing_found(alloc: Global, count: usize) -> Result<SeenFiles, AllocError>
    ensures children { IfOk result (λ found. length found.children.items ≡ count) }
    ensures seen { IfOk result (λ found. length found.seen.items ≡ count) }
{
    let mut found = SeenFiles {
        children: Vec::new(alloc),
        seen: Vec::new(alloc),
    };
    for _ in 0..count {
        found.children.push(Children {
            items: List::new(alloc),
        })?;
        found.seen.push(Child {
            methods: List::new(alloc),
            consts: List::new(alloc),
        })?;
    }
    Ok(found)
}

impl SeenFiles {
    // Looks at a file, whose targets have been looked at.
    fn look_at(
        &mut self,
        alloc: Global,
        file: &SourceFile,
        node: usize,
        targets: &[usize],
    ) -> Result<(), NoMemory>
        requires children { node < length self.old.children.items }
        requires seen { node < length self.old.seen.items }
        ensures { OnOk result (IsLookedAt (source_of file.now) targets.now node self.old.children.items self.old.seen.items self.new.children.items self.new.seen.items) }
    {
        let children = children_at(alloc, targets, &self.seen)?;
        let child = child_of(alloc, file, &children)?;
        self.children[node] = children;
        self.seen[node] = child;
        Ok(())
    }
}
