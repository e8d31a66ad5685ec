// Graphs.
ghost use Rattle.std.specs.Prelude.{◌≡◌, ℕ, List, [], ◌∷◌, ◌++◌, ◌<◌, OnOk, OnErr, length};
ghost use Rattle.p8_constants.specs.Graphs.{targets_of};

use p8_words::NoMemory;
use std::alloc::{AllocError, Global};
use std::marker::Model;

/// A graph: its nodes are the numbers from 0 on, and from each node edges lead to others or to itself. Contracts see the list
/// of the nodes' targets.
#[derive(Drop)]
pub struct Graph {
    targets: Vec<Vec<usize>>,
}

impl Model for Graph {
    ghost use Rattle.std.specs.Prelude.{ℕ, List, map};

    ghost Value = { List (List ℕ) };

    ghost view = { λ g. map (λ v. v.items) g.targets.items };
}

impl Graph {
    /// The graph without nodes. It takes no memory.
    pub fn new(alloc: Global) -> Graph
        ensures { result ≡ [] }
    {
        Graph {
            targets: Vec::new(alloc),
        }
    }

    /// Adds a node, which gets the next number, with the targets of its edges. Where there is no memory the graph stays as
    /// it was.
    pub fn push(&mut self, targets: Vec<usize>) -> Result<(), NoMemory>
        ensures ok { OnOk result (self.new ≡ self.old ++ targets.items ∷ []) }
        ensures unchanged { OnErr result (self.new ≡ self.old) }
    {
        match self.targets.push(targets) {
            Ok(()) => Ok(()),
            Err(_) => Err(NoMemory),
        }
    }

    /// The number of nodes.
    pub fn len(&self) -> usize
        ensures { result ≡ length self.now }
    {
        self.targets.len()
    }

    /// The targets of a node's edges.
    pub fn targets(&self, node: usize) -> &[usize]
        requires { node < length self.now }
        ensures { result.now ≡ targets_of self.now node }
    {
        self.targets[node].as_slice()
    }
}
