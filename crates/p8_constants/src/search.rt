// The search for components: path-based, after Gabow.
ghost use Rattle.std.specs.Prelude.{◌≡◌, ℕ, ◌+◌, ◌<◌, ◌≤◌, ◌≢◌, ◌-◌, List, [], ◌∷◌, ◌++◌, OnOk, IfOk, length, map, replicate, All};
ghost use Rattle.p8_constants.specs.declared.search.NodeState.TheVariants.{New, Open};
ghost use Rattle.p8_constants.specs.Graphs.{HasItsTargets};
ghost use Rattle.p8_constants.specs.Searches.{mark, boundary_at, State, IsState, IsStateHolding, IsReached, work, IsCut, IsClosed, IsFurther, number_of};

use crate::directed_graph::Graph;
use p8_words::NoMemory;
use std::alloc::{AllocError, Global};
use std::marker::Model;

/// How far the search has come with a node.
#[derive(Clone, Copy, Drop)]
pub(crate) enum NodeState {
    /// It isn't found yet.
    New,
    /// It stands on the stack, at this position.
    Open(usize),
    /// Its component is finished and has this number.
    Done(usize),
}

impl NodeState {
    // The component's number, or 0 where it isn't finished.
    fn number(self) -> usize
        ensures { result ≡ number_of self }
    {
        match self {
            NodeState::New | NodeState::Open(_) => 0,
            NodeState::Done(number) => number,
        }
    }
}

/// Where a component begins: on the stack of nodes, and on that of targets.
#[derive(Clone, Copy)]
pub(crate) struct Boundary {
    pub(crate) node: usize,
    pub(crate) target: usize,
}

/// A search under way.
#[derive(Drop)]
pub(crate) struct Search {
    marks: Vec<NodeState>,
    nodes: Vec<usize>,
    targets: Vec<usize>,
    boundaries: Vec<Boundary>,
    count: usize,
}

impl Model for Search {
    ghost use Rattle.p8_constants.specs.Searches.{State};

    ghost Value = { State };

    ghost view = { λ s. record { marks = s.marks.items; nodes = s.nodes.items; targets = s.targets.items; boundaries = s.boundaries.items; count = s.count } };
}

impl Search {
    // A search that has found nothing yet, among this many nodes.
    pub(crate) fn new(alloc: Global, size: usize) -> Result<Search, NoMemory>
        ensures { IfOk result (λ s. s ≡ record { marks = replicate size New; nodes = []; targets = []; boundaries = []; count = 0 }) }
    {
        Ok(Search {
            marks: vec![in alloc; NodeState::New; size]?,
            nodes: Vec::new(alloc),
            targets: Vec::new(alloc),
            boundaries: Vec::new(alloc),
            count: 0,
        })
    }

    // Puts a new node on the stack, as a component of its own.
    fn enter(&mut self, node: usize, graph: &Graph) -> Result<(), NoMemory>
        requires targets { HasItsTargets graph.now }
        requires node { node < length graph.now }
        requires new { mark self.old.marks node ≡ New }
        requires state { IsStateHolding graph.now (λ b. b ≡ node) self.old }
        requires reached { IsReached graph.now self.old node }
        ensures state { OnOk result (IsState graph.now self.new) }
        ensures work { OnOk result (work graph.now self.new < work graph.now self.old) }
        ensures further { OnOk result (IsFurther self.old.marks self.new.marks) }
        ensures found { OnOk result (mark self.new.marks node ≢ New) }
    {
        let boundary = Boundary {
            node: self.nodes.len(),
            target: self.targets.len(),
        };
        self.marks[node] = NodeState::Open(boundary.node);
        add_boundary(&mut self.boundaries, boundary)?;
        add_node(&mut self.nodes, node)?;
        self.targets.extend_from_slice(graph.targets(node))?;
        Ok(())
    }

    // Takes the components above this position for one: an edge leads back to it.
    fn merge(&mut self, position: usize)
        ensures marks { self.new.marks ≡ self.old.marks }
        ensures state { (g : List (List ℕ)) → (t : ℕ) → IsStateHolding g (λ b. b ≡ t) self.old → IsReached g self.old t →
            mark self.old.marks t ≡ Open position → IsState g self.new × (work g self.new ≤ work g self.old) }
    {
        let kept = boundaries_up_to(&self.boundaries, position);
        self.boundaries.truncate(kept);
    }

    // Finishes the component on top, whose edges are used up.
    fn finish(&mut self)
        requires some { 0 < length self.old.boundaries }
        requires used { length self.old.targets ≤ (boundary_at self.old.boundaries (length self.old.boundaries - 1)).target }
        requires state { (g : List (List ℕ)) × IsState g self.old }
        ensures { (g : List (List ℕ)) → IsState g self.old →
            IsState g self.new × (work g self.new < work g self.old) × IsFurther self.old.marks self.new.marks }
    {
        let top = self.boundaries.len() - 1;
        let begin = self.boundaries[top].node;
        close(&mut self.marks, &self.nodes[begin..], self.count);
        self.nodes.truncate(begin);
        self.boundaries.truncate(top);
        self.count += 1;
    }

    // Goes on from an edge's target.
    fn follow(&mut self, target: usize, graph: &Graph) -> Result<(), NoMemory>
        requires targets { HasItsTargets graph.now }
        requires target { target < length graph.now }
        requires state { IsStateHolding graph.now (λ b. b ≡ target) self.old }
        requires reached { IsReached graph.now self.old target }
        ensures state { OnOk result (IsState graph.now self.new) }
        ensures work { OnOk result (work graph.now self.new ≤ work graph.now self.old) }
        ensures further { OnOk result (IsFurther self.old.marks self.new.marks) }
    {
        match self.marks[target] {
            NodeState::New => self.enter(target, graph),
            NodeState::Open(position) => {
                self.merge(position);
                Ok(())
            }
            NodeState::Done(_) => Ok(()),
        }
    }

    // One step: follows an edge of the component on top, or finishes it.
    fn step(&mut self, graph: &Graph) -> Result<(), NoMemory>
        requires targets { HasItsTargets graph.now }
        requires some { 0 < length self.old.boundaries }
        requires state { IsState graph.now self.old }
        ensures state { OnOk result (IsState graph.now self.new) }
        ensures work { OnOk result (work graph.now self.new < work graph.now self.old) }
        ensures further { OnOk result (IsFurther self.old.marks self.new.marks) }
    {
        if self.targets.len() <= self.boundaries[self.boundaries.len() - 1].target {
            self.finish();
            return Ok(());
        }
        match self.targets.pop() {
            Some(target) => self.follow(target, graph),
            None => Ok(()),
        }
    }

    // Finds what a node leads to, and finishes the components of all that it finds.
    pub(crate) fn explore(&mut self, node: usize, graph: &Graph) -> Result<(), NoMemory>
        requires targets { HasItsTargets graph.now }
        requires node { node < length graph.now }
        requires state { IsState graph.now self.old }
        requires rest { self.old.boundaries ≡ [] }
        ensures state { OnOk result (IsState graph.now self.new) }
        ensures rest { OnOk result (self.new.boundaries ≡ []) }
        ensures further { OnOk result (IsFurther self.old.marks self.new.marks) }
        ensures found { OnOk result (mark self.new.marks node ≢ New) }
    {
        if let NodeState::New = self.marks[node] {
            self.enter(node, graph)?;
            while !self.boundaries.is_empty() {
                self.step(graph)?;
            }
        }
        Ok(())
    }

    // The numbers of the nodes' components.
    pub(crate) fn numbers(&self, alloc: Global) -> Result<Vec<usize>, NoMemory>
        ensures { IfOk result (λ numbers. numbers.items ≡ map number_of self.now.marks) }
    {
        let numbers = self.marks.iter().map(|mark| mark.number()).collect(alloc)?;
        Ok(numbers)
    }
}

fn add_boundary(boundaries: &mut Vec<Boundary>, boundary: Boundary) -> Result<(), AllocError>
    ensures { OnOk result (boundaries.new.items ≡ boundaries.old.items ++ boundary ∷ []) }
{
    boundaries.push(boundary)?;
    Ok(())
}

fn add_node(nodes: &mut Vec<usize>, node: usize) -> Result<(), AllocError>
    ensures { OnOk result (nodes.new.items ≡ nodes.old.items ++ node ∷ []) }
{
    nodes.push(node)?;
    Ok(())
}

// How many of the boundaries stand at this position or below it.
fn boundaries_up_to(boundaries: &[Boundary], position: usize) -> usize
    ensures { IsCut boundaries.now position result }
{
    let mut kept = boundaries.len();
    while kept > 0 && boundaries[kept - 1].node > position {
        kept -= 1;
    }
    kept
}

// Gives the nodes a number.
fn close(marks: &mut [NodeState], nodes: &[usize], number: usize)
    requires { All (λ a. a < length marks.old) nodes.now }
    ensures { IsClosed marks.old nodes.now number marks.new }
{
    for node in nodes {
        marks[*node] = NodeState::Done(number);
    }
}
