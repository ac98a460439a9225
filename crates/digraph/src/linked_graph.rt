//! Graphs whose edges stand in linked arrays.
ghost use Rattle.std.specs.Prelude.{◌≡◌, ℕ, ◌+◌, ◌-◌, ◌*◌, ◌<◌, ◌≤◌, [], ◌∷◌, ◌++◌, length, slice_index, slice_index_or, take, min, All, IfOk, is_some, if◌then◌else◌};
ghost use Rattle.digraph.specs.Digraph.{IsDigraph, IsLastIn, IsLastOut, in_degree, out_degree, source_of, target_of, targets_from};

use crate::at_hand::{NEAR, near_place, put_all_at_hand, put_at_hand};
use crate::links::Links;
use crate::step_count::Steps;
use std::alloc::{AllocError, Global};
use std::marker::Model;
use std::sync::ledger::Ledger;

/// A directed graph of fixed room, whose edges are numbered in the order of adding, from 0 on.
/// The edges from a node, and those to it, are met from the last added one to the first.
#[derive(Drop)]
pub struct Graph {
    sources: Links,
    targets: Links,
    /// Four places for each node: the targets of its first edges, and the number of nodes in each place that is left. The fourth says nothing: it takes
    /// each target behind the first three, so that no step branches on how many there are.
    near: Vec<u32>,
    out_degrees: Vec<u32>,
    in_degrees: Vec<u32>,
}

impl Model for Graph {
    ghost use Rattle.digraph.specs.Digraph.{Digraph};
    ghost use Rattle.digraph.specs.KeyList.{IsGraph, digraph_of};

    ghost Value = { Digraph };

    ghost view = { λ g. digraph_of g.sources g.targets };

    ghost invariant = { λ g. IsGraph g.sources g.targets g.near.items g.out_degrees.items g.in_degrees.items };
}

impl Graph {
    /// A graph of so many nodes without an edge, with room for so many edges.
    /// `Err` means want of memory.
    pub fn with_room(alloc: Global, nodes: u32, edges: u32) -> Result<Graph, AllocError>
        ensures { IfOk result (λ g. g ≡ record { nodes = nodes; room = edges; edges = [] }) }
    {
        Ok(Graph {
            sources: Links::with_room(alloc, nodes, edges)?,
            targets: Links::with_room(alloc, nodes, edges)?,
            near: vec![in alloc; nodes; 4 * nodes as usize]?,
            out_degrees: vec![in alloc; 0u32; nodes as usize]?,
            in_degrees: vec![in alloc; 0u32; nodes as usize]?,
        })
    }

    /// Takes all edges away, in time of their number.
    pub fn clear(&mut self)
        ensures { self.new ≡ record self.old { edges = [] } }
    {
        self.truncate(0);
    }

    /// Adds an edge.
    pub fn add(&mut self, from: u32, to: u32)
        requires room { length self.old.edges < self.old.room }
        requires from { from < self.old.nodes }
        requires to { to < self.old.nodes }
        ensures { self.new ≡ record self.old { edges = self.old.edges ++ (from, to) ∷ [] } }
    {
        put_at_hand(
            from,
            to,
            &mut self.near,
            &mut self.out_degrees,
            &mut self.in_degrees,
        );
        self.sources.push(from);
        self.targets.push(to);
    }

    /// Takes the last added edge away.
    fn pop(&mut self)
        requires { 0 < length self.old.edges }
        ensures { let count = length self.old.edges in self.new
            ≡ record self.old { edges = take (count - 1) self.old.edges } }
    {
        let nodes = self.nodes();
        let from = self.sources.pop();
        let to = self.targets.pop();
        let before = self.out_degrees[from as usize] - 1;
        self.near[near_place(from, before)] = nodes;
        self.out_degrees[from as usize] = before;
        self.in_degrees[to as usize] -= 1;
    }

    /// Takes the last added edges away until so many are left, in time of the number taken away.
    pub fn truncate(&mut self, edges: u32)
        requires { edges ≤ length self.old.edges }
        ensures { self.new ≡ record self.old { edges = take edges self.old.edges } }
    {
        while self.edges() > edges {
            self.pop();
        }
    }

    /// Adds edges in their order.
    pub fn add_all(&mut self, edges: &[(u32, u32)])
        requires ends { All (λ edge. (edge.0 < self.old.nodes)
            × (edge.1 < self.old.nodes)) edges.now }
        requires room { length self.old.edges + length edges.now ≤ self.old.room }
        ensures { self.new ≡ record self.old { edges = self.old.edges ++ edges.now } }
    {
        put_all_at_hand(
            edges,
            &mut self.near,
            &mut self.out_degrees,
            &mut self.in_degrees,
        );
        Links::push_ends(&mut self.sources, &mut self.targets, edges);
    }

    /// Takes the last added edges away until those of `start` are left, with which the graph begins. The time is that of the nodes.
    pub fn truncate_to(&mut self, start: &Graph)
        requires nodes { start.now.nodes ≡ self.old.nodes }
        requires begins { take (length start.now.edges) self.old.edges ≡ start.now.edges }
        ensures { self.new ≡ record self.old { edges = start.now.edges } }
    {
        self.sources.truncate_to(&start.sources);
        self.targets.truncate_to(&start.targets);
        self.near.copy_from_slice(&start.near);
        self.out_degrees.copy_from_slice(&start.out_degrees);
        self.in_degrees.copy_from_slice(&start.in_degrees);
    }

    /// The number of nodes.
    pub fn nodes(&self) -> u32
        ensures count { result ≡ self.now.nodes }
        ensures sound { IsDigraph self.now }
    {
        self.sources.kinds()
    }

    /// The number of edges.
    pub fn edges(&self) -> u32
        ensures count { result ≡ length self.now.edges }
        ensures sound { IsDigraph self.now }
    {
        self.sources.len()
    }

    /// The node that the edge leads from.
    pub fn source(&self, edge: u32) -> u32
        requires { edge < length self.now.edges }
        ensures value { result ≡ source_of self.now.edges edge }
        ensures inside { result < self.now.nodes }
    {
        self.sources.key(edge)
    }

    /// The node that the edge leads to.
    pub fn target(&self, edge: u32) -> u32
        requires { edge < length self.now.edges }
        ensures value { result ≡ target_of self.now.edges edge }
        ensures inside { result < self.now.nodes }
    {
        self.targets.key(edge)
    }

    /// How many edges lead from the node.
    pub fn out_degree(&self, node: u32) -> u32
        requires { node < self.now.nodes }
        ensures { result ≡ out_degree self.now.edges node }
    {
        self.out_degrees[node as usize]
    }

    /// How many edges lead to each node.
    pub fn in_degrees(&self) -> &[u32]
        ensures long { length result.now ≡ self.now.nodes }
        ensures at { (node : ℕ) → node < self.now.nodes →
            slice_index result.now node ≡ in_degree self.now.edges node }
    {
        &self.in_degrees
    }

    /// The targets of the first edges that were added from the node, at most three, in the order of adding. In each place that is left stands the number
    /// of nodes, which is no node. Each edge counts one step.
    pub fn near_targets<L: Ledger>(&self, node: u32, steps: &mut Steps<L>) -> &[u32]
        requires { node < self.now.nodes }
        ensures long { length result.now ≡ 3 }
        ensures at { (k : ℕ) → k < 3 → slice_index result.now k
            ≡ slice_index_or (targets_from self.now.edges node) k self.now.nodes }
        ensures ticks { steps.new ≡ steps.old + min (out_degree self.now.edges node) 3 }
    {
        let place = near_place(node, 0);
        steps.tick_times(u64::from(u32::min(self.out_degree(node), 3)));
        &self.near[place..place + NEAR]
    }

    /// The last added edge whose source is the node.
    pub fn first_out<L: Ledger>(&self, node: u32, steps: &mut Steps<L>) -> Option<u32>
        requires { node < self.now.nodes }
        ensures last { IsLastOut self.now.edges node (length self.now.edges) result }
        ensures ticks { steps.new ≡ steps.old + (if is_some result then 1 else 0) }
    {
        counted(self.sources.last(node), steps)
    }

    /// The last edge with the same source that was added before this one.
    pub fn next_out<L: Ledger>(&self, edge: u32, steps: &mut Steps<L>) -> Option<u32>
        requires { edge < length self.now.edges }
        ensures last { IsLastOut self.now.edges (source_of self.now.edges edge) edge result }
        ensures ticks { steps.new ≡ steps.old + (if is_some result then 1 else 0) }
    {
        counted(self.sources.previous(edge), steps)
    }

    /// The last added edge whose target is the node.
    pub fn first_in<L: Ledger>(&self, node: u32, steps: &mut Steps<L>) -> Option<u32>
        requires { node < self.now.nodes }
        ensures last { IsLastIn self.now.edges node (length self.now.edges) result }
        ensures ticks { steps.new ≡ steps.old + (if is_some result then 1 else 0) }
    {
        counted(self.targets.last(node), steps)
    }

    /// The last edge with the same target that was added before this one.
    pub fn next_in<L: Ledger>(&self, edge: u32, steps: &mut Steps<L>) -> Option<u32>
        requires { edge < length self.now.edges }
        ensures last { IsLastIn self.now.edges (target_of self.now.edges edge) edge result }
        ensures ticks { steps.new ≡ steps.old + (if is_some result then 1 else 0) }
    {
        counted(self.targets.previous(edge), steps)
    }
}

/// Counts one step where an edge is given.
fn counted<L: Ledger>(edge: Option<u32>, steps: &mut Steps<L>) -> Option<u32>
    ensures same { result ≡ edge }
    ensures ticks { steps.new ≡ steps.old + (if is_some edge then 1 else 0) }
{
    if edge.is_some() {
        steps.tick();
    }
    edge
}
