//! What the graphs of all runs of a test have in common.
ghost use Rattle.std.specs.Prelude.{◌≡◌, ◌≤◌, length, IfOk};
ghost use Rattle.test_lang.specs.Values.{load_count};
ghost use Rattle.graph_model.specs.StaticGraph.{IsStaticGraph};

use crate::few_kept::kept_graph;
use crate::first_stores::FirstStores;
use crate::store_tables::{base_stores, next_stores};
use crate::word_loads::WordLoads;
use digraph::Graph;
use std::alloc::{AllocError, Global};
use std::marker::Model;
use test_lang::op::MemModel;
use test_lang::test::Test;

mod full_graph;
mod load_edges;
mod run_graph;

pub use full_graph::Full;

/// The part of a run's constraint graph that doesn't depend on the run: a few kept pairs, along which the same nodes are reached as along all.
///
/// A layer that looks at one run after another takes one graph by `graph_for_runs` and a slice of `run_edge_room` edges, and makes the graph that of one
/// run after another by `run_into`. It may also do this by itself: take edges away by `Graph::truncate`, back to those of the loads before the first that
/// changed, and add those of `dynamic_into` by `Graph::add_all`.
#[derive(Drop)]
pub struct Static {
    test: Test,
    model: MemModel,
    graph: Graph,
    /// For each node, the first store after it in its thread to its word.
    next_stores: Vec<Option<u32>>,
    /// For each node, the last store before it in its thread to its word.
    base_stores: Vec<Option<u32>>,
    first_stores: FirstStores,
    loads: WordLoads,
}

impl Model for Static {
    ghost use Rattle.std.specs.Prelude.{ℕ};
    ghost use Rattle.graph_model.specs.StaticGraph.{StaticGraph, IsStaticGraph};
    ghost use Rattle.graph_model.specs.StoreTables.{HasNextStores};
    ghost use Rattle.graph_model.specs.Tabled.{IsTabled};

    ghost Value = { StaticGraph };

    ghost view = { λ s. record { test = s.test; model = s.model; graph = s.graph } };

    ghost invariant = { λ s. IsTabled (record { test = s.test; model = s.model; graph = s.graph }) s.next_stores.items s.base_stores.items s.first_stores s.loads };
}

impl Static {
    /// The graph of few kept pairs of a test under a model. The error is want of memory.
    pub fn of(alloc: Global, test: &Test, model: MemModel) -> Result<Static, AllocError>
        ensures test { IfOk result (λ s. s.test ≡ test.now) }
        ensures model { IfOk result (λ s. s.model ≡ model) }
        ensures sound { IfOk result IsStaticGraph }
    {
        Ok(Static {
            test: test.clone()?,
            model,
            graph: kept_graph(alloc, test, model)?,
            next_stores: next_stores(alloc, test)?,
            base_stores: base_stores(alloc, test)?,
            first_stores: FirstStores::of(alloc, test)?,
            loads: WordLoads::of(alloc, test)?,
        })
    }

    /// The graph of few kept pairs.
    pub fn graph(&self) -> &Graph
        ensures graph { result.now ≡ self.now.graph }
        ensures sound { IsStaticGraph self.now }
    {
        &self.graph
    }

    /// The number of loads of the test.
    pub fn loads(&self) -> u32
        ensures count { result ≡ load_count self.now.test }
        ensures few { result ≤ 2048 }
    {
        self.test.loads()
    }

    /// The number of threads of the test.
    pub fn threads(&self) -> u32
        ensures count { result ≡ length self.now.test.threads }
        ensures few { result ≤ 16 }
    {
        self.test.threads()
    }
}
