//! All edges of a run, told by a test of two nodes.
ghost use Rattle.std.specs.Prelude.{◌≡◌};
ghost use Rattle.test_lang.specs.Runs.{IsInside};

use crate::run_edges::edge;
use crate::run_sources::mark_sources;
use crate::static_graph::Static;
use crate::word_loads::WordLoads;
use digraph::Pairs;
use std::marker::Model;
use test_lang::op::MemModel;
use test_lang::test::Test;

/// The constraint graph of a run with all its edges, as a test of two nodes.
#[derive(Drop)]
pub struct Full<'a> {
    test: &'a Test,
    model: MemModel,
    run: &'a [u32],
    loads: &'a WordLoads,
    bases: &'a [Option<u32>],
}

impl<'a> Model for Full<'a> {
    ghost use Rattle.graph_model.specs.RunGraph.{RunGraph};
    ghost use Rattle.graph_model.specs.StoreTables.{HasBaseStores};
    ghost use Rattle.graph_model.specs.WordLoads.{TellsWordLoads};
    ghost use Rattle.test_lang.specs.Runs.{IsInside};

    ghost Value = { RunGraph };

    ghost view = { λ f. record { test = f.test.now; model = f.model; run = f.run.now } };

    ghost invariant = { λ f. IsInside f.test.now f.run.now × TellsWordLoads f.test.now f.loads.now × HasBaseStores f.test.now f.bases.now };
}

impl Static {
    /// All edges of a run.
    pub fn full<'a>(&'a self, run: &'a [u32]) -> Full<'a>
        requires { IsInside self.now.test run.now }
        ensures { result ≡ record { test = self.now.test; model = self.now.model; run = run.now } }
    {
        Full {
            test: &self.test,
            model: self.model,
            run,
            loads: &self.loads,
            bases: &self.base_stores,
        }
    }
}

impl Pairs for Full<'_> {
    ghost use Rattle.test_lang.specs.Program.{op_count};
    ghost use Rattle.test_lang.specs.Edges.{Edge};

    ghost node_count = { λ f. op_count f.test };

    ghost edges = { λ f a b. Edge f.model f.test f.run a b };

    fn nodes(&self) -> u32 {
        self.test.ops()
    }

    fn edge(&self, from: u32, to: u32) -> bool {
        edge(self.test, self.model, self.run, from, to)
    }

    fn mark_sources(&self, to: u32, mark: u32, marks: &mut [u32]) {
        mark_sources(
            self.test, self.model, self.run, self.loads, self.bases, to, mark, marks,
        );
    }
}
