//! The graph of a run's few edges.
ghost use Rattle.std.specs.Prelude.{◌≡◌, ◌+◌, ◌^◌, ◌<◌, ◌≤◌, length, take, IfOk};
ghost use Rattle.std.specs.List.{flat_map};
ghost use Rattle.test_lang.specs.Runs.{IsInside};
ghost use Rattle.test_lang.specs.Values.{load_nodes};
ghost use Rattle.graph_model.specs.LoadEdges.{edges_of_load, load_edge_room};
ghost use Rattle.graph_model.specs.RunVerdicts.{StandsForRun};
ghost use Rattle.graph_model.specs.StaticGraph.{few_run_edges, run_edge_room};

use crate::static_graph::Static;
use digraph::{Graph, Steps};
use std::alloc::{AllocError, Global};
use std::sync::ledger::Ledger;

impl Static {
    fn graph_with_room(&self, alloc: Global, more: u32) -> Result<Graph, AllocError>
        requires { length self.now.graph.edges + more < 2 ^ 32 }
        ensures { IfOk result (λ copy. copy
            ≡ record self.now.graph { room = length self.now.graph.edges + more }) }
    {
        let edges = self.graph.edges();
        let mut copy = Graph::with_room(alloc, self.graph.nodes(), edges + more)?;
        for edge in 0..edges {
            copy.add(self.graph.source(edge), self.graph.target(edge));
        }
        Ok(copy)
    }

    /// Room for the edges that a load adds, whatever the run: three, and one for each thread.
    pub fn load_edge_room(&self) -> u32
        ensures count { result ≡ load_edge_room self.now.test }
        ensures few { result ≤ 19 }
    {
        3 + self.threads()
    }

    /// Room for the edges that the loads of any run add.
    pub fn run_edge_room(&self) -> u32
        ensures count { result ≡ run_edge_room self.now.test }
        // 2048 loads, 19 edges each.
        ensures few { result ≤ 38912 }
    {
        self.loads() * self.load_edge_room()
    }

    /// A copy of the static graph with room for the few edges of any run. The error is want of memory.
    pub fn graph_for_runs(&self, alloc: Global) -> Result<Graph, AllocError>
        ensures copy { IfOk result (λ copy. copy ≡ record self.now.graph {
          room = length self.now.graph.edges + run_edge_room self.now.test;
        }) }
        ensures begins { IfOk result (λ copy. take (length self.now.graph.edges) copy.edges
            ≡ self.now.graph.edges) }
    {
        // The prover is told how many operations there may be.
        let _ops = self.test.ops();
        self.graph_with_room(alloc, self.run_edge_room())
    }

    /// Writes the few edges of each load, by rising rank, to the first places of a slice, and returns their number.
    fn put_loads(&self, run: &[u32], out: &mut [(u32, u32)]) -> usize
        requires inside { IsInside self.now.test run.now }
        requires room { run_edge_room self.now.test
            ≤ length out.old }
        ensures put { take result out.new
            ≡ flat_map (edges_of_load self.now.test run.now) (load_nodes self.now.test) }
        ensures few { result ≤ run_edge_room self.now.test }
    {
        let mut count = 0;
        for rank in 0..self.test.loads() {
            count = self.put_load(run, rank, out, count);
        }
        count
    }

    /// Makes of a graph that begins with the static edges, as one by `graph_for_runs`, the graph of a run: takes its other edges away, and adds the
    /// few edges of each load, by rising rank. It ticks once for each of these. `out` is where they are written on the way; what it holds before and after
    /// says nothing.
    pub fn run_into<L: Ledger>(
        &self,
        run: &[u32],
        graph: &mut Graph,
        out: &mut [(u32, u32)],
        steps: &mut Steps<L>,
    )
        requires inside { IsInside self.now.test run.now }
        requires nodes { graph.old.nodes ≡ self.now.graph.nodes }
        requires begins { take (length self.now.graph.edges) graph.old.edges
            ≡ self.now.graph.edges }
        requires room { length self.now.graph.edges + run_edge_room self.now.test ≤ graph.old.room }
        requires out_room { run_edge_room self.now.test
            ≤ length out.old }
        ensures graph { graph.new ≡ record graph.old { edges = few_run_edges self.now run.now } }
        ensures verdicts { StandsForRun self.now.model self.now.test run.now graph.new }
        // It may be made the graph of a next run.
        ensures nodes { graph.new.nodes ≡ self.now.graph.nodes }
        ensures begins { take (length self.now.graph.edges) graph.new.edges ≡ self.now.graph.edges }
        ensures room { length self.now.graph.edges + run_edge_room self.now.test ≤ graph.new.room }
        ensures ticks { steps.new + length self.now.graph.edges
            ≡ steps.old + length graph.new.edges }
    {
        graph.truncate_to(&self.graph);
        let count = self.put_loads(run, out);
        steps.tick_times(count as u64);
        graph.add_all(&out[..count]);
    }
}
