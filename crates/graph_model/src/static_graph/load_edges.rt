//! The few edges that a load adds.
ghost use Rattle.std.specs.Prelude.{◌≡◌, ◌+◌, ◌∷◌, [], ◌++◌, ◌<◌, ◌≤◌, length, slice_index, take, Some, IsTrue, if◌then◌else◌};
ghost use Rattle.test_lang.specs.Program.{op_at, op_count};
ghost use Rattle.test_lang.specs.Runs.{IsInside};
ghost use Rattle.test_lang.specs.Values.{is_load_at, load_count, load_nodes};
ghost use Rattle.graph_model.specs.LoadEdges.{edges_by_store, edges_of_load, edges_to_first_stores, load_edge_room};

use crate::static_graph::Static;
use digraph::{Edges, Steps};
use std::sync::ledger::Ledger;
use test_lang::op::Op;
use test_lang::test::{MAX_THREADS, Test};

/// Room for the edges of a load of any test.
const MOST_LOAD_EDGES: usize = 3 + MAX_THREADS as usize;

/// Writes an edge behind the first `count` ones, and returns their number with it. Where `is_there` is false it is written all the same, but not
/// counted, so that this doesn't branch: which store a load gives is up to chance.
fn put(out: &mut [(u32, u32)], count: usize, edge: (u32, u32), is_there: bool) -> usize
    requires { count < length out.old }
    ensures put { take result out.new
        ≡ take count out.old ++ (if is_there then edge ∷ [] else []) }
    ensures few { result ≤ count + 1 }
{
    out[count] = edge;
    count + usize::from(is_there)
}

/// The word of a load.
fn word_of(test: &Test, load: u32) -> u32
    requires { IsTrue (is_load_at test.now load) }
    ensures word { op_at test.now load ≡ Some (Op.Load result) }
    ensures below { result < test.now.words }
{
    match test.op(load) {
        Op::Load { word } => word,
        _ => unreachable!(),
    }
}

impl Static {
    /// Writes the edges of a load that gives the initial value behind the first `count` ones, and returns their number with these.
    fn put_first_stores(&self, load: u32, out: &mut [(u32, u32)], mut count: usize) -> usize
        requires load { IsTrue (is_load_at self.now.test load) }
        requires room { count + length self.now.test.threads ≤ length out.old }
        ensures put { take result out.new
            ≡ take count out.old ++ edges_to_first_stores self.now.test load }
        ensures few { result ≤ count + length self.now.test.threads }
    {
        let word = word_of(&self.test, load) as usize;
        let starts = &self.first_stores.starts;
        let (start, end) = (starts[word] as usize, starts[word + 1] as usize);
        for store in &self.first_stores.stores[start..end] {
            count = put(out, count, (load, *store), true);
        }
        count
    }

    /// The same for a load that gives the value of a store.
    fn put_by_store(&self, load: u32, store: u32, out: &mut [(u32, u32)], count: usize) -> usize
        requires load { load < op_count self.now.test }
        requires store { store < op_count self.now.test }
        requires room { count + 3 ≤ length out.old }
        ensures put { take result out.new
            ≡ take count out.old ++ edges_by_store self.now.test load (Some store) }
        ensures few { result ≤ count + 3 }
    {
        let is_other = self.test.thread_of(store) != self.test.thread_of(load);
        let next = self.next_stores[store as usize];
        let base = self.base_stores[load as usize];
        let count = put(out, count, (store, load), is_other);
        // Where there is no such store, any node will do.
        let to = next.unwrap_or(load);
        let from = base.unwrap_or(load);
        let count = put(out, count, (load, to), is_other & next.is_some());
        put(out, count, (from, store), is_other & base.is_some())
    }

    /// Writes the few edges of a load, by its rank, behind the first `count` ones, and returns their number with these. The edges lead from the store
    /// of another thread that the load gives, to the first stores that are known to be later than what it gives, and to that store from the load's base
    /// store.
    pub(super) fn put_load(
        &self,
        run: &[u32],
        rank: u32,
        out: &mut [(u32, u32)],
        count: usize,
    ) -> usize
        requires inside { IsInside self.now.test run.now }
        requires rank { rank < load_count self.now.test }
        requires room { count + load_edge_room self.now.test ≤ length out.old }
        ensures put { take result out.new ≡ take count out.old
            ++ edges_of_load self.now.test run.now (slice_index (load_nodes self.now.test) rank) }
        ensures few { result ≤ count + load_edge_room self.now.test }
    {
        let load = self.test.load_at(rank);
        let value = run[rank as usize];
        if value == 0 {
            self.put_first_stores(load, out, count)
        } else {
            self.put_by_store(load, self.test.store_of(value), out, count)
        }
    }

    /// Empties the list and puts the few edges of a load there, by its rank: from the store of another thread that it gives, to the first stores
    /// that are known to be later than what it gives, and to that store from the load's base store. It ticks once for each edge.
    pub fn dynamic_into<L: Ledger>(
        &self,
        run: &[u32],
        rank: u32,
        out: &mut Edges,
        steps: &mut Steps<L>,
    )
        requires inside { IsInside self.now.test run.now }
        requires rank { rank < load_count self.now.test }
        requires room { load_edge_room self.now.test ≤ out.old.room }
        ensures edges { out.new
            ≡ record out.old {
              list = edges_of_load self.now.test run.now
                  (slice_index (load_nodes self.now.test) rank);
            } }
        ensures few { length out.new.list ≤ load_edge_room self.now.test }
        ensures ticks { steps.new ≡ steps.old + length out.new.list }
    {
        // The prover is told how many threads there may be.
        let _threads = self.threads();
        let mut edges = [(0u32, 0u32); MOST_LOAD_EDGES];
        let count = self.put_load(run, rank, &mut edges, 0);
        out.clear();
        for edge in &edges[..count] {
            let (from, to) = *edge;
            out.push(from, to);
        }
        steps.tick_times(count as u64);
    }
}
