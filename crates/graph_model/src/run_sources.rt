//! The nodes from which an edge of a run leads to a node. An edge comes from an earlier operation of the node's own thread, or it leads from the
//! store to a load that gives its value, or from a load to a store of its word, or from the base store of a load to the store that the load gives.
ghost use Rattle.std.specs.Prelude.{◌≡◌, ◌<◌, ◌&&◌, ◌||◌, IsTrue, length, Some};
ghost use Rattle.test_lang.specs.EdgeList.{is_base_store, is_before_any, is_before_later, is_reads_from, is_written_before};
ghost use Rattle.test_lang.specs.Edges.{Edge};
ghost use Rattle.test_lang.specs.Kept.{is_kept};
ghost use Rattle.test_lang.specs.Program.{op_at, op_count};
ghost use Rattle.test_lang.specs.Runs.{IsInside};
ghost use Rattle.test_lang.specs.Values.{is_load_at, is_store, is_store_at};
ghost use Rattle.digraph.specs.Marks.{MarksSources, MarksWhere};
ghost use Rattle.graph_model.specs.StoreTables.{HasBaseStores};
ghost use Rattle.graph_model.specs.WordLoads.{TellsWordLoads};

use crate::kept_order::kept;
use crate::kinds::Kind;
use crate::run_edges::{comes_before, value_of_load};
use crate::word_loads::WordLoads;
use test_lang::op::{MemModel, Op};
use test_lang::test::Test;

/// Gives the mark to the operations that are kept before a node: they are earlier ones of its thread.
fn mark_kept(test: &Test, model: MemModel, to: u32, mark: u32, marks: &mut [u32])
    requires to { to < op_count test.now }
    requires marks { length marks.old ≡ op_count test.now }
    ensures { MarksWhere (λ a. IsTrue (is_kept model test.now a to)) mark marks.old marks.new }
{
    for node in test.first_of(test.thread_of(to))..to {
        if marks[node as usize] == 0 && kept(test, model, node, to) {
            marks[node as usize] = mark;
        }
    }
}

/// Gives the mark to a node.
fn mark_node(node: u32, mark: u32, marks: &mut [u32])
    requires { node < length marks.old }
    ensures { MarksWhere (λ a. a ≡ node) mark marks.old marks.new }
{
    if marks[node as usize] == 0 {
        marks[node as usize] = mark;
    }
}

/// Gives the mark to the store of another thread whose value a load gives, if it gives one.
fn mark_store_read(test: &Test, run: &[u32], load: u32, mark: u32, marks: &mut [u32])
    requires inside { IsInside test.now run.now }
    requires load { IsTrue (is_load_at test.now load) }
    requires node { load < op_count test.now }
    requires marks { length marks.old ≡ op_count test.now }
    ensures { MarksWhere (λ a. IsTrue (is_reads_from test.now run.now a load)) mark marks.old marks.new }
{
    let value = value_of_load(test, run, load);
    if value == 0 {
        return;
    }
    let store = test.store_of(value);
    if test.thread_of(store) != test.thread_of(load) {
        mark_node(store, mark, marks);
    }
}

/// Gives the mark to a load, if it comes before the store.
fn mark_load(test: &Test, run: &[u32], load: u32, store: u32, mark: u32, marks: &mut [u32])
    requires inside { IsInside test.now run.now }
    requires load { load < op_count test.now }
    requires store { store < op_count test.now }
    requires marks { length marks.old ≡ op_count test.now }
    ensures { MarksWhere (λ a. (a ≡ load)
        × IsTrue (is_before_later test.now run.now a store || is_before_any test.now run.now a store)) mark marks.old marks.new }
{
    if marks[load as usize] == 0 && comes_before(test, run, load, store) {
        marks[load as usize] = mark;
    }
}

/// Gives the mark to the loads that come before a store: they are loads of its word.
fn mark_loads_before(
    test: &Test,
    run: &[u32],
    loads: &WordLoads,
    store: u32,
    mark: u32,
    marks: &mut [u32],
)
    requires inside { IsInside test.now run.now }
    requires loads { TellsWordLoads test.now loads.now }
    requires store { IsTrue (is_store_at test.now store) }
    requires node { store < op_count test.now }
    requires marks { length marks.old ≡ op_count test.now }
    ensures { MarksWhere (λ a. IsTrue (is_before_later test.now run.now a store || is_before_any test.now run.now a store))
        mark marks.old marks.new }
{
    let mut next = loads.last.of(Kind::LoadOfWord, test.action(store));
    while let Some(load) = next {
        mark_load(test, run, load, store, mark, marks);
        next = loads.before[load as usize];
    }
}

/// Gives the mark to the base store of a load, if it has one and gives the value of the store from another thread.
fn mark_base_store(
    test: &Test,
    run: &[u32],
    bases: &[Option<u32>],
    load: u32,
    store: u32,
    mark: u32,
    marks: &mut [u32],
)
    requires inside { IsInside test.now run.now }
    requires bases { HasBaseStores test.now bases.now }
    requires load { IsTrue (is_load_at test.now load) }
    requires store { IsTrue (is_store_at test.now store) }
    requires load_node { load < op_count test.now }
    requires store_node { store < op_count test.now }
    requires marks { length marks.old ≡ op_count test.now }
    ensures { MarksWhere (λ a. IsTrue (is_reads_from test.now run.now store load) × IsTrue (is_base_store test.now load a))
        mark marks.old marks.new }
{
    let Some(base) = bases[load as usize] else {
        return;
    };
    if value_of_load(test, run, load) == test.value_of(store)
        && test.thread_of(load) != test.thread_of(store)
    {
        mark_node(base, mark, marks);
    }
}

/// Gives the mark to the base stores of the loads of other threads that give the value of a store: they are loads of its word.
fn mark_base_stores(
    test: &Test,
    run: &[u32],
    loads: &WordLoads,
    bases: &[Option<u32>],
    store: u32,
    mark: u32,
    marks: &mut [u32],
)
    requires inside { IsInside test.now run.now }
    requires loads { TellsWordLoads test.now loads.now }
    requires bases { HasBaseStores test.now bases.now }
    requires store { IsTrue (is_store_at test.now store) }
    requires node { store < op_count test.now }
    requires marks { length marks.old ≡ op_count test.now }
    ensures { MarksWhere (λ a. IsTrue (is_written_before test.now run.now a store)) mark marks.old marks.new }
{
    let mut next = loads.last.of(Kind::LoadOfWord, test.action(store));
    while let Some(load) = next {
        mark_base_store(test, run, bases, load, store, mark, marks);
        next = loads.before[load as usize];
    }
}

/// Gives the mark to the nodes from which an edge leads to a node because of what loads give.
fn mark_by_loads(
    test: &Test,
    run: &[u32],
    loads: &WordLoads,
    bases: &[Option<u32>],
    to: u32,
    mark: u32,
    marks: &mut [u32],
)
    requires inside { IsInside test.now run.now }
    requires loads { TellsWordLoads test.now loads.now }
    requires bases { HasBaseStores test.now bases.now }
    requires to { to < op_count test.now }
    requires marks { length marks.old ≡ op_count test.now }
    ensures { MarksWhere (λ a. IsTrue (is_reads_from test.now run.now a to
        || (is_before_later test.now run.now a to
        || (is_before_any test.now run.now a to || is_written_before test.now run.now a to)))) mark marks.old marks.new }
{
    match test.op(to) {
        Op::Load { .. } => mark_store_read(test, run, to, mark, marks),
        Op::Store { .. } => {
            mark_loads_before(test, run, loads, to, mark, marks);
            mark_base_stores(test, run, loads, bases, to, mark, marks);
        }
        Op::Fence => {}
    }
}

/// Gives the mark to each node that has none and from which an edge of the run leads to the node.
pub(crate) fn mark_sources(
    test: &Test,
    model: MemModel,
    run: &[u32],
    loads: &WordLoads,
    bases: &[Option<u32>],
    to: u32,
    mark: u32,
    marks: &mut [u32],
)
    requires inside { IsInside test.now run.now }
    requires loads { TellsWordLoads test.now loads.now }
    requires bases { HasBaseStores test.now bases.now }
    requires to { to < op_count test.now }
    requires marks { length marks.old ≡ op_count test.now }
    ensures { MarksSources (Edge model test.now run.now) to mark marks.old marks.new }
{
    mark_kept(test, model, to, mark, marks);
    mark_by_loads(test, run, loads, bases, to, mark, marks);
}
