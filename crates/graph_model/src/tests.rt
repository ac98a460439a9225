//! Kept pairs and edges of worked tests and runs, all of them and the few. What makes the calls answers whether they agree, so that the tests carry no clauses of theirs.
ghost use Rattle.std.specs.Prelude.{◌≡◌, ◌<◌, ◌≤◌, ◌+◌, [], ◌∷◌, length, take, IfOk};
ghost use Rattle.test_lang.specs.Litmus.{own_stores_and_other, store_buffering, store_load_each, two_stores_two_loads, message_passing_fences, message_passing_partial_fences};
ghost use Rattle.test_lang.specs.Runs.{IsInside};
ghost use Rattle.test_lang.specs.Values.{load_count};
ghost use Rattle.graph_model.specs.LoadEdges.{load_edge_room};
ghost use Rattle.graph_model.specs.StaticGraph.{run_edge_room};

use crate::{Full, Static, edge, kept};
use digraph::{Edges, Graph, Pairs as _, Steps};
use std::alloc::{AllocError, Global};
use std::marker::Brand;
use std::sync::ledger::{Blank, Ledger};
use std::test::Fail;
use test_lang::op::{Action, FenceKind, MemModel, Op};
use test_lang::test::Test;
use test_lang::text::fault::TestFault;

type Pairs = &'static [(u32, u32)];

/// Whether a model keeps exactly these pairs, and a run adds exactly these edges to them.
fn agrees(test: &Test, model: MemModel, pairs: Pairs, run: &[u32], adds: Pairs) -> bool
    requires { IsInside test.now run.now }
{
    let nodes = test.ops();
    for from in 0..nodes {
        for to in 0..nodes {
            let in_thread = pairs.contains(&(from, to));
            let in_run = in_thread || adds.contains(&(from, to));
            if kept(test, model, from, to) != in_thread
                || edge(test, model, run, from, to) != in_run
            {
                return false;
            }
        }
    }
    true
}

/// Whether each model keeps exactly its pairs, and the run adds exactly these edges under each of them.
fn all_agree(test: &Test, keeps: &[(MemModel, Pairs)], run: &[u32], adds: Pairs) -> bool
    requires { IsInside test.now run.now }
{
    for (model, pairs) in keeps {
        if !agrees(test, *model, pairs, run, adds) {
            return false;
        }
    }
    true
}

/// Each thread stores to one word and loads the other.
fn buffering(alloc: Global) -> Result<Test, AllocError>
    ensures { IfOk result (λ t. t ≡ store_buffering) }
{
    let mut test = Test::new(alloc, 2);
    test.add_thread()?;
    test.add_op(Op::Store { word: 0 })?;
    test.add_op(Op::Load { word: 1 })?;
    test.add_thread()?;
    test.add_op(Op::Store { word: 1 })?;
    test.add_op(Op::Load { word: 0 })?;
    Ok(test)
}

const BUFFERING_KEEPS: [(MemModel, Pairs); 4] = [
    (MemModel::Sc, &[(0, 1), (2, 3)]),
    (MemModel::Tso, &[]),
    (MemModel::Pso, &[]),
    (MemModel::Weak, &[]),
];

#[test]
fn store_buffering(rt: HostRuntime) -> Result<(), Fail> {
    let test = buffering(rt.alloc())?;
    assert!(rt; all_agree(&test, &BUFFERING_KEEPS, &[0, 0], &[(1, 2), (3, 0)]));
    assert!(rt; all_agree(&test, &BUFFERING_KEEPS, &[0, 1], &[(1, 2), (0, 3)]));
    assert!(rt; all_agree(&test, &BUFFERING_KEEPS, &[2, 0], &[(2, 1), (3, 0)]));
    assert!(rt; all_agree(&test, &BUFFERING_KEEPS, &[2, 1], &[(2, 1), (0, 3)]));
    Ok(())
}

/// Two stores of one thread against two loads of another.
fn stores_against_loads(alloc: Global) -> Result<Test, AllocError>
    ensures { IfOk result (λ t. t ≡ two_stores_two_loads) }
{
    let mut test = Test::new(alloc, 1);
    test.add_thread()?;
    test.add_op(Op::Store { word: 0 })?;
    test.add_op(Op::Store { word: 0 })?;
    test.add_thread()?;
    test.add_op(Op::Load { word: 0 })?;
    test.add_op(Op::Load { word: 0 })?;
    Ok(test)
}

const STORES_AND_LOADS_KEEP: [(MemModel, Pairs); 4] = [
    (MemModel::Sc, &[(0, 1), (2, 3)]),
    (MemModel::Tso, &[(0, 1), (2, 3)]),
    (MemModel::Pso, &[(0, 1), (2, 3)]),
    (MemModel::Weak, &[(0, 1), (2, 3)]),
];

#[test]
fn each_later_store_of_the_thread_is_known_to_be_later(rt: HostRuntime) -> Result<(), Fail> {
    let test = stores_against_loads(rt.alloc())?;
    assert!(rt;
        all_agree(
            &test,
            &STORES_AND_LOADS_KEEP,
            &[2, 1],
            &[(1, 2), (0, 3), (3, 1)]
        )
    );
    assert!(rt;
        all_agree(
            &test,
            &STORES_AND_LOADS_KEEP,
            &[0, 2],
            &[(2, 0), (2, 1), (1, 3)]
        )
    );
    Ok(())
}

/// Two stores with a fence between them, and two loads with a fence between them.
fn passing_behind_fences(alloc: Global) -> Result<Test, AllocError>
    ensures { IfOk result (λ t. t ≡ message_passing_fences) }
{
    let mut test = Test::new(alloc, 2);
    test.add_thread()?;
    test.add_op(Op::Store { word: 0 })?;
    test.add_op(Op::Fence)?;
    test.add_op(Op::Store { word: 1 })?;
    test.add_thread()?;
    test.add_op(Op::Load { word: 1 })?;
    test.add_op(Op::Fence)?;
    test.add_op(Op::Load { word: 0 })?;
    Ok(test)
}

const FENCES_KEEP: [(MemModel, Pairs); 4] = [
    (
        MemModel::Sc,
        &[(0, 1), (0, 2), (1, 2), (3, 4), (3, 5), (4, 5)],
    ),
    (
        MemModel::Tso,
        &[(0, 1), (0, 2), (1, 2), (3, 4), (3, 5), (4, 5)],
    ),
    (MemModel::Pso, &[(0, 1), (1, 2), (3, 4), (3, 5), (4, 5)]),
    (MemModel::Weak, &[(0, 1), (1, 2), (3, 4), (4, 5)]),
];

/// Two stores with a store fence between them, and two loads with a load fence between them. Each model keeps what it keeps with full fences.
fn passing_behind_partial_fences(alloc: Global) -> Result<Test, AllocError>
    ensures { IfOk result (λ t. t ≡ message_passing_partial_fences) }
{
    let mut test = Test::new_version(alloc, 2, 2);
    test.add_thread()?;
    test.add_op(Op::Store { word: 0 })?;
    test.add_fence(FenceKind::Store)?;
    test.add_op(Op::Store { word: 1 })?;
    test.add_thread()?;
    test.add_op(Op::Load { word: 1 })?;
    test.add_fence(FenceKind::Load)?;
    test.add_op(Op::Load { word: 0 })?;
    Ok(test)
}

#[test]
fn fences_are_kept(rt: HostRuntime) -> Result<(), Fail> {
    let test = passing_behind_fences(rt.alloc())?;
    assert!(rt; all_agree(&test, &FENCES_KEEP, &[2, 0], &[(2, 3), (5, 0)]));
    let test = passing_behind_partial_fences(rt.alloc())?;
    assert!(rt; all_agree(&test, &FENCES_KEEP, &[2, 0], &[(2, 3), (5, 0)]));
    Ok(())
}

/// Each of two threads stores to the one word and then loads it.
fn stores_and_loads(alloc: Global) -> Result<Test, AllocError>
    ensures { IfOk result (λ t. t ≡ store_load_each) }
{
    let mut test = Test::new(alloc, 1);
    test.add_thread()?;
    test.add_op(Op::Store { word: 0 })?;
    test.add_op(Op::Load { word: 0 })?;
    test.add_thread()?;
    test.add_op(Op::Store { word: 0 })?;
    test.add_op(Op::Load { word: 0 })?;
    Ok(test)
}

const STORE_LOAD_EACH_KEEPS: [(MemModel, Pairs); 4] = [
    (MemModel::Sc, &[(0, 1), (2, 3)]),
    (MemModel::Tso, &[]),
    (MemModel::Pso, &[]),
    (MemModel::Weak, &[]),
];

/// A load that gives the other thread's store tells that its own thread's store came before that one; a load that gives its own store tells nothing.
#[test]
fn own_stores_come_before_stores_that_are_read(rt: HostRuntime) -> Result<(), Fail> {
    let test = stores_and_loads(rt.alloc())?;
    assert!(rt;
        all_agree(
            &test,
            &STORE_LOAD_EACH_KEEPS,
            &[2, 1],
            &[(2, 1), (0, 3), (0, 2), (2, 0)]
        )
    );
    assert!(rt; all_agree(&test, &STORE_LOAD_EACH_KEEPS, &[2, 2], &[(2, 1), (0, 2)]));
    assert!(rt; all_agree(&test, &STORE_LOAD_EACH_KEEPS, &[1, 2], &[]));
    Ok(())
}

/// A load behind two stores of its own thread, and a store of another.
fn last_own_store(alloc: Global) -> Result<Test, AllocError>
    ensures { IfOk result (λ t. t ≡ own_stores_and_other) }
{
    let mut test = Test::new(alloc, 1);
    test.add_thread()?;
    test.add_op(Op::Store { word: 0 })?;
    test.add_op(Op::Store { word: 0 })?;
    test.add_op(Op::Load { word: 0 })?;
    test.add_thread()?;
    test.add_op(Op::Store { word: 0 })?;
    Ok(test)
}

const LAST_OWN_STORE_KEEPS: [(MemModel, Pairs); 1] = [(MemModel::Weak, &[(0, 1)])];

#[test]
fn last_own_store_comes_before(rt: HostRuntime) -> Result<(), Fail> {
    let test = last_own_store(rt.alloc())?;
    assert!(rt; all_agree(&test, &LAST_OWN_STORE_KEEPS, &[3], &[(3, 2), (1, 3)]));
    Ok(())
}

/// Each thread stores to a word, and loads this word and then the other.
fn loads_behind_own_stores(alloc: Global) -> Result<Test, AllocError>
    ensures { IfOk result (λ t. t ≡ record {
      version = 1;
      words = 2;
      threads = (Action.Store 0 ∷ Action.Load 0 ∷ Action.Load 1 ∷ [])
          ∷ (Action.Store 1 ∷ Action.Load 1 ∷ Action.Load 0 ∷ []) ∷ [];
    }) }
{
    let mut test = Test::new(alloc, 2);
    test.add_thread()?;
    test.add_op(Op::Store { word: 0 })?;
    test.add_op(Op::Load { word: 0 })?;
    test.add_op(Op::Load { word: 1 })?;
    test.add_thread()?;
    test.add_op(Op::Store { word: 1 })?;
    test.add_op(Op::Load { word: 1 })?;
    test.add_op(Op::Load { word: 0 })?;
    Ok(test)
}

const OWN_STORES_KEEP: [(MemModel, Pairs); 4] = [
    (
        MemModel::Sc,
        &[(0, 1), (0, 2), (1, 2), (3, 4), (3, 5), (4, 5)],
    ),
    (MemModel::Tso, &[(1, 2), (4, 5)]),
    (MemModel::Pso, &[(1, 2), (4, 5)]),
    (MemModel::Weak, &[]),
];

/// Under `tso` a store isn't kept before a later load, of its own word neither. So this run has an order under `tso`; under `sc` its edges
/// go round, by 0, 2, 3 and 5.
#[test]
fn tso_lets_loads_pass_own_stores_of_their_word(rt: HostRuntime) -> Result<(), Fail> {
    let test = loads_behind_own_stores(rt.alloc())?;
    assert!(rt; all_agree(&test, &OWN_STORES_KEEP, &[1, 0, 2, 0], &[(2, 3), (5, 0)]));
    Ok(())
}

fn dynamic_counted<L: Ledger>(fixed: &Static, run: &[u32], rank: u32, out: &mut Edges, blank: Blank)
    requires inside { IsInside fixed.now.test run.now }
    requires rank { rank < load_count fixed.now.test }
    requires room { load_edge_room fixed.now.test ≤ out.old.room }
    requires name { blank.name ≡ L.name }
    requires parts { blank.parts ≡ L.parts }
    requires some { 0 < blank.parts }
{
    let mut steps = Steps::<L>::new(blank);
    fixed.dynamic_into(run, rank, out, &mut steps);
}

fn dynamic(alloc: Global, fixed: &Static, run: &[u32], rank: u32) -> Result<Edges, AllocError>
    requires inside { IsInside fixed.now.test run.now }
    requires rank { rank < load_count fixed.now.test }
{
    let mut out = Edges::with_room(alloc, fixed.load_edge_room())?;
    dynamic_counted::<Brand>(fixed, run, rank, &mut out, Blank::new(1));
    Ok(out)
}

/// Whether the loads have exactly these few edges, by rank.
fn loads_agree(alloc: Global, test: &Test, run: &[u32], want: &[Pairs]) -> Result<bool, AllocError>
    requires { IsInside test.now run.now }
{
    let fixed = Static::of(alloc, test, MemModel::Weak)?;
    if want.len() != fixed.loads() as usize || fixed.threads() != test.threads() {
        return Ok(false);
    }
    for rank in 0..fixed.loads() {
        let out = dynamic(alloc, &fixed, run, rank)?;
        if out.list() != want[rank as usize] {
            return Ok(false);
        }
    }
    Ok(true)
}

/// Three threads, of which two store to the word that the other one loads.
fn stores_on_both_sides(alloc: Global) -> Result<Test, AllocError>
    ensures { IfOk result (λ t. t ≡ record {
      version = 1;
      words = 1;
      threads = (Action.Store 0 ∷ Action.Store 0 ∷ []) ∷ (Action.Load 0 ∷ [])
          ∷ (Action.Store 0 ∷ []) ∷ [];
    }) }
{
    let mut test = Test::new(alloc, 1);
    test.add_thread()?;
    test.add_op(Op::Store { word: 0 })?;
    test.add_op(Op::Store { word: 0 })?;
    test.add_thread()?;
    test.add_op(Op::Load { word: 0 })?;
    test.add_thread()?;
    test.add_op(Op::Store { word: 0 })?;
    Ok(test)
}

fn buffering_agrees(alloc: Global) -> Result<bool, AllocError> {
    let test = buffering(alloc)?;
    loads_agree(alloc, &test, &[0, 1], &[&[(1, 2)], &[(0, 3)]])
}

fn stores_against_loads_agree(alloc: Global) -> Result<bool, AllocError> {
    let test = stores_against_loads(alloc)?;
    loads_agree(alloc, &test, &[1, 2], &[&[(0, 2), (2, 1)], &[(1, 3)]])
}

fn loads_behind_own_stores_agree(alloc: Global) -> Result<bool, AllocError> {
    let test = loads_behind_own_stores(alloc)?;
    loads_agree(
        alloc,
        &test,
        &[1, 0, 2, 0],
        &[&[], &[(2, 3)], &[], &[(5, 0)]],
    )
}

fn stores_and_loads_agree(alloc: Global) -> Result<bool, AllocError> {
    let test = stores_and_loads(alloc)?;
    loads_agree(
        alloc,
        &test,
        &[2, 1],
        &[&[(2, 1), (0, 2)], &[(0, 3), (2, 0)]],
    )
}

fn stores_on_both_sides_agree(alloc: Global) -> Result<bool, AllocError> {
    let test = stores_on_both_sides(alloc)?;
    loads_agree(alloc, &test, &[0], &[&[(2, 0), (2, 3)]])
}

#[test]
fn few_edges_of_loads(rt: HostRuntime) -> Result<(), Fail> {
    assert!(rt; buffering_agrees(rt.alloc())?);
    assert!(rt; stores_against_loads_agree(rt.alloc())?);
    assert!(rt; loads_behind_own_stores_agree(rt.alloc())?);
    assert!(rt; stores_and_loads_agree(rt.alloc())?);
    assert!(rt; stores_on_both_sides_agree(rt.alloc())?);
    Ok(())
}

fn fill_counted<L: Ledger>(
    fixed: &Static,
    run: &[u32],
    graph: &mut Graph,
    out: &mut [(u32, u32)],
    blank: Blank,
)
    requires inside { IsInside fixed.now.test run.now }
    requires nodes { graph.old.nodes ≡ fixed.now.graph.nodes }
    requires begins { take (length fixed.now.graph.edges) graph.old.edges ≡ fixed.now.graph.edges }
    requires room { length fixed.now.graph.edges + run_edge_room fixed.now.test ≤ graph.old.room }
    requires out_room { run_edge_room fixed.now.test
        ≤ length out.old }
    requires name { blank.name ≡ L.name }
    requires parts { blank.parts ≡ L.parts }
    requires some { 0 < blank.parts }
    ensures nodes { graph.new.nodes ≡ fixed.now.graph.nodes }
    ensures begins { take (length fixed.now.graph.edges) graph.new.edges ≡ fixed.now.graph.edges }
    ensures room { length fixed.now.graph.edges + run_edge_room fixed.now.test ≤ graph.new.room }
{
    let mut steps = Steps::<L>::new(blank);
    fixed.run_into(run, graph, out, &mut steps);
}

fn fill(fixed: &Static, run: &[u32], graph: &mut Graph, out: &mut [(u32, u32)])
    requires inside { IsInside fixed.now.test run.now }
    requires nodes { graph.old.nodes ≡ fixed.now.graph.nodes }
    requires begins { take (length fixed.now.graph.edges) graph.old.edges ≡ fixed.now.graph.edges }
    requires room { length fixed.now.graph.edges + run_edge_room fixed.now.test ≤ graph.old.room }
    requires out_room { run_edge_room fixed.now.test
        ≤ length out.old }
    ensures nodes { graph.new.nodes ≡ fixed.now.graph.nodes }
    ensures begins { take (length fixed.now.graph.edges) graph.new.edges ≡ fixed.now.graph.edges }
    ensures room { length fixed.now.graph.edges + run_edge_room fixed.now.test ≤ graph.new.room }
{
    fill_counted::<Brand>(fixed, run, graph, out, Blank::new(1));
}

/// Makes the graph that of a run, and answers whether it has these edges.
fn run_agrees(
    alloc: Global,
    fixed: &Static,
    run: &[u32],
    graph: &mut Graph,
    want: Pairs,
) -> Result<bool, AllocError>
    requires inside { IsInside fixed.now.test run.now }
    requires nodes { graph.old.nodes ≡ fixed.now.graph.nodes }
    requires begins { take (length fixed.now.graph.edges) graph.old.edges ≡ fixed.now.graph.edges }
    requires room { length fixed.now.graph.edges + run_edge_room fixed.now.test ≤ graph.old.room }
    ensures nodes { graph.new.nodes ≡ fixed.now.graph.nodes }
    ensures begins { take (length fixed.now.graph.edges) graph.new.edges ≡ fixed.now.graph.edges }
    ensures room { length fixed.now.graph.edges + run_edge_room fixed.now.test ≤ graph.new.room }
{
    let mut out = vec![in alloc; (0u32, 0u32); fixed.run_edge_room() as usize]?;
    fill(fixed, run, graph, &mut out);
    Ok(edges_of(alloc, graph)?.as_slice() == want)
}

/// Whether the graph of a run has these edges, and then that of another, made of the first one. In a test of two operations a thread their few edges
/// are all.
fn graphs_agree(
    alloc: Global,
    fixed: &Static,
    first: &[u32],
    of_first: Pairs,
    second: &[u32],
    of_second: Pairs,
) -> Result<bool, AllocError>
    requires first { IsInside fixed.now.test first.now }
    requires second { IsInside fixed.now.test second.now }
{
    let mut graph = fixed.graph_for_runs(alloc)?;
    let first_agrees = run_agrees(alloc, fixed, first, &mut graph, of_first)?;
    let second_agrees = run_agrees(alloc, fixed, second, &mut graph, of_second)?;
    Ok(first_agrees && second_agrees)
}

/// The same, and whether all edges of the second run are these.
fn all_graphs_agree(
    alloc: Global,
    test: &Test,
    first: &[u32],
    second: &[u32],
) -> Result<bool, AllocError>
    requires first { IsInside test.now first.now }
    requires second { IsInside test.now second.now }
{
    let fixed = Static::of(alloc, test, MemModel::Sc)?;
    let graphs_agree = graphs_agree(alloc, &fixed, first, OF_FIRST, second, OF_SECOND)?;
    Ok(graphs_agree && full_agrees(alloc, &fixed.full(second), OF_SECOND)?)
}

/// Whether a graph has exactly these edges: as its test tells them, and as the nodes tell that get a mark as sources of each node.
fn full_agrees(alloc: Global, full: &Full<'_>, edges: Pairs) -> Result<bool, AllocError> {
    let nodes = full.nodes();
    for to in 0..nodes {
        let mut marks = vec![in alloc; 0; nodes as usize]?;
        full.mark_sources(to, 1, &mut marks);
        for from in 0..nodes {
            let want = edges.contains(&(from, to));
            let mark = u32::from(want);
            if full.edge(from, to) != want || marks.get(from as usize) != Some(&mark) {
                return Ok(false);
            }
        }
    }
    Ok(true)
}

const OF_FIRST: Pairs = &[(0, 1), (2, 3), (1, 2), (0, 3)];

const OF_SECOND: Pairs = &[(0, 1), (2, 3), (2, 1), (3, 0)];

#[test]
fn graphs_of_runs(rt: HostRuntime) -> Result<(), Fail> {
    let test = buffering(rt.alloc())?;
    assert!(rt; all_graphs_agree(rt.alloc(), &test, &[0, 1], &[2, 0])?);
    Ok(())
}

fn edges_of(alloc: Global, graph: &Graph) -> Result<Vec<(u32, u32)>, AllocError> {
    let mut edges = Vec::new(alloc);
    for edge in 0..graph.edges() {
        edges.push((graph.source(edge), graph.target(edge)))?;
    }
    Ok(edges)
}

/// Loads, stores and fences of two words.
const MIXED: &[u8] =
    b"mtest 1\nwords 2\nthread\nst 0\nld 0\nst 0\nld 1\nfence\nld 0\nst 1\nthread\nld 0\nst 0\nst 0\nend\n";

fn read_test(alloc: Global, text: &[u8]) -> Result<Test, TestFault> {
    Ok(Test::read(alloc, text)?.test)
}

/// The few pairs that each model keeps of it.
const MIXED_ROWS: [(MemModel, Pairs); 4] = [
    (
        MemModel::Sc,
        &[
            (0, 1),
            (1, 2),
            (2, 3),
            (3, 4),
            (4, 5),
            (5, 6),
            (7, 8),
            (8, 9),
        ],
    ),
    (
        MemModel::Tso,
        &[
            (1, 2),
            (0, 2),
            (1, 3),
            (3, 4),
            (2, 4),
            (4, 5),
            (5, 6),
            (2, 6),
            (7, 8),
            (7, 9),
            (8, 9),
        ],
    ),
    (
        MemModel::Pso,
        &[
            (1, 2),
            (0, 2),
            (1, 3),
            (3, 4),
            (4, 5),
            (5, 6),
            (7, 8),
            (7, 9),
            (8, 9),
            (2, 4),
            (0, 4),
        ],
    ),
    (
        MemModel::Weak,
        &[
            (1, 2),
            (0, 2),
            (1, 5),
            (4, 5),
            (3, 6),
            (4, 6),
            (7, 8),
            (7, 9),
            (8, 9),
            (3, 4),
            (2, 4),
            (1, 4),
            (0, 4),
        ],
    ),
];

/// The same with fences of all kinds.
const MIXED_FENCES: &[u8] =
    b"mtest 2\nwords 2\nthread\nst 0\nfence st\nst 1\nld 0\nfence ld\nst 0\nfence\nld 1\nfence st\nst 1\nthread\nld 0\nfence ld\nld 1\nst 1\nst 0\nfence st\nend\n";

const MIXED_FENCES_ROWS: [(MemModel, Pairs); 4] = [
    (
        MemModel::Sc,
        &[
            (0, 1),
            (1, 2),
            (2, 3),
            (3, 4),
            (4, 5),
            (5, 6),
            (6, 7),
            (7, 8),
            (8, 9),
            (10, 11),
            (11, 12),
            (12, 13),
            (13, 14),
            (14, 15),
        ],
    ),
    (
        MemModel::Tso,
        &[
            (0, 1),
            (1, 2),
            (3, 4),
            (4, 5),
            (2, 5),
            (4, 6),
            (5, 6),
            (6, 7),
            (7, 8),
            (5, 8),
            (7, 9),
            (8, 9),
            (10, 11),
            (11, 12),
            (12, 13),
            (12, 14),
            (13, 14),
            (12, 15),
            (14, 15),
        ],
    ),
    (
        MemModel::Pso,
        &[
            (1, 2),
            (3, 4),
            (4, 5),
            (0, 5),
            (1, 5),
            (4, 6),
            (6, 7),
            (7, 8),
            (7, 9),
            (2, 9),
            (8, 9),
            (10, 11),
            (11, 12),
            (12, 13),
            (12, 14),
            (12, 15),
            (14, 15),
            (13, 15),
            (5, 6),
            (2, 6),
            (1, 6),
            (0, 1),
        ],
    ),
    (
        MemModel::Weak,
        &[
            (1, 2),
            (3, 5),
            (0, 5),
            (1, 5),
            (4, 6),
            (1, 6),
            (6, 7),
            (6, 8),
            (7, 9),
            (2, 9),
            (8, 9),
            (11, 12),
            (12, 13),
            (10, 14),
            (14, 15),
            (13, 15),
            (10, 11),
            (5, 6),
            (3, 4),
            (2, 6),
            (0, 1),
        ],
    ),
];

/// Whether each model keeps exactly these few pairs of the test that a text has.
fn few_agree(alloc: Global, text: &[u8], rows: &[(MemModel, Pairs)]) -> Result<bool, TestFault> {
    let test = read_test(alloc, text)?;
    for (model, want) in rows {
        let fixed = Static::of(alloc, &test, *model)?;
        if edges_of(alloc, fixed.graph())?.as_slice() != *want {
            return Ok(false);
        }
    }
    Ok(true)
}

#[test]
fn few_kept_pairs(rt: HostRuntime) -> Result<(), Fail> {
    assert!(rt; few_agree(rt.alloc(), MIXED, &MIXED_ROWS)?);
    assert!(rt; few_agree(rt.alloc(), MIXED_FENCES, &MIXED_FENCES_ROWS)?);
    Ok(())
}
