//! Checking signatures by several workers.
ghost use Rattle.std.specs.Prelude.{◌≡◌, ℕ, ◌<◌, ◌≤◌, All, List, IfOk, length, vec_len};
ghost use Rattle.std.specs.List.{AllZip};
ghost use Rattle.test_lang.specs.Signatures.{Means};
ghost use Rattle.chunk_pool.specs.Chunks.{IsWorkInChunks};
ghost use Rattle.chunk_pool.specs.Tasks.{AreShares, IsShareOf, IsTask};
ghost use Rattle.chunk_pool.specs.Verdicts.{IsJudged};

use crate::checked::Checked;
use crate::gather::gather;
use crate::share::Share;
use crate::task::Task;
use crate::walker::share_of;
use graph_model::Static;
use mt_base::Gate;
use signature_plan::Plan;
use std::alloc::{AllocError, Global};
use std::thread::{self, Threads};
use tally::Signature;
use test_lang::op::MemModel;
use test_lang::test::Test;

/// The share of each worker, by a thread of its own where one can be made.
fn shares_of<R: Threads + Sync, G: Gate + Sync>(
    rt: &R,
    alloc: Global,
    task: &Task<'_>,
    gate: &G,
) -> Result<Vec<Result<Share, AllocError>>, AllocError>
    requires { IsTask task.now }
    ensures len { IfOk result (λ shares. vec_len shares ≡ task.now.workers) }
    ensures each { IfOk result (λ shares. AreShares task.now shares.items) }
{
    thread::map_indices(
        rt,
        alloc,
        task.workers,
        &|worker: usize| -> Result<Share, AllocError>
            requires { (worker < task.now.workers) × IsTask task.now }
            ensures { IfOk result (IsShareOf task.entry.now worker) }
        { share_of(alloc, task, worker, gate) },
    )
}

/// The verdict on each signature, in their order, and the work. The signatures are cut into chunks of this size, of which the last may be shorter.
/// Worker `w` walks the chunks `w`, `w + workers` and so on, each from no base, and calls `gate.at(w, 0)` once at its start, also where it has no chunk.
/// The error is want of memory.
pub fn check_all<R: Threads + Sync, G: Gate + Sync>(
    rt: &R,
    alloc: Global,
    test: &Test,
    plan: &Plan,
    model: MemModel,
    signatures: &[Signature],
    chunk: u32,
    workers: u32,
    gate: &G,
) -> Result<Checked, AllocError>
    requires plan { plan.now ≡ test.now }
    requires few { length signatures.now ≤ 1000000 }
    requires meant { All (λ words. (run : List ℕ) × Means test.now words run) signatures.now }
    requires chunk { 1 ≤ chunk }
    requires some_worker { 1 ≤ workers }
    requires few_workers { workers ≤ 64 }
    ensures found { IfOk result (λ checked. AllZip (IsJudged model test.now) signatures.now checked.found.items) }
    ensures work { IfOk result (λ checked. IsWorkInChunks model test.now chunk signatures.now checked.work) }
{
    let fixed = Static::of(alloc, test, model)?;
    let task = Task {
        plan,
        fixed: &fixed,
        signatures,
        chunk: chunk as usize,
        workers: workers as usize,
    };
    let shares = shares_of(rt, alloc, &task, gate)?;
    gather(alloc, signatures.len(), task.chunks(), shares)
}
