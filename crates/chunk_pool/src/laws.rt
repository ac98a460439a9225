//! Laws of verdicts and of the work in chunks.
ghost use Rattle.std.specs.Prelude.{◌≡◌, ℕ, List, map};
ghost use Rattle.std.specs.List.{AllZip};
ghost use Rattle.test_lang.specs.declared.op.MemModel.{MemModel};
ghost use Rattle.test_lang.specs.Program.{Program};
ghost use Rattle.verdict_report.specs.declared.report.Judged.{Judged};
ghost use Rattle.verdict_report.specs.declared.report.Work.{Work};
ghost use Rattle.verdict_report.specs.Lines.{cycle_of};
ghost use Rattle.chunk_pool.specs.Chunks.{IsWorkInChunks};
ghost use Rattle.chunk_pool.specs.Verdicts.{IsJudged};

/// Signatures have one list of verdicts, whatever the chunks. So the workers and the chunks don't change what is found.
pub fn signatures_have_one_verdict_each()
    ensures { (m : MemModel) (p : Program) (signatures : List (List ℕ)) (found others : List Judged) →
        AllZip (IsJudged m p) signatures found → AllZip (IsJudged m p) signatures others →
        map cycle_of found ≡ map cycle_of others }
{}

/// Signatures in chunks of one size have one work. So the workers don't change what is counted.
pub fn chunks_have_one_work()
    ensures { (m : MemModel) (p : Program) (chunk : ℕ) (signatures : List (List ℕ)) (v w : Work) →
        IsWorkInChunks m p chunk signatures v → IsWorkInChunks m p chunk signatures w → v ≡ w }
{}
