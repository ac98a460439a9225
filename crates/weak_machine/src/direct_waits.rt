//! The pairs of operations that tell which wait for which, without those that others tell.
ghost use Rattle.std.specs.Prelude.{◌≡◌, ◌*◌, ◌<◌, ◌≤◌, filter, length, sum_by, IfOk, OnOk};
ghost use Rattle.test_lang.specs.Program.{op_count, all_nodes};
ghost use Rattle.weak_machine.specs.Waiting.{waits_directly, direct_waits};

use crate::lists::Lists;
use crate::waiting::{waits_for, waits_for_any};
use std::alloc::{AllocError, Global};
use test_lang::target::Fault;
use test_lang::test::Test;

/// Lists the nodes that wait directly for node `a`, and all that wait for it.
fn list_waits(
    test: &Test,
    fault: Fault,
    a: u32,
    all: &mut Vec<u32>,
    direct: &mut Vec<u32>,
) -> Result<(), AllocError>
    requires node { a < op_count test.now }
    requires few { op_count test.now ≤ 2048 }
    ensures { OnOk result
        (direct.new.items ≡ filter (waits_directly fault test.now a) (all_nodes test.now)) }
{
    all.clear();
    direct.clear();
    let thread = test.thread_of(a);
    let end = test.first_of(thread) + test.len_of(thread);
    for b in a + 1..end {
        if waits_for(test, fault, a, b) {
            if !waits_for_any(test, fault, all, b) {
                direct.push(b)?;
            }
            all.push(b)?;
        }
    }
    Ok(())
}

/// For each node those that wait for it directly.
pub fn direct_waits(alloc: Global, test: &Test, fault: Fault) -> Result<Lists, AllocError>
    ensures direct { IfOk result (λ lists. lists ≡ direct_waits fault test.now) }
    ensures few { IfOk result (λ lists. sum_by length lists ≤ 2048 * 2048) }
{
    let mut lists = Lists::new(alloc)?;
    let mut all = Vec::new(alloc);
    let mut direct = Vec::new(alloc);
    for a in 0..test.ops() {
        list_waits(test, fault, a, &mut all, &mut direct)?;
        lists.push(&direct)?;
    }
    Ok(lists)
}
