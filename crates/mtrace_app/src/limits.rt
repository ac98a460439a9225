//! The limits on the runs of a test.
ghost use Rattle.std.specs.Prelude.{ℕ, ◌^◌, ◌<◌, ◌≤◌, IsTrue, ◌↔◌, OnOk, IfErr};
ghost use Rattle.mtrace_app.specs.Limits.{FitLimits, PassLimit};

use crate::refusal::Size;
use command_line::MAX_RUNS;

/// The most values that the runs of a test may have in all.
const MAX_VALUES: u64 = 67_108_864;

/// Whether so many runs of so many values each are within the limits.
pub(crate) fn fit_limits(runs: u64, loads: u64) -> bool
    requires runs { runs < 2 ^ 32 }
    requires loads { loads ≤ 2048 }
    ensures { IsTrue result ↔ FitLimits runs loads }
{
    runs <= MAX_RUNS && runs * loads <= MAX_VALUES
}

/// The most runs of so many values each that are within the limits.
pub(crate) fn most_runs(loads: u64) -> u64
    ensures { (runs : ℕ) → FitLimits runs loads ↔ (runs ≤ result) }
{
    if loads == 0 {
        return MAX_RUNS;
    }
    MAX_RUNS.min(MAX_VALUES / loads)
}

/// So many runs of so many values each are within the limits, or pass one.
pub(crate) fn check_limits(runs: u64, loads: u64) -> Result<(), Size>
    requires runs { runs < 2 ^ 32 }
    requires loads { loads ≤ 2048 }
    ensures fit { OnOk result (FitLimits runs loads) }
    ensures pass { IfErr result (PassLimit runs loads) }
{
    if runs > MAX_RUNS {
        return Err(Size::Runs(runs));
    }
    let values = runs * loads;
    if values > MAX_VALUES {
        return Err(Size::Values(values));
    }
    Ok(())
}
