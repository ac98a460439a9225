//! What a run came to.
ghost use Rattle.std.specs.Prelude.{◌≡◌, IfOk, length};
ghost use Rattle.signature_plan.specs.Outcomes.{outcome_of};
ghost use Rattle.test_lang.specs.Values.{load_count};

use crate::encode::Outside;
use crate::plan::Plan;
use std::alloc::{AllocError, Global};
use tally::{Outcome, Signature};

impl Plan {
    /// The outcome of a run. An error is want of memory. Many runs are served better by `encode_into` with one buffer.
    pub fn outcome(&self, alloc: Global, run: &[u32]) -> Result<Outcome, AllocError>
        requires { length run.now ≡ load_count self.now }
        ensures { IfOk result (λ outcome. outcome ≡ outcome_of self.now run.now) }
    {
        let mut words = vec![in alloc; 0u64; self.words()]?;
        match self.encode_into(run, words.as_mut_slice()) {
            Ok(()) => Ok(Outcome::Inside(Signature::of(alloc, words.as_slice())?)),
            Err(Outside { node, value }) => Ok(Outcome::Outside { node, value }),
        }
    }
}
