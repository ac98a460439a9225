//! Draws from the words of a seed and a stream.
ghost use Rattle.std.specs.Prelude.{◌≡◌, ◌+◌, ◌%◌, ◌<◌, ℕ};
ghost use Rattle.mt_base.specs.Words.{draws_after, word};
ghost use Rattle.rand_pcg.specs.Pcg.{pcg32};

use rand_pcg::Pcg32;
use rand_pcg::rand_core::utils::NextWord;
use std::marker::Model;

/// Draws from the words of a seed and a stream, one word for each. Contracts see the generator.
///
/// The generator is PCG-XSH-RR with 64 bits of state (O'Neill, "PCG: a family of simple fast space-efficient statistically good algorithms for
/// random number generation"), seeded as its reference code does. The highest bit of the stream makes no difference.
#[derive(Clone, Debug, PartialEq, Eq, Drop)]
pub struct Draws {
    generator: Pcg32,
}

impl Model for Draws {
    ghost use Rattle.rand_pcg.specs.Lcg.{Lcg};

    ghost Value = { Lcg };

    ghost view = { λ draws. draws.generator };

    ghost inverse = { λ generator. record { generator = generator } };
}

impl Draws {
    /// Draws from the first word on. It takes no memory.
    pub fn new(seed: u64, stream: u64) -> Draws
        ensures { result ≡ draws_after seed stream 0 }
    {
        Draws {
            generator: Pcg32::new(seed, stream),
        }
    }

    /// The next word modulo n. It takes no memory. Where n isn't a power of two, small numbers are a little more frequent than others.
    pub fn below(&mut self, n: u32) -> u32
        requires { 0 < n }
        ensures value { result ≡ (pcg32 self.old).0 % n }
        ensures next { self.new ≡ (pcg32 self.old).1 }
        ensures range { result < n }

        // Behind j words of a seed and a stream it is word j.
        ensures word { (seed stream j : ℕ) →
            self.old ≡ draws_after seed stream j → result ≡ word seed stream j % n }
        ensures behind { (seed stream j : ℕ) →
            self.old ≡ draws_after seed stream j → self.new ≡ draws_after seed stream (j + 1) }
    {
        self.generator.next_word() % n
    }
}
