//! Picks, by which a scheduler chooses.

ghost use Rattle.std.specs.Prelude.{◌≡◌, ◌%◌, ◌<◌, ◌≤◌, ℕ};
ghost use Rattle.jt_base.specs.Picks.{next_seed, mix64};

use rand_core::SeedableRng;
use rand_core::utils::NextWord;
use rand_xoshiro::SplitMix64;
use std::marker::Model;

/// A source of picks: by it a scheduler chooses among jobs and heaps. Its words are those of
/// SplitMix64 (Steele, Lea and Flood, 2014), and contracts see its state, one word.
#[derive(Debug, Drop)]
pub struct Picks {
    generator: SplitMix64,
}

impl Model for Picks {
    ghost Value = { ℕ };

    ghost view = { λ p. p.generator };
}

impl Picks {
    /// The source whose state is `number`.
    pub fn new(number: u64) -> Picks
        ensures { result ≡ number }
    {
        Picks {
            generator: SplitMix64::seed_from_u64(number),
        }
    }

    /// The next word modulo `n`.
    pub fn below(&mut self, n: u32) -> u32
        requires { 1 ≤ n }
        ensures value { result ≡ mix64 (next_seed self.old) % n }
        ensures bound { result < n }
        ensures moved { self.new ≡ next_seed self.old }
    {
        (self.generator.next_word() % u64::from(n)) as u32
    }
}
