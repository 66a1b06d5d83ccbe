//! Numbers that a seed gives.

ghost use Rattle.std.specs.Prelude.{◌≡◌, ◌≤◌, false};

use rand_core::{Rng, SeedableRng};
use rand_xoshiro::Xoshiro256PlusPlus;

/// What chooses.
#[derive(Drop)]
pub struct Chance {
    source: Xoshiro256PlusPlus,
}

impl Chance {
    /// Choices that a seed gives.
    pub fn new(seed: u64) -> Chance {
        Chance {
            source: Xoshiro256PlusPlus::seed_from_u64(seed),
        }
    }

    /// A number below the limit; 0 where that is 0.
    pub fn below(&mut self, limit: usize) -> usize
        ensures { result ≤ limit }
    {
        let number = self.source.next_u64() >> 33;
        match limit {
            0 => 0,
            _ => number as usize % limit,
        }
    }

    /// Whether it happens, once in so many times; never at 0.
    pub fn once_in(&mut self, times: usize) -> bool
        ensures { times ≡ 0 → result ≡ false }
    {
        times != 0 && self.below(times) == 0
    }
}
