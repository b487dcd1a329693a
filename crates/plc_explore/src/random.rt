// The numbers by which runs are drawn. A seed determines all of them, so the same words give the same answer.
ghost use Rattle.std.specs.Prelude.{◌<◌, ◌≤◌};

use rand_core::{Rng, SeedableRng};
use rand_xoshiro::Xoshiro256PlusPlus;

/// A source of drawn numbers.
#[derive(Drop)]
pub struct Random {
    generator: Xoshiro256PlusPlus,
}

impl Random {
    /// The source that a seed determines.
    pub fn new(seed: u64) -> Random {
        Random {
            generator: Xoshiro256PlusPlus::seed_from_u64(seed),
        }
    }

    /// A number below `count`; 0 where that is 0.
    pub fn below(&mut self, count: u32) -> u32
        ensures below { 0 < count → result < count }
        ensures most { result ≤ count }
    {
        let drawn = self.generator.next_u32();
        if count == 0 { 0 } else { drawn % count }
    }

    /// True with one chance in so many.
    pub fn one_in(&mut self, count: u32) -> bool {
        self.below(count) == 0
    }
}
