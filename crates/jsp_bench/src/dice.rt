//! Random choices, by a seed.
use rand_core::Rng;
use rand_pcg::Pcg32;

/// Gives the same choices for the same seed.
#[derive(Drop)]
pub(crate) struct Dice {
    generator: Pcg32,
}

impl Dice {
    pub(crate) fn new(seed: u64) -> Dice {
        Dice {
            generator: Pcg32::new(seed, 54),
        }
    }

    /// A number below `sides`, or 0 where that is 0.
    pub(crate) fn below(&mut self, sides: u32) -> u32 {
        self.generator.next_u32().checked_rem(sides).unwrap_or(0)
    }

    /// Whether something happens that does once in so many times.
    pub(crate) fn is_once_in(&mut self, times: u32) -> bool {
        self.below(times) == 0
    }
}
