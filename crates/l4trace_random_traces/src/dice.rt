//! Random numbers.

ghost use Rattle.std.specs.Prelude.{◌<◌};

use rand_core::utils::NextWord;
use rand_pcg::Pcg32;

/// The stream of the generator: any odd number would do.
const STREAM: u64 = 0x6c34_7472_6163_6501;

/// A source of random numbers, the same ones for the same seed: PCG32.
#[derive(Drop)]
pub struct Dice {
    generator: Pcg32,
}

impl Dice {
    pub fn new(seed: u64) -> Self {
        Dice {
            generator: Pcg32::new(seed, STREAM),
        }
    }

    /// A number below another.
    pub fn below(&mut self, count: u32) -> u32
        requires { 0 < count }
        ensures { result < count }
    {
        self.generator.next_word() % count
    }

    /// True so many times of 100, in the long run.
    pub fn chance(&mut self, percent: u32) -> bool {
        self.below(100) < percent
    }
}
