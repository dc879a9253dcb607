//! The two secret words that a map hashes by.
ghost use Rattle.std.specs.Prelude.{◌≡◌};
ghost use Rattle.ckpt_hash.specs.Hashing.{begun, secret_of};

use crate::hasher::NumberHasher;
use std::hash::BuildHasher;

/// The words are joined with these. So two zeros are a valid secret too.
const SEED: u64 = 0x243f_6a88_85a3_08d3;

const MULTIPLIER: u64 = 0x9e37_79b9_7f4a_7c15;

/// The two words that a map hashes by.
#[derive(Clone, Copy)]
pub struct Secret {
    seed: u64,
    multiplier: u64,
}

impl Secret {
    /// A secret of two words. Take them from a source of random numbers.
    ///
    /// The multiplier is made odd. With an even one numbers would lose their greatest bits, and
    /// with 0 all would hash to 0. So two second words that differ only in the lowest bit make the
    /// same secret.
    pub fn of(first: u64, second: u64) -> Secret
        ensures { result ≡ secret_of first second }
    {
        Secret {
            seed: first ^ SEED,
            multiplier: (second ^ MULTIPLIER) | 1,
        }
    }

    /// The same words in each run. Anybody can know them, so use them only for keys that nobody
    /// chooses.
    pub fn fixed() -> Secret
        ensures { result ≡ secret_of 0 0 }
    {
        Secret::of(0, 0)
    }
}

impl BuildHasher for Secret {
    type Hasher = NumberHasher;

    ghost use Rattle.ckpt_hash.specs.Hashing.{begun};

    ghost build_hasher = { λ secret. begun secret };

    fn build_hasher(&self) -> NumberHasher {
        NumberHasher::new(self.seed, self.multiplier)
    }
}
