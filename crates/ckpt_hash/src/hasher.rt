//! The hasher of a secret: it hashes numbers, one after the other.
ghost use Rattle.std.specs.Prelude.{◌≡◌};
ghost use Rattle.std.specs.List.{fold};
ghost use Rattle.std.specs.Hash.FoldHasher.{folded_multiply};
ghost use Rattle.ckpt_hash.specs.Hashing.{mixed};

use std::hash::Hasher;

/// Hashes one number, or several in turn.
#[derive(Drop)]
pub struct NumberHasher {
    state: u64,
    multiplier: u64,
}

/// The two halves of the 128 bits of a product, joined by xor.
fn folded_multiply(a: u64, b: u64) -> u64
    ensures { result ≡ folded_multiply a b }
{
    let product = a as u128 * b as u128;
    (product & 0xFFFF_FFFF_FFFF_FFFF) as u64 ^ (product >> 64) as u64
}

impl NumberHasher {
    pub(crate) fn new(state: u64, multiplier: u64) -> NumberHasher
        ensures { result ≡ record { state = state; multiplier = multiplier } }
    {
        NumberHasher { state, multiplier }
    }

    /// Hashes one number.
    fn mix(&mut self, number: u64)
        ensures { self.new ≡ mixed self.old number }
    {
        self.state = folded_multiply(self.state ^ number, self.multiplier);
    }

    /// Hashes each byte as a number.
    fn mix_each(&mut self, bytes: &[u8])
        ensures { self.new ≡ fold mixed self.old bytes.now }
    {
        for byte in bytes {
            self.mix(*byte as u64);
        }
    }
}

impl Hasher for NumberHasher {
    ghost use Rattle.ckpt_hash.specs.Hashing.{written};

    ghost write = { written };

    ghost finish = { λ hasher. hasher.state };

    fn finish(&self) -> u64 {
        self.state
    }

    fn write(&mut self, bytes: &[u8]) {
        match <[u8; 8]>::try_from(bytes) {
            Ok(number) => self.mix(u64::from_le_bytes(number)),
            Err(_) => self.mix_each(bytes),
        }
    }
}
