//! Hashing of numbers under two secret words, for maps whose keys come from outside.
//!
//! Somebody who knows how a map hashes can choose keys that all collide in one place of its table.
//! Then each look-up visits all of them. A [`Secret`] makes the places depend on two words that
//! nobody else knows. It is a hash builder: `HashMap::with_hasher(alloc, secret)`.
//!
//! To hash a number, xor it with the first word, and multiply it by the second word, which is made
//! odd. Then xor the two halves of the product. That costs as much as the standard hasher. It is
//! not a cryptographic hash: use it only if no hash is shown to anybody.
#![tactic(auto)]

pub mod hasher;
pub mod secret;

pub use hasher::NumberHasher;
pub use secret::Secret;
