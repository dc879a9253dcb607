//! The laws of consistent cuts, of exactly-once and of durability, in one chain. [`laws`] says what is
//! left to the engine.
#![tactic(auto)]

pub mod chosen;
pub mod files;
pub mod laws;
pub mod progress;
pub mod triggers;
pub mod unaligned;
