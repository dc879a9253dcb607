//! What a sink of an engine publishes, and what it gives up.
//!
//! A [`Ledger`] holds what a sink wrote until the record that seals it is completed. Its contract is
//! the sink of `ckpt_once`: [`laws`] say that what it publishes is what that sink publishes, so each
//! law there holds of it. `docs/ALIGNMENT.md` says what is left to the engine.
#![tactic(auto)]

pub mod laws;
pub mod ledger;
pub mod transaction;

pub use ledger::{Ledger, Restored};
pub use transaction::Transaction;
