//! A coordinator whose calls outlive crashes.
#![tactic(auto)]

pub mod durable;
pub mod group_laws;
pub mod journal;
pub mod laws;

pub use durable::{Durable, Held};
pub use journal::{Journal, JournalFault};
