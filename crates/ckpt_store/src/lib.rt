//! What a job can restart from: the completed checkpoints that are retained, its savepoints, and
//! the savepoint that it was rolled back to.
//!
//! Begin with [`Store`]. It finds records by binary search, and takes memory only in
//! [`Store::reserve`].
#![tactic(auto)]

mod places;
pub mod store;

pub use store::{DisposeFault, Store};
