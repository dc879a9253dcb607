//! Checkpoints and savepoints that wait for acknowledgements, and those that have all of them.
//!
//! A [`Pending`] takes one acknowledgement per subtask, and counts the subtasks that are missing.
//! Once none is missing, [`Pending::finish`] makes it a [`Done`]. No other code can make a `Done`,
//! so its type says that it has exactly one acknowledgement per subtask.
#![tactic(auto)]

pub mod done;
pub mod pending;

pub use done::Done;
pub use pending::{AckFault, Pending};
