//! Cuts of a record that are not aligned, or not of running tasks alone: of tasks that do not hold, and
//! of tasks that have ended. [`laws`] has the laws.
//! [`rescaling`] has those of a restore in another shape, [`restarted`] those of a restart from records of recorders.
#![tactic(auto)]

pub mod laws;
pub mod rescaling;
pub mod restarted;
