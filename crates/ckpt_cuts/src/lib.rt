//! That a completed record is a consistent cut of the job: the coordinator's laws, and those of the
//! alignment of tasks, in one. [`laws`] says what is left to the engine.
#![tactic(auto)]

pub mod laws;
