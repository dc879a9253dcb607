//! Exactly once: failures are invisible in the states of a job's tasks, and in what its sinks
//! publish. [`laws`] has the laws; `specs/Programs.antt` and `specs/Jobs.antt` the definitions.
#![tactic(auto)]

pub mod laws;
