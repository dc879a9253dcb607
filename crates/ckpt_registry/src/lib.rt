//! The registry of shared state files: which files live checkpoints and savepoints use, and which
//! files are released when records are dropped.
//!
//! Contracts see a [`Registry`] as its list of uses: by record, then by subtask, then by file. The
//! pins of a record come after its acknowledgements. A file is present while it has a use. It is
//! released for deletion with its last use, once and never before.
//!
//! Source of the rule: the Flink documentation, "State Backends", incremental checkpoints. There a
//! shared file stays while a retained checkpoint refers to it. Counting uses one by one and pins
//! are this project's own.
#![tactic(auto)]

mod counters;
mod holdings;
mod pins;
mod record_parts;
pub mod registry;
mod releases;
mod sorting;

pub use registry::Registry;
