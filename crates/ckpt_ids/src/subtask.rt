//! Subtasks of a job.

/// A parallel subtask of a job: the vertex of the job graph, and the index below its parallelism.
///
/// Subtasks are ordered by vertex, then by index.
#[derive(Clone, Copy, Debug, PartialEq, Eq, PartialOrd, Ord, Hash)]
pub struct SubtaskId {
    /// The vertex of the job graph, from 0.
    pub vertex: u16,
    /// The index within the vertex, from 0.
    pub index: u16,
}
