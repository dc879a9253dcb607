//! Whether the job runs.

/// What a job is doing.
#[derive(Clone, Copy, Debug, PartialEq, Eq)]
pub enum Mode {
    /// The job runs, and checkpoints may be triggered.
    Running,
    /// Too many checkpoints failed in a row. A restore starts the job again.
    Failed,
    /// The job has ended for good.
    Cancelled,
}
