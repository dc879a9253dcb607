//! The outcome of a line of a script.
use ckpt_ids::Answer;

/// Why the script itself refuses a line, before the coordinator sees it. They are tested in this
/// order.
#[derive(Clone, Copy, Debug, PartialEq, Eq)]
pub enum ScriptRefusal {
    /// `config`, `job` or `start` after an accepted `start`.
    Started,
    /// Any other line before an accepted `start`.
    NotStarted,
    /// `start` before an accepted `config` and an accepted `job`.
    NotReady,
    /// A value of `config` is outside its limits.
    BadConfig,
    /// The parallelisms of `job` or `restore` are not a shape.
    BadShape,
    /// `start` with a moment above 2^62 - 1 milliseconds.
    MomentTooLarge,
    /// `all` with a number of threads outside 1 to 64.
    BadThreads,
    /// `all` with a number that no pending record has.
    NotPending,
    /// `all` whose last file would be above 2^64 - 1.
    FilesUsedUp,
}

/// The state of the record of an `all` line after its calls.
#[derive(Clone, Copy, Debug, PartialEq, Eq)]
pub enum AllEnd {
    /// One of the calls completed it.
    Completed {
        /// How many other records were dropped.
        dropped: u32,
        /// How many files were released, which wait for deletion now.
        released: u64,
    },
    /// None of the calls completed it.
    Pending {
        /// How many subtasks are missing, if the record is still pending, and 0 otherwise.
        missing: u64,
    },
}

/// The outcome of a line of a script.
#[derive(Debug, Drop, PartialEq, Eq)]
pub enum Outcome {
    /// The line prints nothing: it is skipped, or it is a `config`, `job` or `start` that was accepted.
    Silent,
    /// The script refused the line, and nothing has changed.
    Refused(ScriptRefusal),
    /// The call of the line was made. The answer may be a refusal of the coordinator.
    Answered(Answer),
    /// The calls of an `all` line were made.
    Acknowledged {
        /// How many of them were accepted.
        accepted: u64,
        /// How many were refused.
        refused: u64,
        /// The state of the record after them.
        end: AllEnd,
    },
}
