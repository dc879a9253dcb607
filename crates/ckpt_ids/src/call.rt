//! The calls of a coordinator.

use crate::config::Config;
use crate::files::Files;
use crate::numbers::{CheckpointId, FileId};
use crate::shape::Shape;
use crate::subtask::SubtaskId;

/// What a job is restored from.
#[derive(Clone, Copy, Debug, PartialEq, Eq, Hash)]
pub enum Target {
    /// The latest completed checkpoint, otherwise the savepoint that the job was rolled back to,
    /// otherwise nothing.
    Latest,
    /// This completed savepoint. The job's checkpoints are dropped.
    Savepoint(CheckpointId),
}

/// A call of the coordinator. Each `now` is a moment in milliseconds, at most 2^62 - 1.
///
/// `docs/RULES.md` of the repository says what each call does, and when it is refused.
#[derive(Debug, Drop, PartialEq, Eq)]
pub enum Call {
    /// Time has passed: pending records that are too old expire, and a checkpoint is triggered
    /// if nothing holds it back.
    Tick {
        /// The moment of the call.
        now: u64,
    },
    /// Triggers a savepoint.
    Savepoint {
        /// The moment of the call.
        now: u64,
    },
    /// A subtask has taken its part of a checkpoint or savepoint. It names at most 4096 files, each
    /// once.
    Ack {
        /// The moment of the call.
        now: u64,
        /// The number of the record.
        id: CheckpointId,
        /// The subtask that acknowledges.
        subtask: SubtaskId,
        /// The files that it wrote for this record.
        fresh: Files,
        /// The files of earlier records that it uses again.
        reused: Files,
    },
    /// A subtask could not take its part, and the record is aborted.
    Decline {
        /// The moment of the call.
        now: u64,
        /// The number of the record.
        id: CheckpointId,
        /// The subtask that declines.
        subtask: SubtaskId,
    },
    /// A user disposes of a completed savepoint.
    Dispose {
        /// The number of the savepoint.
        id: CheckpointId,
    },
    /// The job begins again.
    Restore {
        /// The moment of the call.
        now: u64,
        /// What it begins from.
        target: Target,
        /// Its new shape. `None` keeps the current one.
        shape: Option<Shape>,
    },
    /// The job ends for good.
    Cancel {
        /// The moment of the call.
        now: u64,
    },
    /// Fetches files that wait for deletion.
    Take {
        /// How many files to fetch at most.
        most: u64,
    },
    /// A fetched file is deleted.
    Deleted {
        /// The deleted file.
        file: FileId,
    },
    /// A fetched file could not be deleted, and waits again.
    Undeleted {
        /// The file that could not be deleted.
        file: FileId,
    },
    /// Asks for the metadata of a live record.
    Show {
        /// The number of the record.
        id: CheckpointId,
    },
    /// Asks how often a file is used.
    Count {
        /// The file to count.
        file: FileId,
    },
    /// Triggers a checkpoint now, whatever the interval and the pause. Nothing expires in it.
    Trigger {
        /// The moment of the call.
        now: u64,
    },
    /// The job has this configuration from now on.
    Configure {
        /// The moment of the call.
        now: u64,
        /// The new configuration.
        config: Config,
    },
}
