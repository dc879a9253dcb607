//! What calls return: replies, refusals, answers.

use crate::ack::Metadata;
use crate::handed::Handed;
use crate::numbers::{CheckpointId, FileId};

/// What the job would restart from now.
#[derive(Clone, Copy, Debug, PartialEq, Eq, Hash)]
pub enum Choice {
    /// From this completed checkpoint, the newest that is retained.
    Checkpoint(CheckpointId),
    /// From this savepoint, which the job was rolled back to.
    Savepoint(CheckpointId),
    /// From nothing.
    Fresh,
}

/// How a tick ended.
#[derive(Clone, Copy, Debug, PartialEq, Eq, Hash)]
pub enum TickEnd {
    /// A checkpoint was triggered, with this number.
    Triggered(CheckpointId),
    /// The next checkpoint is not due yet.
    HeldInterval,
    /// As many checkpoints are pending as may be at once.
    HeldAtOnce,
    /// The pause after the last completion has not passed.
    HeldPause,
    /// Too many checkpoints failed in a row, and the job fails over.
    Failed,
}

/// The reply to an accepted call.
#[derive(Debug, Drop, PartialEq, Eq)]
pub enum Reply {
    /// `expired` pending records expired. `end` says how the tick ended. A Trigger answers as a tick
    /// that triggers, with nothing expired.
    Ticked { expired: u32, end: TickEnd },
    /// A savepoint was triggered, with this number.
    SavepointTriggered(CheckpointId),
    /// The number of subtasks that have not acknowledged yet.
    AckPending(u32),
    /// The record is complete. `dropped` other records were dropped, and `released` files released.
    AckCompleted { dropped: u32, released: u64 },
    /// The record had ended. This many of the fresh files were handed out for deletion.
    AckLate(u64),
    /// The record was aborted, and this many files were released.
    DeclineAborted(u64),
    /// The record was aborted, the job fails over, and this many files were released.
    DeclineFailed(u64),
    /// The record had ended before.
    DeclineLate,
    /// The savepoint was dropped, and this many files were released.
    Disposed(u64),
    /// The job restarts from `from`, and `released` files were released.
    Restored { from: Choice, released: u64 },
    /// The job has ended for good. `dropped` records were dropped, and `released` files released.
    Cancelled { dropped: u32, released: u64 },
    /// The files that were fetched for deletion, in the order in which they waited.
    Taken(Handed),
    /// The file was reported as deleted, and is forgotten.
    Deleted(FileId),
    /// The file was reported as not deleted, and waits again.
    Undeleted(FileId),
    /// The metadata of the record.
    Shown(Metadata),
    /// How often live records use the file.
    Counted(FileId, u32),
    /// The configuration is the new one. `dropped` done checkpoints were above the new number
    /// retained, and `released` files were released.
    Configured { dropped: u32, released: u64 },
}

/// Why a call was refused: the first of these that applies. A refused call changes nothing.
#[derive(Clone, Copy, Debug, PartialEq, Eq, Hash)]
pub enum Refusal {
    /// The moment is above 2^62 - 1 milliseconds.
    MomentTooLarge,
    /// The job was cancelled; or it has failed, and the call is a tick or a savepoint.
    NotRunning,
    /// An acknowledgement names more than 4096 files.
    TooManyFiles,
    /// An acknowledgement names a file twice.
    RepeatedFile,
    /// The number was never given.
    UnknownCheckpoint,
    /// The record is pending, and its shape has no such subtask.
    UnknownSubtask,
    /// The record is pending, and this subtask has acknowledged it.
    AlreadyAcknowledged,
    /// This fresh file is in use, waits for deletion or was fetched for it. It is the least such
    /// file.
    NameTaken(FileId),
    /// No live record uses this reused file. It is the least such file.
    FileGone(FileId),
    /// No completed savepoint has this number.
    NoSuchSavepoint,
    /// The job was rolled back to this savepoint, and no checkpoint has completed since.
    InUse,
    /// 1000 savepoints are pending or done.
    TooManySavepoints,
    /// The file was not fetched for deletion, or was reported already.
    NotTaken,
    /// No live record has this number.
    NoSuchRecord,
    /// All numbers up to 2^62 - 1 were given.
    IdsUsedUp,
    /// As many checkpoints are pending as may be at once; or more than the new configuration allows.
    AtOnce,
}

/// The answer to a call.
#[derive(Debug, Drop, PartialEq, Eq)]
pub enum Answer {
    /// The call was accepted.
    Done(Reply),
    /// The call was refused, and changed nothing.
    Refused(Refusal),
}
