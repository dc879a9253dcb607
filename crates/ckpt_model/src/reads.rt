//! What the reads of a coordinator return of a record and of a number.

use ckpt_ids::{CheckpointId, Kind};

/// A live record in short.
#[derive(Clone, Copy, Debug, PartialEq, Eq)]
pub struct Live {
    /// Its number.
    pub id: CheckpointId,
    /// Whether it is a checkpoint or a savepoint.
    pub kind: Kind,
    /// Whether it is done; otherwise it is pending.
    pub done: bool,
}

/// What a number is.
#[derive(Clone, Copy, Debug, PartialEq, Eq)]
pub enum Standing {
    /// The live record of this number lacks an acknowledgement.
    Pending,
    /// The live record of this number has all acknowledgements.
    Done,
    /// A record had this number, and is no longer live: it failed, or was dropped.
    Ended,
    /// No record has had the number so far: it is the next record's, or above it.
    NotYet,
    /// No record has had the number, and none will: it is below the first one that the coordinator
    /// was opened with.
    Never,
}
