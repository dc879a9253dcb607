//! What a recorder answers, and what it does for a record.

use ckpt_ids::CheckpointId;

/// What is done for the latest record.
#[derive(Clone, Copy, Debug, PartialEq, Eq)]
pub enum Phase {
    /// Nothing: it is whole, or was given up.
    Idle,
    /// It is being aligned: inputs that have delivered its barrier are held.
    Aligning,
    /// Its snapshot was taken, and what comes before its barrier is recorded.
    Recording,
}

/// What the engine does.
#[derive(Clone, Copy, Debug, PartialEq, Eq)]
pub enum Answer {
    /// Process the element.
    Process,
    /// Add the element to the record, and process it before what comes behind it.
    Record,
    /// Leave the element, and all behind it, on its input until the input is released.
    Hold,
    /// Nothing is to be done.
    Nothing,
    /// Go on: an open input has not delivered the barrier yet.
    Wait,
    /// Go on, and drop the barrier: the record is whole or was given up.
    Late,
    /// Take the snapshot for this record now, and then send its barrier on every output, before
    /// anything else. It is whole: acknowledge it.
    Cut(CheckpointId),
    /// As at [`Answer::Cut`], but acknowledge nothing yet: the elements before its barrier are still
    /// to be recorded.
    Snap(CheckpointId),
    /// The last barrier has come: acknowledge the record, with its snapshot and what was recorded.
    Complete(CheckpointId),
    /// Decline this record, and give up what was recorded for it. What is next is left on its input:
    /// ask again.
    Abandon(CheckpointId),
}
