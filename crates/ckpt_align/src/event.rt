//! What an engine tells an aligner, and what the aligner answers.

use ckpt_ids::CheckpointId;
use thiserror::Error;

/// What is next on an input, or comes from the coordinator. An input is named by its number, from 0
/// on.
#[derive(Clone, Copy, Debug, PartialEq, Eq)]
pub enum Event {
    /// An element is next on this input.
    Element(u32),
    /// The barrier of this record is next on this input.
    Barrier(u32, CheckpointId),
    /// Nothing more comes on this input.
    End(u32),
    /// The coordinator or the task gives this record up.
    GiveUp(CheckpointId),
}

/// What the engine does.
#[derive(Clone, Copy, Debug, PartialEq, Eq)]
pub enum Answer {
    /// Process the element now.
    Process,
    /// Leave the element, and all behind it, on its input until the input is released.
    Hold,
    /// Nothing is to be done: no record is being aligned.
    Nothing,
    /// Go on: an open input has not delivered the barrier yet.
    Wait,
    /// Go on: the record was cut or given up before.
    Late,
    /// Take the snapshot for this record now, and then send its barrier on every output, before
    /// anything else. All inputs are released.
    Cut(CheckpointId),
    /// Decline this record: it can no longer be cut. The inputs held for it are released.
    Abandon(CheckpointId),
}

/// Why an event is refused: the engine broke the rules. Nothing has changed.
#[derive(Clone, Copy, Debug, PartialEq, Eq, Error)]
pub enum Refusal {
    /// The task has no input with this number.
    #[error("no such input")]
    UnknownInput,
    /// The input is held: its barrier or its end has to wait until it is released.
    #[error("the input is held")]
    HeldInput,
    /// The input has ended.
    #[error("the input has ended")]
    EndedInput,
}
