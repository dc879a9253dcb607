//! What a task does with its channels, and what it tells the coordinator.

use crate::turn::Next;
use ckpt_ids::CheckpointId;

/// A deed of a task.
#[derive(Clone, Copy, Debug, PartialEq, Eq)]
pub enum Deed {
    /// This came to it. An element, a barrier or an end is still on its channel.
    Came(Next),
    /// It took what came last from its channel, if it was on one.
    Took,
    /// It put this element on this output.
    Sent(u32, u64),
    /// It put the barrier of this record on each output.
    SentBarrier(CheckpointId),
    /// It put the end on each output.
    SentEnd,
    /// It acknowledged this record.
    Acknowledged(CheckpointId),
    /// It declined this record.
    Declined(CheckpointId),
}
