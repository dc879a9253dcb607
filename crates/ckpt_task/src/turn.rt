//! What comes to a task, and what its engine does then.

ghost use Rattle.std.specs.Prelude.{◌≡◌};

use crate::program::Emitted;
use ckpt_align::{Cut, Refusal};
use ckpt_ids::CheckpointId;
use std::alloc::AllocError;
use thiserror::Error;

/// What is next on an input of a task, or comes to it otherwise. An input is named by its number, from 0
/// on.
#[derive(Clone, Copy, Debug, PartialEq, Eq)]
pub enum Next {
    /// This element is next on this input.
    Element(u32, u64),
    /// The barrier of this record is next on this input.
    Barrier(u32, CheckpointId),
    /// Nothing more comes on this input.
    End(u32),
    /// The coordinator gives this record up.
    GiveUp(CheckpointId),
    /// The task makes a step of its own, as a source does.
    Draw,
}

/// What the engine does after a turn.
#[derive(Debug, Drop)]
pub enum Outcome {
    /// It takes the element from its channel, if it was one, and puts these on the outputs, in this order.
    Moved(Vec<Emitted>),
    /// It leaves the element, and all behind it, on its channel.
    Held,
    /// It takes the barrier or the end from its channel.
    Nothing,
    /// It takes what was next from its channel, and puts the barrier of this record on each output, before
    /// anything else. The snapshot is saved: it acknowledges the record by [`Cut::into_ack`].
    Cut(Cut),
    /// The same, but the snapshots refused to save: it declines this record.
    Unsaved(CheckpointId),
    /// It takes the barrier from its channel, if it was one, and declines this record.
    Abandoned(CheckpointId),
}

/// Why there was no turn. Nothing has changed.
#[derive(Clone, Copy, Debug, PartialEq, Eq, Error)]
pub enum TurnFault {
    /// The aligner refuses it: the engine broke the rules.
    #[error("{0}")]
    Refused(Refusal),
    /// Memory ran out.
    #[error("out of memory")]
    Memory,
}

impl From<Refusal> for TurnFault {
    ghost use Rattle.std.specs.Prelude.{◌≡◌};
    ghost use Rattle.ckpt_task.specs.declared.turn.TurnFault.TheVariants.{Refused};

    ghost from_gives = { λ why fault. fault ≡ Refused why };

    fn from(why: Refusal) -> TurnFault {
        TurnFault::Refused(why)
    }
}

impl From<AllocError> for TurnFault {
    ghost use Rattle.std.specs.Prelude.{◌≡◌};
    ghost use Rattle.ckpt_task.specs.declared.turn.TurnFault.TheVariants.{Memory};

    ghost from_gives = { λ _ fault. fault ≡ Memory };

    fn from(_error: AllocError) -> TurnFault {
        TurnFault::Memory
    }
}
