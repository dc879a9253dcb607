//! An aligner's word that a task cuts a record.

ghost use Rattle.std.specs.Prelude.{◌≡◌};
ghost use Rattle.ckpt_ids.specs.declared.call.Call.TheVariants.{Ack};
ghost use Rattle.ckpt_align.specs.Steps.{IsCut};

use ckpt_ids::{Call, CheckpointId, Files, SubtaskId};
use std::marker::Model;

/// The cut of a record at a task. Only [`Aligner::ask`](crate::Aligner::ask) gives one out, at the
/// cut; nobody can make or copy one. An engine that acknowledges by [`Cut::into_ack`] alone
/// acknowledges no record that its task has not cut, and each cut at most once.
#[derive(Debug)]
pub struct Cut {
    id: u64,
}

impl Drop for Cut {
    fn drop(self) {
        let Cut { id: _ } = self;
    }
}

impl Model for Cut {
    ghost use Rattle.std.specs.Prelude.{ℕ};
    ghost use Rattle.ckpt_align.specs.Steps.{IsCut};

    ghost Value = { ℕ };

    ghost view = { λ c. c.id };

    ghost invariant = { λ c. IsCut c.id };
}

impl Cut {
    /// The cut of this record.
    ///
    /// Condition: an aligner has answered with this cut.
    pub(crate) fn of(id: CheckpointId) -> Cut
        requires { IsCut id }
        ensures { result ≡ id }
    {
        Cut { id: id.0 }
    }

    /// The record.
    pub fn id(&self) -> CheckpointId
        ensures value { result ≡ self.now }
        ensures cut { IsCut self.now }
    {
        CheckpointId(self.id)
    }

    /// The acknowledgement of the record, once the snapshot is durable: a call of the coordinator.
    pub fn into_ack(self, now: u64, subtask: SubtaskId, fresh: Files, reused: Files) -> Call
        ensures { result ≡ Ack now self subtask fresh reused }
    {
        let Cut { id } = self;
        Call::Ack {
            now,
            id: CheckpointId(id),
            subtask,
            fresh,
            reused,
        }
    }
}
