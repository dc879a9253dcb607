//! Where the snapshots of a task are kept.

ghost use Rattle.std.specs.Prelude.{◌≡◌, ℕ, List, ◌∷◌, Some, IfOk, OnErr, OnOk};
ghost use Rattle.ckpt_task.specs.Deeds.{IsUndone};
ghost use Rattle.ckpt_task.specs.Saving.{Saved, state_under, waiting_under};

use crate::program::Program;
use ckpt_ids::CheckpointId;
use ckpt_ledger::Transaction;
use thiserror::Error;

/// A snapshot was not saved, or could not be loaded.
#[derive(Clone, Copy, Debug, PartialEq, Eq, Error)]
#[error("the snapshot failed")]
pub struct SnapshotFault;

/// A snapshot that was loaded.
#[derive(Drop)]
pub struct Loaded<P: Program> {
    /// The state.
    pub state: P,
    /// What the ledger of a sink held back, the oldest first. Empty for each other task.
    pub waiting: Vec<Transaction>,
}

/// Where the snapshots of one task are kept.
pub trait Snapshots<P: Program> {
    /// The snapshots that were saved, the newest first.
    ghost saved: { Self → List Saved };

    /// The records whose snapshots were not saved, the newest first. A [`Log`](crate::Log) keeps them.
    ghost refused: { Self → List ℕ };

    /// Saves the snapshot of the task for this record, durably. After a fault it may be there or not.
    fn save(
        &mut self,
        id: CheckpointId,
        state: &P,
        waiting: &[Transaction],
    ) -> Result<(), SnapshotFault>
        ensures saved { OnOk result (saved self.new ≡ record { id = id; state = P.number state.now; waiting = waiting.now } ∷ saved self.old) }
        ensures refuses_none { OnOk result (refused self.new ≡ refused self.old) }
        ensures refuses { OnErr result (refused self.new ≡ id ∷ refused self.old) }
        ensures failed { OnErr result (IsUndone (record { id = id; state = P.number state.now; waiting = waiting.now }) (saved self.old) (saved self.new)) };

    /// Loads the snapshot of this record, as it was saved last.
    fn load(&mut self, id: CheckpointId) -> Result<Loaded<P>, SnapshotFault>
        ensures state { IfOk result (λ loaded. state_under id (saved self.old) ≡ Some (P.number loaded.state)) }
        ensures waiting { IfOk result (λ loaded. waiting_under id (saved self.old) ≡ Some loaded.waiting.items) }
        ensures kept { saved self.new ≡ saved self.old }
        ensures refuses_none { refused self.new ≡ refused self.old };
}
