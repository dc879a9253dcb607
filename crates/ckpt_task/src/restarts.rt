//! What tasks are restored to, each law on a function that does nothing.

ghost use Rattle.std.specs.Prelude.{ℕ};
ghost use Rattle.ckpt_ids.specs.declared.subtask.SubtaskId.{SubtaskId};
ghost use Rattle.ckpt_once.specs.Jobs.{History, Job, States};
ghost use Rattle.ckpt_task.specs.{Restores.RestoresSnapshot, Turns.At};

/// A task that is restored to a record begins the next attempt where the laws let it begin: in its
/// snapshot of this record.
pub fn restores_snapshot()
    ensures { (job : Job) (from : States) (h : History) (t : SubtaskId) (n : ℕ) (task : At) → RestoresSnapshot job from h t n task }
{}
