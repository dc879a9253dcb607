//! What a job of such tasks does, each law on a function that does nothing.

ghost use Rattle.std.specs.Prelude.{List};
ghost use Rattle.ckpt_ids.specs.declared.subtask.SubtaskId.{SubtaskId};
ghost use Rattle.ckpt_model.specs.{Laws.CanOpen, State.Opening};
ghost use Rattle.ckpt_once.specs.Jobs.{Attempt, History, Job, States};
ghost use Rattle.ckpt_task.specs.Engines.{Snapped};
ghost use Rattle.ckpt_task.specs.Laws.{AreSeamless, MakesHistory, SnapsAtCut};

/// What an engine does with tasks over channels that keep their order is a history of `ckpt_once`.
#[tactic(auto, using(crate::proofs::Working::makes_history))]
pub fn makes_history()
    ensures { (job : Job) (from : States) (h : History) → MakesHistory job from h }
{}

/// What a task saves at its cut of a record is its snapshot.
#[tactic(auto, using(crate::proofs::Snapping::snaps_at_cut))]
pub fn snaps_at_cut()
    ensures { (job : Job) (from : States) (h : History) (t : SubtaskId) (one : Snapped) → SnapsAtCut job from h t one }
{}

/// So engines that restart from done records have invisible failures, if each acknowledgement is of a
/// snapshot that its task took.
#[tactic(auto, using(crate::proofs::Seaming::are_seamless))]
pub fn are_seamless()
    ensures { (o : Opening) (job : Job) (attempts : List Attempt) (h : History) → CanOpen o → AreSeamless o job attempts h }
{}
