//! Worked examples of laws of the crates below, each on a function that does nothing.

ghost use Rattle.std.specs.Prelude.{◌≡◌, true, Some, [], ◌∷◌};
ghost use Rattle.ckpt_align.specs.Alignment.{opened};
ghost use Rattle.ckpt_chain.specs.{Named.AreNamedRestarts, WorkedEngine.completed, WorkedEngine.history};
ghost use Rattle.ckpt_chain.specs.WorkedProgress.{advance, holds, lacking, parts, waits};
ghost use Rattle.ckpt_cuts.specs.Laws.{AcknowledgesCuts, AreChannelsOf};
ghost use Rattle.ckpt_ids.specs.Ordered.{IsIn};
ghost use Rattle.ckpt_model.specs.{Histories.replay, Refusals.pending_of, Soundness.IsSound};
ghost use Rattle.ckpt_model.specs.Progress.{AreAllMissing, HasFiles, IsWithin, TimedPart};
ghost use Rattle.ckpt_model.specs.State as model;
ghost use Rattle.ckpt_once.specs.Jobs.{network, of, restored, starts};
ghost use Rattle.ckpt_once.specs.{Sinks.AreLast, WorkedExamples.adder, WorkedExamples.job};
ghost use Rattle.ckpt_task.specs.{Engines.IsWorking, Laws.AreEngines, Loops.attempts_of, Loops.history_of, Restores.AreSaved, Restores.IsRestored};
ghost use Rattle.ckpt_task.specs.WorkedLoops.{again, at, attempt, calls, cut_at, opening};
ghost use Rattle.ckpt_terms.specs.{Fencing.fenced_step, Fencing.has_ended, FencedLaws.CanFence, FencedLaws.IsFenced, NamedProgress.HasNames};

/// Two subtasks, a record that lacks both, and an advance meet the premises of progress without names
/// (`completes` of `ckpt_model`) and with them (`completes` of `ckpt_terms`), and of `advances`.
pub fn worked_progress()
    ensures is_sound { IsSound waits }
    ensures is_pending { pending_of waits.records 1 ≡ Some lacking }
    ensures are_missing { AreAllMissing lacking parts }
    ensures each { (t : TimedPart) → IsIn t parts → IsWithin t × HasFiles waits t.part }
    ensures is_fenced { IsFenced holds }
    ensures waits_too { pending_of holds.core.records 1 ≡ Some lacking }
    ensures each_named { (t : TimedPart) → IsIn t parts → IsWithin t × HasNames holds t.part }
    ensures is_accepted { has_ended advance (fenced_step holds advance).1 ≡ true }
{}

/// A source and an adder, turn by turn, meet the premises of `consistent` of `ckpt_cuts`, of
/// `are_seamless` and `restores_snapshot` of `ckpt_task`, and of the laws with names from an opening on.
pub fn worked_engine()
    ensures is_live { IsIn completed (replay (model.opened opening) calls).records }
    ensures are_channels { AreChannelsOf completed.shape (network job (starts job) history) }
    ensures acknowledged { AcknowledgesCuts 1 opening calls (network job (starts job) history) }
    ensures can_fence { CanFence opening 5 }
    ensures named { AreNamedRestarts opening 5 job (attempts_of (attempt ∷ [])) }
    ensures are_engines { AreEngines opening job (attempts_of (attempt ∷ [])) }
    ensures are_last { AreLast (attempts_of (attempt ∷ [])) }
    ensures is_working { IsWorking job (restored job (attempts_of (attempt ∷ []))) (history_of again) }
    ensures are_saved { AreSaved (job.program adder) (starts job adder) (opened (job.inputs adder)) (of adder history) [] (cut_at 100 ∷ []) }
    ensures is_restored { IsRestored (job.inputs adder) 1 (cut_at 100 ∷ []) (at 100) }
{}
