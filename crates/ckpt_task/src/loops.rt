//! What an engine does whose tasks run in loops, each law on a function that does nothing.

ghost use Rattle.std.specs.Prelude.{ℕ, List, [], ◌∷◌};
ghost use Rattle.ckpt_ids.specs.declared.subtask.SubtaskId.{SubtaskId};
ghost use Rattle.ckpt_model.specs.{Laws.CanOpen, State.Opening};
ghost use Rattle.ckpt_once.specs.Jobs.{Job, States, restored};
ghost use Rattle.ckpt_once.specs.Sinks.{AreLast, Sink, Transaction};
ghost use Rattle.ckpt_once.specs.WorkedExamples.{job};
ghost use Rattle.ckpt_task.specs.{Faults.FaultsCount, Turns.At};
ghost use Rattle.ckpt_task.specs.Loops.{AreLooping, AreLoopsAttempts, Loops, LoopsAreSeamless, LoopsAttempt, LoopsMakeHistory, LoopsRestore, attempts_of};
ghost use Rattle.ckpt_task.specs.SinkLoops.{SinkAttempt, SinkGivesOnce, SinkGivesOverRestarts, SinkPublishes};
ghost use Rattle.ckpt_task.specs.WorkedLoops.{again, attempt, opening};

/// What tasks did that ran in loops, each at its own pace, over channels that keep their order, is a
/// history of `ckpt_once`, and a task that acknowledged a record has cut it there.
pub fn loops_make_history()
    ensures { (job : Job) (from : States) (e : Loops) → LoopsMakeHistory job from e }
{}

/// A task that is restored to a record of such an attempt begins the next one in its snapshot.
pub fn loops_restore()
    ensures { (job : Job) (from : States) (e : Loops) (t : SubtaskId) (n : ℕ) (task : At) → LoopsRestore job from e t n task }
{}

/// So engines that restart from done records have invisible failures, if each acknowledgement that was
/// accepted is one that a task told.
#[tactic(auto, using(crate::proofs::LoopLaws::loops_are_seamless))]
pub fn loops_are_seamless()
    ensures { (o : Opening) (job : Job) (ones : List LoopsAttempt) (e : Loops) → CanOpen o → LoopsAreSeamless o job ones e }
{}

/// What tasks did that faults stopped in their loops counts as loops without a fault: the turns before
/// it, and the one that it stopped as finished, if what came was taken, or as not begun.
#[tactic(auto, using(crate::proofs::Failing::faults_count))]
pub fn faults_count()
    ensures { (job : Job) (from : States) (e : Loops) → FaultsCount job from e }
{}

/// What a sink in a loop publishes, as `SinkTask::completed` returns it, is what the sink of `ckpt_once`
/// publishes, until the job fails.
#[tactic(auto, using(crate::proofs::SinkLooping::sink_publishes))]
pub fn sink_publishes()
    ensures { (job : Job) (from : States) (e : Loops) (sink : Sink) → SinkPublishes job from e sink }
{}

/// If the job is restored to the last record that was completed, what it published by its cut, and what
/// `SinkTask::restored` gives then, is what that sink publishes up to the record. What the lost sink
/// published since the cut is given again.
#[tactic(auto, using(crate::proofs::SinkGiving::sink_gives_once))]
pub fn sink_gives_once()
    ensures { (job : Job) (from : States) (e : Loops) (sink : Sink) (n : ℕ) (given : List Transaction) → SinkGivesOnce job from e sink n given }
{}

/// So it is over any number of restarts.
#[tactic(auto, using(crate::proofs::SinkGiving::sink_gives_over_restarts))]
pub fn sink_gives_over_restarts()
    ensures { (job : Job) (sink : Sink) (ks : List SinkAttempt) → SinkGivesOverRestarts job sink ks }
{}

/// The worked loops, which fail and go on from a completed record, meet the premises of these laws.
#[tactic(auto, using(crate::proofs::WorkedLooping::can_open, crate::proofs::WorkedLooping::are_attempts, crate::proofs::WorkedLooping::are_last, crate::proofs::WorkedLooping::again_looping))]
pub fn worked_loops()
    ensures can_open { CanOpen opening }
    ensures are_attempts { AreLoopsAttempts opening job (attempt ∷ []) }
    ensures are_last { AreLast (attempts_of (attempt ∷ [])) }
    ensures is_looping { AreLooping job (restored job (attempts_of (attempt ∷ []))) again }
{}
