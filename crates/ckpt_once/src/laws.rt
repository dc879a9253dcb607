//! The laws of exactly-once, each on a function that does nothing.

ghost use Rattle.std.specs.Prelude.{ℕ, List};
ghost use Rattle.ckpt_align.specs.Histories.{Item};
ghost use Rattle.ckpt_ids.specs.{declared.call.Call.Call, declared.subtask.SubtaskId.SubtaskId};
ghost use Rattle.ckpt_model.specs.{Laws.CanOpen, Laws.Part, State.Opening, State.State};
ghost use Rattle.ckpt_once.specs.{Choices.OneOutput, Choices.Plan, Newest.ChoiceIsNoOlder, PlainHistories.RunIsHistory, Sinks.SealedByThen, Sinks.Sink, Snapshots.SnapshotOfInput};
ghost use Rattle.ckpt_once.specs.Jobs.{Attempt, History, Job, Run, States};
ghost use Rattle.ckpt_once.specs.Laws.{FailuresInvisible, PublishedIsPrefix, PublishedOnce, RecordIsOfRun, RunsJoin, WithoutBarriers};
ghost use Rattle.ckpt_once.specs.Restarts.{ChosenAreLast, ExactlyOnce, RestartsInvisible};

/// What the tasks of a job do in an engine that aligns barriers is a run of the job without barriers.
#[tactic(auto, using(crate::proofs::Running::without_barriers))]
pub fn without_barriers()
    ensures { (job : Job) (from : States) (h : History) → WithoutBarriers job from h }
{}

/// A run is what the tasks do in the same engine if no barrier ever comes.
#[tactic(auto, using(crate::proofs::PlainRuns::run_is_history))]
pub fn run_is_history()
    ensures { (job : Job) (from : States) (run : Run) → RunIsHistory job from run }
{}

/// A record that each task has cut is a state of a run, with nothing on the way.
#[tactic(auto, using(crate::proofs::Running::record_is_of_run))]
pub fn record_is_of_run()
    ensures { (n : ℕ) (job : Job) (from : States) (h : History) → RecordIsOfRun n job from h }
{}

/// The snapshot of a task with one input of elements is a function of those before the barrier.
#[tactic(auto, using(crate::proofs::Snapping::snapshot_of_input))]
pub fn snapshot_of_input()
    ensures { (n : ℕ) (job : Job) (from : States) (h : History) (t : SubtaskId) (i : ℕ) (rest : List Item) → SnapshotOfInput n job from h t i rest }
{}

/// A run may go on from its states alone once nothing is on the way.
#[tactic(auto, using(crate::proofs::Joining::runs_join))]
pub fn runs_join()
    ensures { (job : Job) (from : States) (first second : Run) → RunsJoin job from first second }
{}

/// After any number of failures the states of the tasks are those of one run without a failure.
#[tactic(auto, using(crate::proofs::Joining::failures_invisible))]
pub fn failures_invisible()
    ensures { (job : Job) (attempts : List Attempt) (h : History) → FailuresInvisible job attempts h }
{}

/// Once a sink has cut a record, what it has sealed up to it stays.
#[tactic(auto, using(crate::proofs::Publishing::sealed_by_then))]
pub fn sealed_by_then()
    ensures { (n : ℕ) (job : Job) (from : States) (h later : History) (sink : Sink) → SealedByThen n job from h later sink }
{}

/// What a sink has published up to a completed record is what that run writes up to it, each
/// element once.
#[tactic(auto, using(crate::proofs::Publishing::published_once))]
pub fn published_once()
    ensures { (job : Job) (attempts : List Attempt) (sink : Sink) → PublishedOnce job attempts sink }
{}

/// At any moment it is a beginning of what that run writes.
#[tactic(auto, using(crate::proofs::Publishing::published_is_prefix))]
pub fn published_is_prefix()
    ensures { (job : Job) (attempts : List Attempt) (sink : Sink) (h : History) (completed : List ℕ) → PublishedIsPrefix job attempts sink h completed }
{}

/// After a checkpoint was completed, the coordinator's choice is that checkpoint or a newer one, as
/// long as no call goes back.
#[tactic(auto, using(crate::proofs::Newer::choice_is_no_older))]
pub fn choice_is_no_older()
    ensures { (m : State) (now id : ℕ) (p : Part) (calls : List Call) → ChoiceIsNoOlder m now id p calls }
{}

/// A restart to the coordinator's choice is one to a done record, and to the last that was
/// completed.
#[tactic(auto, using(crate::proofs::Chosen::chosen_are_last))]
pub fn chosen_are_last()
    ensures { (o : Opening) (job : Job) (attempts : List Attempt) → CanOpen o → ChosenAreLast o job attempts }
{}

/// If each restart is to a done record of the coordinator, failures are invisible in the states of
/// the tasks, and in what sinks publish.
#[tactic(auto, using(crate::proofs::Restarting::restarts_invisible))]
pub fn restarts_invisible()
    ensures { (o : Opening) (job : Job) (attempts : List Attempt) (h : History) → CanOpen o → RestartsInvisible o job attempts h }
{}

/// If no task chooses between inputs, all runs of a job have one output.
pub fn one_output()
    ensures { (job : Job) (from : States) (plan : Plan) (first second : Run) → OneOutput job from plan first second }
{}

/// And then each sink has published, each element once, a beginning of that output.
pub fn exactly_once()
    ensures { (o : Opening) (job : Job) (plan : Plan) (attempts : List Attempt) → CanOpen o → ExactlyOnce o job plan attempts }
{}
