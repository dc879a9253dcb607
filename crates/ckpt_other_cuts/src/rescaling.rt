//! The laws of a restore in another shape, each on a function that does nothing.

ghost use Rattle.std.specs.Prelude.{ℕ, List, [], ◌∷◌};
ghost use Rattle.ckpt_model.specs.{Laws.CanOpen, State.Opening};
ghost use Rattle.ckpt_once.specs.Jobs.{IsJob, Job, run_of};
ghost use Rattle.ckpt_other_cuts.specs.Rescaled.{Entry, Redistributes, Rescaling, RescalingInvisible, RestoresKeys, Split, TwiceIsOnce};
ghost use Rattle.ckpt_other_cuts.specs.Reshaped.{AreRestarts, IsBegun, IsRoutedByKey, IsShapeOf, ReshapingInvisible, Restart, Stage, finest, recorded};
ghost use Rattle.ckpt_other_cuts.specs.WorkedRestarts.{opening, reshaped, restart};
ghost use Rattle.ckpt_other_cuts.specs.WorkedShapes.{job, keys, spread, stage};

/// Each key's entries go to the new subtask that the key belongs to, and to no other. Together the new
/// parts have each entry of the record once.
pub fn redistributes()
    ensures { (old new : Split) (parts : ℕ → List Entry) (k : ℕ) → Redistributes old new parts k }
{}

/// Two rescalings with nothing done between them give each key what the second alone gives it.
#[tactic(auto, using(crate::proofs::Redistributing::twice_is_once))]
pub fn twice_is_once()
    ensures { (old new newer : Split) (parts : ℕ → List Entry) (k : ℕ) → TwiceIsOnce old new newer parts k }
{}

/// Each key goes on from the state that the record has for it.
#[tactic(auto, using(crate::proofs::Redistributing::restores_keys))]
pub fn restores_keys()
    ensures { (it : Rescaling) (k : ℕ) → RestoresKeys it k }
{}

/// If the exchange brings each element to the subtask of its key, each key has the state, and emits
/// what it would have had and emitted without the rescaling.
pub fn rescaling_invisible()
    ensures { (it : Rescaling) (k : ℕ) → RescalingInvisible it k }
{}

/// The job of the keys is a shape of itself: its subtasks have one key each.
#[tactic(auto, using(crate::proofs::KeyRuns::finest_is_shape))]
pub fn finest_is_shape()
    ensures { (keys : Job) → IsShapeOf keys keys finest }
{}

/// The worked job, in which one subtask has two keys, is a shape of its job of the keys.
#[tactic(auto, using(crate::proofs::WorkedShaping::worked_is_shape))]
pub fn worked_is_shape()
    ensures { IsShapeOf keys job spread }
{}

/// Its stage begins as the law of restores has it, from the starts of the keys, and it is routed.
#[tactic(auto, using(crate::proofs::WorkedShaping::worked_is_job, crate::proofs::WorkedShaping::worked_begins, crate::proofs::WorkedShaping::worked_is_routed))]
pub fn worked_begins()
    ensures keys_are_job { IsJob keys }
    ensures begins { IsBegun keys (recorded keys []) stage }
    ensures is_routed { IsRoutedByKey job spread stage.from (run_of job stage.history) }
{}

/// It cuts a record that the coordinator completes, and a stage in another shape, with a subtask for each
/// key, begins from it: all premises of the law of restores hold, with a restart.
#[tactic(auto, using(crate::proofs::WorkedRestarting::can_open, crate::proofs::WorkedRestarting::are_restarts, crate::proofs::WorkedRestarting::reshaped_begins, crate::proofs::WorkedRestarting::reshaped_is_routed))]
pub fn worked_restores()
    ensures can_open { CanOpen opening }
    ensures restarts { AreRestarts opening keys (restart ∷ []) }
    ensures begins { IsBegun keys (recorded keys (restart ∷ [])) reshaped }
    ensures is_routed { IsRoutedByKey keys finest reshaped.from (run_of keys reshaped.history) }
{}

/// After any number of failures and restores in other shapes, each to a done record of the
/// coordinator, the states of all keys, and what was published of each key's outputs, are those of
/// one run of the job of the keys, without a failure.
#[tactic(auto, using(crate::proofs::Reshaping::reshaping_invisible))]
pub fn reshaping_invisible()
    ensures { (o : Opening) (keys : Job) (restarts : List Restart) (stage : Stage) → CanOpen o → ReshapingInvisible o keys restarts stage }
{}
