//! The laws of restarts from records whose tasks took their snapshots before each barrier had come,
//! each on a function that does nothing.

ghost use Rattle.std.specs.Prelude.{List};
ghost use Rattle.ckpt_once.specs.{Jobs.Job, WorkedExamples.job};
ghost use Rattle.ckpt_other_cuts.specs.Restarted.{AreStretches, Begin, Doings, IsRunFrom, RecordersKeepChannels, RestartsInvisible, Stretch, begin_after, moves};
ghost use Rattle.ckpt_other_cuts.specs.{Resumed.Attempt, Resumed.ResumesInvisible, WorkedResumes.again, WorkedResumes.stretches};

/// What recorders made has, of each channel, what was put before the sender's snapshot and not taken
/// before the receiver's.
#[tactic(auto, using(crate::proofs::Resuming::recorders_keep_channels))]
pub fn recorders_keep_channels()
    ensures { (job : Job) (b : Begin) (s : Stretch) → RecordersKeepChannels job b s }
{}

/// After any number of failures, each followed by a restart from the snapshots of such a record and
/// its parts of the channels, the states of all tasks, and what sinks published, are those of one run
/// of the job without a failure.
#[tactic(auto, using(crate::proofs::Resuming::restarts_invisible))]
pub fn restarts_invisible()
    ensures { (job : Job) (ss : List Stretch) (doings : Doings) → RestartsInvisible job ss doings }
{}

/// The same of jobs whose recorders say when tasks take their snapshots, with what each sink published
/// of the records of which it was told, each element once.
#[tactic(auto, using(crate::proofs::Resumed::resumes_invisible))]
pub fn resumes_invisible()
    ensures { (job : Job) (its : List Attempt) (doings : Doings) → ResumesInvisible job its doings }
{}

/// A job that fails with an element on the way, and begins from a record that has it: the premises hold.
#[tactic(auto, using(crate::specs::WorkedResumes::are_stretches, crate::specs::WorkedResumes::is_run_from))]
pub fn worked_resumes()
    ensures stretches { AreStretches job stretches }
    ensures run { IsRunFrom job (begin_after job stretches) (moves again) }
{}
