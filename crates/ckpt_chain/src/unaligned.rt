//! The law of the chain for jobs whose checkpoints may overtake, on functions that do nothing.

ghost use Rattle.std.specs.Prelude.{List, [], ◌∷◌};
ghost use Rattle.ckpt_chain.specs.{Told.NeverGoesBack, Told.Soundly, Unaligned.AreToldResumes, Unaligned.ToldResumesAreSeamless};
ghost use Rattle.ckpt_chain.specs.WorkedExamples.{begin, now, turns};
ghost use Rattle.ckpt_durable.specs.Groups.{AreTurns, Turn, synced};
ghost use Rattle.ckpt_logged.specs.Events.{IsWell};
ghost use Rattle.ckpt_once.specs.{Jobs.IsJob, Jobs.Job, WorkedExamples.job};
ghost use Rattle.ckpt_other_cuts.specs.Restarted.{Doings, IsRunFrom, begin_after, moves};
ghost use Rattle.ckpt_other_cuts.specs.{Resumed.Attempt, Resumed.stretches, WorkedRecorders.attempt, WorkedResumes.again};
ghost use Rattle.ckpt_terms.specs.declared.machine.Machine.{Machine};

/// A job that acts on what it was told, and whose records have what was on the way to its tasks: its
/// failures and those of the coordinator are invisible.
#[tactic(auto, using(crate::proofs::ToldResumes::told_resumes_are_seamless))]
pub fn told_resumes_are_seamless()
    ensures { (m : Machine) (turns : List Turn) (job : Job) (its : List Attempt) (doings : Doings) → Soundly ToldResumesAreSeamless m turns job its doings }
{}

/// The coordinator of `worked_chain`, and a job one of whose tasks took its snapshot before what was on
/// the way to it, meet the premises.
pub fn worked_told_resumes()
    ensures is_well { IsWell begin }
    ensures are_turns { AreTurns turns }
    ensures is_job { IsJob job }
    ensures never_goes_back { NeverGoesBack begin (synced now) }
    ensures are_told { AreToldResumes begin now job (attempt ∷ []) }
    ensures goes_on { IsRunFrom job (begin_after job (stretches (attempt ∷ []))) (moves again) }
{}
