//! Barriers are orders of the coordinator, each law on a function that does nothing.

ghost use Rattle.std.specs.Prelude.{ℕ, List, [], ◌∷◌};
ghost use Rattle.ckpt_chain.specs.Triggered.{AreTriggered, CutsAreGiven, HasNoEarlier, Tried, asked};
ghost use Rattle.ckpt_chain.specs.{WorkedExamples.begin, WorkedTriggers.first, WorkedTriggers.second};
ghost use Rattle.ckpt_ids.specs.{declared.subtask.SubtaskId.SubtaskId, Ordered.IsIn};
ghost use Rattle.ckpt_logged.specs.Events.{AreEvents};
ghost use Rattle.ckpt_once.specs.Jobs.{History, IsJob, Job, States};
ghost use Rattle.ckpt_once.specs.WorkedExamples.{adder, job};
ghost use Rattle.ckpt_task.specs.Deeds.{Acknowledges, told_in};
ghost use Rattle.ckpt_terms.specs.declared.machine.Machine.{Machine};

/// If each barrier that enters a job by no channel is the order of one of these records, each record that
/// a task has cut is one of them.
#[tactic(auto, using(crate::proofs::Triggering::cuts_are_given))]
pub fn cuts_are_given()
    ensures { (given : List ℕ) (job : Job) (from : States) (h : History) (t : SubtaskId) (n : ℕ) → CutsAreGiven given job from h t n }
{}

/// A coordinator gives each number once. So if the orders of each attempt are of the records that it gave
/// meanwhile, no task has an earlier snapshot of a record that it acknowledges.
#[tactic(auto, using(crate::proofs::Triggering::has_no_earlier))]
pub fn has_no_earlier()
    ensures { (m : Machine) (job : Job) (ks : List Tried) (k : Tried) (t : SubtaskId) (n : ℕ) → HasNoEarlier m job ks k t n }
{}

/// The worked loops, with the coordinator that triggered their record, meet the premises.
pub fn worked_triggers()
    ensures is_job { IsJob job }
    ensures are_events { AreEvents (asked (second ∷ first ∷ [])) }
    ensures are_triggered { AreTriggered begin job (second ∷ first ∷ []) }
    ensures is_task { IsIn adder job.tasks }
    ensures acknowledged { IsIn (Acknowledges 1) (told_in (first.loops.looped adder).last.deeds) }
{}
