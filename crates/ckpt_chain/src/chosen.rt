//! The laws of loops and of their sinks, without crashes, each on a function that does nothing.

ghost use Rattle.std.specs.Prelude.{List, [], ◌∷◌};
ghost use Rattle.ckpt_chain.specs.Chosen.{AreChosenLoops, ChosenLoopsAreLast, ChosenSinkGivesOnce};
ghost use Rattle.ckpt_chain.specs.{Looped.AreToldLoops, SinkFaults.HasSunkUntilFault, SinkFaults.SinkFaultsCount};
ghost use Rattle.ckpt_chain.specs.WorkedExamples.{begin, now, sink};
ghost use Rattle.ckpt_chain.specs.WorkedSink.{attempt, did, failing};
ghost use Rattle.ckpt_ids.specs.Ordered.{IsIn};
ghost use Rattle.ckpt_model.specs.{Laws.CanOpen, State.Opening};
ghost use Rattle.ckpt_once.specs.Jobs.{Job, States, starts};
ghost use Rattle.ckpt_once.specs.{Restarts.AreChosen, Sinks.Sink, WorkedExamples.job};
ghost use Rattle.ckpt_task.specs.{Faults.AreFailing, WorkedLoops.opening};
ghost use Rattle.ckpt_task.specs.Loops.{AreLooping, Loops, LoopsAttempt, attempts_of};
ghost use Rattle.ckpt_task.specs.SinkLoops.{HaveGiven, SinkAttempt, loops_of};

/// Restarts of tasks in loops to the coordinator's choice are to done records, and to the last that were
/// completed.
#[tactic(auto, using(crate::proofs::Choosing::chosen_loops_are_last))]
pub fn chosen_loops_are_last()
    ensures { (o : Opening) (job : Job) (ones : List LoopsAttempt) → CanOpen o → ChosenLoopsAreLast o job ones }
{}

/// So what the calls of a sink in a loop returned is what it writes in a run without a failure up to the
/// last restored record, each element once.
#[tactic(auto, using(crate::proofs::Choosing::chosen_sink_gives_once))]
pub fn chosen_sink_gives_once()
    ensures { (o : Opening) (job : Job) (sink : Sink) (ks : List SinkAttempt) → CanOpen o → ChosenSinkGivesOnce o job sink ks }
{}

/// A sink that a fault stopped counts as one without a fault, which published the same.
#[tactic(auto, using(crate::proofs::SinkFailing::sink_faults_count))]
pub fn sink_faults_count()
    ensures { (job : Job) (from : States) (sink : Sink) (e : Loops) → SinkFaultsCount job from sink e }
{}

/// The worked example of a sink that a fault stopped meets its premises.
pub fn worked_fault()
    ensures are_failing { AreFailing job (starts job) failing }
    ensures is_task { IsIn sink.task job.tasks }
    ensures until { HasSunkUntilFault job (starts job) sink (failing.looped sink.task) }
{}

/// The worked example of a sink in a loop meets the premises of both, of `told_sink_gives_once`, and of
/// `chosen_are_last` of `ckpt_once`.
pub fn worked_sink()
    ensures can_open { CanOpen opening }
    ensures are_chosen { AreChosenLoops opening job (loops_of (attempt ∷ [])) }
    ensures are_last { AreChosen opening job (attempts_of (loops_of (attempt ∷ []))) }
    ensures is_looping { AreLooping job (starts job) did }
    ensures have_given { HaveGiven job sink (attempt ∷ []) }
    ensures are_told { AreToldLoops begin now job (loops_of (attempt ∷ [])) }
{}
