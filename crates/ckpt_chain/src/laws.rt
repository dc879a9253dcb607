//! The laws of the chain, each on a function that does nothing.

ghost use Rattle.std.specs.Prelude.{◌≡◌, ℕ, false, List, [], ◌∷◌};
ghost use Rattle.ckpt_align.specs.Laws.{Network};
ghost use Rattle.ckpt_chain.specs.{Durably.DurableIsGroup, TermLoops.AreTermLoops, TermLoops.TermLoopsAreSeamless, Terms.OnlyItsTerm, Terms.TermsAreSeamless};
ghost use Rattle.ckpt_chain.specs.Looped.{AreToldLoops, ToldLoopsAreSeamless, ToldSinkGivesOnce};
ghost use Rattle.ckpt_chain.specs.Named.{ConsistentWithNames, NamedExactlyOnce, NamedRestartsInvisible};
ghost use Rattle.ckpt_chain.specs.Since.{AreRestarts, DoneIsConsistent, ExactlyOnce, RestartsInvisible};
ghost use Rattle.ckpt_chain.specs.Told.{AreToldRestarts, LedgerPublishesOnce, NeverGoesBack, NobodyGoesBack, Soundly, ToldExactlyOnce, ToldIsSeamless, asks_way_back, call_of};
ghost use Rattle.ckpt_chain.specs.WorkedExamples.{attempt, begin, now, sink, told, turns};
ghost use Rattle.ckpt_durable.specs.Crashes.{Event as CrashEvent};
ghost use Rattle.ckpt_durable.specs.Groups.{AreTurns, Turn, synced};
ghost use Rattle.ckpt_ids.specs.Ordered.{IsIn};
ghost use Rattle.ckpt_ledger.specs.Restarts.{AreTold, AttemptTold, attempts};
ghost use Rattle.ckpt_logged.specs.Events.{AreEvents, Event, IsWell};
ghost use Rattle.ckpt_model.specs.State.{Opening};
ghost use Rattle.ckpt_once.specs.{Choices.HasNoChoice, Choices.Plan, Sinks.AreLast, Sinks.Sink, WorkedExamples.job, WorkedExamples.plan};
ghost use Rattle.ckpt_once.specs.Jobs.{Attempt, History, IsJob, Job, restored};
ghost use Rattle.ckpt_task.specs.Loops.{AreLooping, Loops, LoopsAttempt, attempts_of};
ghost use Rattle.ckpt_task.specs.{SinkLoops.SinkAttempt, WorkedLoops.again};
ghost use Rattle.ckpt_terms.specs.{declared.call.FencedCall.FencedCall, declared.machine.Machine.Machine, Fencing.Fenced, FencedLaws.CanFence};

/// A completed record is a consistent cut, if each of its acknowledgements comes from a subtask that has
/// cut it, and channels keep their order: of calls with names from an opening on, and since any sound
/// state, with names or without.
pub fn consistent()
    ensures named { (o : Opening) (first : ℕ) (calls : List FencedCall) (w : Network) → ConsistentWithNames o first calls w }
    ensures since { (m : Machine) (events : List Event) (w : Network) → IsWell m → AreEvents events → DoneIsConsistent m events w }
{}

/// If each restart is to a done record of the coordinator, failures are invisible in the states of the
/// tasks, and in what sinks publish.
pub fn restarts_invisible()
    ensures named { (o : Opening) (n : ℕ) (job : Job) (attempts : List Attempt) (h : History) → CanFence o n → NamedRestartsInvisible o n job attempts h }
    ensures since { (m : Machine) (job : Job) (attempts : List Attempt) (h : History) → IsWell m → RestartsInvisible m job attempts h }
{}

/// If no task chooses between inputs, what sinks have published agrees with any run without a failure.
pub fn exactly_once()
    ensures named { (o : Opening) (n : ℕ) (job : Job) (plan : Plan) (attempts : List Attempt) → CanFence o n → NamedExactlyOnce o n job plan attempts }
    ensures since { (m : Machine) (job : Job) (plan : Plan) (attempts : List Attempt) → IsWell m → ExactlyOnce m job plan attempts }
{}

/// No call of the synced log goes back if nobody asked for a roll back to a savepoint or for a cancel.
#[tactic(auto, using(crate::proofs::WaysBack::nobody_goes_back))]
pub fn nobody_goes_back()
    ensures { (m : Machine) (turns : List Turn) → AreTurns turns → NobodyGoesBack m turns }
{}

/// A job that acts on what it was told, over a coordinator whose calls outlive crashes: its failures and
/// those of the coordinator are invisible.
#[tactic(auto, using(crate::proofs::Chain::told_is_seamless))]
pub fn told_is_seamless()
    ensures { (m : Machine) (turns : List Turn) (job : Job) (attempts : List Attempt) (h : History) → Soundly ToldIsSeamless m turns job attempts h }
{}

/// If no task chooses between inputs, what its sinks have published agrees with any run without a failure.
pub fn told_exactly_once()
    ensures { (m : Machine) (turns : List Turn) (job : Job) (plan : Plan) (attempts : List Attempt) → Soundly ToldExactlyOnce m turns job plan attempts }
{}

/// What a sink's ledger publishes is what it writes in a run without a failure up to the last restored
/// record, each element once, whatever crashes.
#[tactic(auto, using(crate::proofs::Chain::ledger_publishes_once))]
pub fn ledger_publishes_once()
    ensures { (m : Machine) (turns : List Turn) (job : Job) (sink : Sink) (ones : List AttemptTold) → Soundly LedgerPublishesOnce m turns job sink ones }
{}

/// What is accepted for a record was asked for in the term of its trigger. So of acknowledgements in
/// other terms nothing has to be assumed: a task that should be dead takes no part.
pub fn only_its_term()
    ensures { (n : ℕ) (m : Machine) (log : List Event) (w : Network) → OnlyItsTerm n m log w }
{}

/// So failures are invisible, whatever the tasks of earlier attempts still call.
#[tactic(auto, using(crate::proofs::Chain::terms_are_seamless))]
pub fn terms_are_seamless()
    ensures { (m : Machine) (turns : List Turn) (job : Job) (attempts : List Attempt) (h : History) → Soundly TermsAreSeamless m turns job attempts h }
{}

/// And so they are of tasks in loops, each of which acknowledges what it has cut and saved.
#[tactic(auto, using(crate::proofs::Chain::told_loops_are_seamless))]
pub fn told_loops_are_seamless()
    ensures { (m : Machine) (turns : List Turn) (job : Job) (ones : List LoopsAttempt) (e : Loops) → Soundly ToldLoopsAreSeamless m turns job ones e }
{}

/// What the calls of a sink in a loop returned is what it writes in a run without a failure up to the
/// last restored record, each element once, whatever crashes.
#[tactic(auto, using(crate::proofs::Chain::told_sink_gives_once))]
pub fn told_sink_gives_once()
    ensures { (m : Machine) (turns : List Turn) (job : Job) (sink : Sink) (ks : List SinkAttempt) → Soundly ToldSinkGivesOnce m turns job sink ks }
{}

/// All in one: tasks in loops, each in the term that it was started with.
#[tactic(auto, using(crate::proofs::Chain::term_loops_are_seamless))]
pub fn term_loops_are_seamless()
    ensures { (m : Machine) (turns : List Turn) (job : Job) (ones : List LoopsAttempt) (e : Loops) → Soundly TermLoopsAreSeamless m turns job ones e }
{}

/// What a program does with a durable coordinator in Rattle is what one does that commits in groups. So
/// these laws are of it too.
pub fn durable_is_group()
    ensures { (m : Fenced) (events : List CrashEvent) → DurableIsGroup m events }
{}

/// The worked example, in which the coordinator gets names, an image cuts its log, and it crashes twice,
/// meets the premises of `told_loops_are_seamless` and of `term_loops_are_seamless`; of
/// `ledger_publishes_once`; of `told_exactly_once`; of `nobody_goes_back`; and of the laws since a sound
/// state.
pub fn worked_chain()
    ensures is_well { IsWell begin }
    ensures are_turns { AreTurns turns }
    ensures is_job { IsJob job }
    ensures never_goes_back { NeverGoesBack begin (synced now) }
    ensures are_told { AreToldLoops begin now job (attempt ∷ []) }
    ensures in_terms { AreTermLoops begin now job (attempt ∷ []) }
    ensures is_looping { AreLooping job (restored job (attempts_of (attempt ∷ []))) again }
    ensures are_restarts { AreToldRestarts begin now job (attempts (told ∷ [])) }
    ensures is_task { IsIn sink.task job.tasks }
    ensures ledger_told { AreTold job sink (told ∷ []) }
    ensures no_choice { HasNoChoice job plan }
    ensures nobody_asks { (event : Event) → IsIn event now.made → asks_way_back (call_of event) ≡ false }
    ensures since { AreRestarts begin job (attempts (told ∷ [])) }
    ensures are_last { AreLast (attempts (told ∷ [])) }
{}
