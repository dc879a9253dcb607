//! What a ledger publishes is what the sink of `ckpt_once` publishes, each law on a function that
//! does nothing.

ghost use Rattle.std.specs.Prelude.{ℕ, List, [], ◌∷◌};
ghost use Rattle.ckpt_ids.specs.Ordered.{IsIn};
ghost use Rattle.ckpt_ledger.specs.{Laws.Holds, Laws.PublishesAsSink, Ledgers.Moment, WorkedRestarts.sink, WorkedRestarts.told};
ghost use Rattle.ckpt_ledger.specs.Restarts.{AreTold, AttemptTold, LostComesAgain, PublishesOverRestarts, attempts};
ghost use Rattle.ckpt_once.specs.Jobs.{AreAttempts, History, Job, States};
ghost use Rattle.ckpt_once.specs.{Sinks.AreLast, Sinks.Sink, WorkedExamples.job};

/// A ledger that is told each write and each cut of a sink's task, and of completed records that it has
/// cut, publishes what the sink of the laws publishes.
#[tactic(auto, using(crate::proofs::Publishing::publishes_as_sink))]
pub fn publishes()
    ensures { (job : Job) (from : States) (h : History) (sink : Sink) (moments : List Moment) → PublishesAsSink job from h sink moments }
{}

/// And as long as no record was completed it holds what that sink has sealed.
#[tactic(auto, using(crate::proofs::Publishing::holds))]
pub fn holds()
    ensures { (job : Job) (from : States) (h : History) (sink : Sink) (moments : List Moment) → Holds job from h sink moments }
{}

/// Over any number of failures, after each of which it is restored to the record that the job was
/// restored to, a ledger publishes what that sink publishes: the same ledger, or one that was made
/// anew from the snapshot of that record.
#[tactic(auto, using(crate::proofs::Restarting::publishes_over_restarts))]
pub fn publishes_over_restarts()
    ensures { (job : Job) (sink : Sink) (ones : List AttemptTold) → PublishesOverRestarts job sink ones }
{}

/// If a ledger was made anew, what the lost one had published is the beginning of that.
#[tactic(auto, using(crate::proofs::Restarting::lost_comes_again))]
pub fn lost_comes_again()
    ensures { (job : Job) (sink : Sink) (one : AttemptTold) (ones : List AttemptTold) → LostComesAgain job sink one ones }
{}

/// The ledger of the worked sink, which is lost once its record was completed, meets the premises of
/// these laws.
pub fn worked_told()
    ensures are_attempts { AreAttempts job (attempts (told ∷ [])) }
    ensures are_last { AreLast (attempts (told ∷ [])) }
    ensures is_task { IsIn sink.task job.tasks }
    ensures are_told { AreTold job sink (told ∷ []) }
{}
