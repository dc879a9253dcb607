//! The laws of other cuts, each on a function that does nothing.

ghost use Rattle.std.specs.Prelude.{ℕ, List};
ghost use Rattle.ckpt_align.specs.{Histories.Action, Histories.Item, Laws.Network};
ghost use Rattle.ckpt_ids.specs.declared.call.Call.{Call};
ghost use Rattle.ckpt_model.specs.{Laws.AreCalls, Laws.CanOpen, State.Opening};
ghost use Rattle.ckpt_other_cuts.specs.Finished.{DoneIsConsistent, FinishedCut};
ghost use Rattle.ckpt_other_cuts.specs.Loose.{AtLeastOnce, DoneLosesNone, LosesNone};

/// A task that does not hold has processed, at its cut of a record, each element before the record's
/// barrier, in order. It may have processed others, which come again.
#[tactic(auto, using(crate::proofs::Losing::loses_none))]
pub fn loses_none()
    ensures { (inputs : ℕ) (actions : List Action) (action : Action) (n j : ℕ) (rest : List Item) → LosesNone inputs actions action n j rest }
{}

/// If channels keep their order, the cuts of tasks that do not hold lose no element between them.
#[tactic(auto, using(crate::proofs::Losing::at_least_once))]
pub fn at_least_once()
    ensures { (n : ℕ) (w : Network) → AtLeastOnce n w }
{}

/// So a live completed record of the coordinator loses none.
#[tactic(auto, using(crate::proofs::Losing::done_loses_none))]
pub fn done_loses_none()
    ensures { (o : Opening) (calls : List Call) (w : Network) → CanOpen o → AreCalls calls → DoneLosesNone o calls w }
{}

/// If each receiver has cut a record, or has ended with all its inputs and without a barrier of the
/// record, then the cuts are consistent. An ended task's part is all that it did.
#[tactic(auto, using(crate::proofs::Ending::finished_cut))]
pub fn finished_cut()
    ensures { (n : ℕ) (w : Network) → FinishedCut n w }
{}

/// So a live completed record is a consistent cut, if ended tasks are acknowledged for.
#[tactic(auto, using(crate::proofs::Ending::done_is_consistent))]
pub fn done_is_consistent()
    ensures { (o : Opening) (calls : List Call) (w : Network) → CanOpen o → AreCalls calls → DoneIsConsistent o calls w }
{}
