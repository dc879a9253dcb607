//! The law of completed records, on a function that does nothing.

ghost use Rattle.std.specs.Prelude.{List};
ghost use Rattle.ckpt_ids.specs.declared.call.Call.{Call};
ghost use Rattle.ckpt_align.specs.Laws.{Network};
ghost use Rattle.ckpt_model.specs.State.{Opening};
ghost use Rattle.ckpt_model.specs.Laws.{AreCalls, CanOpen};
ghost use Rattle.ckpt_cuts.specs.Laws.{DoneIsConsistent};

/// If each accepted acknowledgement of a completed record comes from a subtask that has cut the
/// record, and channels keep their order, the record is a consistent cut of the job.
#[tactic(auto, using(crate::proofs::Consistency::consistent))]
pub fn consistent()
    ensures { (o : Opening) (calls : List Call) (w : Network) → CanOpen o → AreCalls calls → DoneIsConsistent o calls w }
{}
