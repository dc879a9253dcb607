//! The laws of a fenced coordinator, each on a function that does nothing.

ghost use Rattle.std.specs.Prelude.{◌≡◌, ℕ, List, Some, None};
ghost use Rattle.ckpt_ids.specs.Records.{Record};
ghost use Rattle.ckpt_model.specs.{Progress.TimedPart, Soundness.IsSound};
ghost use Rattle.ckpt_model.specs.State.{State, Opening, opened};
ghost use Rattle.ckpt_terms.specs.{declared.call.FencedCall.FencedCall, Advancing.AdvancesAll, NamedProgress.CompletesInTerm};
ghost use Rattle.ckpt_terms.specs.declared.machine.Machine.TheVariants as machine;
ghost use Rattle.ckpt_terms.specs.Fencing.{Fenced, fenced, fenced_replay};
ghost use Rattle.ckpt_terms.specs.FencedLaws.{CanFence, AreFencedCalls, IsFenced, IsFencedCall, Classified, GarbageForGood, OneTerm};
ghost use Rattle.ckpt_terms.specs.FencedLaws.{DeletionsAreSafe, IssuesOnce, IssuedOnce, ZombiesAreFenced, SweepIsExact, CancelledIsSwept};
ghost use Rattle.ckpt_terms.specs.Machines.{fence_fault, fenced_of, first_names, machine_of};
ghost use Rattle.ckpt_terms.specs.TermsImages.{AreFencedAlike, CanHoldFenced, FencedGoesOnAs, IsFencedCut, fenced_settled};

/// What always holds for a fenced coordinator holds of an opening with names, where a plain one gets
/// names, and after every list of calls from a state of which it holds. Of an image's state it is part
/// of `CanHoldFenced`. Each law below is of every such state.
pub fn fenced_always()
    ensures opening { (o : Opening) (first : ℕ) → CanFence o first → IsFenced (fenced o first) }
    ensures named { (m : State) (first : ℕ) → IsSound m → fence_fault (machine.Plain m) first ≡ None → IsFenced (fenced_of m (first_names first)) }
    ensures after { (m : Fenced) (calls : List FencedCall) → IsFenced m → AreFencedCalls calls → IsFenced (fenced_replay m calls) }
    ensures opened { (o : Opening) (n : ℕ) (its : List FencedCall) → CanFence o n → AreFencedCalls its → IsFenced (fenced_replay (fenced o n) its) }
{}

/// A fence as first call leaves what an opening with names gives, and is not refused.
pub fn fence_first()
    ensures opening { (o : Opening) (first : ℕ) → machine_of (opened o) (Some (first_names first)) ≡ machine.Fenced (fenced o first) }
    ensures accepted { (o : Opening) (first : ℕ) → CanFence o first → fence_fault (machine.Plain (opened o)) first ≡ None }
{}

/// Each number is in exactly one class: not given out, held by a task of the running term, in use,
/// waiting for deletion, fetched for it, garbage.
pub fn classified()
    ensures { (m : Fenced) → IsFenced m → Classified m }
{}

/// Garbage is garbage for good.
pub fn garbage_for_good()
    ensures { (m : Fenced) (calls : List FencedCall) → IsFenced m → AreFencedCalls calls → GarbageForGood m calls }
{}

/// No live record uses a file that may be deleted, neither then nor later.
pub fn deletions_are_safe()
    ensures { (m : Fenced) (calls : List FencedCall) → IsFenced m → AreFencedCalls calls → DeletionsAreSafe m calls }
{}

/// The calls that reach the coordinator are a history of it. No deleted file is reported to it as
/// new again, so a file was handed out exactly when it was registered and no live record uses it.
pub fn issued_once()
    ensures sound { (m : Fenced) (calls : List FencedCall) → IsFenced m → AreFencedCalls calls → IssuesOnce m calls }
    ensures opened { (o : Opening) (first : ℕ) (calls : List FencedCall) → CanFence o first → AreFencedCalls calls → IssuedOnce o first calls }
{}

/// Once a restore, an advance or a cancel is accepted, the tasks that ran before change nothing.
pub fn zombies_are_fenced()
    ensures { (m : Fenced) (calls : List FencedCall) → IsFenced m → AreFencedCalls calls → ZombiesAreFenced m calls }
{}

/// From an accepted advance on, each term that is told is above the one that the advance was given
/// and the one that ran before, and each name that is given out is at least the first one that it
/// was given and the next one of before.
pub fn advances()
    ensures { (m : Fenced) (now term first : ℕ) (calls : List FencedCall) → IsFenced m → AreFencedCalls calls → AdvancesAll m now term first calls }
{}

/// Each acknowledgement that is accepted for a pending record was made in the term in which that
/// record was triggered.
pub fn one_term()
    ensures { (m : Fenced) (c : FencedCall) (later : List FencedCall) → IsFenced m → IsFencedCall c → AreFencedCalls later → OneTerm m c later }
{}

/// If each subtask that a pending record lacks acknowledges once in the term that runs, in any
/// order, with names that the term holds and files in use, and no other call is made between, then
/// each is accepted, and the last one completes the record.
pub fn completes()
    ensures { (m : Fenced) (id : ℕ) (r : Record) (ts : List TimedPart) → IsFenced m → CompletesInTerm m id r ts }
{}

/// Right after an accepted restore, advance or cancel each name that was given out is in use, waits for
/// deletion, was fetched for it, or is garbage.
pub fn sweep_is_exact()
    ensures { (m : Fenced) → SweepIsExact m }
{}

/// In a job that was cancelled each name that was given out is in use, waits for deletion, was
/// fetched for it, or is garbage.
pub fn cancelled_is_swept()
    ensures { (m : Fenced) → IsFenced m → CancelledIsSwept m }
{}

/// A state that an image may have, with the fetched files in ascending order, is one too, and
/// differs in that order alone.
pub fn settling()
    ensures held { (m : Fenced) → CanHoldFenced m → CanHoldFenced (fenced_settled m) }
    ensures alike { (m : Fenced) → AreFencedAlike m (fenced_settled m) }
{}

/// Two states that differ in the order of the fetched files alone answer every list of calls the
/// same, and stay so.
pub fn resumes()
    ensures { (m n : Fenced) (calls : List FencedCall) → AreFencedAlike m n → FencedGoesOnAs m n calls }
{}

/// A log may be cut at each place. A state with the fetched files in ascending order answers the
/// calls after it as the log does, and is alike after them.
pub fn cutting()
    ensures { (m : Fenced) (before after : List FencedCall) → IsFencedCut m before after }
{}
