//! The laws of the coordinator, each on a function that does nothing.

ghost use Rattle.std.specs.Prelude.{◌≡◌, ℕ, true, List, ◌++◌, Option};
ghost use Rattle.ckpt_ids.specs.Configuration.{Configuration, IsWithinLimits};
ghost use Rattle.ckpt_ids.specs.declared.call.Call.{Call};
ghost use Rattle.ckpt_ids.specs.Ordered.{IsIn};
ghost use Rattle.ckpt_ids.specs.Records.{Record, is_present, uses};
ghost use Rattle.ckpt_model.specs.State.{State, Opening, opened};
ghost use Rattle.ckpt_model.specs.Histories.{replay};
ghost use Rattle.ckpt_model.specs.Soundness.{IsSound};
ghost use Rattle.ckpt_model.specs.Laws.{Exchange, Part, CanOpen, AreCalls, Balance, Handed, Accounted, Outgoing, NoneLeaks, UsedNoMore, Outbox, Acknowledgements, Numbers, Savepoints, ChoiceIsLive, PinsStay};
ghost use Rattle.ckpt_model.specs.Images.{AreAlike, CanHold, GoesOnAs, IsCut, settled};
ghost use Rattle.ckpt_model.specs.Settings.{OpeningIs, ConfiguresNow, IsAsTick};
ghost use Rattle.ckpt_model.specs.Interleavings.{NewFile, SeatedCalls, AnyOrder};
ghost use Rattle.ckpt_model.specs.Progress.{Completes, TimedPart};
ghost use Rattle.ckpt_model.specs.Keeping.{TakesNewest, Restores, LeavesDone, Keeps, KeepsThrough};

/// Two acknowledgements of different subtasks of one record, one right after the other, go in
/// either order, with the same answers in turn and the same state after.
pub fn swap()
    ensures { (m : State) (now id : ℕ) (p q : Part) → IsSound m → Exchange m now id p q }
{}

/// Several seats acknowledge different missing subtasks of one record, each with one new file of
/// its own. Every order of their turns leaves the same state and the same numbers of accepted and
/// refused calls. If one completes the record, its answer is the same too.
pub fn any_order()
    ensures { (m : State) (now id : ℕ) (r : Record) (news : List NewFile) (given made : SeatedCalls) → IsSound m → AnyOrder m now id r news given made }
{}

/// If each subtask that a pending record lacks acknowledges once, in any order, with new files and
/// files in use, and no other call is made between, then each is accepted, and the last one
/// completes the record.
///
/// Each file that a record pinned is in use: those of the choice at its trigger.
pub fn completes()
    ensures all { (m : State) (id : ℕ) (r : Record) (ts : List TimedPart) → IsSound m → Completes m id r ts }
    ensures pinned { (m : State) (r : Record) (f : ℕ) → IsIn r m.records → IsIn f r.pins → is_present (uses m.records) f ≡ true }
{}

/// Each time that a file is registered it is handed out once, or is present still.
pub fn balance()
    ensures { (o : Opening) (calls : List Call) → CanOpen o → AreCalls calls → Balance o calls }
{}

/// If no deleted file is reported as new again, a file was handed out exactly when it was
/// registered and no live record uses it.
pub fn handed()
    ensures { (o : Opening) (calls : List Call) → CanOpen o → AreCalls calls → Handed o calls }
{}

/// A registered file that no live record uses waits for deletion, or was fetched for it, or was
/// reported as deleted.
pub fn accounted()
    ensures { (o : Opening) (calls : List Call) → CanOpen o → AreCalls calls → Accounted o calls }
{}

/// Each time that a file was handed out it was reported as deleted, or waits for deletion, or was
/// fetched for it. So each time that it was registered, one of these holds, or it is present still:
/// none leaks, a number that comes back neither.
pub fn outgoing()
    ensures handed { (o : Opening) (calls : List Call) → CanOpen o → AreCalls calls → Outgoing o calls }
    ensures registered { (o : Opening) (calls : List Call) → CanOpen o → AreCalls calls → NoneLeaks o calls }
{}

/// A live record's acknowledgements are exactly the accepted ones of its number; a done record has
/// one of each subtask.
pub fn acknowledgements()
    ensures { (o : Opening) (calls : List Call) → CanOpen o → AreCalls calls → Acknowledgements o calls }
{}

/// Numbers are given from the first on, each the one after the one before.
pub fn numbers()
    ensures { (o : Opening) (calls : List Call) → Numbers o calls }
{}

/// A done savepoint stays, unchanged, until an accepted Dispose of its number.
pub fn savepoints()
    ensures { (o : Opening) (before calls : List Call) → CanOpen o → AreCalls before → AreCalls calls → Savepoints o before calls }
{}

/// The record that the choice names is live and done, and its files are present.
pub fn choice()
    ensures { (o : Opening) (calls : List Call) → CanOpen o → AreCalls calls → ChoiceIsLive o calls }
{}

/// A restart takes the live done checkpoint with the greatest number. If there is none, it takes the
/// savepoint that the job was rolled back to, and otherwise nothing.
pub fn latest()
    ensures { (m : State) → IsSound m → TakesNewest m }
{}

/// An accepted restore answers what a restart takes then: to the latest checkpoint what it took
/// before, and to a savepoint that one.
pub fn restores()
    ensures { (m : State) (now : ℕ) (shape : Option (List ℕ)) → Restores m now shape }
{}

/// The record of an acknowledgement that is answered AckCompleted is live and done after it. If that
/// is a checkpoint, a restart takes it.
pub fn completed()
    ensures { (m : State) (now id : ℕ) (p : Part) → IsSound m → LeavesDone m now id p }
{}

/// A done checkpoint stays, unchanged, but for a restore to a savepoint, a cancel that does not keep
/// it, and a completion or a change of settings that leaves as many newer ones as are retained.
pub fn kept()
    ensures step { (m : State) (call : Call) → IsSound m → Keeps m call }
    ensures calls { (m : State) (calls : List Call) → IsSound m → AreCalls calls → KeepsThrough m calls }
{}

/// An acknowledgement for a pending record that reuses only files of the choice at that record's
/// trigger is never refused FileGone.
pub fn pinned()
    ensures { PinsStay }
{}

/// What always holds for a coordinator holds after every list of calls.
pub fn sound()
    ensures { (o : Opening) (calls : List Call) → CanOpen o → AreCalls calls → IsSound (replay (opened o) calls) }
{}

/// No live record uses a file that was handed out, neither then nor later, if no deleted file is
/// reported as new again.
pub fn used_no_more()
    ensures { (o : Opening) (before calls : List Call) → CanOpen o → AreCalls (before ++ calls) → UsedNoMore o before calls }
{}

/// Each file is in at most one of present, waiting and taken, and there once.
pub fn outbox()
    ensures { (o : Opening) (calls : List Call) → CanOpen o → AreCalls calls → Outbox o calls }
{}

/// A state that an image may have, with the fetched files in ascending order, is one too, and
/// differs in that order alone.
pub fn settling()
    ensures held { (m : State) → CanHold m → CanHold (settled m) }
    ensures alike { (m : State) → AreAlike m (settled m) }
{}

/// The shape, the start and the first number that a coordinator was opened with stay, and its
/// configuration is that of the last accepted Configure, if there is one.
///
/// An accepted Configure leaves what a restart takes, each pending record and each savepoint, and
/// makes no checkpoint due later.
pub fn settings()
    ensures opening { (o : Opening) (calls : List Call) → OpeningIs o calls }
    ensures configures { (m : State) (now : ℕ) (config : Configuration) → IsSound m → IsWithinLimits config → ConfiguresNow m now config }
{}

/// A Trigger leaves the state and gives the answer of a tick that triggers, if nothing expires in
/// that tick.
pub fn trigger()
    ensures { (m : State) (now : ℕ) → IsAsTick m now }
{}

/// Two states that differ in the order of the fetched files alone answer every list of calls the
/// same, and stay so.
pub fn resumes()
    ensures { (m n : State) (calls : List Call) → AreAlike m n → GoesOnAs m n calls }
{}

/// A log may be cut at each place. A coordinator that is made from the image there answers the
/// calls after it as the first one does, and is alike after them.
pub fn cutting()
    ensures { (m : State) (before after : List Call) → IsCut m before after }
{}
