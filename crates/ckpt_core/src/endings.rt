//! Calls that end records: declines, disposals, restores and the cancellation of the job.
ghost use Rattle.std.specs.Prelude.{◌≡◌, ◌≢◌, ◌↔◌, ℕ, ◌||◌, true, [], length, Some, None, Err, IfOk, OnErr, IfErr, OnOk};
ghost use Rattle.ckpt_ids.specs.declared.call.Target.TheVariants.{Savepoint};
ghost use Rattle.ckpt_ids.specs.declared.call.Call.TheVariants as call;
ghost use Rattle.ckpt_ids.specs.declared.reply.Refusal.{Refusal};
ghost use Rattle.ckpt_memory.specs.Refusals.{one_more};
ghost use Rattle.ckpt_model.specs.declared.faults.CoreFault.TheVariants.{Memory};
ghost use Rattle.ckpt_core.specs.Inside.Parts.{Answers, AreSound, AreTied, Drops, IsAccepted, IsPlaceOf, Stays, records_in, state_of};
ghost use Rattle.ckpt_core.specs.Inside.RecordFacts.{IsInOrder, id_before, is_done_checkpoint, is_pending};
ghost use Rattle.ckpt_model.specs.Refusals.{is_done_savepoint, refusal};
ghost use Rattle.ckpt_model.specs.State.{choice_of, drop, released_by};
ghost use Rattle.ckpt_model.specs.Steps.{cancelled, dropped_by, failed_over, rolled_back, with_base};

use crate::parts::Parts;
use ckpt_ids::{CheckpointId, Choice, Kind, Refusal, Reply, Shape, SubtaskId, Target};
use ckpt_memory::Meter;
use ckpt_model::{CoreFault, Mode};
use ckpt_store::DisposeFault;

impl Parts {
    /// The job fails over: all pending records are dropped, and nothing is triggered until the job
    /// is restored. Returns how many files were released.
    ///
    /// Condition: the parts are sound.
    #[inline(never)]
    pub(crate) fn fail_over(&mut self) -> u64
        requires { AreSound self.old }
        ensures state { state_of self.new ≡ failed_over (state_of self.old) }
        ensures count { result ≡ length (released_by (state_of self.old) is_pending None) }
        ensures tied { AreTied self.new }
        ensures cleared { self.new.ended.items ≡ [] }
    {
        let released = self.drop_all_pending();
        self.mode = Mode::Failed;
        released
    }

    /// A subtask could not take its part.
    ///
    /// Conditions: the parts are sound, the call is accepted, and the pending record is at this place.
    /// If there is no place, no pending record has the number.
    #[inline(never)]
    pub(crate) fn decline(
        &mut self,
        now: u64,
        id: CheckpointId,
        place: Option<usize>,
        subtask: SubtaskId,
    ) -> Reply
        requires sound { AreSound self.old }
        requires accepted { IsAccepted self.old (call.Decline now id subtask) }
        requires place { IsPlaceOf self.old id place }
        ensures { Answers self.old self.new (call.Decline now id subtask) result }
    {
        let Some(place) = place else {
            self.clock.see(now);
            return Reply::DeclineLate;
        };
        self.recall_groups();
        self.pending.recall();
        let mut failures = self.failures;
        // a declined savepoint is no failure
        let is_checkpoint = self.pending.at(place).kind() == Kind::Checkpoint;
        let failed = is_checkpoint && failures.add(1);
        let reply = if failed {
            Reply::DeclineFailed(self.fail_over())
        } else {
            Reply::DeclineAborted(self.drop_pending(id, place))
        };
        self.failures = failures;
        self.clock.see(now);
        reply
    }

    /// A user disposes of a savepoint. Refuses exactly if it is not there or is the base.
    ///
    /// Condition: the parts are sound.
    #[inline(never)]
    pub(crate) fn dispose(&mut self, id: CheckpointId) -> Result<Reply, CoreFault>
        requires { AreSound self.old }
        ensures ok { IfOk result (Answers self.old self.new (call.Dispose id)) }
        ensures err { OnErr result (Stays self.old self.new) }
        ensures refused { (why : Refusal) → (result ≡ Err (CoreFault.Refused why)) ↔ (refusal (state_of self.old) (call.Dispose id) ≡ Some why) }
        ensures memory { result ≢ Err CoreFault.Memory }
    {
        self.recall_groups();
        match self.store.dispose(id) {
            Ok(()) => {
                self.ended.push_reserved(id);
                Ok(Reply::Disposed(self.hand_out()))
            }
            Err(DisposeFault::NoSuchSavepoint) => Err(CoreFault::Refused(Refusal::NoSuchSavepoint)),
            Err(DisposeFault::InUse) => Err(CoreFault::Refused(Refusal::InUse)),
        }
    }

    /// The job begins again in its present shape. Takes no memory.
    ///
    /// Conditions: the parts are sound, and the call is accepted.
    #[inline(never)]
    pub(crate) fn restore(&mut self, now: u64, target: Target) -> Reply
        requires sound { AreSound self.old }
        requires accepted { IsAccepted self.old (call.Restore now target None) }
        ensures { Answers self.old self.new (call.Restore now target None) result }
    {
        let released = self.roll_back(target);
        let moment = self.clock.read(now);
        self.clock.see(now);
        self.clock.restarted(&self.opened.config, moment);
        self.failures.reset();
        self.mode = Mode::Running;
        Reply::Restored {
            from: self.choice(),
            released,
        }
    }

    /// Drops the records after the target. If the target is a savepoint, it becomes the base.
    /// Returns how many files were released.
    ///
    /// Conditions: the parts are sound, and if the target is a savepoint, it is there.
    fn roll_back(&mut self, target: Target) -> u64
        requires sound { AreSound self.old }
        requires there { (id : ℕ) → target ≡ Savepoint id → is_done_savepoint (state_of self.old) id ≡ true }
        ensures state { state_of self.new ≡ with_base (drop (state_of self.old) (rolled_back target) None) target }
        ensures count { result ≡ length (released_by (state_of self.old) (rolled_back target) None) }
        ensures tied { AreTied self.new }
        ensures cleared { self.new.ended.items ≡ [] }
    {
        match target {
            Target::Latest => self.drop_all_pending(),
            Target::Savepoint(id) => self.drop_down_to(id),
        }
    }

    /// Drops all but the completed savepoints, of which one becomes the base.
    ///
    /// Conditions: the parts are sound, and that one is there.
    fn drop_down_to(&mut self, id: CheckpointId) -> u64
        requires sound { AreSound self.old }
        requires there { is_done_savepoint (state_of self.old) id ≡ true }
        ensures state { state_of self.new ≡ record (drop (state_of self.old) (λ r. is_pending r || is_done_checkpoint r) None) { base = Some id } }
        ensures count { result ≡ length (released_by (state_of self.old) (λ r. is_pending r || is_done_checkpoint r) None) }
        ensures tied { AreTied self.new }
        ensures cleared { self.new.ended.items ≡ [] }
    {
        self.recall_groups();
        self.store.set_base(id);
        self.drop_all_but_savepoints()
    }

    /// What the job would restart from.
    ///
    /// Condition: the records are in rising number.
    pub(crate) fn choice(&self) -> Choice
        requires { IsInOrder id_before (records_in self.now) }
        ensures { result ≡ choice_of (state_of self.now) }
    {
        self.recall_groups();
        self.store.choice()
    }

    /// The job begins again, in this shape.
    ///
    /// Conditions: the parts are sound, and the call is accepted.
    #[inline(never)]
    pub(crate) fn restore_in(
        &mut self,
        meter: &mut Meter,
        now: u64,
        target: Target,
        shape: &Shape,
    ) -> Result<Reply, CoreFault>
        requires sound { AreSound self.old }
        requires accepted { IsAccepted self.old (call.Restore now target (Some shape.now)) }
        ensures ok { IfOk result (Answers self.old self.new (call.Restore now target (Some shape.now))) }
        ensures err { OnErr result (Stays self.old self.new) }
        ensures fault { IfErr result (λ fault. fault ≡ Memory) }
        ensures none { OnOk result (meter.new ≡ meter.old) }
        ensures refused { OnErr result (meter.new ≡ one_more meter.old) }
    {
        let shape = shape.copy_metered(meter)?;
        let reply = self.restore(now, target);
        self.reshaped = Some(shape);
        Ok(reply)
    }

    /// The job ends for good.
    ///
    /// Conditions: the parts are sound, and the call is accepted.
    #[inline(never)]
    pub(crate) fn cancel(&mut self, now: u64) -> Reply
        requires sound { AreSound self.old }
        requires accepted { IsAccepted self.old (call.Cancel now) }
        ensures { Answers self.old self.new (call.Cancel now) result }
    {
        let (dropped, released) = self.drop_cancelled();
        self.clock.see(now);
        self.store.clear_base();
        self.mode = Mode::Cancelled;
        Reply::Cancelled { dropped, released }
    }

    /// Drops the records that a cancelled job does not keep. Returns how many they were, and how
    /// many files were released.
    ///
    /// Condition: the parts are sound.
    fn drop_cancelled(&mut self) -> (u32, u64)
        requires { AreSound self.old }
        ensures drops { Drops self.old self.new (cancelled (state_of self.old)) result.1 }
        ensures dropped { result.0 ≡ dropped_by (state_of self.old) (cancelled (state_of self.old)) }
    {
        self.recall_groups();
        let pending = self.pending.len() as u32;
        let done = self.store.checkpoints();
        if self.opened.config.keep_on_cancel() {
            (pending, self.drop_all_pending())
        } else {
            (pending + done, self.drop_all_but_savepoints())
        }
    }
}
