//! The last acknowledgement of a record, which completes it.
ghost use Rattle.std.specs.Prelude.{◌≡◌, ◌<◌, ◌≤◌, ◌+◌, ◌^◌, ◌++◌, ℕ, length, slice_get, [], IfOk, OnErr, Some, true, false, vec_capacity, vec_len, IfErr, OnOk};
ghost use Rattle.ckpt_ids.specs.declared.call.Call.TheVariants as call;
ghost use Rattle.ckpt_ids.specs.declared.numbers.Kind.TheVariants as kind;
ghost use Rattle.ckpt_ids.specs.declared.reply.Reply.TheVariants as reply;
ghost use Rattle.ckpt_memory.specs.Refusals.{one_more};
ghost use Rattle.ckpt_model.specs.declared.faults.CoreFault.TheVariants.{Memory};
ghost use Rattle.ckpt_core.specs.Inside.Completing.{IsMissing, superseded_ids, surplus};
ghost use Rattle.ckpt_core.specs.Inside.Moving.{checkpoint_completed, completion, savepoint_completed, with_checkpoint, without_pending};
ghost use Rattle.ckpt_core.specs.Inside.Parts.{Answers, AreInUseAlone, AreSound, IsAccepted, Stays};
ghost use Rattle.ckpt_model.specs.Reads.{present_in};
ghost use Rattle.ckpt_core.specs.Inside.RecordFacts.{IsAbove, Record, has_savepoint};
ghost use Rattle.ckpt_ids.specs.Places.{LiesAt};
ghost use Rattle.ckpt_ids.specs.Records.{missing};
ghost use Rattle.ckpt_store.specs.Storing.{id_of};

use crate::parts::Parts;
use ckpt_ids::{CheckpointId, Files, Kind, Reply, SubtaskId};
use ckpt_memory::Meter;
use ckpt_model::CoreFault;
use ckpt_pending::Done;

impl Parts {
    /// The pending record has waited for this subtask only, and completes.
    ///
    /// Conditions: the parts are sound, the call is accepted, and the record is at this place and lacks
    /// one acknowledgement.
    pub(crate) fn ack_last(
        &mut self,
        meter: &mut Meter,
        now: u64,
        id: CheckpointId,
        place: usize,
        subtask: SubtaskId,
        fresh: &Files,
        reused: &Files,
    ) -> Result<Reply, CoreFault>
        requires sound { AreSound self.old }
        requires accepted { IsAccepted self.old (call.Ack now id subtask fresh.now reused.now) }
        requires place { LiesAt id_of id self.old.pending place }
        requires last { IsMissing self.old.pending id 1 }
        ensures ok { IfOk result (Answers self.old self.new (call.Ack now id subtask fresh.now reused.now)) }
        ensures err { OnErr result (Stays self.old self.new) }
        ensures fault { IfErr result (λ fault. fault ≡ Memory) }
        ensures none { OnOk result (meter.new ≡ meter.old) }
        ensures refused { OnErr result (meter.new ≡ one_more meter.old) }
    {
        self.make_room_for_files(meter, fresh.len())?;
        self.store.reserve_metered(meter)?;
        self.take_ack(meter, now, id, place, subtask, fresh, reused)?;
        let done = self.finish(place);
        match done.kind() {
            Kind::Checkpoint => {
                let (dropped, released) = self.complete_checkpoint(done);
                Ok(Reply::AckCompleted { dropped, released })
            }
            Kind::Savepoint => {
                let dropped = 0;
                let released = self.complete_savepoint(done);
                Ok(Reply::AckCompleted { dropped, released })
            }
        }
    }

    /// Takes out the pending record at this place, and finishes it. Takes no memory.
    ///
    /// Condition: there is a record at this place, and it lacks no acknowledgement.
    fn finish(&mut self, place: usize) -> Done
        requires there { place < length self.old.pending }
        requires full { (r : Record) → slice_get self.old.pending place ≡ Some r → missing r ≡ 0 }
        ensures value { (r : Record) → slice_get self.old.pending place ≡ Some r → result ≡ record r { done = true } }
        ensures rest { (id : ℕ) → LiesAt id_of id self.old.pending place → self.new ≡ without_pending id self.old }
    {
        self.pending.take_out(place).finish().ok().unwrap()
    }

    /// Keeps a completed savepoint, and hands out what its end as a pending record releases. Takes
    /// no memory. Returns how many files were released.
    ///
    /// Conditions: the store has room for it, it is a savepoint, no other has its number, no number is
    /// noted yet, and the outbox has room for the files in use and knows none of them.
    fn complete_savepoint(&mut self, done: Done) -> u64
        requires room { 1 ≤ self.old.store.spare }
        requires savepoint { done.kind ≡ kind.Savepoint }
        requires new { has_savepoint self.old.store done.id ≡ false }
        requires few { length self.old.store.savepoints + 1 < 2 ^ 32 }
        requires unknown { AreInUseAlone self.old }
        requires spare { present_in self.old.registry ≤ self.old.outbox.spare }
        requires none_ended { self.old.ended.items ≡ [] }
        ensures parts { self.new ≡ savepoint_completed self.old done self.new }
        ensures none_ended { self.new.ended.items ≡ [] }
        ensures capacity { vec_capacity self.new.ended ≡ vec_capacity self.old.ended }
        ensures reply { reply.AckCompleted 0 result ≡ completion self.old done [] }
    {
        let id = done.id();
        self.store.add_savepoint(done);
        self.hand_out_after(id)
    }

    /// Keeps a completed checkpoint, drops what it supersedes, and hands out what this and its end
    /// as a pending record release. Takes no memory. Returns how many records were dropped, and how
    /// many files were released.
    ///
    /// Conditions: the store has room for it, it is a checkpoint after those that are there, no number
    /// is noted yet, there is room for the numbers of all records, and the outbox has room for the
    /// files in use and knows none of them.
    fn complete_checkpoint(&mut self, done: Done) -> (u32, u64)
        requires room { 1 ≤ self.old.store.spare }
        requires checkpoint { done.kind ≡ kind.Checkpoint }
        requires above { IsAbove self.old.store.checkpoints done.id }
        requires unknown { AreInUseAlone self.old }
        requires spare { present_in self.old.registry ≤ self.old.outbox.spare }
        requires none_ended { self.old.ended.items ≡ [] }
        requires places { length self.old.pending + 1 ≤ vec_capacity self.old.ended }
        requires few { length self.old.pending + 1 < 2 ^ 32 }
        ensures parts { self.new ≡ checkpoint_completed self.old done (superseded_ids self.old.pending self.old.store done) self.new }
        ensures none_ended { self.new.ended.items ≡ [] }
        ensures capacity { vec_capacity self.new.ended ≡ vec_capacity self.old.ended }
        ensures reply { reply.AckCompleted result.0 result.1 ≡ completion self.old done (superseded_ids self.old.pending self.old.store done) }
    {
        let id = done.id();
        self.pending.note_subsumed(id, &mut self.ended);
        self.keep(done);
        self.pending.remove_all(&self.ended);
        let dropped = self.ended.len() as u32;
        let released = self.hand_out_after(id);
        self.failures.reset();
        let moment = self.clock.read(0);
        self.clock.completed(moment);
        (dropped, released)
    }

    /// Keeps a completed checkpoint, and notes the one that is past the number retained.
    ///
    /// Conditions: the store has room for it, it is a checkpoint after those that are there, and one
    /// more number can be noted.
    fn keep(&mut self, done: Done)
        requires room { 1 ≤ self.old.store.spare }
        requires checkpoint { done.kind ≡ kind.Checkpoint }
        requires above { IsAbove self.old.store.checkpoints done.id }
        requires places { vec_len self.old.ended + 1 ≤ vec_capacity self.old.ended }
        ensures parts { self.new ≡ with_checkpoint self.old done self.new }
        ensures noted { self.new.ended.items ≡ self.old.ended.items ++ surplus self.old.store done }
        ensures capacity { vec_capacity self.new.ended ≡ vec_capacity self.old.ended }
    {
        if let Some(id) = self.store.complete(done) {
            self.ended.push_reserved(id);
        }
    }
}
