//! Acknowledgements of records that are pending.
ghost use Rattle.std.specs.Prelude.{◌≡◌, ◌<◌, ◌≤◌, ◌+◌, ◌++◌, ◌==◌, find, length, IfOk, OnOk, OnErr, IsSome, true, IfErr, ◌^◌};
ghost use Rattle.ckpt_ids.specs.declared.call.Call.TheVariants as call;
ghost use Rattle.ckpt_memory.specs.Refusals.{one_more};
ghost use Rattle.ckpt_model.specs.declared.faults.CoreFault.TheVariants.{Memory};
ghost use Rattle.ckpt_model.specs.Coordinator.{may_want_memory};
ghost use Rattle.ckpt_core.specs.Inside.Completing.{IsMissing};
ghost use Rattle.ckpt_core.specs.Inside.FileFacts.{ascending};
ghost use Rattle.ckpt_core.specs.Inside.Moving.{taken_in, with_room};
ghost use Rattle.ckpt_core.specs.Inside.Parts.{Answers, AreSound, IsAccepted, Stays, is_known_in, state_of};
ghost use Rattle.ckpt_core.specs.Inside.RecordFacts.{IsIn, IsInOrder, IsPending, IsStored, Record, id_before};
ghost use Rattle.ckpt_ids.specs.Places.{LiesAt};
ghost use Rattle.ckpt_store.specs.Storing.{id_of};

use crate::parts::Parts;
use ckpt_ids::{CheckpointId, FileId, Files, MOST_FILES, Reply, SubtaskId};
use ckpt_memory::{Meter, list};
use ckpt_model::CoreFault;
use std::alloc::{AllocError, Global};

/// The files of an acknowledgement, fresh and reused together.
///
/// Condition: they are at most [`MOST_FILES`].
fn joined(
    meter: &mut Meter,
    alloc: Global,
    fresh: &Files,
    reused: &Files,
) -> Result<Files, AllocError>
    requires { length fresh.now + length reused.now ≤ MOST_FILES }
    ensures files { IfOk result (λ files. files ≡ ascending (fresh.now ++ reused.now)) }
    ensures none { OnOk result (meter.new ≡ meter.old) }
    ensures refused { OnErr result (meter.new ≡ one_more meter.old) }
{
    // The contract of a slice says that the files are in ascending order, so a copy is too.
    let written = fresh.as_slice();
    if reused.is_empty() {
        return fresh.copy_metered(meter);
    }
    let mut files = list::with_capacity(meter, alloc, fresh.len() + reused.len())?;
    // Files that were there before mostly have the smaller numbers, so this order leaves the least to sort.
    list::extend_from_slice(meter, &mut files, reused.as_slice())?;
    list::extend_from_slice(meter, &mut files, written)?;
    Ok(Files::of(files))
}

impl Parts {
    /// Whether a file is in use, waits for deletion or was fetched for it.
    #[inline(always)]
    pub(crate) fn knows(&self, file: FileId) -> bool
        ensures { result ≡ is_known_in self.now file }
    {
        self.registry.contains(file) || self.outbox.knows(file)
    }

    /// A subtask has taken its part in a pending record.
    ///
    /// Conditions: the parts are sound, the call is accepted, and the record is at this place.
    #[inline(never)]
    pub(crate) fn ack(
        &mut self,
        meter: &mut Meter,
        now: u64,
        id: CheckpointId,
        place: usize,
        subtask: SubtaskId,
        fresh: &Files,
        reused: &Files,
    ) -> Result<Reply, CoreFault>
        requires sound { AreSound self.old }
        requires accepted { IsAccepted self.old (call.Ack now id subtask fresh.now reused.now) }
        requires place { LiesAt id_of id self.old.pending place }
        ensures ok { IfOk result (Answers self.old self.new (call.Ack now id subtask fresh.now reused.now)) }
        ensures err { OnErr result (Stays self.old self.new) }
        ensures fault { IfErr result (λ fault. fault ≡ Memory) }
        ensures memory { OnErr result (may_want_memory (state_of self.old) (call.Ack now id subtask fresh.now reused.now) ≡ true) }
        ensures none { OnOk result (meter.new ≡ meter.old) }
        ensures refused { OnErr result (meter.new ≡ one_more meter.old) }
    {
        self.recall_store();
        self.pending.recall();
        let missing = self.pending.at(place).missing();
        // each answer is the last expression, so it needs no place beside the result
        if missing > 1 {
            self.ack_waiting(meter, now, id, place, subtask, fresh, reused, missing)
        } else {
            self.ack_last(meter, now, id, place, subtask, fresh, reused)
        }
    }

    /// The pending record still waits for other subtasks.
    ///
    /// Conditions: the parts are sound, the call is accepted, and the record is at this place and lacks
    /// `missing` acknowledgements, more than one.
    fn ack_waiting(
        &mut self,
        meter: &mut Meter,
        now: u64,
        id: CheckpointId,
        place: usize,
        subtask: SubtaskId,
        fresh: &Files,
        reused: &Files,
        missing: u32,
    ) -> Result<Reply, CoreFault>
        requires sound { AreSound self.old }
        requires accepted { IsAccepted self.old (call.Ack now id subtask fresh.now reused.now) }
        requires place { LiesAt id_of id self.old.pending place }
        requires waiting { IsMissing self.old.pending id missing }
        requires others { 1 < missing }
        ensures ok { IfOk result (Answers self.old self.new (call.Ack now id subtask fresh.now reused.now)) }
        ensures err { OnErr result (Stays self.old self.new) }
        ensures fault { IfErr result (λ fault. fault ≡ Memory) }
        ensures none { OnOk result (meter.new ≡ meter.old) }
        ensures refused { OnErr result (meter.new ≡ one_more meter.old) }
    {
        self.make_room_for_files(meter, fresh.len())?;
        self.take_ack(meter, now, id, place, subtask, fresh, reused)?;
        Ok(Reply::AckPending(missing - 1))
    }

    /// Makes room in the outbox for the files that are in use and this many more.
    ///
    /// Condition: `more` is below 2^63.
    pub(crate) fn make_room_for_files(
        &mut self,
        meter: &mut Meter,
        more: usize,
    ) -> Result<(), AllocError>
        requires { more < 2 ^ 63 }
        ensures ok { OnOk result (self.new ≡ with_room self.old more) }
        ensures err { OnErr result (self.new ≡ self.old) }
        ensures none { OnOk result (meter.new ≡ meter.old) }
        ensures refused { OnErr result (meter.new ≡ one_more meter.old) }
    {
        let files = self.registry.present() + more as u64;
        self.outbox.reserve_metered(meter, files)
    }

    /// Adds an acknowledgement to its pending record, and its files to the registry. Fails only if
    /// memory runs out, and then changes nothing.
    ///
    /// Conditions: the parts are sound, the call is accepted, and the record is at this place.
    pub(crate) fn take_ack(
        &mut self,
        meter: &mut Meter,
        now: u64,
        id: CheckpointId,
        place: usize,
        subtask: SubtaskId,
        fresh: &Files,
        reused: &Files,
    ) -> Result<(), AllocError>
        requires sound { AreSound self.old }
        requires accepted { IsAccepted self.old (call.Ack now id subtask fresh.now reused.now) }
        requires place { LiesAt id_of id self.old.pending place }
        requires there { IsSome (find (λ r. r.id == id) self.old.pending) }
        ensures ok { OnOk result (self.new ≡ taken_in self.old now id subtask fresh.now reused.now) }
        ensures err { OnErr result (self.new ≡ self.old) }
        ensures pending { (r : Record) → IsIn r self.old.pending → IsPending r }
        ensures in_order { IsInOrder id_before self.old.pending }
        ensures stored { IsStored self.old.store }
        ensures none { OnOk result (meter.new ≡ meter.old) }
        ensures refused { OnErr result (meter.new ≡ one_more meter.old) }
    {
        self.recall_store();
        self.pending.recall();
        let files = joined(meter, self.alloc, fresh, reused)?;
        self.pending.ack(meter, place, subtask, files)?;
        if let Err(error) = self
            .registry
            .use_files_metered(meter, id, subtask, fresh, reused)
        {
            self.pending.retract(place, subtask);
            return Err(error);
        }
        self.clock.see(now);
        Ok(())
    }
}
